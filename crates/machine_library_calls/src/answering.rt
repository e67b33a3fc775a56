// What a function of the libraries gives, in the registers of the Lua frame that takes it (luaD_poscall and moveresults of ldo.c).
ghost use Rattle.std.specs.Prelude.{◌≡◌, ◌∷◌, [], IfOk, OnErr};
ghost use Rattle.machine_core.specs.Moves.{go, raised};
ghost use Rattle.machine_moves.specs.Ending.{ending_of};
ghost use Rattle.machine_returns.specs.Waking.{IsSolid};
ghost use Rattle.machine_step.specs.Places.{GoesOnSo, IsAwake};
ghost use Rattle.move_laws.specs.Memory.{InOrder};
ghost use Rattle.machine_library_calls.specs.Calls.{Begun, CallComes, IsAnswered, IsGiven, WaitsIf, WaitsSoAt, wait_by};

use crate::primitives::Taker;
use loaded_code::loading_is_safe;
use lua_heap::World;
use lua_stack::Wait;
use machine_moves::{Ending, put_in_front};
use machine_returns::{set_wait, take_results, wait_on_top};
use machine_step::go_on_with;
use pure_functions::Answer;
use running_frame::{Here, find_here};
use std::alloc::AllocError;
use table_core::Value;

/// The frame on top goes on with the results, or an error moves.
#[inline(always)]
pub(crate) fn take_answer(
    world: &mut World,
    to: Taker,
    answer: Answer,
) -> Result<Ending, AllocError>
    ghost begun: { Begun }
    requires answered { IsAnswered begun world.old answer }
    requires waits { WaitsIf world.old to }
    ensures comes { IfOk result (λ ending. CallComes begun world.new (ending_of ending)) }
    ensures order { InOrder world.new }
{
    loading_is_safe();
    match answer {
        Answer::One(value) => take_value(world, to, value),
        Answer::Two(first, second) => take_two(world, to, first, second),
        Answer::Gives(values) => take_values(world, to, values.as_slice()),
        Answer::Raises(value) => raise_value(world, value),
    }
}

/// The frame on top takes a single result.
#[inline(always)]
fn take_value(world: &mut World, to: Taker, value: Value) -> Result<Ending, AllocError>
    ghost begun: { Begun }
    requires given { IsGiven begun world.old (value ∷ []) }
    requires waits { WaitsIf world.old to }
    ensures comes { IfOk result (λ ending. CallComes begun world.new (ending_of ending)) }
    ensures order { InOrder world.new }
{
    take_values(world, to, &[value])
}

/// The frame on top takes two results.
fn take_two(world: &mut World, to: Taker, first: Value, second: Value) -> Result<Ending, AllocError>
    ghost begun: { Begun }
    requires given { IsGiven begun world.old (first ∷ second ∷ []) }
    requires waits { WaitsIf world.old to }
    ensures comes { IfOk result (λ ending. CallComes begun world.new (ending_of ending)) }
    ensures order { InOrder world.new }
{
    take_values(world, to, &[first, second])
}

/// The frame on top takes these results.
#[inline(always)]
fn take_values(world: &mut World, to: Taker, values: &[Value]) -> Result<Ending, AllocError>
    ghost begun: { Begun }
    requires given { IsGiven begun world.old values.now }
    requires waits { WaitsIf world.old to }
    ensures comes { IfOk result (λ ending. CallComes begun world.new (ending_of ending)) }
    ensures order { InOrder world.new }
{
    match to {
        Taker::Caller { here, iterates } => wake_with(world, here, wait_by(iterates), values),
        Taker::Below => take_below(world, values),
    }
}

/// For what a frame waits that calls.
#[inline(always)]
fn wait_by(iterates: bool) -> Wait
    ensures { result ≡ wait_by iterates }
{
    if iterates {
        Wait::ForIterator
    } else {
        Wait::ForCall
    }
}

/// The Lua frame on top, of which it is not known where it is, takes them where it waits; else they move.
fn take_below(world: &mut World, values: &[Value]) -> Result<Ending, AllocError>
    ghost begun: { Begun }
    requires { IsGiven begun world.old values.now }
    ensures comes { IfOk result (λ ending. CallComes begun world.new (ending_of ending)) }
    ensures order { InOrder world.new }
{
    loading_is_safe();
    let here = find_here(world);
    if here.runs {
        return move_results(world, values);
    }
    let wait = wait_on_top(world);
    wake_with(world, here, wait, values)
}

/// The frame on top, which waits for these results, goes on with them.
#[inline(always)]
fn wake_with(
    world: &mut World,
    here: Here,
    wait: Wait,
    values: &[Value],
) -> Result<Ending, AllocError>
    ghost begun: { Begun }
    requires given { IsGiven begun world.old values.now }
    requires waits { WaitsSoAt world.old here wait }
    ensures comes { IfOk result (λ ending. CallComes begun world.new (ending_of ending)) }
    ensures order { InOrder world.new }
{
    loading_is_safe();
    set_wait(world, Wait::Running);
    go_on(world, here, wait, values)
}

/// What is left of the instruction of the frame on top, which runs again, is done with these results. Most often it is a CALL, which takes them to its registers.
#[inline(always)]
fn go_on(world: &mut World, here: Here, wait: Wait, values: &[Value]) -> Result<Ending, AllocError>
    requires solid { IsSolid world.old }
    requires awake { IsAwake world.old here.pc here.word wait values.now }
    ensures goes { IfOk result (λ next. GoesOnSo world.old world.new here.word wait values.now (ending_of next)) }
    ensures order { InOrder world.new }
{
    let a = usize::from(here.word.a());
    let c = usize::from(here.word.c());
    match wait {
        Wait::ForCall => take_results(world, here.pc, a, c, values),
        Wait::ForIterator => take_results(world, here.pc, a + 4, c + 1, values),
        _ => go_on_with(world, here.pc, here.word, wait, values),
    }
}

/// Values move to the Lua frame on top. A refusal changes nothing.
fn move_results(world: &mut World, values: &[Value]) -> Result<Ending, AllocError>
    ensures moves { IfOk result (λ ending. (ending_of ending ≡ go) × (world.new.moving.items ≡ values.now)) }
    ensures rest { world.new ≡ record world.old { moving = world.new.moving } }
{
    let moved = values.to_vec(world.alloc)?;
    world.moving = moved;
    Ok(Ending::Go)
}

/// An error moves. A refusal changes nothing.
fn raise_value(world: &mut World, value: Value) -> Result<Ending, AllocError>
    ensures raises { IfOk result (λ ending. (ending_of ending ≡ raised) × (world.new.moving.items ≡ value ∷ [])) }
    ensures rest { world.new ≡ record world.old { moving = world.new.moving } }
    ensures err { OnErr result (world.new ≡ world.old) }
{
    let error = put_in_front(world.alloc, &[value], &[])?;
    world.moving = error;
    Ok(Ending::Raised)
}
