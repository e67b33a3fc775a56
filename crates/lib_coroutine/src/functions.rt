// The functions of `coroutine` but that which yields (lcorolib.c; Lua 5.4 manual, 6.2).
ghost use Rattle.std.specs.Prelude.{◌≡◌, [], IfOk, OnErr};
ghost use Rattle.machine_core.specs.MachineStep.{close_row, create_row, resume_row, running_row, status_row, yieldable_row};
ghost use Rattle.move_laws.specs.Memory.{HasStack, InOrder, IsSound, Leads, ReadsSame};
ghost use Rattle.machine_moves.specs.Ending.{ending_of};

use crate::closing::close_coroutine;
use crate::refusing::{can_be_called, coroutine_of, refuse};
use crate::resuming::resume_coroutine;
use crate::standing::answer_status;
use int_core::Allocated;
use lua_heap::World;
use machine_coroutines::{first_of, see_running};
use machine_moves::{Ending, give_values, hand_over};
use table_core::Value;

/// The row of `coroutine.create`: a new coroutine, with the first argument as its body, which must be a function. A refusal changes nothing.
pub fn create(world: &mut World) -> Allocated<Ending>
    requires sound { IsSound world.old }
    requires running { HasStack world.old }
    ensures leads { IfOk result (λ ending. Leads create_row [] world.old world.new (ending_of ending)) }
    ensures order { InOrder world.new }
    ensures err { OnErr result (world.new ≡ world.old) }
{
    let body = first_of(&world.moving);
    if !can_be_called(body) {
        return refuse(world, b"create", b"function", body);
    }
    let mut answer = Vec::with_capacity(world.alloc, 1)?;
    let made = machine_coroutines::create(world, body)?;
    answer.push_reserved(Value::Coro(made));
    give_values(world, answer);
    Ok(hand_over(world))
}

/// The row of `coroutine.resume`: the first argument runs, and gets the others; where it cannot be resumed, the answer is false and the reason
/// (Lua 5.4 manual, 6.2). Where memory is wanting, the machine's world is as before.
pub fn resume(world: &mut World) -> Allocated<Ending>
    requires sound { IsSound world.old }
    requires running { HasStack world.old }
    ensures leads { IfOk result (λ ending. Leads resume_row [] world.old world.new (ending_of ending)) }
    ensures order { InOrder world.new }
    ensures err { OnErr result (ReadsSame world.old world.new) }
{
    let first = first_of(&world.moving);
    match coroutine_of(first) {
        Some(co) => resume_coroutine(world, co),
        None => refuse(world, b"resume", b"coroutine", first),
    }
}

/// The row of `coroutine.status`: a word says how a coroutine stands. A refusal changes nothing.
pub fn status(world: &mut World) -> Allocated<Ending>
    requires sound { IsSound world.old }
    requires running { HasStack world.old }
    ensures leads { IfOk result (λ ending. Leads status_row [] world.old world.new (ending_of ending)) }
    ensures order { InOrder world.new }
    ensures err { OnErr result (world.new ≡ world.old) }
{
    let first = first_of(&world.moving);
    match coroutine_of(first) {
        Some(co) => answer_status(world, co),
        None => refuse(world, b"status", b"coroutine", first),
    }
}

/// The row of `coroutine.running`: the coroutine that runs, and that it is not the main one, since a script's main coroutine may yield too.
/// A refusal changes nothing.
pub fn running(world: &mut World) -> Allocated<Ending>
    requires order { InOrder world.old }
    requires running { HasStack world.old }
    ensures leads { IfOk result (λ ending. Leads running_row [] world.old world.new (ending_of ending)) }
    ensures order { InOrder world.new }
    ensures err { OnErr result (world.new ≡ world.old) }
{
    let mut answer = Vec::with_capacity(world.alloc, 2)?;
    answer.push_reserved(Value::Coro(see_running(world)));
    answer.push_reserved(Value::Bool(false));
    give_values(world, answer);
    Ok(hand_over(world))
}

/// The row of `coroutine.isyieldable`: every coroutine may yield. A refusal changes nothing.
pub fn is_yieldable(world: &mut World) -> Allocated<Ending>
    requires order { InOrder world.old }
    requires running { HasStack world.old }
    ensures leads { IfOk result (λ ending. Leads yieldable_row [] world.old world.new (ending_of ending)) }
    ensures order { InOrder world.new }
    ensures err { OnErr result (world.new ≡ world.old) }
{
    let mut answer = Vec::with_capacity(world.alloc, 1)?;
    answer.push_reserved(Value::Bool(true));
    give_values(world, answer);
    Ok(hand_over(world))
}

/// The row of `coroutine.close`: a coroutine that waits is dead, and its variables are closed, the last one first. A refusal changes nothing.
pub fn close(world: &mut World) -> Allocated<Ending>
    requires sound { IsSound world.old }
    requires running { HasStack world.old }
    ensures leads { IfOk result (λ ending. Leads close_row [] world.old world.new (ending_of ending)) }
    ensures order { InOrder world.new }
    ensures err { OnErr result (world.new ≡ world.old) }
{
    let first = first_of(&world.moving);
    match coroutine_of(first) {
        Some(co) => close_coroutine(world, co),
        None => refuse(world, b"close", b"coroutine", first),
    }
}
