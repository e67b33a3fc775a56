// Results that move to a Lua frame which waits for a call and takes at most two values: it goes on with them (luaD_poscall of ldo.c).
ghost use Rattle.std.specs.Prelude.{◌≡◌, ℕ, [], IfNone, IfSome, length, true};
ghost use Rattle.lua_heap.specs.Plain.{plain};
ghost use Rattle.lua_stack.specs.Frames.{HasLuaTop};
ghost use Rattle.library_rows.specs.Library.{all_entries};
ghost use Rattle.machine_core.specs.Moves.{Row, go};
ghost use Rattle.machine_focus.specs.Focus.{Reaches};
ghost use Rattle.move_laws.specs.Memory.{InOrder};
ghost use Rattle.step_laws.specs.Steps.{IsReady};
ghost use Rattle.frame_calls.specs.Calling.{HaveCode, program_of};
ghost use Rattle.running_frame.specs.Taking.{IsWaiting, TakesOnTop, TakesSo};

use crate::place::{is_none, is_running};
use frame_calls::{Functions, Given, first_two, hand, list_taker_of, taker_of};
use lua_heap::law::checked_code_is_there;
use lua_heap::{Coro, World};
use lua_stack::{LuaState, Stack};
use machine_moves::running;

/// Whether nothing moves, or what moves is taken by the Lua frame on top: a step of the machine then.
pub(crate) fn is_taken(world: &mut World) -> bool
    requires ready { IsReady (length all_entries) go world.old }
    ensures reaches { (rows : ℕ → Row) (fuel : ℕ) → Reaches rows (plain world.old fuel) (plain world.new fuel) }
    ensures still { result ≡ true → world.new.moving.items ≡ [] }
    ensures order { InOrder world.new }
{
    // Most often it runs, and then it takes nothing.
    let runs = is_running(world);
    if runs {
        return is_still(world);
    }
    match take_moving(world) {
        Some(()) => true,
        None => is_still(world),
    }
}

/// Whether nothing moves.
fn is_still(world: &World) -> bool
    ensures { result ≡ true → world.now.moving.items ≡ [] }
{
    if !world.moving.is_empty() {
        return false;
    }
    true
}

/// The Lua frame on top takes the first values that move, nil where there are fewer, or all that move as an open list, and runs on; nothing moves then. `None`, with
/// all as before, where it waits for nothing of that, or wants more than two values.
fn take_moving(world: &mut World) -> Option<()>
    requires ready { IsReady (length all_entries) go world.old }
    ensures reaches { IfSome result (λ _. (rows : ℕ → Row) (fuel : ℕ) → Reaches rows (plain world.old fuel) (plain world.new fuel)) }
    ensures still { IfSome result (λ _. world.new.moving.items ≡ []) }
    ensures kept { IfNone result (world.new ≡ world.old) }
    ensures order { InOrder world.new }
{
    checked_code_is_there();
    let given = first_two(&world.moving);
    let count = world.moving.len();
    take_on_top(world, given, count)?;
    world.moving.clear();
    Some(())
}

/// The frame on top of the stack that runs takes what it wants of so many values, of which these are the first two.
fn take_on_top(world: &mut World, given: Given, count: usize) -> Option<()>
    requires ready { IsReady (length all_entries) go world.old }
    ensures takes { IfSome result (λ _. TakesOnTop world.old world.new given count) }
    ensures kept { IfNone result (world.new ≡ world.old) }
    ensures order { InOrder world.new }
{
    checked_code_is_there();
    let co = running(world);
    match world.coros.get_mut(co.0) {
        Coro::Running(stack) => {
            let functions = Functions {
                funcs: &world.funcs,
                codes: &world.codes,
            };
            take_waiting(stack, functions, given, count)
        }
        _ => unreachable!(),
    }
}

/// The frame on top of a stack, where it waits, takes those that it wants, or all of them as an open list.
fn take_waiting(stack: &mut Stack, functions: Functions, given: Given, count: usize) -> Option<()>
    requires top { HasLuaTop stack.old }
    requires codes { HaveCode (program_of functions) }
    ensures takes { IfSome result (λ _. TakesSo stack.old stack.new (program_of functions.entry) given count) }
    ensures kept { IfNone result (stack.new ≡ stack.old) }
    ensures listed { stack.new.open_cells ≡ stack.old.open_cells }
{
    let caller = waiting_top(stack)?;
    if let Some(taker) = taker_of(functions, caller) {
        hand(stack, taker, given);
        return Some(());
    }
    let taker = list_taker_of(functions, caller, count)?;
    hand(stack, taker, given);
    stack.set_opened(count);
    Some(())
}

/// The frame on top, where it waits.
fn waiting_top(stack: &Stack) -> Option<LuaState>
    requires { HasLuaTop stack.now }
    ensures { IfSome result (λ c. IsWaiting stack.now c) }
{
    let wait = stack.wait();
    if is_none(wait) {
        return None;
    }
    let id = stack.function();
    let place = stack.pc();
    let size = stack.registers().len();
    Some(LuaState {
        function: id,
        wait,
        pc: place,
        size,
    })
}
