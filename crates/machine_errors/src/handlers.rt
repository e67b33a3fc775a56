// Message handlers, and the frames over which they are called (luaG_errormsg of ldebug.c; Lua 5.4 manual, 2.3 and 6.1).
ghost use Rattle.std.specs.Prelude.{◌≡◌, [], ◌∷◌, ◌++◌, List, length, IfOk, OnOk, OnErr};
ghost use Rattle.int_core.specs.Value.{Value as Meant};
ghost use Rattle.lua_heap.specs.Errors.{AddsTexts};
ghost use Rattle.lua_heap.specs.Reading.{value as meant};
ghost use Rattle.machine_core.specs.FrameRows.{gives_up, handed_to, raised_to, unwound};
ghost use Rattle.machine_core.specs.Moves.{handler_top, xpcall_top};
ghost use Rattle.move_laws.specs.Memory.{HasStack, InOrder, IsSound, Leads, ReadsSame};
ghost use Rattle.machine_moves.specs.Ending.{ending_of};
ghost use Rattle.machine_moves.specs.Tops.{HasOther};
ghost use Rattle.machine_errors.specs.Handlers.{IsFailure};

use crate::asking::ask_over;
use crate::protected::first_of;
use crate::raising::alone;
use int_core::Allocated;
use lua_heap::World;
use machine_moves::{Ending, Over, give_values, pop_frame, put_in_front, take_moving};
use table_core::Value;

/// The error that takes the place of one that a message handler cannot be called with, or fails with.
const HANDLER_FAILURE: &[u8] = b"error in error handling";

/// The message handler of an `xpcall` is to be called with the error that moves, before any frame is left. Where the stack has no room, the error is
/// `error in error handling`. After a refusal the
/// machine's world is as before.
pub fn call_handler(world: &mut World, handler: Value) -> Allocated<Ending>
    requires sound { IsSound world.old }
    requires running { HasStack world.old }
    ensures leads { IfOk result (λ ending. (env : List Meant) → Leads (raised_to xpcall_top (length env)) (env ++ meant world.old.strings handler ∷ []) world.old world.new (ending_of ending)) }
    ensures order { InOrder world.new }
    ensures err { OnErr result (ReadsSame world.old world.new) }
{
    let called = put_in_front(world.alloc, &[handler], &world.moving)?;
    if ask_over(world, Over::Handler, called)? {
        return Ok(Ending::Asks);
    }
    give_up(world)
}

/// The frame on top is left with `error in error handling`. A refusal changes nothing.
pub fn give_up(world: &mut World) -> Allocated<Ending>
    requires { IsSound world.old }
    ensures leads { IfOk result (λ ending. (env : List Meant) → Leads gives_up env world.old world.new (ending_of ending)) }
    ensures order { InOrder world.new }
    ensures err { OnErr result (world.new ≡ world.old) }
{
    let failure = handler_failure(world)?;
    give_values(world, failure);
    Ok(Ending::Unwinding)
}

/// An error reaches the frame over which a message handler was called: it becomes `error in error handling`. A refusal changes nothing.
pub fn fail_handler(world: &mut World) -> Allocated<Ending>
    requires sound { IsSound world.old }
    requires frame { HasOther world.old }
    ensures leads { IfOk result (λ ending. (env : List Meant) → Leads (unwound handler_top) env world.old world.new (ending_of ending)) }
    ensures order { InOrder world.new }
    ensures err { OnErr result (world.new ≡ world.old) }
{
    let failure = handler_failure(world)?;
    pop_frame(world);
    give_values(world, failure);
    Ok(Ending::Unwinding)
}

/// Results reach it: the first one is the error with which the frames below are left. A refusal changes nothing.
pub fn answer_handler(world: &mut World) -> Allocated<Ending>
    requires order { InOrder world.old }
    requires frame { HasOther world.old }
    ensures leads { IfOk result (λ ending. (env : List Meant) → Leads (handed_to handler_top) env world.old world.new (ending_of ending)) }
    ensures order { InOrder world.new }
    ensures err { OnErr result (world.new ≡ world.old) }
{
    let room = Vec::with_capacity(world.alloc, 1)?;
    let error = alone(room, first_of(&world.moving));
    take_moving(world);
    pop_frame(world);
    give_values(world, error);
    Ok(Ending::Unwinding)
}

/// The text of that error, alone among the values that are to move. A refusal changes nothing.
fn handler_failure(world: &mut World) -> Allocated<Vec<Value>>
    ensures failure { IfOk result (λ failure. IsFailure (meant world.new.strings) failure.items) }
    ensures added { OnOk result (AddsTexts world.old world.new) }
    ensures err { OnErr result (world.new ≡ world.old) }
{
    let room = Vec::with_capacity(world.alloc, 1)?;
    let text = world.limited(HANDLER_FAILURE)?;
    Ok(alone(room, text))
}
