// Who catches an error (luaG_errormsg of ldebug.c and luaD_throw of ldo.c).
ghost use Rattle.std.specs.Prelude.{◌≡◌, [], List, IfOk, OnErr};
ghost use Rattle.int_core.specs.Value.{Value as Meant};
ghost use Rattle.lua_heap.specs.Plain.{plain};
ghost use Rattle.lua_heap.specs.Reading.{value as meant};
ghost use Rattle.lua_stack.specs.Frames.{handlers_of, shape_of};
ghost use Rattle.machine_core.specs.FrameRows.{raised_row};
ghost use Rattle.machine_core.specs.Moves.{runs_main, see_catcher as sees};
ghost use Rattle.move_laws.specs.Memory.{HasStack, InOrder, IsSafe, IsSound, Makes, ReadsSame};
ghost use Rattle.machine_errors.specs.Catching.{Catches, uncaught};

use crate::handlers::call_handler;
use int_core::Allocated;
use lua_heap::World;
use lua_stack::Top;
use machine_moves::{Ending, running_stack};

/// An error has been raised: a message handler is to be called, or the frame on top is left with the error. Nothing is done, and none is the answer,
/// where nothing in a resumed coroutine catches the error. After a refusal the machine's world is as before.
pub fn call_catcher(world: &mut World) -> Allocated<Option<Ending>>
    requires sound { IsSound world.old }
    requires safe { IsSafe raised_row [] world.old }
    ensures catches { IfOk result (λ found. Catches world.old world.new found) }
    ensures order { InOrder world.new }
    ensures err { OnErr result (ReadsSame world.old world.new) }
{
    match see_catcher(world) {
        Top::Xpcall(handler) => {
            let ending = call_handler(world, handler)?;
            Ok(Some(ending))
        }
        Top::Missing => Ok(uncaught(runs_main(world))),
        Top::Lua => Ok(Some(Ending::Unwinding)),
        Top::Pcall => Ok(Some(Ending::Unwinding)),
        Top::Handler => Ok(Some(Ending::Unwinding)),
        Top::Closing => Ok(Some(Ending::Unwinding)),
    }
}

/// The nearest frame from the top that is no Lua frame.
pub fn see_catcher(world: &World) -> Top
    requires { HasStack world.now }
    ensures { (env : List Meant) → Makes world.now world.now sees env (handlers_of (meant world.now.strings) result) (shape_of (runs_main (plain world.now 0)) result) }
{
    running_stack(world).catcher()
}

/// Whether the main coroutine runs.
fn runs_main(world: &World) -> bool
    ensures { result ≡ runs_main (plain world.now 0) }
{
    world.chain.len() == 1
}

/// How an error goes on that nothing catches: the main script fails with it.
fn uncaught(in_main: bool) -> Option<Ending>
    ensures { result ≡ uncaught in_main }
{
    if in_main {
        Some(Ending::Unwinding)
    } else {
        None
    }
}
