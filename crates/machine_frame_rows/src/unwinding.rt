// Errors with which the frame on top is left (luaD_throw of ldo.c).
ghost use Rattle.std.specs.Prelude.{◌≡◌, [], IfOk, OnErr};
ghost use Rattle.lua_heap.specs.Plain.{plain};
ghost use Rattle.machine_core.specs.FrameRows.{unwound, unwinding_row};
ghost use Rattle.machine_core.specs.Moves.{no_top, runs_main};
ghost use Rattle.move_laws.specs.Memory.{HasStack, InOrder, IsSafe, Leads, ReadsSame};
ghost use Rattle.machine_moves.specs.Ending.{ending_of};
ghost use Rattle.machine_frame_rows.specs.Reaching.{MayReach};

use crate::handing::runs_main;
use int_core::Allocated;
use lua_heap::World;
use lua_stack::Top;
use machine_coroutines::{close_on_error, fail_main, fail_running};
use machine_errors::{answer_error, fail_handler};
use machine_moves::{Ending, see_top};
use machine_returns::unwind_function;

/// An error reaches the frame on top, which is left with it or catches it, or it ends the running coroutine. After a refusal the machine's world is as before.
pub fn unwind_top(world: &mut World) -> Allocated<Ending>
    requires { MayReach unwinding_row world.old }
    ensures leads { IfOk result (λ ending. Leads unwinding_row [] world.old world.new (ending_of ending)) }
    ensures order { InOrder world.new }
    ensures err { OnErr result (ReadsSame world.old world.new) }
{
    match see_top(world) {
        Top::Lua => unwind_function(world),
        Top::Pcall => answer_error(world),
        Top::Xpcall(_) => answer_error(world),
        Top::Handler => fail_handler(world),
        Top::Closing => close_on_error(world),
        Top::Missing => end_with_error(world),
    }
}

/// The running coroutine ends with an error.
fn end_with_error(world: &mut World) -> Allocated<Ending>
    requires order { InOrder world.old }
    requires running { HasStack world.old }
    requires safe { IsSafe (unwound (no_top (runs_main (plain world.old 0)))) [] world.old }
    ensures leads { IfOk result (λ ending. Leads (unwound (no_top (runs_main (plain world.old 0)))) [] world.old world.new (ending_of ending)) }
    ensures order { InOrder world.new }
    ensures err { OnErr result (world.new ≡ world.old) }
{
    if runs_main(world) {
        return fail_main(world);
    }
    fail_running(world)
}
