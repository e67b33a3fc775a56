// Errors that are raised (luaG_errormsg of ldebug.c and luaD_throw of ldo.c).
ghost use Rattle.std.specs.Prelude.{[], IfOk, OnErr};
ghost use Rattle.machine_core.specs.FrameRows.{raised_row};
ghost use Rattle.move_laws.specs.Memory.{InOrder, Leads, ReadsSame};
ghost use Rattle.machine_moves.specs.Ending.{ending_of};
ghost use Rattle.machine_frame_rows.specs.Reaching.{MayReach};

use int_core::Allocated;
use lua_heap::World;
use machine_coroutines::fail_running;
use machine_errors::call_catcher;
use machine_moves::Ending;

/// An error has been raised: its message handler is to be called, the frame on top is left with it, or it ends the running coroutine. After a refusal the
/// machine's world is as before.
pub fn catch_error(world: &mut World) -> Allocated<Ending>
    requires { MayReach raised_row world.old }
    ensures leads { IfOk result (λ ending. Leads raised_row [] world.old world.new (ending_of ending)) }
    ensures order { InOrder world.new }
    ensures err { OnErr result (ReadsSame world.old world.new) }
{
    match call_catcher(world)? {
        Some(ending) => Ok(ending),
        None => fail_running(world),
    }
}
