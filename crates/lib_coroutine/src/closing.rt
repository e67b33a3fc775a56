// Coroutines that are closed (luaB_close of lcorolib.c).
ghost use Rattle.std.specs.Prelude.{◌≡◌, [], IfOk, OnErr};
ghost use Rattle.machine_core.specs.MachineStep.{close_row};
ghost use Rattle.move_laws.specs.Memory.{InOrder, Leads};
ghost use Rattle.machine_moves.specs.Ending.{ending_of};
ghost use Rattle.lib_coroutine.specs.Arguments.{IsCalledOn};

use lua_heap::World;
use machine_coroutines::{Begun, begin_closing, close_next};
use machine_errors::blame;
use machine_moves::{Ending, take_moving};
use std::alloc::AllocError;
use table_core::CoroId;

/// Begins to close a coroutine.
pub(crate) fn close_coroutine(world: &mut World, co: CoroId) -> Result<Ending, AllocError>
    requires { IsCalledOn world.old co }
    ensures leads { IfOk result (λ ending. Leads close_row [] world.old world.new (ending_of ending)) }
    ensures order { InOrder world.new }
    ensures err { OnErr result (world.new ≡ world.old) }
{
    let room = Vec::with_capacity(world.alloc, 3)?;
    match begin_closing(world, co)? {
        Begun::Entered => {
            take_moving(world);
            Ok(close_next(world, room))
        }
        Begun::NoRoom => blame(world, b"stack overflow"),
        Begun::Running => blame(world, b"cannot close a running coroutine"),
        Begun::Normal => blame(world, b"cannot close a normal coroutine"),
    }
}
