// Coroutines whose frames are gone: each cell that is open in a frame keeps its value (luaF_close of lfunc.c over a whole stack).
ghost use Rattle.std.specs.Prelude.{◌≡◌, ℕ, ◌<◌, List, None, Some, length, slice_get, slice_set};
ghost use Rattle.int_core.specs.Value.{bind};
ghost use Rattle.machine_core.specs.Moves.{bury as buries, put_coroutine as puts};
ghost use Rattle.machine_core.specs.World.{Frame, frames_of};
ghost use Rattle.lua_heap.specs.Cells.{CellsAreListed, IsOnce, open_cells_in};
ghost use Rattle.lua_heap.specs.Plain.{coroutine, plain};
ghost use Rattle.machine_coroutines.specs.Burying.{AreWithin, ClosesEach};

use lua_heap::{Cell, Coro, World};
use lua_stack::Stack;
use object_pool::Pool;
use std::mem;
use table_core::CoroId;

/// Another coroutine, which has no stack, is put in the place of one whose frames are gone. Their cells are closed.
pub(crate) fn bury(world: &mut World, co: CoroId, coro: Coro)
    requires there { co.0 < length world.old.coros.objects }
    requires bare { open_cells_in coro ≡ None }
    requires listed { CellsAreListed world.old }
    ensures plain { (fuel : ℕ) (fs : List Frame) → bind (slice_get (plain world.old fuel).coroutines co.0) frames_of ≡ Some fs → plain world.new fuel ≡ buries (plain world.old fuel) co.0 fs (coroutine world.old.strings coro) }
    ensures put { (fuel : ℕ) → bind (slice_get (plain world.old fuel).coroutines co.0) frames_of ≡ None → plain world.new fuel ≡ puts (plain world.old fuel) co.0 (coroutine world.old.strings coro) }
    ensures coros { world.new.coros.objects ≡ slice_set world.old.coros.objects co.0 coro }
    ensures listed { CellsAreListed world.new }
    ensures rest { world.new ≡ record world.old { cells = world.new.cells; coros = world.new.coros } }
{
    match mem::replace(world.coros.get_mut(co.0), coro) {
        Coro::Suspended(stack) => close_all(&mut world.cells, &stack),
        Coro::Running(stack) => close_all(&mut world.cells, &stack),
        Coro::Normal(stack) => close_all(&mut world.cells, &stack),
        Coro::Fresh(_) => {}
        Coro::Dead => {}
        Coro::Failed { .. } => {}
    }
}

/// Each cell that is open in a stack keeps the value of its register.
fn close_all(cells: &mut Pool<Cell>, stack: &Stack)
    requires within { AreWithin stack.now.open_cells (length cells.old.objects) }
    requires once { IsOnce stack.now.open_cells }
    ensures { ClosesEach stack.now stack.now.open_cells cells.old.objects cells.new.objects }
{
    for listed in stack.open_cells() {
        let value = stack.register_at(listed.frame, listed.register);
        *cells.get_mut(listed.cell.0) = Cell::Closed(value);
    }
}
