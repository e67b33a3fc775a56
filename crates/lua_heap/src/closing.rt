// Cells of the function on top that are closed (luaF_close of lfunc.c).
ghost use Rattle.std.specs.Prelude.{◌≡◌, ℕ, ◌+◌, true, false, IfNone, IfSome, Some, slice_get};
ghost use Rattle.lua_stack.specs.Frames.{KeptStack, NoneFrom};
ghost use Rattle.lua_heap.specs.declared.world.Coro.TheVariants.{Running};
ghost use Rattle.lua_heap.specs.Cells.{CellsAreListed};
ghost use Rattle.lua_heap.specs.Closing.{ClosesAll, ClosesSome, NoneIsOpen, NoneOnTop, RunsAt, TakesOnTop, open_count};
ghost use Rattle.lua_heap.specs.Plain.{plain};

use crate::world::{Cell, Coro, World};
use table_core::{CellId, CoroId, Value};

impl World {
    /// Closes the cells of a running coroutine's function on top that are open at a register or above.
    pub fn close_cells(&mut self, co: CoroId, register: u32)
        requires listed { CellsAreListed self.old }
        requires there { RunsAt self.old co }
        ensures closed { (fuel : ℕ) → ClosesAll co.0 register (plain self.old fuel) (plain self.new fuel) }
        ensures none { (stack : KeptStack) → slice_get self.new.coros.objects co.0 ≡ Some (Running stack) → NoneFrom stack register }
        ensures listed { CellsAreListed self.new }
        ensures rest { self.new ≡ record self.old { cells = self.new.cells; coros = self.new.coros } }
    {
        'cells: while self.close_last(co, register as usize) {}
    }

    /// Closes the last of these cells, if there is one.
    fn close_last(&mut self, co: CoroId, register: usize) -> bool
        requires listed { CellsAreListed self.old }
        requires there { RunsAt self.old co }
        ensures closes { (fuel : ℕ) → ClosesSome co.0 register (plain self.old fuel) (plain self.new fuel) }
        ensures none { result ≡ false → (fuel : ℕ) → NoneIsOpen co.0 register (plain self.new fuel) }
        ensures gone { result ≡ false → (stack : KeptStack) → slice_get self.new.coros.objects co.0 ≡ Some (Running stack) → NoneFrom stack register }
        ensures fewer { result ≡ true → open_count self.new co + 1 ≡ open_count self.old co }
        ensures listed { CellsAreListed self.new }
        ensures there { RunsAt self.new co }
        ensures rest { self.new ≡ record self.old { cells = self.new.cells; coros = self.new.coros } }
    {
        let Some((cell, value)) = take_on_top(self.coros.get_mut(co.0), register) else {
            return false;
        };
        *self.cells.get_mut(cell.0) = Cell::Closed(value);
        true
    }
}

/// Takes the last of these cells from a running coroutine's list, with the value of its register.
fn take_on_top(coro: &mut Coro, register: usize) -> Option<(CellId, Value)>
    ensures taken { IfSome result (λ r. TakesOnTop coro.old coro.new register r.0 r.1) }
    ensures none { IfNone result (NoneOnTop coro.old register) }
    ensures kept { IfNone result (coro.new ≡ coro.old) }
{
    match coro {
        Coro::Running(stack) => {
            let open = stack.take_cell_from(register)?;
            Some((open.cell, stack.get(open.register)))
        }
        _ => None,
    }
}
