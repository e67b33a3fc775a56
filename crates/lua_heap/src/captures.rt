// Cells that are opened for registers of the function on top (luaF_findupval of lfunc.c).
ghost use Rattle.std.specs.Prelude.{◌≡◌, ℕ, Some, IfOk, OnOk, OnErr};
ghost use Rattle.machine_core.specs.World.{stack_of, Stack as RunningStack};
ghost use Rattle.lua_stack.specs.Frames.{KeptStack, cell_at, top_number};
ghost use Rattle.lua_heap.specs.declared.world.Coro.TheVariants.{Running};
ghost use Rattle.lua_heap.specs.Cells.{CellsAreListed};
ghost use Rattle.lua_heap.specs.Captures.{CanOpen, HasTopRegister, OpensOnTop, cell_on_top, with_open_cell};
ghost use Rattle.lua_heap.specs.Plain.{plain};

use crate::world::{Cell, Coro, World};
use int_core::Allocated;
use std::alloc::AllocError;
use table_core::CellId;

impl World {
    /// The cell of a register of the function on top, which is opened where there is none. A refusal changes nothing.
    pub fn open_cell(&mut self, register: u32) -> Allocated<CellId>
        requires listed { CellsAreListed self.old }
        requires there { HasTopRegister self.old register }
        ensures opened { OnOk result ((fuel : ℕ) (s : RunningStack) → stack_of (plain self.old fuel) ≡ Some s → plain self.new fuel ≡ with_open_cell (plain self.old fuel) s register) }
        ensures found { IfOk result (λ id. (fuel : ℕ) (s : RunningStack) → stack_of (plain self.old fuel) ≡ Some s → cell_on_top (plain self.new fuel) s register ≡ Some id.0) }
        ensures listed { CellsAreListed self.new }
        ensures rest { self.new ≡ record self.old { cells = self.new.cells; coros = self.new.coros } }
        ensures err { OnErr result ((fuel : ℕ) → plain self.new fuel ≡ plain self.old fuel) }
    {
        let co = self.top_of_chain().unwrap();
        if let Some(id) = found_on_top(self.coros.get(co.0), register as usize) {
            return Ok(id);
        }
        self.cells.reserve(1)?;
        let id = CellId(self.cells.len());
        let frame = open_on_top(self.coros.get_mut(co.0), register as usize, id)?;
        self.cells.place(Cell::Open {
            coro: co,
            frame,
            register,
        });
        Ok(id)
    }
}

/// The cell that is open at a register of the function on top, where the coroutine runs.
fn found_on_top(coro: &Coro, register: usize) -> Option<CellId>
    ensures { (stack : KeptStack) → coro.now ≡ Running stack → result ≡ cell_at (top_number stack) register stack.open_cells }
{
    match coro {
        Coro::Running(stack) => stack.find_cell(register),
        _ => None,
    }
}

/// Lists a cell at a register of the function on top, and tells that function's frame.
fn open_on_top(coro: &mut Coro, register: usize, cell: CellId) -> Allocated<u32>
    requires { CanOpen coro.old register }
    ensures opened { IfOk result (λ frame. OpensOnTop coro.old coro.new frame register cell) }
    ensures err { OnErr result (coro.new ≡ coro.old) }
{
    match coro {
        Coro::Running(stack) => {
            stack.add_cell(register, cell)?;
            Ok((stack.len() - 1) as u32)
        }
        _ => Err(AllocError),
    }
}
