// The values of cells, closed or open (UpVal of lobject.h).
ghost use Rattle.std.specs.Prelude.{◌≡◌, ℕ, List, Some, IsSome};
ghost use Rattle.int_core.specs.Value.{bind};
ghost use Rattle.machine_core.specs.World.{frames_of, write_in_coroutine};
ghost use Rattle.lua_stack.specs.Frames.{register_in};
ghost use Rattle.lua_heap.specs.Reading.{value};
ghost use Rattle.lua_heap.specs.Plain.{coroutine, plain};
ghost use Rattle.lua_heap.specs.Cells.{open_cells_in, CellsAreListed, IsOpenIn};
ghost use Rattle.lua_heap.specs.Changes.{value_in, with_value_in};

use crate::world::{Cell, Coro, World};
use table_core::{CellId, Value};

impl World {
    /// The value of a cell, from the register where it is open.
    pub fn cell_value(&self, id: CellId) -> Value
        requires listed { CellsAreListed self.now }
        requires there { IsSome (value_in (plain self.now 0) id.0) }
        ensures { (fuel : ℕ) → value_in (plain self.now fuel) id.0 ≡ Some (value self.now.strings result) }
    {
        match *self.cells.get(id.0) {
            Cell::Closed(value) => value,
            Cell::Open {
                coro,
                frame,
                register,
            } => register_at(self.coros.get(coro.0), frame as usize, register as usize),
        }
    }

    /// Gives a cell a value, in the register where it is open.
    pub fn set_cell(&mut self, id: CellId, given: Value)
        requires listed { CellsAreListed self.old }
        requires there { IsSome (value_in (plain self.old 0) id.0) }
        ensures written { (fuel : ℕ) → Some (plain self.new fuel) ≡ with_value_in (plain self.old fuel) id.0 (value self.old.strings given) }
        ensures listed { CellsAreListed self.new }
        ensures rest { self.new ≡ record self.old { cells = self.new.cells; coros = self.new.coros } }
    {
        match *self.cells.get(id.0) {
            Cell::Closed(_) => *self.cells.get_mut(id.0) = Cell::Closed(given),
            Cell::Open {
                coro,
                frame,
                register,
            } => set_register_at(
                self.coros.get_mut(coro.0),
                frame as usize,
                register as usize,
                given,
            ),
        }
    }
}

/// The value of a register at which a cell is open.
fn register_at(coro: &Coro, frame: usize, register: usize) -> Value
    requires { IsOpenIn coro.now frame register }
    ensures { (texts : List (List ℕ)) → bind (frames_of (coroutine texts coro.now)) (register_in frame register) ≡ Some (value texts result) }
{
    match coro {
        Coro::Suspended(stack) => stack.register_at(frame, register),
        Coro::Running(stack) => stack.register_at(frame, register),
        Coro::Normal(stack) => stack.register_at(frame, register),
        Coro::Fresh(_) => Value::Nil,
        Coro::Dead => Value::Nil,
        Coro::Failed { .. } => Value::Nil,
    }
}

/// Writes a register at which a cell is open.
fn set_register_at(coro: &mut Coro, frame: usize, register: usize, given: Value)
    requires { IsOpenIn coro.old frame register }
    ensures written { (texts : List (List ℕ)) → IsSome (bind (frames_of (coroutine texts coro.old)) (register_in frame register)) → coroutine texts coro.new ≡ write_in_coroutine frame register (value texts given) (coroutine texts coro.old) }
    ensures cells { open_cells_in coro.new ≡ open_cells_in coro.old }
{
    match coro {
        Coro::Suspended(stack) => stack.set_register_at(frame, register, given),
        Coro::Running(stack) => stack.set_register_at(frame, register, given),
        Coro::Normal(stack) => stack.set_register_at(frame, register, given),
        Coro::Fresh(_) => {}
        Coro::Dead => {}
        Coro::Failed { .. } => {}
    }
}
