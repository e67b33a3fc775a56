// The cells that are open in a stack, and the registers in which their variables stand.
ghost use Rattle.std.specs.Prelude.{◌≡◌, ◌+◌, ◌<◌, ◌≤◌, false, None, drop, length, take, IfNone, IfSome, OnErr, OnOk};
ghost use Rattle.lua_stack.specs.Frames.{Adds, AllBelow, HasOpen, HasRegisters, NoneFrom, RegisterBecomes, RegisterIs, TakesLast, cell_at, opened_at, top_number};
ghost use Rattle.lua_stack.specs.View.{AreInOrder, FirstFrom, IsTaken, is_at, stands_below, window_at};

use crate::frame::{OpenCell, Record, Window};
use crate::stack::Stack;
use crate::values::{item_at, place_of, put_one};
use std::alloc::AllocError;
use table_core::{CellId, Value};

impl Stack {
    /// The cells that are open, in the order of their frames and registers.
    pub fn open_cells(&self) -> &[OpenCell]
        ensures { result.now ≡ self.now.open_cells }
    {
        &self.open_cells
    }

    /// The cell that is open at a register of the frame on top.
    pub fn find_cell(&self, register: usize) -> Option<CellId>
        ensures { result ≡ cell_at (top_number self.now) register self.now.open_cells }
    {
        found_in(&self.open_cells, self.below.len(), register)
    }

    /// Opens a cell at a register of the frame on top.
    pub fn add_cell(&mut self, register: usize, cell: CellId) -> Result<(), AllocError>
        requires room { HasRegisters self.old (register + 1) }
        requires free { cell_at (top_number self.old) register self.old.open_cells ≡ None }
        ensures cells { OnOk result (Adds self.old.open_cells self.new.open_cells (opened_at cell (top_number self.old) register)) }
        ensures frames { self.new.frames ≡ self.old.frames }
        ensures err { OnErr result (self.new ≡ self.old) }
    {
        let frame = self.below.len();
        let at = count_below(&self.open_cells, frame, register);
        let opened = OpenCell {
            cell,
            frame,
            register,
        };
        self.open_cells.insert(at, opened)?;
        Ok(())
    }

    /// Takes the last open cell away, where it is one of the frame on top at a register or above.
    pub fn take_cell_from(&mut self, register: usize) -> Option<OpenCell>
        ensures taken { IfSome result (λ c. TakesLast self.old self.new register c) }
        ensures none { IfNone result (NoneFrom self.old register) }
        ensures kept { IfNone result (self.new ≡ self.old) }
        ensures frames { self.new.frames ≡ self.old.frames }
    {
        take_from(&mut self.open_cells, self.below.len(), register)
    }

    /// The value of a register at which a cell is open, in any frame.
    pub fn register_at(&self, frame: usize, register: usize) -> Value
        requires { HasOpen self.now frame register }
        ensures { RegisterIs self.now frame register result }
    {
        let room = self.values.len();
        let at = register_place(&self.below, self.top.window, frame, register, room);
        item_at(&self.values, at)
    }

    /// Writes a register at which a cell is open, in any frame.
    pub fn set_register_at(&mut self, frame: usize, register: usize, value: Value)
        requires { HasOpen self.old frame register }
        ensures { RegisterBecomes self.old self.new frame register value }
    {
        let room = self.values.len();
        let at = register_place(&self.below, self.top.window, frame, register, room);
        put_one(&mut self.values, at, value);
    }
}

/// Whether a cell is open at a register of a frame.
#[inline(always)]
fn is_at(cell: OpenCell, frame: usize, register: usize) -> bool
    ensures { result ≡ is_at frame register cell }
{
    cell.frame == frame && cell.register == register
}

/// Whether a cell stands in front of a register of a frame.
#[inline(always)]
fn stands_below(cell: OpenCell, frame: usize, register: usize) -> bool
    ensures { result ≡ stands_below frame register cell }
{
    cell.frame < frame || (cell.frame == frame && cell.register < register)
}

/// How many cells stand in front of a register of a frame. Those of the frame on top are the last ones.
fn count_below(cells: &[OpenCell], frame: usize, register: usize) -> usize
    requires { AreInOrder cells.now }
    ensures at_most { result ≤ length cells.now }
    ensures below { AllBelow frame register (take result cells.now) }
    ensures first { FirstFrom frame register (drop result cells.now) }
{
    let mut count = cells.len();
    'back: while count > 0 {
        if stands_below(item_at(cells, count - 1), frame, register) {
            return count;
        }
        count -= 1;
    }
    count
}

/// The cell that is open at a register of a frame.
fn found_in(cells: &[OpenCell], frame: usize, register: usize) -> Option<CellId>
    requires { AreInOrder cells.now }
    ensures { result ≡ cell_at frame register cells.now }
{
    let at = count_below(cells, frame, register);
    if at == cells.len() {
        return None;
    }
    let found = item_at(cells, at);
    if is_at(found, frame, register) {
        return Some(found.cell);
    }
    None
}

/// Takes the last cell away, where it does not stand in front of a register of a frame.
fn take_from(cells: &mut Vec<OpenCell>, frame: usize, register: usize) -> Option<OpenCell>
    requires { AreInOrder cells.old.items }
    ensures taken { IfSome result (λ c. IsTaken frame register cells.old.items cells.new.items c) }
    ensures none { IfNone result (AllBelow frame register cells.old.items) }
    ensures kept { IfNone result (cells.new.items ≡ cells.old.items) }
{
    let count = cells.len();
    if count == 0 {
        return None;
    }
    let last = item_at(cells, count - 1);
    if stands_below(last, frame, register) {
        return None;
    }
    cells.pop();
    Some(last)
}

/// Where a register of a frame stands, which is in front of `room`.
#[inline]
fn register_place(
    below: &[Record],
    top: Window,
    frame: usize,
    register: usize,
    room: usize,
) -> usize
    requires there { frame ≤ length below.now }
    requires inside { (window_at below.now top frame).base + register < room }
    ensures is { result ≡ (window_at below.now top frame).base + register }
    ensures within { result < room }
{
    if frame < below.len() {
        return place_of(below[frame].window.base, register, room);
    }
    place_of(top.base, register, room)
}

/// Whether the last cell stands at a register of a frame or behind.
#[inline(always)]
pub(crate) fn is_open_from(cells: &[OpenCell], frame: usize, register: usize) -> bool
    requires { AreInOrder cells.now }
    ensures { result ≡ false → AllBelow frame register cells.now }
{
    let count = cells.len();
    if count == 0 {
        return false;
    }
    !stands_below(item_at(cells, count - 1), frame, register)
}
