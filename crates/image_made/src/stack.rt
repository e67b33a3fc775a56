// The stacks of coroutines that wait.
ghost use Rattle.std.specs.Prelude.{◌≡◌, ◌<◌, ◌++◌, ℕ, List, Some, length, map, slice_get, IfOk, OnOk};
ghost use Rattle.lua_heap.specs.Reading.{value as read};
ghost use Rattle.lua_stack.specs.Frames.{TopBecomes, with_pending};
ghost use Rattle.image_core.specs.Image.{closing_item, lua_item};
ghost use Rattle.image_core.specs.Loading.{function_number};
ghost use Rattle.image_records.specs.Views.{error as error_shown, frame as frame_shown, item as item_shown, lua_frame};
ghost use Rattle.image_made.specs.Stacks.{HasFrame, HasRoom, MakesStack, Opens, OpensMore, Pushes, Puts, begun};

use crate::making::{Maker, number_at};
use image_records::{Frame, Item, LuaFrame};
use int_core::Allocated;
use lua_heap::Strings;
use lua_stack::{Shape, Stack};
use std::alloc::AllocError;
use table_core::{CellId, CoroId, FuncId, Value};

/// A cell that is open at a register of a frame.
#[derive(Debug, Clone, Copy)]
pub struct Opening {
    pub coro: CoroId,
    pub frame: u32,
    pub register: u32,
    pub cell: CellId,
}

impl Maker<'_> {
    /// The stack of a coroutine, in which cells are open: those of a list from a place on that are its own. How far they go is told.
    pub fn stack(
        &self,
        strings: &Strings,
        own: CoroId,
        frames: &[Frame<'_>],
        openings: &[Opening],
        from: usize,
    ) -> Allocated<(Stack, usize)>
        ensures { IfOk result (λ made. MakesStack self.now strings.now own openings.now from made.1 (map frame_shown frames.now) made.0) }
    {
        let mut stack = Stack::new(self.alloc);
        let mut at = from;
        for frame in frames {
            let size = self.push_frame(strings, &mut stack, frame)?;
            at = open_cells(&mut stack, own, openings, at, size)?;
        }
        Ok((stack, at))
    }

    /// Puts a frame on top, and tells how many registers it has.
    #[tactic(auto, using(crate::proofs::Tops::pcall_pushed, crate::proofs::Tops::xpcall_pushed, crate::proofs::Tops::handler_pushed))]
    fn push_frame(
        &self,
        strings: &Strings,
        stack: &mut Stack,
        frame: &Frame<'_>,
    ) -> Allocated<usize>
        ensures { IfOk result (λ size. Pushes self.now strings.now (frame_shown frame.now) stack.old stack.new size) }
    {
        match frame {
            Frame::Lua(own) => {
                self.push_lua(strings, stack, own)?;
                Ok(own.registers.len())
            }
            Frame::Pcall => {
                stack.push_pcall()?;
                Ok(0)
            }
            Frame::Xpcall(handler) => {
                let handler = self.value(strings, *handler)?;
                stack.push_xpcall(handler)?;
                Ok(0)
            }
            Frame::Handler => {
                stack.push_handler()?;
                Ok(0)
            }
            Frame::Closing { error, left } => {
                self.push_closing(strings, stack, *error, left)?;
                Ok(0)
            }
        }
    }

    /// Puts a frame of `coroutine.close` on top.
    fn push_closing(
        &self,
        strings: &Strings,
        stack: &mut Stack,
        error: Option<Item<'_>>,
        left: &[Item<'_>],
    ) -> Allocated<()>
        ensures { OnOk result (Pushes self.now strings.now (closing_item (error_shown error.entry) (map item_shown left.now)) stack.old stack.new 0) }
    {
        let left = self.values(strings, left)?;
        let error = self.error(strings, error)?;
        stack.push_closing(error, &left)?;
        Ok(())
    }

    /// Puts a Lua function's frame on top: it takes its registers and its extra arguments as the arguments of a function with so many parameters.
    fn push_lua(&self, strings: &Strings, stack: &mut Stack, frame: &LuaFrame<'_>) -> Allocated<()>
        ensures { OnOk result (Pushes self.now strings.now (lua_item (lua_frame frame.now)) stack.old stack.new (length frame.now.registers.items)) }
    {
        let function = self.value(strings, frame.function)?;
        let wait = self.wait(strings, frame.wait)?;
        let registers = self.values(strings, &frame.registers)?;
        let varargs = self.values(strings, &frame.varargs)?;
        enter(stack, function_of(function), registers, &varargs)?;
        stack.set_pc(frame.pc as usize);
        stack.set_wait(wait);
        mark_all(stack, &frame.pending, frame.registers.len())?;
        Ok(())
    }
}

/// Puts a Lua function's frame on top, with these registers and extra arguments: it begins with them as the arguments of a function with so many parameters.
fn enter(
    stack: &mut Stack,
    function: FuncId,
    registers: Vec<Value>,
    varargs: &[Value],
) -> Allocated<()>
    ensures { OnOk result (Puts stack.old stack.new (begun function registers.items varargs.now)) }
{
    let size = registers.len();
    let shape = Shape {
        params: size,
        vararg: true,
        stack: size,
    };
    let mut arguments = registers;
    arguments.extend_from_slice(varargs)?;
    stack.enter(function, shape, &arguments)?;
    Ok(())
}

/// The function that a value is; another value is none.
fn function_of(value: Value) -> FuncId
    ensures { (texts : List (List ℕ)) → result.0 ≡ function_number (read texts value) }
{
    match value {
        Value::Func(id) => id,
        Value::Nil => FuncId(0),
        Value::Bool(_) => FuncId(0),
        Value::Int(_) => FuncId(0),
        Value::Str(_) => FuncId(0),
        Value::Prim(_) => FuncId(0),
        Value::Table(_) => FuncId(0),
        Value::Coro(_) => FuncId(0),
    }
}

/// Marks registers as those whose variables are to be closed. They are among the frame's.
fn mark_all(stack: &mut Stack, pending: &[u32], size: usize) -> Allocated<()>
    requires { HasFrame stack.old size }
    ensures { OnOk result (TopBecomes stack.old stack.new (λ f t. with_pending (t.own.pending ++ pending.now) t)) }
{
    for at in 0..pending.len() {
        let register = number_at(pending, at) as usize;
        if register >= size {
            return Err(AllocError);
        }
        stack.mark_pending(register)?;
    }
    Ok(())
}

/// Opens the cells of the frame on top, which come first, and tells how far they go.
fn open_cells(
    stack: &mut Stack,
    own: CoroId,
    openings: &[Opening],
    from: usize,
    size: usize,
) -> Allocated<usize>
    requires room { HasRoom stack.old size }
    requires there { 0 < length stack.old.frames }
    ensures { IfOk result (λ at. OpensMore own openings.now from at stack.old stack.new) }
{
    let frame = stack.len() - 1;
    let mut at = from;
    'open: while at < openings.len() {
        let opening = opening_at(openings, at);
        if opening.coro != own {
            return Ok(at);
        }
        if opening.frame as usize != frame {
            return Ok(at);
        }
        open_cell(stack, opening, size)?;
        at += 1;
    }
    Ok(at)
}

/// The opening at a place.
fn opening_at(openings: &[Opening], at: usize) -> Opening
    requires { at < length openings.now }
    ensures { slice_get openings.now at ≡ Some result }
{
    openings[at]
}

/// Opens a cell at a register of the frame on top, where there is none.
#[tactic(auto, using(crate::proofs::Tops::one_register))]
fn open_cell(stack: &mut Stack, opening: Opening, size: usize) -> Allocated<()>
    requires { HasRoom stack.old size }
    ensures { OnOk result (Opens stack.old stack.new opening) }
{
    let register = opening.register as usize;
    if register >= size {
        return Err(AllocError);
    }
    match stack.find_cell(register) {
        Some(_) => Err(AllocError),
        None => stack.add_cell(register, opening.cell),
    }
}
