// Stores to upvalues whose variables stand in frames below, which change nothing but the stack (UpVal of lobject.h, OP_SETUPVAL of lvm.c).
ghost use Rattle.std.specs.Prelude.{◌≡◌, IfNone, IfSome};
ghost use Rattle.code_core.specs.Instruction.{opcode_of};
ghost use Rattle.lua_stack.specs.Frames.{HasLuaTop};
ghost use Rattle.running_frame.specs.Storing.{StandsBelow, StoresOpen, is_store};
ghost use Rattle.running_frame.specs.Upvalues.{ListsOpen};

use crate::upvalues::cell_of;
use code_core::{Instruction, Opcode};
use frame_calls::{Stop, behind, register_of};
use lua_heap::Cell;
use lua_stack::{OpenCell, Stack};
use object_pool::Pool;
use table_core::{CellId, CoroId};

/// SETUPVAL of a variable that stands in a register of a frame below: UpValue[B] := R[A], and the frame on top goes on after it. `None`, with all as before, at
/// any other instruction, and where the variable stands elsewhere.
#[inline(always)]
pub(crate) fn store_open(
    stack: &mut Stack,
    stop: Stop,
    upvalues: &[CellId],
    cells: &Pool<Cell>,
    co: CoroId,
) -> Option<()>
    requires top { HasLuaTop stack.old }
    requires cells { ListsOpen co.0 stack.old cells.now.objects }
    ensures stores { IfSome result (λ _. StoresOpen co.0 upvalues.now stop.entry.words.now stack.old stack.new cells.now.objects stop.entry.pc stop.entry.word) }
    ensures kept { IfNone result (stack.new ≡ stack.old) }
    ensures listed { stack.new.open_cells ≡ stack.old.open_cells }
{
    if !is_store(stop.word) {
        return None;
    }
    let value = register_of(stack.registers(), stop.word.a() as usize)?;
    let to = behind(stop.words, stop.pc)?;
    let variable = open_below(stack.len(), upvalues, cells, co, stop.word.b())?;
    stack.set_pc(to);
    stack.set_register_at(variable.frame, variable.register, value);
    Some(())
}

/// The register of an upvalue's variable, where that stands in this coroutine, in a frame below the last of `depth`.
#[inline(always)]
pub(crate) fn open_below(
    depth: usize,
    upvalues: &[CellId],
    cells: &Pool<Cell>,
    co: CoroId,
    upvalue: u8,
) -> Option<OpenCell>
    ensures { IfSome result (λ o. StandsBelow co.0 upvalues.now depth cells.now.objects upvalue o) }
{
    let id = cell_of(upvalues, upvalue)?;
    if id.0 >= cells.len() {
        return None;
    }
    let Cell::Open {
        coro,
        frame,
        register,
    } = *cells.get(id.0)
    else {
        return None;
    };
    if coro.0 != co.0 {
        return None;
    }
    if frame as usize + 1 >= depth {
        return None;
    }
    Some(OpenCell {
        cell: id,
        frame: frame as usize,
        register: register as usize,
    })
}

/// Whether it is a SETUPVAL.
#[inline(always)]
fn is_store(i: Instruction) -> bool
    ensures { result ≡ is_store (opcode_of i) }
{
    matches!(i.opcode(), Some(Opcode::SetUpval))
}
