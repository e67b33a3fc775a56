// Upvalues whose variables stand in frames below, in registers of the same coroutine (UpVal of lobject.h, GETUPVAL of lvm.c).
ghost use Rattle.std.specs.Prelude.{◌≡◌, ◌+◌, ◌<◌, IfNone, IfSome, Some, length, slice_get, slice_set};
ghost use Rattle.code_core.specs.Instruction.{opcode_of};
ghost use Rattle.machine_arms_tables.specs.Frame.{code};
ghost use Rattle.machine_loop.specs.Running.{Running};
ghost use Rattle.running_frame.specs.Upvalues.{ListsOpen, StandsOpen, is_read};
ghost use Rattle.running_frame.specs.Between.{GoesOver, RunsOver};

use code_core::{Instruction, Opcode, fetch};
use lua_heap::Cell;
use lua_stack::Stack;
use machine_arms_tables::Closure;
use object_pool::Pool;
use table_core::{CellId, CoroId, Value};

/// GETUPVAL of a variable that stands in a register of this coroutine: R[A] := UpValue[B]. Told is where the frame goes on. `None`, with all as
/// before, at any other instruction, and where the variable stands elsewhere.
#[inline(always)]
pub(crate) fn read_open(
    stack: &mut Stack,
    closure: Closure,
    cells: &Pool<Cell>,
    co: CoroId,
    pc: usize,
) -> Option<usize>
    ghost g: { Running }
    requires runs { RunsOver g (code closure g.around.texts) stack.old cells.now.objects pc }
    requires own { co.0 ≡ g.around.context.coroutine }
    ensures goes { IfSome result (λ to. GoesOver g (code closure.entry g.around.texts) stack.old stack.new cells.now.objects pc to) }
    ensures kept { IfNone result (stack.new ≡ stack.old) }
{
    let i = fetch(closure.words, pc);
    if !is_read(i) {
        return None;
    }
    let value = open_value(stack, closure.upvalues, cells, co, i.b())?;
    let registers = stack.registers_mut();
    put(registers, i.a() as usize, value);
    let to = next(closure.words, pc);
    stack.set_pc(to);
    Some(to)
}

/// The value of an upvalue whose variable stands in a register of this coroutine.
#[inline(always)]
fn open_value(
    stack: &Stack,
    upvalues: &[CellId],
    cells: &Pool<Cell>,
    co: CoroId,
    upvalue: u8,
) -> Option<Value>
    requires { ListsOpen co.0 stack.now cells.now.objects }
    ensures { IfSome result (λ v. StandsOpen co.0 upvalues.now stack.now cells.now.objects upvalue v) }
{
    let id = cell_of(upvalues, upvalue)?;
    if id.0 >= cells.len() {
        return None;
    }
    match *cells.get(id.0) {
        Cell::Closed(_) => None,
        Cell::Open {
            coro,
            frame,
            register,
        } => {
            if coro.0 != co.0 {
                return None;
            }
            Some(stack.register_at(frame as usize, register as usize))
        }
    }
}

/// The cell of an upvalue.
#[inline(always)]
pub(crate) fn cell_of(upvalues: &[CellId], upvalue: u8) -> Option<CellId>
    ensures { result ≡ slice_get upvalues.now upvalue }
{
    upvalues.get(upvalue as usize).copied()
}

/// Whether it is a GETUPVAL.
#[inline(always)]
pub(crate) fn is_read(i: Instruction) -> bool
    ensures { result ≡ is_read (opcode_of i) }
{
    matches!(i.opcode(), Some(Opcode::GetUpval))
}

/// The place after.
#[inline(always)]
pub(crate) fn next(words: &[Instruction], pc: usize) -> usize
    requires { pc + 1 < length words.now }
    ensures { result ≡ pc + 1 }
{
    let _size = words.len();
    pc + 1
}

/// R[n] := v.
#[inline(always)]
pub(crate) fn put(registers: &mut [Value], n: usize, v: Value)
    requires { n < length registers.old }
    ensures { registers.new ≡ slice_set registers.old n v }
{
    registers[n] = v;
}
