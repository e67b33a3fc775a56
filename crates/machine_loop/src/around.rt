// What the loop does beside the instructions of the frame by itself: reads of variables of frames below whose values are known, reads of fields that handlers which
// are tables lead to, comparisons of tables and of strings, and stores to fields of tables whose metatables have no handler for stores.
ghost use Rattle.std.specs.Prelude.{◌≡◌, IfNone, IfSome};
ghost use Rattle.machine_arms_tables.specs.Frame.{code};
ghost use Rattle.machine_loop.specs.Around.{GoesAround, GoesBeyond};
ghost use Rattle.machine_view.specs.Law.{HasInstruction};

use crate::decoding::{number_in, opcode_in};
use crate::memo::{Memo, read_known};
use code_core::{Instruction, Opcode, fetch};
use lua_heap::{Cell, Strings};
use machine_arms_tables::{Closure, settle_beyond, store_beyond};
use object_pool::Pool;
use table_core::{Table, Value};

/// Does such a read, comparison or store, and answers where the frame goes on. `None`, with all as before, at any other instruction.
#[inline(always)]
pub(crate) fn go_around(
    closure: Closure,
    strings: &Strings,
    tables: &mut Pool<Table>,
    cells: &Pool<Cell>,
    registers: &mut [Value],
    memo: &Memo,
    pc: usize,
) -> Option<usize>
    requires { HasInstruction closure.words.now closure.constants.now registers.old pc }
    ensures goes { IfSome result (λ to. GoesAround (code closure.entry strings.now) tables.old.objects tables.new.objects cells.now.objects memo.now registers.old registers.new pc to) }
    ensures tables { IfNone result (tables.new ≡ tables.old) }
    ensures registers { IfNone result (registers.new ≡ registers.old) }
{
    let i = fetch(closure.words, pc);
    if !may_go_around(i) {
        return None;
    }
    match read_known(closure, registers, memo, pc) {
        Some(to) => Some(to),
        None => go_beyond(closure, strings, tables, cells, registers, pc),
    }
}

/// Whether an opcode's number is at most that of LE: those of calls, returns and others at which the loop is left most often are greater, and nothing else is asked
/// there.
#[inline(always)]
fn may_go_around(i: Instruction) -> bool {
    number_in(i) <= 59
}

/// Does one that looks beyond a value itself, where the number of the opcode may be that of one: at all other instructions, as a CALL, the loop is left without
/// another look at the opcode.
#[inline(always)]
fn go_beyond(
    closure: Closure,
    strings: &Strings,
    tables: &mut Pool<Table>,
    cells: &Pool<Cell>,
    registers: &mut [Value],
    pc: usize,
) -> Option<usize>
    requires { HasInstruction closure.words.now closure.constants.now registers.old pc }
    ensures goes { IfSome result (λ to. GoesBeyond (code closure.entry strings.now) tables.old.objects tables.new.objects cells.now.objects registers.old registers.new pc to) }
    ensures tables { IfNone result (tables.new ≡ tables.old) }
    ensures registers { IfNone result (registers.new ≡ registers.old) }
{
    let i = fetch(closure.words, pc);
    if !may_look_beyond(i) {
        return None;
    }
    let op = opcode_in(i)?;
    if looks_beyond(op) {
        return settle_beyond(op, closure, strings, tables, cells, registers, i, pc);
    }
    if stores_beyond(op) {
        return store_beyond(op, closure, strings, tables, cells, registers, i, pc);
    }
    None
}

/// Whether an opcode's number is from that of GETTABUP to that of SETFIELD, which read a field or store to one, or from that of EQ to that of LE.
#[inline(always)]
fn may_look_beyond(i: Instruction) -> bool {
    let number = number_in(i);
    (11 <= number && number <= 18) || (57 <= number && number <= 59)
}

/// Whether an instruction reads a field or compares two registers.
#[inline(always)]
fn looks_beyond(op: Opcode) -> bool {
    matches!(
        op,
        Opcode::GetTabUp
            | Opcode::GetTable
            | Opcode::GetI
            | Opcode::GetField
            | Opcode::OpSelf
            | Opcode::Eq
            | Opcode::Lt
            | Opcode::Le
    )
}

/// Whether it stores to a field.
#[inline(always)]
fn stores_beyond(op: Opcode) -> bool {
    matches!(
        op,
        Opcode::SetTabUp | Opcode::SetTable | Opcode::SetI | Opcode::SetField
    )
}
