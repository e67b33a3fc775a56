// The object and the key that an instruction on a field names (Lua 5.4's lopcodes.h, GETTABUP to SETFIELD).
ghost use Rattle.std.specs.Prelude.{◌≡◌, IfSome, Some};
ghost use Rattle.machine_arms_tables.specs.Leading.{code_at};
ghost use Rattle.machine_arms_tables.specs.Named.{IsOnField, in_upvalue, key_in, key_number, key_of, object_number, object_of, stores_field};

use crate::closure::spelled;
use crate::site::Site;
use crate::upvalues::upvalue;
use code_core::{Instruction, Opcode};
use lua_heap::Cell;
use machine_arms_numbers::value_numbered;
use object_pool::Pool;
use table_core::Value;

/// What the number of a key stands for: R[n], K[n], or n itself.
#[derive(Clone, Copy, Debug)]
pub(crate) enum KeyIn {
    Register,
    Constant,
    Number,
}

/// The object. `None` where it is in an open cell.
#[inline(always)]
pub(crate) fn object_of(
    op: Opcode,
    site: Site,
    cells: &Pool<Cell>,
    registers: &[Value],
) -> Option<Value>
    requires { IsOnField op site registers.now }
    ensures { IfSome result (λ v. object_of op (code_at site.entry) cells.now.objects registers.now site.entry.word ≡ Some v) }
{
    let n = object_number(op, site.word);
    if in_upvalue(op) {
        return upvalue(cells, site.closure.upvalues, n);
    }
    Some(value_numbered(registers, n as usize))
}

/// The key.
#[inline(always)]
pub(crate) fn key_of(op: Opcode, site: Site, registers: &[Value]) -> Value
    requires { IsOnField op site registers.now }
    ensures { key_of op (code_at site.entry) registers.now site.entry.word ≡ Some result }
{
    let n = key_number(op, site.word);
    let place = key_in(op);
    match place {
        KeyIn::Register => value_numbered(registers, n as usize),
        KeyIn::Constant => site.closure.constant(n as usize),
        KeyIn::Number => spelled(n),
    }
}

/// The number of the object: that of an upvalue, or of a register.
#[inline(always)]
fn object_number(op: Opcode, i: Instruction) -> u8
    ensures { result ≡ object_number op i }
{
    if stores_field(op) { i.a() } else { i.b() }
}

/// The number of the key.
#[inline(always)]
fn key_number(op: Opcode, i: Instruction) -> u8
    ensures { result ≡ key_number op i }
{
    if stores_field(op) { i.b() } else { i.c() }
}

/// Whether an instruction stores to a field.
#[inline(always)]
fn stores_field(op: Opcode) -> bool
    ensures { result ≡ stores_field op }
{
    match op {
        Opcode::SetTabUp | Opcode::SetTable | Opcode::SetI | Opcode::SetField => true,
        _ => false,
    }
}

/// Whether its object is in an upvalue.
#[inline(always)]
fn in_upvalue(op: Opcode) -> bool
    ensures { result ≡ in_upvalue op }
{
    match op {
        Opcode::GetTabUp | Opcode::SetTabUp => true,
        _ => false,
    }
}

/// Where its key is.
#[inline(always)]
fn key_in(op: Opcode) -> KeyIn
    ensures { result ≡ key_in op }
{
    match op {
        Opcode::GetTable | Opcode::SetTable => KeyIn::Register,
        Opcode::GetI | Opcode::SetI => KeyIn::Number,
        _ => KeyIn::Constant,
    }
}
