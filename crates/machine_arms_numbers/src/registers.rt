// The registers that an instruction names, and the places behind it.
ghost use Rattle.std.specs.Prelude.{◌≡◌, ◌+◌, ◌<◌, length, slice_get, slice_set, Some, cond};
ghost use Rattle.code_core.specs.Instruction.{a_of, b_of, k_of};
ghost use Rattle.int_core.specs.Value.{same_truth};
ghost use Rattle.machine_arms_numbers.specs.Numbers.{integer_in, is_truthy};
ghost use Rattle.table_core.specs.declared.value.Value.TheVariants.{Int};

use code_core::Instruction;
use table_core::Value;

/// R[A].
#[inline(always)]
pub(crate) fn get_a(registers: &[Value], i: Instruction) -> Value
    requires { a_of i < length registers.now }
    ensures { slice_get registers.now (a_of i) ≡ Some result }
{
    registers[i.a() as usize]
}

/// R[B].
#[inline(always)]
pub(crate) fn get_b(registers: &[Value], i: Instruction) -> Value
    requires { b_of i < length registers.now }
    ensures { slice_get registers.now (b_of i) ≡ Some result }
{
    registers[i.b() as usize]
}

/// R[A + n].
#[inline(always)]
pub(crate) fn get_above(registers: &[Value], i: Instruction, n: usize) -> Value
    requires { a_of i + n < length registers.now }
    ensures { slice_get registers.now (a_of i + n) ≡ Some result }
{
    let _size = registers.len();
    registers[i.a() as usize + n]
}

/// R[A + n] := v.
#[inline(always)]
pub(crate) fn set_above(registers: &mut [Value], i: Instruction, n: usize, v: Value)
    requires { a_of i + n < length registers.old }
    ensures { registers.new ≡ slice_set registers.old (a_of i + n) v }
{
    let _size = registers.len();
    registers[i.a() as usize + n] = v;
}

/// R[A + at] := an integer. It is made here, so that none of the bytes of another value goes with it.
#[inline(always)]
pub(crate) fn set_above_integer(registers: &mut [Value], i: Instruction, at: usize, n: i64)
    requires { a_of i + at < length registers.old }
    ensures { registers.new ≡ slice_set registers.old (a_of i + at) (Int n) }
{
    let _size = registers.len();
    registers[i.a() as usize + at] = Value::Int(n);
}

/// R[n] of registers, K[n] of constants.
#[inline(always)]
pub fn value_numbered(values: &[Value], n: usize) -> Value
    requires { n < length values.now }
    ensures { slice_get values.now n ≡ Some result }
{
    values[n]
}

/// The integer that a value is.
#[inline(always)]
pub fn integer(v: Value) -> Option<i64>
    ensures { result ≡ integer_in v }
{
    match v {
        Value::Int(n) => Some(n),
        _ => None,
    }
}

/// Whether a value counts as true (Lua 5.4 manual, 3.3.4): nil and false do not.
#[inline(always)]
pub(crate) fn truthy(v: Value) -> bool
    ensures { result ≡ is_truthy v }
{
    match v {
        Value::Nil => false,
        Value::Bool(b) => b,
        _ => true,
    }
}

/// The place behind a test: the next instruction is passed over where the truth is not k.
#[inline(always)]
pub fn branch(words: &[Instruction], i: Instruction, pc: usize, truth: bool) -> usize
    requires { pc + 2 < length words.now }
    ensures { result ≡ pc + cond (same_truth truth (k_of i)) 1 2 }
{
    let _size = words.len();
    if truth == i.k() { pc + 1 } else { pc + 2 }
}
