// Arithmetic on integers (Lua 5.4 manual, 3.4.1 and 3.4.2). Where an operand is no integer, the instruction behind does it.
ghost use Rattle.std.specs.Prelude.{◌≡◌, IsTrue, Some, bit_and, bit_or, bit_xor, negsuc, ◌-ℤ◌};
ghost use Rattle.int_core.specs.Operations.{bitwise, computed, of_mod, of_idiv};
ghost use Rattle.int_core.specs.Value.{bind};
ghost use Rattle.machine_arms_numbers.specs.Leading.{IsSite, Leads, MayLead};
ghost use Rattle.machine_arms_numbers.specs.Numbers.{event_of, has_constant, has_numeral, has_one, has_two, of_numeral, of_one, second};

use crate::registers::{get_b, integer, value_numbered};
use crate::site::Site;
use code_core::Opcode;
use int_core::{add, floor_div, floor_mod, mul, neg, shl, shr, sub};
use table_core::Value;

/// What the operator of an instruction gives; `None` is a division by zero.
#[inline(always)]
fn computed(op: Opcode, m: i64, n: i64) -> Option<i64>
    ensures { result ≡ bind (event_of op) (λ event. computed event m n) }
{
    match op {
        Opcode::Add | Opcode::AddK => Some(add(m, n)),
        Opcode::Sub | Opcode::SubK => Some(sub(m, n)),
        Opcode::Mul | Opcode::MulK => Some(mul(m, n)),
        Opcode::Mod | Opcode::ModK => remainder(m, n),
        Opcode::IDiv | Opcode::IDivK => quotient(m, n),
        Opcode::BAnd | Opcode::BAndK => Some(bits_of_both(m, n)),
        Opcode::BOr | Opcode::BOrK => Some(bits_of_either(m, n)),
        Opcode::BXor | Opcode::BXorK => Some(bits_of_one(m, n)),
        Opcode::Shl => Some(shl(m, n)),
        Opcode::Shr => Some(shr(m, n)),
        _ => None,
    }
}

#[inline(always)]
fn bits_of_both(m: i64, n: i64) -> i64
    ensures { result ≡ bitwise bit_and m n }
{
    m & n
}

#[inline(always)]
fn bits_of_either(m: i64, n: i64) -> i64
    ensures { result ≡ bitwise bit_or m n }
{
    m | n
}

#[inline(always)]
fn bits_of_one(m: i64, n: i64) -> i64
    ensures { result ≡ bitwise bit_xor m n }
{
    m ^ n
}

#[inline(always)]
fn flipped(n: i64) -> i64
    ensures { result ≡ negsuc 0 -ℤ n }
{
    !n
}

#[inline(always)]
fn remainder(m: i64, n: i64) -> Option<i64>
    ensures { result ≡ computed of_mod m n }
{
    if n == 0 { None } else { Some(floor_mod(m, n)) }
}

#[inline(always)]
fn quotient(m: i64, n: i64) -> Option<i64>
    ensures { result ≡ computed of_idiv m n }
{
    if n == 0 { None } else { Some(floor_div(m, n)) }
}

/// ADD to SHR and ADDK to BXORK: R[A] := R[B] op R[C], R[B] op K[C]. `None` is a division by zero.
#[inline(always)]
pub(crate) fn with_two(op: Opcode, site: Site, registers: &mut [Value]) -> Option<usize>
    requires at { IsSite op site registers.old }
    requires form { IsTrue (has_two op) }
    ensures { MayLead op site.entry registers.old registers.new result }
{
    let Some(m) = integer(get_b(registers, site.word)) else {
        return Some(site.behind(1));
    };
    let Some(n) = integer(second(op, site, registers)) else {
        return Some(site.behind(1));
    };
    let k = computed(op, m, n)?;
    Some(site.put_integer(registers, k, 2))
}

/// Its second operand: K[C], or R[C].
#[inline(always)]
fn second(op: Opcode, site: Site, registers: &[Value]) -> Value
    requires at { IsSite op site registers.now }
    requires form { IsTrue (has_two op) }
    ensures { second op site.entry.constants.now registers.now site.entry.word ≡ Some result }
{
    let n = site.word.c() as usize;
    if has_constant(op) {
        return value_numbered(site.constants, n);
    }
    value_numbered(registers, n)
}

/// Whether it is a constant.
#[inline(always)]
fn has_constant(op: Opcode) -> bool
    ensures { result ≡ has_constant op }
{
    match op {
        Opcode::AddK | Opcode::SubK | Opcode::MulK | Opcode::ModK => true,
        Opcode::IDivK | Opcode::BAndK | Opcode::BOrK | Opcode::BXorK => true,
        _ => false,
    }
}

/// ADDI, SHRI and SHLI: R[A] := R[B] + sC, R[B] >> sC, sC << R[B].
#[inline(always)]
pub(crate) fn with_numeral(op: Opcode, site: Site, registers: &mut [Value]) -> usize
    requires at { IsSite op site registers.old }
    requires form { IsTrue (has_numeral op) }
    ensures { Leads op site.entry registers.old registers.new result }
{
    let Some(m) = integer(get_b(registers, site.word)) else {
        return site.behind(1);
    };
    let k = of_numeral(op, m, i64::from(site.word.sc()));
    site.put_integer(registers, k, 2)
}

/// What the operator of such an instruction gives.
#[inline(always)]
fn of_numeral(op: Opcode, m: i64, n: i64) -> i64
    ensures { result ≡ of_numeral op m n }
{
    match op {
        Opcode::AddI => add(m, n),
        Opcode::ShrI => shr(m, n),
        _ => shl(n, m),
    }
}

/// UNM and BNOT: R[A] := -R[B], ~R[B].
#[inline(always)]
pub(crate) fn with_one(op: Opcode, site: Site, registers: &mut [Value]) -> Option<usize>
    requires at { IsSite op site registers.old }
    requires form { IsTrue (has_one op) }
    ensures { MayLead op site.entry registers.old registers.new result }
{
    let n = integer(get_b(registers, site.word))?;
    Some(site.put_integer(registers, of_one(op, n), 1))
}

/// What the operator of such an instruction gives.
#[inline(always)]
fn of_one(op: Opcode, n: i64) -> i64
    ensures { result ≡ of_one op n }
{
    match op {
        Opcode::Unm => neg(n),
        _ => flipped(n),
    }
}
