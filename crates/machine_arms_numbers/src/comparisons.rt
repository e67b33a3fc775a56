// Comparisons that no handler decides (Lua 5.4 manual, 3.4.4). Each passes the next instruction over where its truth is not k.
ghost use Rattle.std.specs.Prelude.{◌≡◌, Some, ◌⊎◌};
ghost use Rattle.code_core.specs.declared.opcode.Opcode.TheVariants.{Lt, Le, LtI, LeI, GtI, GeI, Eq, EqK, EqI};
ghost use Rattle.int_core.specs.Value.{bind};
ghost use Rattle.machine_arms_numbers.specs.Leading.{IsSite, MayLead};
ghost use Rattle.machine_arms_numbers.specs.Numbers.{equal_at_once, ordered_by};

use crate::registers::{branch, get_a, get_b, integer, value_numbered};
use crate::site::Site;
use code_core::Opcode;
use table_core::Value;

/// Whether two values are equal, where that is decided without a handler.
#[inline(always)]
fn equal_at_once(v: Value, w: Value) -> Option<bool>
    ensures { result ≡ equal_at_once v w }
{
    if v == w {
        return Some(true);
    }
    match (v, w) {
        (Value::Table(_), Value::Table(_)) => None,
        _ => Some(false),
    }
}

/// Whether two integers are in the order for which an instruction asks.
#[inline(always)]
fn are_ordered(op: Opcode, m: i64, n: i64) -> Option<bool>
    ensures { result ≡ bind (ordered_by op) (λ order. Some (order m n)) }
{
    match op {
        Opcode::Lt | Opcode::LtI => Some(m < n),
        Opcode::Le | Opcode::LeI => Some(m <= n),
        Opcode::GtI => Some(m > n),
        Opcode::GeI => Some(m >= n),
        _ => None,
    }
}

/// EQ: R[A] == R[B]. `None` where two tables are not the same.
#[inline(always)]
pub(crate) fn equal_registers(site: Site, registers: &mut [Value]) -> Option<usize>
    requires { IsSite Eq site registers.old }
    ensures { MayLead Eq site.entry registers.old registers.new result }
{
    let truth = equal_at_once(get_a(registers, site.word), get_b(registers, site.word))?;
    Some(branch(site.words, site.word, site.pc, truth))
}

/// EQK: R[A] == K[B].
#[inline(always)]
pub(crate) fn equal_constant(site: Site, registers: &mut [Value]) -> Option<usize>
    requires { IsSite EqK site registers.old }
    ensures { MayLead EqK site.entry registers.old registers.new result }
{
    let other = value_numbered(site.constants, site.word.b() as usize);
    let truth = equal_at_once(get_a(registers, site.word), other)?;
    Some(branch(site.words, site.word, site.pc, truth))
}

/// EQI: R[A] == sB.
#[inline(always)]
pub(crate) fn equal_number(site: Site, registers: &mut [Value]) -> Option<usize>
    requires { IsSite EqI site registers.old }
    ensures { MayLead EqI site.entry registers.old registers.new result }
{
    let number = Value::Int(i64::from(site.word.sb()));
    let truth = equal_at_once(get_a(registers, site.word), number)?;
    Some(branch(site.words, site.word, site.pc, truth))
}

/// LT and LE: R[A] < R[B], R[A] <= R[B]. `None` where one is no integer.
#[inline(always)]
pub(crate) fn order_registers(op: Opcode, site: Site, registers: &mut [Value]) -> Option<usize>
    requires at { IsSite op site registers.old }
    requires form { (op ≡ Lt) ⊎ (op ≡ Le) }
    ensures { MayLead op site.entry registers.old registers.new result }
{
    let m = integer(get_a(registers, site.word))?;
    let n = integer(get_b(registers, site.word))?;
    let truth = are_ordered(op, m, n)?;
    Some(branch(site.words, site.word, site.pc, truth))
}

/// LTI to GEI: the order of R[A] and sB. `None` where R[A] is no integer.
#[inline(always)]
pub(crate) fn order_number(op: Opcode, site: Site, registers: &mut [Value]) -> Option<usize>
    requires at { IsSite op site registers.old }
    requires form { (op ≡ LtI) ⊎ (op ≡ LeI) ⊎ (op ≡ GtI) ⊎ (op ≡ GeI) }
    ensures { MayLead op site.entry registers.old registers.new result }
{
    let m = integer(get_a(registers, site.word))?;
    let truth = are_ordered(op, m, i64::from(site.word.sb()))?;
    Some(branch(site.words, site.word, site.pc, truth))
}
