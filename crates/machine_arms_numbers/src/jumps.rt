// Jumps and loops (Lua 5.4 manual, 3.3.4 and 3.3.5), and the beginning of a function with extra arguments. A jump back and a further round cost one unit of the
// budget.
ghost use Rattle.std.specs.Prelude.{◌≡◌, suc, ◌+◌, ◌<◌, ◌≤◌, ◌^◌, ◌⊎◌, length, ◌-ℤ◌, ◌≤ℤ◌, pos, IfSome, IfNone, IsTrue, ◌≢◌};
ghost use Rattle.code_core.specs.Instruction.{a_of};
ghost use Rattle.code_core.specs.declared.opcode.Opcode.TheVariants.{Jmp, ForLoop, ForPrep, TForPrep, TForLoop, VarArgPrep};
ghost use Rattle.machine_core.specs.InstructionRows.{runs, rounds};
ghost use Rattle.machine_arms_numbers.specs.Leading.{IsSite, Leads, MayLead, MayPay};
ghost use Rattle.machine_arms_numbers.specs.Numbers.{leads_back, distance_of};

use crate::registers::{get_above, integer, set_above, set_above_integer, truthy};
use crate::site::Site;
use code_core::Opcode;
use int_core::{add, sub};
use table_core::Value;

/// Takes a unit of the budget.
#[inline(always)]
fn pay(fuel: &mut u64) -> Option<()>
    ensures paid { IfSome result (λ _. fuel.old ≡ suc fuel.new) }
    ensures spent { IfNone result (fuel.old ≡ 0) }
    ensures kept { IfNone result (fuel.new ≡ fuel.old) }
{
    if *fuel == 0 {
        return None;
    }
    *fuel -= 1;
    Some(())
}

/// Whether an offset leads back.
#[inline(always)]
pub fn leads_back(by: i32) -> bool
    ensures { result ≡ leads_back by }
{
    by < 0
}

/// How far an offset leads.
#[inline(always)]
pub fn distance_of(by: i32) -> usize
    ensures value { result ≡ distance_of by }
    ensures bound { result ≤ 2 ^ 31 }
{
    by.unsigned_abs() as usize
}

/// JMP: on to the place sJ behind the next one. `None` where a jump back cannot be paid.
#[inline(always)]
pub(crate) fn jump(site: Site, registers: &mut [Value], fuel: &mut u64) -> Option<usize>
    requires { IsSite Jmp site registers.old }
    ensures goes { MayPay Jmp site.entry registers.old registers.new fuel.old fuel.new result }
    ensures spent { IfNone result (fuel.old ≡ 0) }
{
    let by = site.word.sj();
    let distance = distance_of(by);
    if !leads_back(by) {
        return Some(site.behind(distance + 1));
    }
    pay(fuel)?;
    Some(site.back(distance))
}

/// The registers of a numerical loop are there: R[A] to R[A + 3].
#[inline(always)]
fn loop_registers_are_there(op: Opcode, site: Site, registers: &[Value])
    requires at { IsSite op site registers.now }
    requires form { (op ≡ ForLoop) ⊎ (op ≡ ForPrep) }
    ensures { a_of site.entry.word + 3 < length registers.now }
{}

/// FORLOOP: a further round, or the end of the loop. `None` where the round cannot be paid.
#[inline(always)]
pub(crate) fn for_loop(site: Site, registers: &mut [Value], fuel: &mut u64) -> Option<usize>
    requires { IsSite ForLoop site registers.old }
    ensures { MayPay ForLoop site.entry registers.old registers.new fuel.old fuel.new result }
{
    loop_registers_are_there(Opcode::ForLoop, site, registers);
    let from = integer(get_above(registers, site.word, 0))?;
    let count = integer(get_above(registers, site.word, 1))?;
    let step = integer(get_above(registers, site.word, 2))?;
    if count == 0 {
        return Some(site.behind(1));
    }
    pay(fuel)?;
    let next = add(from, step);
    set_above_integer(registers, site.word, 1, sub(count, 1));
    set_above_integer(registers, site.word, 0, next);
    set_above_integer(registers, site.word, 3, next);
    Some(site.back(site.word.bx() as usize))
}

/// Whether a loop has a round.
#[inline(always)]
pub fn has_round(from: i64, limit: i64, step: i64) -> bool
    ensures { result ≡ runs from limit step }
{
    if step >= 0 {
        from <= limit
    } else {
        limit <= from
    }
}

/// How far the second integer is above the first.
#[inline(always)]
fn distance(low: i64, high: i64) -> u64
    requires { low ≤ℤ high }
    ensures { pos result ≡ high -ℤ low }
{
    high.cast_unsigned().wrapping_sub(low.cast_unsigned())
}

/// How many rounds follow the first one, as an unsigned number.
#[inline(always)]
pub fn further_rounds(from: i64, limit: i64, step: i64) -> i64
    requires step { step ≢ pos 0 }
    requires round { IsTrue (runs from limit step) }
    ensures { result ≡ rounds from limit step }
{
    if step >= 0 {
        return (distance(from, limit) / step.unsigned_abs()).cast_signed();
    }
    (distance(limit, from) / step.unsigned_abs()).cast_signed()
}

/// FORPREP: the count of rounds and the variable, or on behind the loop. `None` where a value is no integer or the step is 0.
#[inline(always)]
pub(crate) fn for_prep(site: Site, registers: &mut [Value]) -> Option<usize>
    requires { IsSite ForPrep site registers.old }
    ensures { MayLead ForPrep site.entry registers.old registers.new result }
{
    loop_registers_are_there(Opcode::ForPrep, site, registers);
    let from = integer(get_above(registers, site.word, 0))?;
    let limit = integer(get_above(registers, site.word, 1))?;
    let step = integer(get_above(registers, site.word, 2))?;
    if step == 0 {
        return None;
    }
    if !has_round(from, limit, step) {
        return Some(site.behind(site.word.bx() as usize + 2));
    }
    let count = further_rounds(from, limit, step);
    set_above_integer(registers, site.word, 1, count);
    set_above_integer(registers, site.word, 3, from);
    Some(site.behind(1))
}

/// TFORPREP: on to the call of the iterator. `None` where there is a value to be closed.
#[inline(always)]
pub(crate) fn for_each_prep(site: Site, registers: &mut [Value]) -> Option<usize>
    requires { IsSite TForPrep site registers.old }
    ensures { MayLead TForPrep site.entry registers.old registers.new result }
{
    if truthy(get_above(registers, site.word, 3)) {
        return None;
    }
    Some(site.behind(site.word.bx() as usize + 1))
}

/// VARARGPREP: on to the next instruction. The call has put the arguments beyond the parameters apart.
#[inline(always)]
pub(crate) fn begin_varargs(site: Site, registers: &mut [Value]) -> usize
    requires { IsSite VarArgPrep site registers.old }
    ensures { Leads VarArgPrep site.entry registers.old registers.new result }
{
    site.behind(1)
}

/// TFORLOOP: a further round, or the end of the loop. `None` where the round cannot be paid.
#[inline(always)]
pub(crate) fn for_each_loop(site: Site, registers: &mut [Value], fuel: &mut u64) -> Option<usize>
    requires { IsSite TForLoop site registers.old }
    ensures { MayPay TForLoop site.entry registers.old registers.new fuel.old fuel.new result }
{
    let v = get_above(registers, site.word, 4);
    if v == Value::Nil {
        return Some(site.behind(1));
    }
    pay(fuel)?;
    set_above(registers, site.word, 2, v);
    Some(site.back(site.word.bx() as usize))
}
