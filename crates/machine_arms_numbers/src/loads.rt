// Instructions that put a value into a register (Lua 5.4's lopcodes.h, MOVE to LOADNIL).
ghost use Rattle.std.specs.Prelude.{◌≡◌, ◌+◌, ◌≤◌, length, Some};
ghost use Rattle.code_core.specs.declared.opcode.Opcode.TheVariants.{Move, LoadI, LoadK, LoadKx, LoadNil};
ghost use Rattle.machine_arms_numbers.specs.Leading.{IsSite, Leads};
ghost use Rattle.machine_arms_numbers.specs.Numbers.{cleared, loads_truth};

use crate::registers::{get_b, value_numbered};
use crate::site::Site;
use code_core::{Opcode, fetch};
use table_core::Value;

/// MOVE: R[A] := R[B].
#[inline(always)]
pub(crate) fn move_register(site: Site, registers: &mut [Value]) -> usize
    requires { IsSite Move site registers.old }
    ensures { Leads Move site.entry registers.old registers.new result }
{
    let v = get_b(registers, site.word);
    site.put_value(registers, v, 1)
}

/// LOADI: R[A] := sBx.
#[inline(always)]
pub(crate) fn load_integer(site: Site, registers: &mut [Value]) -> usize
    requires { IsSite LoadI site registers.old }
    ensures { Leads LoadI site.entry registers.old registers.new result }
{
    site.put_integer(registers, i64::from(site.word.sbx()), 1)
}

/// LOADK: R[A] := K[Bx].
#[inline(always)]
pub(crate) fn load_constant(site: Site, registers: &mut [Value]) -> usize
    requires { IsSite LoadK site registers.old }
    ensures { Leads LoadK site.entry registers.old registers.new result }
{
    let v = value_numbered(site.constants, site.word.bx() as usize);
    site.put_value(registers, v, 1)
}

/// LOADKX: R[A] := K[Ax of the next instruction].
#[inline(always)]
pub(crate) fn load_far_constant(site: Site, registers: &mut [Value]) -> usize
    requires { IsSite LoadKx site registers.old }
    ensures { Leads LoadKx site.entry registers.old registers.new result }
{
    let extra = fetch(site.words, site.behind(1));
    let v = value_numbered(site.constants, extra.ax() as usize);
    site.put_value(registers, v, 2)
}

/// LOADFALSE, LFALSESKIP and LOADTRUE: R[A] := a truth, and on to the place `by` behind the instruction.
#[inline(always)]
pub(crate) fn load_truth(
    op: Opcode,
    site: Site,
    registers: &mut [Value],
    truth: bool,
    by: usize,
) -> usize
    requires at { IsSite op site registers.old }
    requires form { loads_truth op ≡ Some (truth, by) }
    ensures { Leads op site.entry registers.old registers.new result }
{
    site.put_value(registers, Value::Bool(truth), by)
}

/// LOADNIL: R[A] to R[A + B] := nil.
#[inline(always)]
pub(crate) fn load_nil(site: Site, registers: &mut [Value]) -> usize
    requires { IsSite LoadNil site registers.old }
    ensures { Leads LoadNil site.entry registers.old registers.new result }
{
    clear(
        registers,
        site.word.a() as usize,
        site.word.b() as usize + 1,
    );
    site.behind(1)
}

/// Sets `count` registers to nil.
#[inline(always)]
fn clear(registers: &mut [Value], from: usize, count: usize)
    requires { from + count ≤ length registers.old }
    ensures { registers.new ≡ cleared from count registers.old }
{
    for n in 0..count {
        registers[from + n] = Value::Nil;
    }
}
