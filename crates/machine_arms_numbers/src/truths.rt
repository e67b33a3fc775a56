// Truths (Lua 5.4 manual, 3.3.4 and 3.4.5): nil and false are false.
ghost use Rattle.code_core.specs.declared.opcode.Opcode.TheVariants.{Not, Test, TestSet};
ghost use Rattle.machine_arms_numbers.specs.Leading.{IsSite, Leads};

use crate::registers::{branch, get_a, get_b, truthy};
use crate::site::Site;
use table_core::Value;

/// NOT: R[A] := not R[B].
#[inline(always)]
pub(crate) fn negate_truth(site: Site, registers: &mut [Value]) -> usize
    requires { IsSite Not site registers.old }
    ensures { Leads Not site.entry registers.old registers.new result }
{
    let truth = truthy(get_b(registers, site.word));
    site.put_value(registers, Value::Bool(!truth), 1)
}

/// TEST: the next instruction is passed over where the truth of R[A] is not k.
#[inline(always)]
pub(crate) fn test(site: Site, registers: &mut [Value]) -> usize
    requires { IsSite Test site registers.old }
    ensures { Leads Test site.entry registers.old registers.new result }
{
    let truth = truthy(get_a(registers, site.word));
    branch(site.words, site.word, site.pc, truth)
}

/// TESTSET: R[A] := R[B] where its truth is k; else the next instruction is passed over.
#[inline(always)]
pub(crate) fn test_set(site: Site, registers: &mut [Value]) -> usize
    requires { IsSite TestSet site registers.old }
    ensures { Leads TestSet site.entry registers.old registers.new result }
{
    let v = get_b(registers, site.word);
    if truthy(v) != site.word.k() {
        return site.behind(2);
    }
    site.put_value(registers, v, 1)
}
