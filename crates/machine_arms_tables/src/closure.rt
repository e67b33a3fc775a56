// The function that runs, and the values that an instruction names by number.
ghost use Rattle.std.specs.Prelude.{◌≡◌, ◌+◌, ◌<◌, length, slice_get, slice_set, Some, true, false, cond, pos};
ghost use Rattle.code_core.specs.Instruction.{c_of, k_of};
ghost use Rattle.table_core.specs.declared.value.Value.TheVariants.{Int};

use code_core::Instruction;
use table_core::{CellId, Value};

/// What the function that runs has beside its registers: the words and the constants of its code, and the cells of its upvalues (LClosure of lobject.h).
#[derive(Clone, Copy)]
pub struct Closure<'a> {
    pub words: &'a [Instruction],
    pub constants: &'a [Value],
    pub upvalues: &'a [CellId],
}

/// R[n] := v.
#[inline(always)]
pub fn set_register(registers: &mut [Value], n: usize, v: Value)
    requires { n < length registers.old }
    ensures { registers.new ≡ slice_set registers.old n v }
{
    registers[n] = v;
}

/// The integer that a field of an instruction spells.
#[inline(always)]
pub(crate) fn spelled(n: u8) -> Value
    ensures { result ≡ Int (pos n) }
{
    Value::Int(i64::from(n))
}

impl<'a> Closure<'a> {
    /// K[n].
    #[inline(always)]
    pub(crate) fn constant(self, n: usize) -> Value
        requires { n < length self.constants.now }
        ensures { slice_get self.entry.constants.now n ≡ Some result }
    {
        self.constants[n]
    }

    /// K[C] where k says so, else R[C].
    #[inline(always)]
    pub(crate) fn operand(self, registers: &[Value], i: Instruction) -> Value
        requires constant { k_of i ≡ true → c_of i < length self.constants.now }
        requires register { k_of i ≡ false → c_of i < length registers.now }
        ensures { cond (k_of i) (slice_get self.entry.constants.now (c_of i)) (slice_get registers.now (c_of i)) ≡ Some result }
    {
        if i.k() {
            self.constants[i.c() as usize]
        } else {
            registers[i.c() as usize]
        }
    }

    /// The place behind an instruction.
    #[inline(always)]
    pub fn next(self, pc: usize) -> usize
        requires { pc + 1 < length self.words.now }
        ensures { result ≡ pc + 1 }
    {
        let _size = self.words.len();
        pc + 1
    }

    /// The place behind an instruction of two words.
    #[inline(always)]
    pub(crate) fn behind_pair(self, pc: usize) -> usize
        requires { pc + 2 < length self.words.now }
        ensures { result ≡ pc + 2 }
    {
        let _size = self.words.len();
        pc + 2
    }
}
