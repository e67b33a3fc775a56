// An instruction at its place in the code of a function.
ghost use Rattle.std.specs.Prelude.{◌≡◌, ◌+◌, ◌-◌, ◌<◌, ◌≤◌, length, slice_set};
ghost use Rattle.code_core.specs.Instruction.{a_of};
ghost use Rattle.table_core.specs.declared.value.Value.TheVariants.{Int};

use code_core::Instruction;
use table_core::Value;

/// The words and the constants of the function that runs, and the instruction at a place among the words.
#[derive(Clone, Copy)]
pub(crate) struct Site<'a> {
    pub words: &'a [Instruction],
    pub constants: &'a [Value],
    pub word: Instruction,
    pub pc: usize,
}

impl<'a> Site<'a> {
    /// The place `by` behind the instruction.
    #[inline(always)]
    pub(crate) fn behind(self, by: usize) -> usize
        requires { self.pc + by < length self.words.now }
        ensures { result ≡ self.entry.pc + by }
    {
        let _size = self.words.len();
        self.pc + by
    }

    /// The place `by` in front of the next instruction.
    #[inline(always)]
    pub(crate) fn back(self, by: usize) -> usize
        requires there { self.pc + 1 < length self.words.now }
        requires near { by ≤ self.pc + 1 }
        ensures { result ≡ self.entry.pc + 1 - by }
    {
        let _size = self.words.len();
        self.pc + 1 - by
    }

    /// R[A] := v, and the place `by` behind the instruction.
    #[inline(always)]
    pub(crate) fn put_value(self, registers: &mut [Value], v: Value, by: usize) -> usize
        requires there { a_of self.word < length registers.old }
        requires next { self.pc + by < length self.words.now }
        ensures registers { registers.new ≡ slice_set registers.old (a_of self.entry.word) v }
        ensures next { result ≡ self.entry.pc + by }
    {
        registers[self.word.a() as usize] = v;
        self.behind(by)
    }

    /// R[A] := an integer, and the place `by` behind the instruction. The value is made here, so that none of the bytes of another one goes with it.
    #[inline(always)]
    pub(crate) fn put_integer(self, registers: &mut [Value], n: i64, by: usize) -> usize
        requires there { a_of self.word < length registers.old }
        requires next { self.pc + by < length self.words.now }
        ensures registers { registers.new ≡ slice_set registers.old (a_of self.entry.word) (Int n) }
        ensures next { result ≡ self.entry.pc + by }
    {
        registers[self.word.a() as usize] = Value::Int(n);
        self.behind(by)
    }
}
