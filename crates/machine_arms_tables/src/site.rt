// An instruction at its place in the code of the closure that runs.
ghost use Rattle.std.specs.Prelude.{◌≡◌, ◌+◌, ◌<◌, length, slice_set};
ghost use Rattle.code_core.specs.Instruction.{a_of};

use crate::closure::{Closure, set_register};
use code_core::Instruction;
use lua_heap::Strings;
use table_core::Value;

/// The closure that runs, the strings, and the instruction at a place among the closure's words.
#[derive(Clone, Copy)]
pub(crate) struct Site<'a> {
    pub closure: Closure<'a>,
    pub strings: &'a Strings,
    pub word: Instruction,
    pub pc: usize,
}

impl<'a> Site<'a> {
    /// R[A] := v, and the place behind the instruction.
    #[inline(always)]
    pub(crate) fn store(self, registers: &mut [Value], v: Value) -> usize
        requires there { a_of self.word < length registers.old }
        requires next { self.pc + 1 < length self.closure.words.now }
        ensures registers { registers.new ≡ slice_set registers.old (a_of self.entry.word) v }
        ensures next { result ≡ self.entry.pc + 1 }
    {
        set_register(registers, self.word.a() as usize, v);
        self.closure.next(self.pc)
    }
}
