// The instruction word and its fields.
ghost use Rattle.std.specs.Prelude.{◌≡◌, slice_get, ◌<◌, ◌^◌, ◌≤ℤ◌, pos, negsuc, length, Some};
ghost use Rattle.code_core.specs.Instruction.{abc, abx, op_ax, opcode_of, a_of, b_of, c_of, k_of, bx_of, sbx_of, ax_of, sj_of, sb_of, sc_of};

use crate::opcode::{OPCODES, Opcode};

/// An instruction, as the word that `lopcodes.h` of Lua 5.4 lays out.
#[derive(Clone, Copy, Debug, PartialEq, Eq)]
pub struct Instruction(pub u32);

impl Instruction {
    /// The opcode, where the number in its field is one's.
    pub fn opcode(self) -> Option<Opcode>
        ensures { result ≡ opcode_of self }
    {
        opcode_at(&OPCODES, (self.0 & 0x7f) as usize)
    }

    /// The field A.
    pub fn a(self) -> u8
        ensures { result ≡ a_of self }
    {
        (self.0 >> 7 & 0xff) as u8
    }

    /// The field B.
    pub fn b(self) -> u8
        ensures { result ≡ b_of self }
    {
        (self.0 >> 16 & 0xff) as u8
    }

    /// The field C.
    pub fn c(self) -> u8
        ensures { result ≡ c_of self }
    {
        (self.0 >> 24) as u8
    }

    /// The flag k.
    pub fn k(self) -> bool
        ensures { result ≡ k_of self }
    {
        self.0 >> 15 & 1 == 1
    }

    /// The field Bx.
    pub fn bx(self) -> u32
        ensures { result ≡ bx_of self }
    {
        self.0 >> 15
    }

    /// The signed field sBx.
    pub fn sbx(self) -> i32
        ensures { result ≡ sbx_of self }
    {
        self.bx() as i32 - 65535
    }

    /// The field Ax.
    pub fn ax(self) -> u32
        ensures { result ≡ ax_of self }
    {
        self.0 >> 7
    }

    /// The signed field sJ.
    pub fn sj(self) -> i32
        ensures { result ≡ sj_of self }
    {
        self.ax() as i32 - 16777215
    }

    /// The signed field sB.
    pub fn sb(self) -> i16
        ensures { result ≡ sb_of self }
    {
        i16::from(self.b()) - 127
    }

    /// The signed field sC.
    pub fn sc(self) -> i16
        ensures { result ≡ sc_of self }
    {
        i16::from(self.c()) - 127
    }

    /// The instruction with these five fields.
    pub fn make_abc(op: Opcode, a: u8, b: u8, c: u8, k: bool) -> Instruction
        ensures word { result ≡ abc op a b c k }
        ensures op { opcode_of result ≡ Some op }
        ensures a { a_of result ≡ a }
        ensures b { b_of result ≡ b }
        ensures c { c_of result ≡ c }
        ensures k { k_of result ≡ k }
    {
        let low = op.number() + (u32::from(a) << 7) + (u32::from(k) << 15);
        Instruction(low + (u32::from(b) << 16) + (u32::from(c) << 24))
    }

    /// The instruction with a field Bx.
    pub fn make_abx(op: Opcode, a: u8, bx: u32) -> Instruction
        requires { bx < 2 ^ 17 }
        ensures word { result ≡ abx op a bx }
        ensures op { opcode_of result ≡ Some op }
        ensures a { a_of result ≡ a }
        ensures bx { bx_of result ≡ bx }
    {
        Instruction(op.number() + (u32::from(a) << 7) + (bx << 15))
    }

    /// The instruction with a field Ax.
    pub fn make_ax(op: Opcode, ax: u32) -> Instruction
        requires { ax < 2 ^ 25 }
        ensures word { result ≡ op_ax op ax }
        ensures op { opcode_of result ≡ Some op }
        ensures ax { ax_of result ≡ ax }
    {
        Instruction(op.number() + (ax << 7))
    }

    /// The instruction with a field sJ.
    pub fn make_sj(op: Opcode, sj: i32) -> Instruction
        requires low { negsuc 16777214 ≤ℤ sj }
        requires high { sj ≤ℤ pos 16777216 }
        ensures op { opcode_of result ≡ Some op }
        ensures sj { sj_of result ≡ sj }
    {
        Instruction::make_ax(op, (sj + 16777215) as u32)
    }
}

/// The opcode at a place of a list.
fn opcode_at(opcodes: &[Opcode], number: usize) -> Option<Opcode>
    ensures { result ≡ slice_get opcodes.now number }
{
    opcodes.get(number).copied()
}

/// The instruction at a place.
#[inline(always)]
pub fn fetch(words: &[Instruction], pc: usize) -> Instruction
    requires { pc < length words.now }
    ensures { slice_get words.now pc ≡ Some result }
{
    words[pc]
}
