// Instruction words, of which the low 32 bits are kept.
ghost use Rattle.std.specs.Prelude.{◌≡◌, ◌%◌, ◌^◌};
ghost use Rattle.code_core.specs.Instruction.{abc, abx, op_ax};
ghost use Rattle.code_emitter.specs.Listing.{low};

use code_core::{Instruction, Opcode};

/// The low 32 bits of a number.
fn low_bits(number: u64) -> u64
    ensures { result ≡ number % 2 ^ 32 }
{
    number & 0xffff_ffff
}

/// The instruction of the low 32 bits of a number.
fn word(number: u64) -> Instruction
    ensures { result ≡ low (record { 0 = number }) }
{
    Instruction(low_bits(number) as u32)
}

/// The instruction with five fields.
pub fn word_abc(op: Opcode, a: usize, b: usize, c: usize, k: bool) -> Instruction
    ensures { result ≡ low (abc op a b c k) }
{
    let first = u64::from(op.number()) + (low_bits(a as u64) << 7) + (u64::from(k) << 15);
    word(first + (low_bits(b as u64) << 16) + (low_bits(c as u64) << 24))
}

/// The instruction with a field Bx.
pub(crate) fn word_abx(op: Opcode, a: usize, bx: usize) -> Instruction
    ensures { result ≡ low (abx op a bx) }
{
    word(u64::from(op.number()) + (low_bits(a as u64) << 7) + (low_bits(bx as u64) << 15))
}

/// The instruction with a field Ax.
pub(crate) fn word_ax(op: Opcode, ax: usize) -> Instruction
    ensures { result ≡ low (op_ax op ax) }
{
    word(u64::from(op.number()) + (low_bits(ax as u64) << 7))
}
