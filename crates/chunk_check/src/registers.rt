// Whether the registers that an instruction names are there.
ghost use Rattle.std.specs.Prelude.{◌≡◌, nat_lt};
ghost use Rattle.code_core.specs.Fields as fields;
ghost use Rattle.chunk_check.specs.Opcodes.{all_below, registers_there};

use code_core::{Instruction, Opcode};

/// Whether a register is there.
fn is_there(stack: u8, register: u16) -> bool
    ensures { result ≡ nat_lt register stack }
{
    register < u16::from(stack)
}

/// Whether the last of some registers in a row is there, if there is one.
fn is_last_there(stack: u8, first: u8, number: u8) -> bool
    ensures { result ≡ all_below stack (fields.last_of first number) }
{
    number == 0 || is_there(stack, u16::from(first) + u16::from(number - 1))
}

/// Whether the register C is there, unless it is a constant.
fn is_operand_there(stack: u8, word: Instruction) -> bool
    ensures { result ≡ all_below stack (fields.register_or_constant word) }
{
    word.k() || word.c() < stack
}

/// Whether all registers that an instruction reads or writes are there.
pub fn registers_there(stack: u8, op: Opcode, word: Instruction) -> bool
    ensures { result ≡ registers_there stack op word }
{
    let (a, b, c) = (word.a(), word.b(), word.c());
    let far = u16::from(a);
    match op {
        Opcode::Move | Opcode::GetI | Opcode::GetField | Opcode::AddI => a < stack && b < stack,
        Opcode::ShrI | Opcode::ShlI => a < stack && b < stack,
        Opcode::AddK | Opcode::SubK | Opcode::MulK | Opcode::ModK | Opcode::IDivK => a < stack
            && b < stack,
        Opcode::BAndK | Opcode::BOrK | Opcode::BXorK | Opcode::MmBin => a < stack && b < stack,
        Opcode::Unm | Opcode::BNot | Opcode::Not | Opcode::Len => a < stack && b < stack,
        Opcode::Eq | Opcode::Lt | Opcode::Le | Opcode::TestSet => a < stack && b < stack,
        Opcode::GetTable | Opcode::Add | Opcode::Sub | Opcode::Mul => a < stack
            && b < stack
            && c < stack,
        Opcode::Mod | Opcode::IDiv | Opcode::BAnd | Opcode::BOr => a < stack
            && b < stack
            && c < stack,
        Opcode::BXor | Opcode::Shl | Opcode::Shr => a < stack && b < stack && c < stack,
        Opcode::SetTable => a < stack && b < stack && is_operand_there(stack, word),
        Opcode::SetTabUp => is_operand_there(stack, word),
        Opcode::SetI | Opcode::SetField => a < stack && is_operand_there(stack, word),
        Opcode::OpSelf => is_there(stack, far + 1) && b < stack && is_operand_there(stack, word),
        Opcode::LoadNil | Opcode::SetList => is_there(stack, far + u16::from(b)),
        Opcode::Concat | Opcode::TailCall => a < stack && is_last_there(stack, a, b),
        Opcode::Call => a < stack
            && is_last_there(stack, a, b)
            && is_last_there(stack, a, c.saturating_sub(1)),
        Opcode::Return => is_last_there(stack, a, b.saturating_sub(1)),
        Opcode::ForLoop | Opcode::ForPrep | Opcode::TForPrep => is_there(stack, far + 3),
        Opcode::TForCall => is_there(stack, far + 6) && is_there(stack, far + 3 + u16::from(c)),
        Opcode::TForLoop => is_there(stack, far + 4),
        Opcode::VarArg => if c == 0 {
            a < stack
        } else {
            is_last_there(stack, a, c - 1)
        },
        Opcode::Jmp | Opcode::Return0 | Opcode::VarArgPrep | Opcode::ExtraArg => true,
        Opcode::LoadF | Opcode::PowK | Opcode::DivK | Opcode::Pow | Opcode::Div => true,
        _ => a < stack,
    }
}
