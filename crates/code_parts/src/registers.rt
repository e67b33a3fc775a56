// The registers that a function's frame needs.
ghost use Rattle.std.specs.Prelude.{◌≡◌, ◌+◌, max, map};
ghost use Rattle.code_core.specs.Fields as fields;
ghost use Rattle.code_of.specs.CodeOf.{named_by, room_for, room};

use code_core::{Instruction, Opcode};
use code_emitter::Step;

/// Room for one more register.
fn hold(room: usize, register: u16) -> usize
    ensures { result ≡ max room (register + 1) }
{
    room.max(usize::from(register) + 1)
}

/// Room for the last of some registers in a row, if there is one.
fn hold_last(room: usize, first: u8, number: u8) -> usize
    ensures { result ≡ room_for (fields.last_of first number) room }
{
    if number == 0 {
        room
    } else {
        hold(room, u16::from(first) + u16::from(number - 1))
    }
}

/// Room for the register C, unless it is a constant.
fn hold_operand(room: usize, word: Instruction) -> usize
    ensures { result ≡ room_for (fields.register_or_constant word) room }
{
    if word.k() {
        room
    } else {
        hold(room, u16::from(word.c()))
    }
}

/// Room for all registers that an instruction reads or writes.
fn hold_registers(room: usize, op: Opcode, word: Instruction) -> usize
    ensures { result ≡ room_for (fields.registers op word) room }
{
    let (a, b, c) = (
        u16::from(word.a()),
        u16::from(word.b()),
        u16::from(word.c()),
    );
    match op {
        Opcode::Move | Opcode::GetI | Opcode::GetField | Opcode::AddI => hold(hold(room, a), b),
        Opcode::ShrI | Opcode::ShlI => hold(hold(room, a), b),
        Opcode::AddK | Opcode::SubK | Opcode::MulK | Opcode::ModK | Opcode::IDivK => {
            hold(hold(room, a), b)
        }
        Opcode::BAndK | Opcode::BOrK | Opcode::BXorK | Opcode::MmBin => hold(hold(room, a), b),
        Opcode::Unm | Opcode::BNot | Opcode::Not | Opcode::Len => hold(hold(room, a), b),
        Opcode::Eq | Opcode::Lt | Opcode::Le | Opcode::TestSet => hold(hold(room, a), b),
        Opcode::GetTable | Opcode::Add | Opcode::Sub | Opcode::Mul => {
            hold(hold(hold(room, a), b), c)
        }
        Opcode::Mod | Opcode::IDiv | Opcode::BAnd | Opcode::BOr => {
            hold(hold(hold(room, a), b), c)
        }
        Opcode::BXor | Opcode::Shl | Opcode::Shr => hold(hold(hold(room, a), b), c),
        Opcode::SetTable => hold_operand(hold(hold(room, a), b), word),
        Opcode::SetTabUp => hold_operand(room, word),
        Opcode::SetI | Opcode::SetField => hold_operand(hold(room, a), word),
        Opcode::OpSelf => hold_operand(hold(hold(room, a + 1), b), word),
        Opcode::LoadNil | Opcode::SetList => hold(room, a + b),
        Opcode::Concat | Opcode::TailCall => hold_last(hold(room, a), word.a(), word.b()),
        Opcode::Call => hold_last(
            hold_last(hold(room, a), word.a(), word.b()),
            word.a(),
            word.c().saturating_sub(1),
        ),
        Opcode::Return => hold_last(room, word.a(), word.b().saturating_sub(1)),
        Opcode::ForLoop | Opcode::ForPrep | Opcode::TForPrep => hold(room, a + 3),
        Opcode::TForCall => hold(hold(room, a + 6), a + 3 + c),
        Opcode::TForLoop => hold(room, a + 4),
        Opcode::VarArg if c == 0 => hold(room, a),
        Opcode::VarArg => hold_last(room, word.a(), word.c() - 1),
        Opcode::Jmp | Opcode::Return0 | Opcode::VarArgPrep | Opcode::ExtraArg => room,
        Opcode::LoadF | Opcode::PowK | Opcode::DivK | Opcode::Pow | Opcode::Div => room,
        _ => hold(room, a),
    }
}

/// Room for all registers that an instruction names, if it is one.
fn hold_word(room: usize, word: Instruction) -> usize
    ensures { result ≡ room_for (named_by word) room }
{
    match word.opcode() {
        Some(op) => hold_registers(room, op, word),
        None => room,
    }
}

/// How many registers code needs, with some that are there in any case: one more than the last
/// one that it names.
pub fn room(steps: &[Step], least: usize) -> usize
    ensures { result ≡ room (map (λ s. s.instruction) steps.now) least }
{
    let mut room = least;
    for step in steps {
        room = hold_word(room, step.instruction);
    }
    room
}
