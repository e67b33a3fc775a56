// What the check has to know of each opcode.
ghost use Rattle.std.specs.Prelude.{◌≡◌, ◌<◌, ◌^◌, ◌==◌, Some, None};
ghost use Rattle.std.specs.List.{list_any};
ghost use Rattle.code_core.specs.Fields as fields;
ghost use Rattle.code_core.specs.Check.{is_same, begins_with, agrees};

use code_core::{Instruction, Opcode};

/// Whether an opcode is one of code on whole numbers.
pub fn is_whole(op: Opcode) -> bool
    ensures { result ≡ fields.is_whole op }
{
    match op {
        Opcode::LoadF | Opcode::PowK | Opcode::DivK | Opcode::Pow | Opcode::Div => false,
        _ => true,
    }
}

/// Whether an opcode returns from its function.
pub fn is_return(op: Opcode) -> bool
    ensures { result ≡ fields.is_return op }
{
    match op {
        Opcode::Return | Opcode::Return0 | Opcode::Return1 => true,
        _ => false,
    }
}

/// Whether an opcode stands nowhere but in the second half of a pair.
pub fn stands_second(op: Opcode) -> bool
    ensures { result ≡ fields.stands_second op }
{
    match op {
        Opcode::MmBin | Opcode::MmBinI | Opcode::MmBinK | Opcode::TForLoop | Opcode::ExtraArg =>
            true,
        _ => false,
    }
}

/// The second half of the pair that an instruction begins.
pub fn second_half(op: Opcode, word: Instruction) -> Option<Opcode>
    ensures { result ≡ fields.second_half op word }
{
    match op {
        Opcode::LoadKx | Opcode::NewTable => Some(Opcode::ExtraArg),
        Opcode::SetList => if word.k() {
            Some(Opcode::ExtraArg)
        } else {
            None
        },
        Opcode::AddI | Opcode::ShrI | Opcode::ShlI => Some(Opcode::MmBinI),
        Opcode::AddK | Opcode::SubK | Opcode::MulK | Opcode::ModK | Opcode::IDivK => Some(
            Opcode::MmBinK,
        ),
        Opcode::BAndK | Opcode::BOrK | Opcode::BXorK => Some(Opcode::MmBinK),
        Opcode::Add | Opcode::Sub | Opcode::Mul | Opcode::Mod | Opcode::IDiv => Some(Opcode::MmBin),
        Opcode::BAnd | Opcode::BOr | Opcode::BXor | Opcode::Shl | Opcode::Shr => Some(
            Opcode::MmBin,
        ),
        Opcode::Eq | Opcode::Lt | Opcode::Le | Opcode::Test | Opcode::TestSet => Some(Opcode::Jmp),
        Opcode::EqK | Opcode::EqI | Opcode::LtI | Opcode::LeI | Opcode::GtI => Some(Opcode::Jmp),
        Opcode::GeI => Some(Opcode::Jmp),
        Opcode::TForCall => Some(Opcode::TForLoop),
        _ => None,
    }
}

/// The register from which an instruction leaves an open list.
pub fn opens(op: Opcode, word: Instruction) -> Option<u8>
    ensures { result ≡ fields.opens op word }
{
    match op {
        Opcode::Call | Opcode::VarArg => if word.c() == 0 { Some(word.a()) } else { None },
        Opcode::TailCall => Some(word.a()),
        _ => None,
    }
}

/// Whether an instruction takes an open list up to its last value.
pub fn takes_list(op: Opcode, word: Instruction) -> bool
    ensures { result ≡ fields.takes_list op word }
{
    match op {
        Opcode::Call | Opcode::TailCall | Opcode::Return | Opcode::SetList => word.b() == 0,
        _ => false,
    }
}

/// The place to which an instruction may jump.
pub fn target(pc: usize, op: Opcode, word: Instruction) -> Option<i64>
    requires { pc < 2 ^ 31 }
    ensures { result ≡ fields.target pc op word }
{
    let pc = pc as i64;
    match op {
        Opcode::LFalseSkip => Some(pc + 2),
        Opcode::Jmp => Some(pc + 1 + i64::from(word.sj())),
        Opcode::ForLoop => Some(pc + 1 - i64::from(word.bx())),
        Opcode::ForPrep => Some(pc + 2 + i64::from(word.bx())),
        Opcode::TForPrep => Some(pc + 1 + i64::from(word.bx())),
        Opcode::TForLoop => Some(pc + 1 - i64::from(word.bx())),
        _ => None,
    }
}

/// Whether a number is that of an event of arithmetic.
pub fn is_event(number: u8) -> bool
    ensures { result ≡ list_any (λ event. number == event) fields.events }
{
    matches!(number, 6..=9 | 12..=17)
}

/// Whether two opcodes are the same.
pub fn is_same(op: Opcode, other: Opcode) -> bool
    ensures { result ≡ is_same op other }
{
    op.number() == other.number()
}

/// Whether an instruction begins a pair with this second half.
pub fn begins_with(second: Opcode, word: Instruction) -> bool
    ensures { result ≡ begins_with second word }
{
    match word.opcode() {
        Some(op) => match second_half(op, word) {
            Some(wanted) => is_same(second, wanted),
            None => false,
        },
        None => false,
    }
}

/// Whether a second half agrees with the first half in front of it.
pub fn agrees(first: Instruction, word: Instruction, second: Opcode) -> bool
    ensures { result ≡ agrees first word second }
{
    match second {
        Opcode::MmBin | Opcode::MmBinI | Opcode::MmBinK => is_event(word.c()),
        Opcode::TForLoop => first.a() == word.a(),
        _ => true,
    }
}
