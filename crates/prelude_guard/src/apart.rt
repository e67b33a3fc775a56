// Whether instructions keep the environment to such registers.
ghost use Rattle.std.specs.Prelude.{◌≡◌, not};
ghost use Rattle.std.specs.List.{list_all};
ghost use Rattle.code_core.specs.Fields as fields;
ghost use Rattle.code_core.specs.Instruction.{opcode_of};
ghost use Rattle.prelude_guard.specs.Checks as checks;
ghost use Rattle.prelude_guard.specs.Checks.{held_of};

use crate::held::{all_below, is_held, is_taken};
use code_core::{Instruction, Opcode, Proto};

/// Whether a register may not hold the environment.
fn is_free(outer: &Proto, own: &Proto, is_inner: bool, register: u16) -> bool
    ensures { result ≡ not (checks.is_taken (held_of outer.now own.now is_inner) own.now.own.code register) }
{
    !is_taken(outer, own, is_inner, register)
}

/// Whether the last of some registers in a row is free, if there is one.
fn last_is_free(outer: &Proto, own: &Proto, is_inner: bool, first: u8, number: u8) -> bool
    ensures { result ≡ list_all (λ r. not (checks.is_taken (held_of outer.now own.now is_inner) own.now.own.code r)) (fields.last_of first number) }
{
    number == 0
        || is_free(
            outer,
            own,
            is_inner,
            u16::from(first) + u16::from(number - 1),
        )
}

/// Whether the register C is free, unless it is a constant.
fn operand_is_free(outer: &Proto, own: &Proto, is_inner: bool, word: Instruction) -> bool
    ensures { result ≡ list_all (λ r. not (checks.is_taken (held_of outer.now own.now is_inner) own.now.own.code r)) (fields.register_or_constant word) }
{
    word.k() || is_free(outer, own, is_inner, u16::from(word.c()))
}

/// Whether all registers that an instruction names are free.
fn names_none(outer: &Proto, own: &Proto, is_inner: bool, op: Opcode, word: Instruction) -> bool
    ensures { result ≡ checks.names_none (held_of outer.now own.now is_inner) own.now.own.code op word }
{
    let a_free = is_free(outer, own, is_inner, u16::from(word.a()));
    let b_free = is_free(outer, own, is_inner, u16::from(word.b()));
    let c_free = is_free(outer, own, is_inner, u16::from(word.c()));
    let far = u16::from(word.a());
    match op {
        Opcode::Move
        | Opcode::GetI
        | Opcode::GetField
        | Opcode::AddI
        | Opcode::ShrI
        | Opcode::ShlI => a_free && b_free,
        Opcode::AddK | Opcode::SubK | Opcode::MulK | Opcode::ModK | Opcode::IDivK => a_free
            && b_free,
        Opcode::BAndK | Opcode::BOrK | Opcode::BXorK | Opcode::MmBin => a_free && b_free,
        Opcode::Unm | Opcode::BNot | Opcode::Not | Opcode::Len => a_free && b_free,
        Opcode::Eq | Opcode::Lt | Opcode::Le | Opcode::TestSet => a_free && b_free,
        Opcode::GetTable | Opcode::Add | Opcode::Sub | Opcode::Mul => a_free && b_free && c_free,
        Opcode::Mod | Opcode::IDiv | Opcode::BAnd | Opcode::BOr => a_free && b_free && c_free,
        Opcode::BXor | Opcode::Shl | Opcode::Shr => a_free && b_free && c_free,
        Opcode::SetTable => a_free && b_free && operand_is_free(outer, own, is_inner, word),
        Opcode::SetTabUp => operand_is_free(outer, own, is_inner, word),
        Opcode::SetI | Opcode::SetField => a_free && operand_is_free(outer, own, is_inner, word),
        Opcode::OpSelf => is_free(outer, own, is_inner, far + 1)
            && b_free
            && operand_is_free(outer, own, is_inner, word),
        Opcode::LoadNil | Opcode::SetList => is_free(
            outer,
            own,
            is_inner,
            far + u16::from(word.b()),
        ),
        Opcode::Concat | Opcode::TailCall => a_free
            && last_is_free(outer, own, is_inner, word.a(), word.b()),
        Opcode::Call => a_free
            && last_is_free(outer, own, is_inner, word.a(), word.b())
            && last_is_free(outer, own, is_inner, word.a(), word.c().saturating_sub(1)),
        Opcode::Return => last_is_free(outer, own, is_inner, word.a(), word.b().saturating_sub(1)),
        Opcode::ForLoop | Opcode::ForPrep | Opcode::TForPrep => is_free(
            outer,
            own,
            is_inner,
            far + 3,
        ),
        Opcode::TForCall => is_free(outer, own, is_inner, far + 6)
            && is_free(outer, own, is_inner, far + 3 + u16::from(word.c())),
        Opcode::TForLoop => is_free(outer, own, is_inner, far + 4),
        Opcode::VarArg => if word.c() == 0 {
            a_free
        } else {
            last_is_free(outer, own, is_inner, word.a(), word.c() - 1)
        },
        Opcode::Jmp | Opcode::Return0 | Opcode::VarArgPrep | Opcode::ExtraArg => true,
        Opcode::LoadF | Opcode::PowK | Opcode::DivK | Opcode::Pow | Opcode::Div => true,
        _ => a_free,
    }
}

/// Whether an instruction reads registers from A on.
fn reads_from(op: Opcode) -> bool
    ensures { result ≡ checks.reads_from op }
{
    match op {
        Opcode::Concat | Opcode::Call | Opcode::TailCall | Opcode::SetList => true,
        Opcode::Return | Opcode::Return0 | Opcode::Return1 => true,
        Opcode::ForLoop | Opcode::ForPrep | Opcode::TForCall => true,
        _ => false,
    }
}

/// Whether an instruction reads and writes no register that may hold the environment.
fn spares(outer: &Proto, own: &Proto, is_inner: bool, op: Opcode, word: Instruction) -> bool
    ensures { result ≡ checks.spares (held_of outer.now own.now is_inner) own.now.own.code op word }
{
    names_none(outer, own, is_inner, op, word)
        && (!reads_from(op) || all_below(outer, own, is_inner, word.a()))
}

/// Whether an instruction does with the environment only what the prelude may do.
fn is_apart(outer: &Proto, own: &Proto, is_inner: bool, op: Opcode, word: Instruction) -> bool
    ensures { result ≡ checks.is_apart (held_of outer.now own.now is_inner) own.now.own.code op word }
{
    match op {
        Opcode::GetUpval => !is_held(outer, own, is_inner, word.b())
            || is_taken(outer, own, is_inner, u16::from(word.a())),
        Opcode::SetUpval => !is_held(outer, own, is_inner, word.b())
            && spares(outer, own, is_inner, op, word),
        Opcode::GetTabUp | Opcode::GetField => true,
        Opcode::GetTable => is_free(outer, own, is_inner, u16::from(word.c())),
        Opcode::SetTabUp => !is_held(outer, own, is_inner, word.a())
            && spares(outer, own, is_inner, op, word),
        _ => spares(outer, own, is_inner, op, word),
    }
}

/// The same of a word, which may have no opcode.
fn word_is_apart(outer: &Proto, own: &Proto, is_inner: bool, word: Instruction) -> bool
    ensures { result ≡ checks.is_apart_by (held_of outer.now own.now is_inner) own.now.own.code word (opcode_of word) }
{
    match word.opcode() {
        None => true,
        Some(op) => is_apart(outer, own, is_inner, op, word),
    }
}

/// Whether all instructions of a function do.
pub fn code_is_apart(outer: &Proto, own: &Proto, is_inner: bool) -> bool
    ensures { result ≡ checks.code_is_apart outer.now own.now is_inner }
{
    own.code
        .iter()
        .all(|word| word_is_apart(outer, own, is_inner, *word))
}
