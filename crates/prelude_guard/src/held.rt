// The upvalues and registers of a function that may hold the environment.
ghost use Rattle.std.specs.Prelude.{◌≡◌, slice_get};
ghost use Rattle.std.specs.List.{list_all};
ghost use Rattle.prelude_guard.specs.Checks as checks;
ghost use Rattle.prelude_guard.specs.Checks.{all_held, held_of};

use code_core::{Instruction, Opcode, Proto, UpDesc};

/// Whether an instruction takes an upvalue to this register.
fn takes_to(word: Instruction, register: u8) -> bool
    ensures { result ≡ checks.takes all_held register word }
{
    match word.opcode() {
        Some(Opcode::GetUpval) => word.a() == register,
        _ => false,
    }
}

/// Whether code takes an upvalue to this register.
fn takes_any(code: &[Instruction], register: u8) -> bool
    ensures { result ≡ checks.is_taken all_held code.now register }
{
    code.iter().any(|word| takes_to(*word, register))
}

/// Whether an upvalue is a register to which code takes an upvalue.
fn is_shared(code: &[Instruction], upvalues: &[UpDesc], upvalue: u8) -> bool
    ensures { result ≡ checks.is_shared code.now (slice_get upvalues.now upvalue) }
{
    match upvalues.get(upvalue as usize) {
        Some(shared) => shared.in_stack && takes_any(code, shared.index),
        None => false,
    }
}

/// Whether an upvalue may hold the environment: each one of the prelude's own functions does. One of a function that is made by `outer` may, where it is a
/// register of `outer` that may.
pub fn is_held(outer: &Proto, own: &Proto, is_inner: bool, upvalue: u8) -> bool
    ensures { result ≡ held_of outer.now own.now is_inner upvalue }
{
    !is_inner || is_shared(&outer.code, &own.upvalues, upvalue)
}

/// Whether an instruction takes such an upvalue to this register.
fn takes(outer: &Proto, own: &Proto, is_inner: bool, word: Instruction, register: u16) -> bool
    ensures { result ≡ checks.takes (held_of outer.now own.now is_inner) register word }
{
    match word.opcode() {
        Some(Opcode::GetUpval) => is_held(outer, own, is_inner, word.b())
            && u16::from(word.a()) == register,
        _ => false,
    }
}

/// Whether a register may hold the environment.
pub fn is_taken(outer: &Proto, own: &Proto, is_inner: bool, register: u16) -> bool
    ensures { result ≡ checks.is_taken (held_of outer.now own.now is_inner) own.now.own.code register }
{
    own.code
        .iter()
        .any(|word| takes(outer, own, is_inner, *word, register))
}

/// Whether an instruction takes no such upvalue to this register, or to one behind it.
fn takes_below(outer: &Proto, own: &Proto, is_inner: bool, word: Instruction, from: u8) -> bool
    ensures { result ≡ checks.takes_below (held_of outer.now own.now is_inner) from word }
{
    match word.opcode() {
        Some(Opcode::GetUpval) => !is_held(outer, own, is_inner, word.b()) || word.a() < from,
        _ => true,
    }
}

/// Whether all registers that may hold the environment stand below this one.
pub fn all_below(outer: &Proto, own: &Proto, is_inner: bool, from: u8) -> bool
    ensures { result ≡ list_all (checks.takes_below (held_of outer.now own.now is_inner) from) own.now.own.code }
{
    own.code
        .iter()
        .all(|word| takes_below(outer, own, is_inner, *word, from))
}
