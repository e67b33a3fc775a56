// What stands at the places of code.
ghost use Rattle.std.specs.Prelude.{◌≡◌, ◌<◌, ◌^◌, pos};
ghost use Rattle.code_core.specs.Check as rules;
ghost use Rattle.code_core.specs.Check.{opened};

use crate::opcodes::{
    agrees, begins_with, is_same, opens, second_half, stands_second, takes_list, target,
};
use code_core::{Instruction, Opcode, Proto};

/// The instruction at a place.
pub fn at(proto: &Proto, pc: usize) -> Option<Instruction>
    ensures { rules.at proto.now pc ≡ result }
{
    proto.code.get(pc).copied()
}

/// The instruction in front of a place.
#[tactic(auto, using(crate::proofs::PlaceLemmas::in_front_is))]
fn in_front(proto: &Proto, pc: usize) -> Option<Instruction>
    ensures { rules.in_front proto.now pc ≡ result }
{
    if pc == 0 { None } else { at(proto, pc - 1) }
}

/// The register from which an instruction leaves an open list, if it leaves one.
fn leaves(word: Instruction) -> Option<u8>
    ensures { rules.leaves word ≡ opened result }
{
    match word.opcode() {
        Some(op) => opens(op, word),
        None => None,
    }
}

/// The register from which a list is open at a place, if one is.
fn mark(proto: &Proto, pc: usize) -> Option<u8>
    ensures { rules.mark proto.now pc ≡ opened result }
{
    match in_front(proto, pc) {
        Some(word) => leaves(word),
        None => None,
    }
}

/// The field of an EXTRAARG behind a place, where one is there.
pub fn extra_at(proto: &Proto, pc: usize) -> Option<u32>
    requires { pc < 2 ^ 31 }
    ensures { rules.extra_at proto.now pc ≡ result }
{
    match at(proto, pc + 1) {
        Some(word) => match word.opcode() {
            Some(op) => {
                if is_same(Opcode::ExtraArg, op) {
                    Some(word.ax())
                } else {
                    None
                }
            }
            None => None,
        },
        None => None,
    }
}

/// Whether the instruction in front of a place begins a pair with this second half.
fn is_begun(proto: &Proto, pc: usize, second: Opcode) -> bool
    ensures { rules.there (rules.begins_with second) (rules.in_front proto.now pc) ≡ result }
{
    match in_front(proto, pc) {
        Some(first) => begins_with(second, first),
        None => false,
    }
}

/// Whether a second half is in this place.
fn is_second(proto: &Proto, pc: usize, op: Opcode) -> bool
    ensures { rules.is_second proto.now pc op ≡ result }
{
    match op {
        Opcode::Jmp => is_begun(proto, pc, Opcode::Jmp),
        _ => stands_second(op),
    }
}

/// Whether the second half that a first half wants stands behind it.
fn goes_on(proto: &Proto, pc: usize, first: Instruction, wanted: Option<Opcode>) -> bool
    requires { pc < 2 ^ 31 }
    ensures { rules.goes_on proto.now pc first wanted ≡ result }
{
    let Some(second) = wanted else {
        return true;
    };
    match at(proto, pc + 1) {
        Some(word) => match word.opcode() {
            Some(op) => is_same(second, op) && agrees(first, word, second),
            None => false,
        },
        None => false,
    }
}

/// Whether a first half has its second half behind it, and a second half its first half in front.
pub fn is_paired(proto: &Proto, pc: usize, op: Opcode, word: Instruction) -> bool
    requires { pc < 2 ^ 31 }
    ensures { rules.is_paired proto.now pc op word ≡ result }
{
    goes_on(proto, pc, word, second_half(op, word))
        && (!stands_second(op) || is_begun(proto, pc, op))
}

/// Whether a jump may land at a place.
fn lands(proto: &Proto, pc: usize) -> bool
    ensures { rules.lands proto.now (pos pc) ≡ result }
{
    match at(proto, pc) {
        Some(word) => match word.opcode() {
            Some(op) => !is_second(proto, pc, op),
            None => true,
        },
        None => false,
    }
}

/// Whether the place to which an instruction may jump is in the code and no second half.
pub fn is_landing(proto: &Proto, place: Option<i64>) -> bool
    ensures { rules.is_landing proto.now place ≡ result }
{
    match place {
        Some(pc) => pc >= 0 && lands(proto, pc as usize),
        None => true,
    }
}

/// Whether no list is open at the place to which an instruction may jump.
fn lands_fixed(proto: &Proto, place: Option<i64>) -> bool
    ensures { rules.lands_fixed proto.now place ≡ result }
{
    match place {
        Some(pc) => pc < 0 || mark(proto, pc as usize).is_none(),
        None => true,
    }
}

/// Whether an instruction takes a list that was opened at a register.
fn takes_from(register: u8, word: Instruction) -> bool
    ensures { rules.takes_from register word ≡ result }
{
    match word.opcode() {
        Some(op) => takes_list(op, word) && word.a() <= register,
        None => false,
    }
}

/// Whether the list that is left at a place, if one is, is taken by the next instruction.
fn is_taken(proto: &Proto, pc: usize, opened_at: Option<u8>) -> bool
    requires { pc < 2 ^ 31 }
    ensures { rules.is_taken proto.now pc (opened opened_at) ≡ result }
{
    let Some(register) = opened_at else {
        return true;
    };
    match at(proto, pc + 1) {
        Some(word) => takes_from(register, word),
        None => false,
    }
}

/// Whether open lists are left, taken and jumped to as the marks of the places say.
pub fn lists_fit(proto: &Proto, pc: usize, op: Opcode, word: Instruction) -> bool
    requires { pc < 2 ^ 31 }
    ensures { rules.lists_fit_marks proto.now pc op word ≡ result }
{
    is_taken(proto, pc, leaves(word))
        && (!takes_list(op, word) || mark(proto, pc).is_some())
        && lands_fixed(proto, target(pc, op, word))
}

/// Whether extra arguments are set apart and read where they may be.
pub fn varargs_fit(proto: &Proto, pc: usize, op: Opcode) -> bool
    ensures { rules.varargs_fit proto.now pc op ≡ result }
{
    match op {
        Opcode::VarArgPrep => pc == 0 && proto.vararg,
        Opcode::VarArg => pc != 0 && proto.vararg,
        _ => !(pc == 0 && proto.vararg),
    }
}
