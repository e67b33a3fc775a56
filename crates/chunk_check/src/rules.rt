// The least rule that is broken at a place.
ghost use Rattle.std.specs.Prelude.{◌≡◌, ◌<◌, ◌^◌};
ghost use Rattle.code_core.specs.Check.{rules, opcode_rules};
ghost use Rattle.chunk_check.specs.Faults.{first_broken};

use crate::constants::{constants_there, function_there, upvalues_there};
use crate::opcodes::{is_return, is_whole, target};
use crate::places::{extra_at, is_landing, is_paired, lists_fit, varargs_fit};
use crate::registers::registers_there;
use code_core::{Instruction, Opcode, Proto};

/// The least rule that an instruction breaks, if it breaks one.
pub fn broken(proto: &Proto, pc: usize, word: Instruction) -> Option<u8>
    requires { pc < 2 ^ 31 }
    ensures { first_broken (rules proto.now pc word) ≡ result }
{
    let Some(op) = word.opcode() else {
        return Some(2);
    };
    if is_whole(op) {
        broken_by(proto, pc, word, op)
    } else {
        Some(2)
    }
}

/// The least rule behind the second that an instruction breaks.
fn broken_by(proto: &Proto, pc: usize, word: Instruction, op: Opcode) -> Option<u8>
    requires { pc < 2 ^ 31 }
    ensures { first_broken (opcode_rules proto.now pc word op) ≡ result }
{
    if !registers_there(proto.stack, op, word) {
        return Some(3);
    }
    if !constants_there(proto, op, word, extra_at(proto, pc)) {
        return Some(4);
    }
    if !upvalues_there(proto, op, word) {
        return Some(5);
    }
    if !function_there(proto, op, word) {
        return Some(6);
    }
    if !is_landing(proto, target(pc, op, word)) {
        return Some(7);
    }
    if !is_paired(proto, pc, op, word) {
        return Some(8);
    }
    if !is_return(op) && pc + 1 >= proto.code.len() {
        return Some(9);
    }
    if !lists_fit(proto, pc, op, word) {
        return Some(10);
    }
    if !varargs_fit(proto, pc, op) {
        return Some(11);
    }
    None
}
