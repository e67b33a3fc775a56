// Extra arguments in registers, as an open list or at most two of them, which change nothing but the stack (OP_VARARG of lvm.c).
ghost use Rattle.std.specs.Prelude.{◌≡◌, ◌<◌, ◌+◌, IfNone, IfSome, length, true};
ghost use Rattle.code_core.specs.Instruction.{c_of, opcode_of};
ghost use Rattle.lua_stack.specs.Frames.{HasLuaTop};
ghost use Rattle.frame_calls.specs.Listing.{ListsVarargs, TakesVarargs, WritesVarargs, is_list, taken_of};

use crate::calling::one_less;
use crate::returning::{Taker, first_two, hand};
use code_core::{Instruction, Opcode};
use lua_stack::Stack;

/// A VARARG: the arguments beyond the parameters are written to registers, all as an open list or at most two of them, and the frame goes on after it. `None`, with
/// all as before, at any other instruction, where more are wanted, and where memory runs out.
#[inline(always)]
pub(crate) fn write_varargs(
    stack: &mut Stack,
    words: &[Instruction],
    pc: usize,
    i: Instruction,
) -> Option<()>
    requires top { HasLuaTop stack.old }
    ensures writes { IfSome result (λ _. WritesVarargs stack.old stack.new words.now pc i) }
    ensures kept { IfNone result (stack.new ≡ stack.old) }
    ensures listed { stack.new.open_cells ≡ stack.old.open_cells }
{
    match list_varargs(stack, words, pc, i) {
        Some(()) => Some(()),
        None => take_varargs(stack, words, pc, i),
    }
}

/// Writes at most two of them.
fn take_varargs(stack: &mut Stack, words: &[Instruction], pc: usize, i: Instruction) -> Option<()>
    requires { HasLuaTop stack.old }
    ensures takes { IfSome result (λ _. TakesVarargs stack.old stack.new words.now pc i) }
    ensures kept { IfNone result (stack.new ≡ stack.old) }
    ensures listed { stack.new.open_cells ≡ stack.old.open_cells }
{
    let count = count_taken(i)?;
    if count > 2 {
        return None;
    }
    let register = i.a() as usize;
    let end = register.checked_add(count)?;
    if end > stack.registers().len() {
        return None;
    }
    let to = behind(words, pc)?;
    let given = first_two(stack.varargs());
    hand(
        stack,
        Taker {
            register,
            count,
            to,
        },
        given,
    );
    Some(())
}

/// How many of them an instruction wants, where it says so.
fn count_taken(i: Instruction) -> Option<usize>
    ensures { result ≡ taken_of (opcode_of i) (c_of i) }
{
    match i.opcode() {
        Some(Opcode::VarArg) => one_less(i.c()),
        _ => None,
    }
}

/// Writes all of them as an open list.
fn list_varargs(stack: &mut Stack, words: &[Instruction], pc: usize, i: Instruction) -> Option<()>
    requires top { HasLuaTop stack.old }
    ensures lists { IfSome result (λ _. ListsVarargs stack.old stack.new words.now pc i) }
    ensures kept { IfNone result (stack.new ≡ stack.old) }
    ensures listed { stack.new.open_cells ≡ stack.old.open_cells }
{
    if !is_list(i) {
        return None;
    }
    let register = i.a() as usize;
    if register >= stack.registers().len() {
        return None;
    }
    let to = behind(words, pc)?;
    match stack.write_varargs(register) {
        Ok(()) => {
            stack.set_pc(to);
            Some(())
        }
        Err(_) => None,
    }
}

/// The place after one, where there is a word.
pub fn behind(words: &[Instruction], pc: usize) -> Option<usize>
    ensures { IfSome result (λ to. (to ≡ pc + 1) × (to < length words.now)) }
{
    let to = pc.checked_add(1)?;
    if to >= words.len() {
        return None;
    }
    Some(to)
}

/// Whether an instruction is a VARARG of all arguments that there are.
fn is_list(i: Instruction) -> bool
    ensures { result ≡ true → (is_list (opcode_of i) ≡ true) × (c_of i ≡ 0) }
{
    match i.opcode() {
        Some(Opcode::VarArg) => i.c() == 0,
        _ => false,
    }
}
