// Open lists whose values are given to a Lua function or go back to a Lua frame, which change nothing but the stack (OP_CALL, OP_TAILCALL and OP_RETURN of lvm.c,
// where B is 0).
ghost use Rattle.std.specs.Prelude.{◌≡◌, IfNone, IfSome, Some, true};
ghost use Rattle.code_core.specs.Check.{leaves, open_from};
ghost use Rattle.code_core.specs.Instruction.{b_of, opcode_of};
ghost use Rattle.code_core.specs.declared.opcode.Opcode.TheVariants.{Return};
ghost use Rattle.lua_stack.specs.Frames.{HasLuaTop};
ghost use Rattle.frame_calls.specs.Arguments.{AreArguments, ListEnds};
ghost use Rattle.frame_calls.specs.Calling.{EntersIn, MayLeave, program_of};
ghost use Rattle.frame_calls.specs.Returning.{ReturnsOpen};
ghost use Rattle.frame_calls.specs.Standing.{IsClosedFrom};

use crate::calling::{enterable, one_less};
use crate::returning::{in_front, return_counted};
use crate::stop::Stop;
use code_core::{Instruction, Opcode};
use lua_stack::{Stack, Wait};

/// A RETURN of all values from a register up to the end of the open list, to a Lua frame that wants at most two.
pub(crate) fn return_open(stack: &mut Stack, stop: Stop) -> Option<()>
    requires may { MayLeave stack.old stop }
    requires closed { IsClosedFrom stack.old 0 }
    requires all { (opcode_of stop.word ≡ Some Return) × (b_of stop.word ≡ 0) }
    ensures returns { IfSome result (λ _. ReturnsOpen stack.old stack.new (program_of stop.entry.functions) stop.entry.words.now stop.entry.pc stop.entry.word) }
    ensures kept { IfNone result (stack.new ≡ stack.old) }
    ensures listed { stack.new.open_cells ≡ stack.old.open_cells }
{
    let register = stop.word.a() as usize;
    let end = list_end(stack, stop.words, stop.pc)?;
    let count = end.checked_sub(register)?;
    return_counted(stack, stop, count)
}

/// A CALL with an open list: the function's frame is on top. `None`, with all as before, where the call takes more than the stack.
pub(crate) fn enter_with_list(stack: &mut Stack, stop: Stop) -> Option<()>
    requires may { MayLeave stack.old stop }
    requires all { b_of stop.word ≡ 0 }
    ensures enters { IfSome result (λ _. EntersIn stack.old stack.new stop.entry.size (program_of stop.entry.functions) stop.entry.words.now stop.entry.pc stop.entry.word) }
    ensures kept { IfNone result (stack.new ≡ stack.old) }
    ensures listed { stack.new.open_cells ≡ stack.old.open_cells }
{
    let register = stop.word.a() as usize;
    let given = count_listed(stack, stop)?;
    let callee = enterable(stack, stop, register, given, register, stop.size)?;
    match stack.call(
        register,
        given,
        Wait::ForCall,
        stop.size,
        callee.id,
        callee.shape,
    ) {
        Ok(()) => Some(()),
        Err(_) => None,
    }
}

/// How many values a call gives: as many as it says, or those of the open list.
#[inline(always)]
pub(crate) fn count_given(stack: &Stack, stop: Stop) -> Option<usize>
    requires { HasLuaTop stack.now }
    ensures { IfSome result (λ given. AreArguments stack.now stop.entry.words.now stop.entry.pc stop.entry.word given) }
{
    if stop.word.b() == 0 {
        return count_listed(stack, stop);
    }
    let given = one_less(stop.word.b())?;
    Some(given)
}

/// How many values stand behind the register of a call up to the end of the open list.
fn count_listed(stack: &Stack, stop: Stop) -> Option<usize>
    requires top { HasLuaTop stack.now }
    requires all { b_of stop.word ≡ 0 }
    ensures { IfSome result (λ given. AreArguments stack.now stop.entry.words.now stop.entry.pc stop.entry.word given) }
{
    let register = stop.word.a() as usize;
    let end = list_end(stack, stop.words, stop.pc)?;
    let given = end.checked_sub(register + 1)?;
    Some(given)
}

/// Behind which register the open list ends that the instruction in front of a place leaves.
#[inline(always)]
fn list_end(stack: &Stack, words: &[Instruction], pc: usize) -> Option<usize>
    requires { HasLuaTop stack.now }
    ensures { IfSome result (λ end. ListEnds stack.now words.now pc end) }
{
    if pc >= words.len() {
        return None;
    }
    let before = in_front(words, pc)?;
    let from = opened_from(before)?;
    let end = from.checked_add(stack.opened())?;
    Some(end)
}

/// The register from which an instruction leaves an open list.
fn opened_from(i: Instruction) -> Option<usize>
    ensures { IfSome result (λ from. leaves i ≡ open_from from) }
{
    let register = i.a() as usize;
    if i.c() != 0 {
        return None;
    }
    match i.opcode() {
        Some(Opcode::Call) => Some(register),
        Some(Opcode::VarArg) => Some(register),
        _ => None,
    }
}

/// Whether an instruction is a RETURN with an open list.
pub(crate) fn is_list_return(i: Instruction) -> bool
    ensures { result ≡ true → (opcode_of i ≡ Some Return) × (b_of i ≡ 0) }
{
    match i.opcode() {
        Some(Opcode::Return) => i.b() == 0,
        _ => false,
    }
}
