// Returns to a Lua frame whose CALL takes all values that come as an open list (luaD_poscall of ldo.c, OP_CALL of lvm.c, where C is 0).
ghost use Rattle.std.specs.Prelude.{◌≡◌, IfNone, IfSome, Some, true};
ghost use Rattle.code_core.specs.Instruction.{b_of, c_of, opcode_of};
ghost use Rattle.lua_stack.specs.declared.frame.Wait.TheVariants.{ForCall};
ghost use Rattle.frame_calls.specs.Calling.{HaveCode, MayLeave, is_call, program_of};
ghost use Rattle.frame_calls.specs.Opening.{IsListTaker, ReturnsList, TakesListIn};
ghost use Rattle.frame_calls.specs.Returning.{count_of};
ghost use Rattle.frame_calls.specs.Standing.{IsClosedFrom};

use crate::calling::code_of;
use crate::returning::{Taker, caller_of, hand_back};
use crate::stop::{Functions, Stop};
use code_core::{Instruction, Opcode, fetch};
use lua_stack::{LuaState, Stack, Wait};

/// A return of at most two values to a Lua frame whose CALL takes all that come: they are an open list there, and that frame runs again behind its instruction.
/// `None`, with all as before, where the return takes more than the stack.
pub(crate) fn return_list(stack: &mut Stack, stop: Stop, count: usize) -> Option<()>
    requires may { MayLeave stack.old stop }
    requires closed { IsClosedFrom stack.old 0 }
    requires says { count_of (opcode_of stop.word) (b_of stop.word) ≡ Some count }
    ensures returns { IfSome result (λ _. ReturnsList stack.old stack.new (program_of stop.entry.functions) stop.entry.word) }
    ensures kept { IfNone result (stack.new ≡ stack.old) }
    ensures listed { stack.new.open_cells ≡ stack.old.open_cells }
{
    let caller = caller_of(stack)?;
    let taker = list_taker_of(stop.functions, caller, count)?;
    hand_back(stack, stop.word.a() as usize, count, taker)?;
    stack.set_opened(count);
    Some(())
}

/// What a frame that waits takes of so many values, where it takes all.
pub fn list_taker_of(functions: Functions, caller: LuaState, count: usize) -> Option<Taker>
    requires { HaveCode (program_of functions) }
    ensures { IfSome result (λ t. TakesListIn (program_of functions.entry) caller count t) }
{
    let code = code_of(functions, caller.function)?;
    list_taker_in(&code.words, caller, count)
}

/// What the instruction at its place in these words takes of them.
fn list_taker_in(words: &[Instruction], caller: LuaState, count: usize) -> Option<Taker>
    ensures { IfSome result (λ t. IsListTaker words.now caller count t) }
{
    let to = caller.pc.checked_add(1)?;
    if to >= words.len() {
        return None;
    }
    if count > 2 {
        return None;
    }
    let i = fetch(words, caller.pc);
    if !is_opening_call(i) {
        return None;
    }
    if !waits_for_call(caller.wait) {
        return None;
    }
    let register = i.a() as usize;
    if register >= caller.size {
        return None;
    }
    let end = register.checked_add(count)?;
    if end > caller.size {
        return None;
    }
    Some(Taker {
        register,
        count,
        to,
    })
}

/// Whether an instruction is a CALL that opens a list.
fn is_opening_call(i: Instruction) -> bool
    ensures { result ≡ true → (is_call (opcode_of i) ≡ true) × (c_of i ≡ 0) }
{
    match i.opcode() {
        Some(Opcode::Call) => i.c() == 0,
        _ => false,
    }
}

/// Whether a frame waits for a call.
fn waits_for_call(wait: Wait) -> bool
    ensures { result ≡ true → wait ≡ ForCall }
{
    match wait {
        Wait::ForCall => true,
        _ => false,
    }
}
