// Tail calls of Lua functions, which change nothing but the stack (OP_TAILCALL of lvm.c).
ghost use Rattle.std.specs.Prelude.{◌≡◌, IfNone, IfSome};
ghost use Rattle.frame_calls.specs.Calling.{MayLeave, ReplacesIn, program_of};

use crate::calling::function_in;
use crate::returning::is_closed;
use crate::spreading::count_given;
use crate::stop::Stop;
use lua_stack::{GREATEST_DEPTH, Stack};

/// A TAILCALL of a Lua function: the function's frame takes the place of the one on top. `None`, with all as before, where the call takes more than the stack.
pub(crate) fn replace(stack: &mut Stack, stop: Stop) -> Option<()>
    requires { MayLeave stack.old stop }
    ensures replaces { IfSome result (λ _. ReplacesIn stack.old stack.new (program_of stop.entry.functions) stop.entry.words.now stop.entry.pc stop.entry.word) }
    ensures kept { IfNone result (stack.new ≡ stack.old) }
    ensures listed { stack.new.open_cells ≡ stack.old.open_cells }
{
    if !is_closed(stack, stop.closed) {
        return None;
    }
    if stack.len() > GREATEST_DEPTH {
        return None;
    }
    let register = stop.word.a() as usize;
    let given = count_given(stack, stop)?;
    let callee = function_in(stack, stop.functions, register, given)?;
    match stack.tail_call(register, given, callee.id, callee.shape) {
        Ok(()) => Some(()),
        Err(_) => None,
    }
}
