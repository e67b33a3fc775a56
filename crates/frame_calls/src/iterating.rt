// Calls of Lua functions as the iterators of loops, which change nothing but the stack (OP_TFORCALL of lvm.c).
ghost use Rattle.std.specs.Prelude.{◌≡◌, IfNone, IfSome};
ghost use Rattle.frame_calls.specs.Calling.{IteratesOver, MayLeave, program_of};

use crate::calling::enterable;
use crate::stop::Stop;
use lua_stack::{Stack, Wait};

/// A TFORCALL whose iterator is a Lua function: the function's frame is on top, with copies of the state and the control value. `None`, with all as before, where the
/// call takes more than the stack.
pub(crate) fn iterate(stack: &mut Stack, stop: Stop) -> Option<()>
    requires { MayLeave stack.old stop }
    ensures iterates { IfSome result (λ _. IteratesOver stack.old stack.new stop.entry.size (program_of stop.entry.functions) stop.entry.word) }
    ensures kept { IfNone result (stack.new ≡ stack.old) }
    ensures listed { stack.new.open_cells ≡ stack.old.open_cells }
{
    let register = stop.word.a() as usize;
    let keeps = stop.word.a() as usize + 4;
    let callee = enterable(stack, stop, register, 2, keeps, keeps)?;
    match stack.call_behind(
        register,
        2,
        keeps,
        Wait::ForIterator,
        stop.size,
        callee.id,
        callee.shape,
    ) {
        Ok(()) => Some(()),
        Err(_) => None,
    }
}
