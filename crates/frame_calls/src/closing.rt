// From which register on nothing of the frame on top is open or to be closed.
ghost use Rattle.std.specs.Prelude.{◌≡◌, IfSome, true};
ghost use Rattle.lua_stack.specs.Frames.{HasLuaTop};
ghost use Rattle.frame_calls.specs.Standing.{IsAboveLast, IsClosedFrom};

use lua_stack::{OpenCell, Stack};

/// From which register on no cell of the frame on top is open. None is said where a variable there is still to be closed.
#[inline(always)]
pub fn closed_from(stack: &mut Stack) -> Option<usize>
    requires { HasLuaTop stack.old }
    ensures kept { stack.new ≡ stack.old }
    ensures closed { IfSome result (λ register. IsClosedFrom stack.new register) }
{
    if is_bare(stack) {
        return Some(0);
    }
    closed_above(stack)
}

/// Whether nothing of the frame on top is open or to be closed.
#[inline(always)]
pub(crate) fn is_bare(stack: &Stack) -> bool
    ensures { result ≡ true → IsClosedFrom stack.now 0 }
{
    stack.is_bare()
}

/// From which register on, where some cell of that frame is open or some variable of it is to be closed.
#[inline(never)]
fn closed_above(stack: &mut Stack) -> Option<usize>
    requires { HasLuaTop stack.old }
    ensures kept { stack.new ≡ stack.old }
    ensures closed { IfSome result (λ register. IsClosedFrom stack.new register) }
{
    let register = above_last(stack.open_cells(), stack.len() - 1)?;
    match stack.take_cell_from(register) {
        // Open cells stand in the order of their frames and registers.
        Some(_) => unreachable!(),
        None => {}
    }
    match stack.last_pending(register) {
        Some(_) => None,
        None => Some(register),
    }
}

/// The register above that of the last open cell, where it is one of this frame; else the first register.
#[inline(always)]
fn above_last(cells: &[OpenCell], frame: usize) -> Option<usize>
    ensures { IfSome result (λ register. IsAboveLast cells.now frame register) }
{
    let count = cells.len();
    if count == 0 {
        return Some(0);
    }
    let last = cells[count - 1];
    if last.frame != frame {
        return Some(0);
    }
    last.register.checked_add(1)
}
