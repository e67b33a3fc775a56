// CLOSE where nothing is open or to be closed, which is passed (Lua 5.4's lopcodes.h).
ghost use Rattle.std.specs.Prelude.{◌≡◌, ◌+◌, ◌<◌, IfNone, IfSome, length};
ghost use Rattle.code_core.specs.Instruction.{opcode_of};
ghost use Rattle.machine_arms_tables.specs.Frame.{code};
ghost use Rattle.machine_loop.specs.Running.{ClosesNothing, PassesClose, Running};
ghost use Rattle.running_frame.specs.Closing.{is_close};
ghost use Rattle.running_frame.specs.Between.{GoesOver, RunsOver};

use code_core::{Instruction, Opcode, fetch};
use lua_heap::Cell;
use lua_stack::Stack;
use machine_arms_tables::Closure;
use object_pool::Pool;

/// CLOSE of registers where no cell of the frame on top is open and nothing is to be closed: it is passed. Told is where the frame goes on. `None`, with all as
/// before, at any other instruction. From the register `closed` on that is so.
pub(crate) fn pass_close(
    stack: &mut Stack,
    closure: Closure,
    cells: &Pool<Cell>,
    closed: Option<usize>,
    pc: usize,
) -> Option<usize>
    ghost g: { Running }
    requires runs { RunsOver g (code closure g.around.texts) stack.old cells.now.objects pc }
    requires closed { IfSome closed (λ register. ClosesNothing g.around cells.now.objects register) }
    ensures goes { IfSome result (λ to. GoesOver g (code closure.entry g.around.texts) stack.old stack.new cells.now.objects pc to) }
    ensures kept { IfNone result (stack.new ≡ stack.old) }
{
    let _open = cells.len();
    let i = fetch(closure.words, pc);
    if !is_close(i) {
        return None;
    }
    let to = behind_close(closure.words, i, pc, closed)?;
    stack.set_pc(to);
    Some(to)
}

/// The place after a CLOSE A, where from a register on nothing is to be closed and A is at that register or above.
fn behind_close(
    words: &[Instruction],
    i: Instruction,
    pc: usize,
    closed_from: Option<usize>,
) -> Option<usize>
    requires { pc + 1 < length words.now }
    ensures { IfSome result (λ to. PassesClose i pc closed_from to) }
{
    let _size = words.len();
    let register = closed_from?;
    if (i.a() as usize) < register {
        return None;
    }
    Some(pc + 1)
}

/// Whether it is a CLOSE.
fn is_close(i: Instruction) -> bool
    ensures { result ≡ is_close (opcode_of i) }
{
    matches!(i.opcode(), Some(Opcode::Close))
}
