// Values of variables in frames below, which are remembered for the rounds of the frame on top (UpVal of lobject.h).
ghost use Rattle.std.specs.Prelude.{◌≡◌, IfSome};
ghost use Rattle.machine_arms_tables.specs.Frame.{code};
ghost use Rattle.machine_loop.specs.Knowing.{AllHold};
ghost use Rattle.machine_loop.specs.Running.{Running};
ghost use Rattle.running_frame.specs.Remembering.{KnowsBelow};
ghost use Rattle.running_frame.specs.Upvalues.{ListsOpen};
ghost use Rattle.running_frame.specs.Between.{RunsOver};

use crate::storing::open_below;
use crate::upvalues::is_read;
use code_core::fetch;
use lua_heap::Cell;
use lua_stack::Stack;
use machine_arms_tables::Closure;
use machine_loop::{Known, Memo, add_known};
use object_pool::Pool;
use table_core::{CellId, CoroId};

/// At a GETUPVAL of a variable that stands in a frame below: its value is known then, and the instruction is still to be run. `None` at any other instruction,
/// where the variable stands elsewhere, where there is no room, and the first time, since most frames read such a variable once.
pub(crate) fn remember(
    stack: &Stack,
    closure: Closure,
    cells: &Pool<Cell>,
    co: CoroId,
    memo: Memo,
    again: bool,
    pc: usize,
) -> Option<Memo>
    ghost g: { Running }
    requires runs { RunsOver g (code closure g.around.texts) stack.now cells.now.objects pc }
    requires own { co.0 ≡ g.around.context.coroutine }
    requires known { AllHold g.around closure.upvalues.now cells.now.objects memo }
    ensures { IfSome result (λ more. AllHold g.around closure.entry.upvalues.now cells.now.objects more) }
{
    let i = fetch(closure.words, pc);
    if !again {
        return None;
    }
    if !is_read(i) {
        return None;
    }
    let entry = known_below(stack, closure.upvalues, cells, co, i.b())?;
    add_known(memo, entry)
}

/// The value of an upvalue whose variable stands in a frame below.
fn known_below(
    stack: &Stack,
    upvalues: &[CellId],
    cells: &Pool<Cell>,
    co: CoroId,
    upvalue: u8,
) -> Option<Known>
    requires { ListsOpen co.0 stack.now cells.now.objects }
    ensures { IfSome result (λ known. KnowsBelow co.0 upvalues.now stack.now cells.now.objects known) }
{
    let variable = open_below(stack.len(), upvalues, cells, co, upvalue)?;
    Some(Known {
        upvalue,
        value: stack.register_at(variable.frame, variable.register),
    })
}
