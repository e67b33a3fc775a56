// Frames that are left, with results or with an error, where none of their variables is to be closed any more (luaD_poscall of ldo.c).
ghost use Rattle.std.specs.Prelude.{◌≡◌, IfOk, List, OnErr};
ghost use Rattle.int_core.specs.Value.{Value as Meant};
ghost use Rattle.lua_heap.specs.Reading.{value as meant};
ghost use Rattle.machine_core.specs.Text.{Arg, arg, own, leave, results, thrown, read_registers as reads};
ghost use Rattle.machine_core.specs.FrameRows.{When, expand_by};
ghost use Rattle.move_laws.specs.Memory.{CanDo, HasFrame, InOrder, Leads};
ghost use Rattle.machine_moves.specs.Ending.{ending_of};
ghost use Rattle.machine_moves.specs.declared.ending.Ending.TheVariants.{Spent};

use int_core::Allocated;
use lua_heap::World;
use machine_calls::leave_frame;
use machine_moves::{Ending, handed, put_in_front, read_registers};
use table_core::Value;

/// The frame on top is left with the values of so many registers. A refusal changes nothing.
pub(crate) fn leave_with_results(world: &mut World, from: usize, count: usize) -> Allocated<Ending>
    requires order { InOrder world.old }
    requires there { CanDo world.old (reads from count) }
    ensures leads { IfOk result (λ ending. (when : When) (env : List Meant) → Leads (expand_by when (own (reads from count) (λ w _. leave (results w)))) env world.old world.new (ending_of ending)) }
    ensures paid { IfOk result (λ ending. ending ≡ Spent → ⊥) }
    ensures order { InOrder world.new }
    ensures err { OnErr result (world.new ≡ world.old) }
{
    let alloc = world.alloc;
    let given = read_registers(world, from, count).to_vec(alloc)?;
    let top = leave_frame(world, given);
    Ok(handed(top))
}

/// The frame on top is left with an error. A refusal changes nothing.
pub(crate) fn leave_with_error(world: &mut World, error: Value) -> Allocated<Ending>
    requires order { InOrder world.old }
    requires frame { HasFrame world.old }
    ensures leads { IfOk result (λ ending. (when : When) (env : List Meant) (x : Arg) → arg env x ≡ meant world.old.strings error → Leads (expand_by when (leave (thrown x))) env world.old world.new (ending_of ending)) }
    ensures order { InOrder world.new }
    ensures err { OnErr result (world.new ≡ world.old) }
{
    let given = put_in_front(world.alloc, &[error], &[])?;
    let _top = leave_frame(world, given);
    Ok(Ending::Unwinding)
}
