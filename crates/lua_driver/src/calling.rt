// Calls of values at a CALL or a TFORCALL of the Lua frame on top, without its form (OP_CALL and OP_TFORCALL of lvm.c).
ghost use Rattle.std.specs.Prelude.{IfOk, length};
ghost use Rattle.instruction_forms.specs.declared.form.Form.TheVariants.{Call};
ghost use Rattle.library_rows.specs.Library.{all_entries};
ghost use Rattle.machine_core.specs.Moves.{go};
ghost use Rattle.machine_moves.specs.Ending.{ending_of};
ghost use Rattle.move_laws.specs.Memory.{InOrder};
ghost use Rattle.running_frame.specs.Here.{IsHere};
ghost use Rattle.step_laws.specs.Steps.{IsReady};
ghost use Rattle.loaded_code.specs.Laws.{library};
ghost use Rattle.source_builds.specs.Readings.{AsRead};
ghost use Rattle.lua_driver.specs.Here.{RunsHere};
ghost use Rattle.lua_driver.specs.Turns.{GoesFurther};

use int_core::Allocated;
use lua_heap::World;
use machine_call_rows::{CallAt, call};
use machine_library_calls::call_library;
use machine_moves::Ending;
use running_frame::Here;

/// The frame on top does its call. What a function of the libraries gives goes to its registers at once.
pub(crate) fn call_here(
    world: &mut World,
    budget: &mut u64,
    here: Here,
    at: CallAt,
) -> Allocated<Ending>
    requires ready { IsReady (length all_entries) go world.old }
    requires here { IsHere world.old here }
    requires calls { RunsHere here (Call at.function at.count at.keeps at.iterates) }
    ensures goes { IfOk result (λ next. AsRead (λ builds. GoesFurther (library builds) go world.old budget.old world.new budget.new (ending_of next))) }
    ensures order { InOrder world.new }
{
    let done = call_library(world, budget, here, at)?;
    match done {
        Some(ending) => Ok(ending),
        None => call(world, budget, at),
    }
}
