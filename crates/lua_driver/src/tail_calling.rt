// Calls of values in place of the Lua frame on top at a TAILCALL, without its form (OP_TAILCALL of lvm.c).
ghost use Rattle.std.specs.Prelude.{IfOk, length};
ghost use Rattle.instruction_forms.specs.declared.form.Form.TheVariants.{TailCall};
ghost use Rattle.library_rows.specs.Library.{all_entries};
ghost use Rattle.machine_core.specs.Moves.{go};
ghost use Rattle.machine_moves.specs.Ending.{ending_of};
ghost use Rattle.move_laws.specs.Memory.{InOrder};
ghost use Rattle.running_frame.specs.Here.{IsHere};
ghost use Rattle.step_laws.specs.Steps.{IsReady};
ghost use Rattle.loaded_code.specs.Laws.{library};
ghost use Rattle.source_builds.specs.Readings.{AsRead};
ghost use Rattle.lua_driver.specs.Here.{RunsHere};
ghost use Rattle.lua_driver.specs.Turns.{GoesFurther};

use int_core::Allocated;
use lua_heap::World;
use machine_library_calls::tail_call_library;
use machine_moves::Ending;
use machine_step::step_from;
use running_frame::Here;

/// The frame on top does its call of the value of a register, with one more than the number of the arguments after it or 0 for those up to the end of the open
/// list. What a function of the libraries gives goes to the Lua frame below at once.
pub(crate) fn tail_call_here(
    world: &mut World,
    budget: &mut u64,
    here: Here,
    function: usize,
    count: usize,
) -> Allocated<Ending>
    requires ready { IsReady (length all_entries) go world.old }
    requires here { IsHere world.old here }
    requires calls { RunsHere here (TailCall function count) }
    ensures goes { IfOk result (λ next. AsRead (λ builds. GoesFurther (library builds) go world.old budget.old world.new budget.new (ending_of next))) }
    ensures order { InOrder world.new }
{
    let done = tail_call_library(world, budget, function, count)?;
    match done {
        Some(ending) => Ok(ending),
        None => step_from(world, budget, here),
    }
}
