// A step of the machine (luaV_execute of lvm.c, luaD_throw and luaD_poscall of ldo.c of Lua 5.4).
ghost use Rattle.std.specs.Prelude.{◌≡◌, IfOk, OnErr, length};
ghost use Rattle.library_rows.specs.Library.{all_entries};
ghost use Rattle.machine_core.specs.Moves.{go};
ghost use Rattle.machine_moves.specs.Ending.{ending_of};
ghost use Rattle.move_laws.specs.Memory.{InOrder, IsSound};
ghost use Rattle.running_frame.specs.Here.{IsHere};
ghost use Rattle.step_laws.specs.Steps.{IsReady};
ghost use Rattle.machine_step.specs.Places.{RunsWord};
ghost use Rattle.machine_step.specs.Step.{Did, Goes};

use crate::going_on::go_on;
use crate::instructions::run_instruction;
use code_core::Instruction;
use instruction_forms::form_of;
use int_core::Allocated;
use loaded_code::loading_is_safe;
use lua_heap::World;
use machine_asked::call_asked;
use machine_frame_rows::{catch_error, hand_results, unwind_top};
use machine_moves::Ending;
use machine_primitives::primitive;
use running_frame::{Here, find_here};

/// Does the step that follows an ending, and says how it ends. What ends a turn is no step. A step that costs a unit while none is left changes nothing. What
/// `load` does is told wherever sources are built as it read them. After a refusal the world is in order and no more has been printed, but it does not stand
/// between two steps.
pub fn step(world: &mut World, budget: &mut u64, ending: Ending) -> Allocated<Ending>
    requires ready { IsReady (length all_entries) (ending_of ending) world.old }
    ensures does { IfOk result (λ next. Did (ending_of ending) world.old budget.old world.new budget.new (ending_of next)) }
    ensures order { InOrder world.new }
    ensures err { OnErr result (world.new.printed.items ≡ world.old.printed.items) }
{
    loading_is_safe();
    match ending {
        Ending::Go => go_from(world, budget),
        Ending::Returned => hand_results(world),
        Ending::Asks => call_asked(world, budget),
        Ending::CallsPrimitive(number) => primitive(world, number),
        Ending::Raised => catch_error(world),
        Ending::Unwinding => unwind_top(world),
        Ending::Spent => Ok(ending),
        Ending::MainYielded => Ok(ending),
        Ending::MainReturned => Ok(ending),
        Ending::MainFailed => Ok(ending),
    }
}

/// The Lua frame on top does its instruction, or goes on with what moves.
fn go_from(world: &mut World, budget: &mut u64) -> Allocated<Ending>
    requires ready { IsReady (length all_entries) go world.old }
    ensures does { IfOk result (λ next. Did go world.old budget.old world.new budget.new (ending_of next)) }
    ensures order { InOrder world.new }
    ensures err { OnErr result (world.new.printed.items ≡ world.old.printed.items) }
{
    let here = find_here(world);
    step_from(world, budget, here)
}

/// Does the step after `Ending::Go` where it is known at which word the Lua frame on top is. After a refusal all is as `step` says.
pub fn step_from(world: &mut World, budget: &mut u64, here: Here) -> Allocated<Ending>
    requires ready { IsReady (length all_entries) go world.old }
    requires here { IsHere world.old here }
    ensures does { IfOk result (λ next. Did go world.old budget.old world.new budget.new (ending_of next)) }
    ensures order { InOrder world.new }
    ensures err { OnErr result (world.new.printed.items ≡ world.old.printed.items) }
{
    if here.runs {
        return run_word(world, budget, here.pc, here.word);
    }
    go_on(world, here.pc, here.word)
}

/// The instruction that this word is.
fn run_word(world: &mut World, budget: &mut u64, pc: usize, word: Instruction) -> Allocated<Ending>
    requires sound { IsSound world.old }
    requires runs { RunsWord world.old pc word }
    ensures does { IfOk result (λ next. Goes world.old budget.old world.new budget.new (ending_of next)) }
    ensures order { InOrder world.new }
    ensures err { OnErr result (world.new.printed ≡ world.old.printed) }
{
    let Some(op) = word.opcode() else {
        unreachable!()
    };
    let Some(form) = form_of(op, word) else {
        unreachable!()
    };
    run_instruction(world, budget, pc, form)
}
