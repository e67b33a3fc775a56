// Calls of functions whose results are at hand, change nothing and take no memory: their arguments are read where they stand (OP_CALL and OP_TFORCALL of lvm.c).
ghost use Rattle.std.specs.Prelude.{◌≡◌, ◌≤◌, ◌-◌, true, IfOk, IfSome, length};
ghost use Rattle.instruction_forms.specs.declared.form.Form.TheVariants.{Call};
ghost use Rattle.library_rows.specs.Library.{all_entries};
ghost use Rattle.machine_core.specs.Moves.{go};
ghost use Rattle.machine_moves.specs.Ending.{ending_of};
ghost use Rattle.machine_step.specs.Places.{RunsForm};
ghost use Rattle.move_laws.specs.Memory.{InOrder};
ghost use Rattle.step_laws.specs.Steps.{IsReady};
ghost use Rattle.machine_library_calls.specs.Calls.{Begun, CallComes, IsAtCall, begins};
ghost use Rattle.machine_library_calls.specs.Glances.{IsSeen};

use crate::answering::take_answer;
use crate::primitives::Taker;
use lib_base::glance;
use loaded_code::loading_is_safe;
use lua_heap::World;
use machine_call_rows::{CallAt, arguments_of_call, wait_for_primitive};
use machine_moves::{Ending, read_register};
use machine_primitives::library_function;
use pure_functions::Answer;
use running_frame::Here;
use std::alloc::AllocError;
use table_core::Value;

/// What the function answers that would be called. `None` where it is no such function, where there are more than six arguments, and where the budget is
/// spent.
#[inline(always)]
pub(crate) fn see_result(world: &World, budget: u64, here: Here, at: CallAt) -> Option<Answer>
    requires ready { IsReady (length all_entries) go world.now }
    requires runs { RunsForm world.now here.pc (Call at.function at.count at.keeps at.iterates) }
    ensures { IfSome result (λ answer. IsSeen world.now budget at.function at.count answer) }
{
    if budget == 0 {
        return None;
    }
    let called = read_register(world, at.function);
    let Value::Prim(number) = called else {
        return None;
    };
    let function = library_function(number)?;
    let arguments = arguments_of_call(world, at.function, at.count);
    let few = are_few(arguments);
    if !few {
        return None;
    }
    glance(world, function, arguments)
}

/// Whether they are at most six.
#[inline(always)]
fn are_few(values: &[Value]) -> bool
    ensures { result ≡ true → length values.now ≤ 6 }
{
    if values.len() > 6 {
        return false;
    }
    true
}

/// The call is paid, and the frame on top goes on with what the function gives, or an error moves.
#[inline(always)]
pub(crate) fn give_result(
    world: &mut World,
    budget: &mut u64,
    here: Here,
    at: CallAt,
    answer: Answer,
) -> Result<Ending, AllocError>
    ghost begun: { Begun }
    requires began { begun ≡ begins world.old budget.old }
    requires at { IsAtCall world.old here at }
    requires seen { IsSeen world.old budget.old at.function at.count answer }
    ensures comes { IfOk result (λ ending. CallComes begun world.new (ending_of ending)) }
    ensures paid { budget.new ≡ budget.old - 1 }
    ensures order { InOrder world.new }
{
    loading_is_safe();
    *budget = budget.saturating_sub(1);
    wait_for_primitive(world, at);
    let iterates = at.iterates;
    take_answer(world, Taker::Caller { here, iterates }, answer)
}
