// Calls of functions that look at values and tables alone (OP_CALL and OP_TFORCALL of lvm.c).
ghost use Rattle.std.specs.Prelude.{◌≡◌, IfNone, IfOk, IfSome, length};
ghost use Rattle.instruction_forms.specs.declared.form.Form.TheVariants.{Call};
ghost use Rattle.library_rows.specs.Library.{all_entries};
ghost use Rattle.load_rows.specs.Loading.{Builds};
ghost use Rattle.loaded_code.specs.Laws.{library};
ghost use Rattle.machine_core.specs.Moves.{go};
ghost use Rattle.machine_moves.specs.Ending.{ending_of};
ghost use Rattle.machine_step.specs.Places.{RunsForm};
ghost use Rattle.move_laws.specs.Memory.{InOrder};
ghost use Rattle.running_frame.specs.Here.{IsHere};
ghost use Rattle.source_builds.specs.Builds.{BuildsSources};
ghost use Rattle.step_laws.specs.Steps.{IsReady};
ghost use Rattle.tree_core.specs.Tree.{Body};
ghost use Rattle.machine_library_calls.specs.Calls.{Begun, Comes, IsAtCall, begins};

use crate::glancing::{give_result, see_result};
use crate::primitives::{Taker, call_for};
use lua_heap::World;
use machine_call_rows::{CallAt, PrimitiveCall, call_primitive};
use machine_moves::Ending;
use running_frame::Here;
use std::alloc::AllocError;

/// Does a call of a primitive with at most six arguments, for a unit of the budget. Where it is a function of the libraries that looks at values and
/// tables alone and gives results, these go to their registers as well, and the frame goes on after its instruction. Another primitive, and one
/// that refuses its arguments, is left for the next step. `None`, with all as before, where another value is called, where there are more arguments,
/// where the budget is spent, and where values move. What is at hand goes to its registers before anything else is tried. After a refusal the world is in
/// order.
pub fn call_library(
    world: &mut World,
    budget: &mut u64,
    here: Here,
    at: CallAt,
) -> Result<Option<Ending>, AllocError>
    requires ready { IsReady (length all_entries) go world.old }
    requires here { IsHere world.old here }
    requires runs { RunsForm world.old here.pc (Call at.function at.count at.keeps at.iterates) }
    ensures comes { IfOk result (λ done. IfSome done (λ ending. (builds : Builds Body) → BuildsSources builds → Comes (library builds) world.old budget.old world.new budget.new (ending_of ending))) }
    ensures kept { IfOk result (λ done. IfNone done ((world.new ≡ world.old) × (budget.new ≡ budget.old))) }
    ensures order { InOrder world.new }
{
    if !world.moving.is_empty() {
        return Ok(None);
    }
    match see_result(world, *budget, here, at) {
        None => call_with_arguments(world, budget, here, at),
        Some(answer) => {
            let ending = give_result(world, budget, here, at, answer)?;
            Ok(Some(ending))
        }
    }
}

/// Does the call with the arguments in an array.
fn call_with_arguments(
    world: &mut World,
    budget: &mut u64,
    here: Here,
    at: CallAt,
) -> Result<Option<Ending>, AllocError>
    ghost begun: { Begun }
    requires began { begun ≡ begins world.old budget.old }
    requires at { IsAtCall world.old here at }
    ensures comes { IfOk result (λ done. IfSome done (λ ending. (builds : Builds Body) → BuildsSources builds → Comes (library builds) world.old budget.old world.new budget.new (ending_of ending))) }
    ensures kept { IfOk result (λ done. IfNone done ((world.new ≡ world.old) × (budget.new ≡ budget.old))) }
    ensures order { InOrder world.new }
{
    let mut called = PrimitiveCall::new();
    match call_primitive(world, budget, at, &mut called) {
        None => Ok(None),
        Some(()) => {
            let iterates = at.iterates;
            let ending = call_for(world, Taker::Caller { here, iterates }, &called)?;
            Ok(Some(ending))
        }
    }
}
