// Calls of functions that look at values and tables alone in place of a Lua frame (OP_TAILCALL of lvm.c, luaD_pretailcall of ldo.c).
ghost use Rattle.std.specs.Prelude.{◌≡◌, IfNone, IfOk, IfSome, length};
ghost use Rattle.library_rows.specs.Library.{all_entries};
ghost use Rattle.load_rows.specs.Loading.{Builds};
ghost use Rattle.loaded_code.specs.Laws.{library};
ghost use Rattle.machine_core.specs.Moves.{go};
ghost use Rattle.machine_moves.specs.Ending.{ending_of};
ghost use Rattle.move_laws.specs.Memory.{HasStack, InOrder};
ghost use Rattle.source_builds.specs.Builds.{BuildsSources};
ghost use Rattle.step_laws.specs.Steps.{IsReady};
ghost use Rattle.tree_core.specs.Tree.{Body};
ghost use Rattle.machine_library_calls.specs.Calls.{Begun, CallComes, Comes, IsCalled, begins};
ghost use Rattle.machine_library_calls.specs.Tails.{IsAtTailCall, RunsTail};

use crate::primitives::{Taker, call_for, call_later};
use lua_heap::World;
use lua_stack::Top;
use machine_call_rows::{PrimitiveCall, tail_call_primitive};
use machine_moves::{Ending, see_top};
use std::alloc::AllocError;

/// Does a call of a primitive with at most six arguments in place of the Lua frame on top, for a unit of the budget. Where it is a function of the libraries
/// that looks at values and tables alone and gives results, and a Lua frame is below, that frame takes them and goes on after its instruction. Another
/// primitive, and one that refuses its arguments, is left for the next step. `None`, with all as before, where another value is called, where there are more
/// arguments, where the budget is spent, and where values move. After a refusal the world is in order.
pub fn tail_call_library(
    world: &mut World,
    budget: &mut u64,
    function: usize,
    count: usize,
) -> Result<Option<Ending>, AllocError>
    requires ready { IsReady (length all_entries) go world.old }
    requires runs { RunsTail world.old function count }
    ensures comes { IfOk result (λ done. IfSome done (λ ending. (builds : Builds Body) → BuildsSources builds → Comes (library builds) world.old budget.old world.new budget.new (ending_of ending))) }
    ensures kept { IfOk result (λ done. IfNone done ((world.new ≡ world.old) × (budget.new ≡ budget.old))) }
    ensures order { InOrder world.new }
{
    if !world.moving.is_empty() {
        return Ok(None);
    }
    begin_tail_call(world, budget, function, count)
}

/// Does the call where no value moves.
fn begin_tail_call(
    world: &mut World,
    budget: &mut u64,
    function: usize,
    count: usize,
) -> Result<Option<Ending>, AllocError>
    ghost begun: { Begun }
    requires began { begun ≡ begins world.old budget.old }
    requires at { IsAtTailCall world.old function count }
    ensures comes { IfOk result (λ done. IfSome done (λ ending. (builds : Builds Body) → BuildsSources builds → Comes (library builds) world.old budget.old world.new budget.new (ending_of ending))) }
    ensures kept { IfOk result (λ done. IfNone done ((world.new ≡ world.old) × (budget.new ≡ budget.old))) }
    ensures order { InOrder world.new }
{
    let mut called = PrimitiveCall::new();
    match tail_call_primitive(world, budget, function, count, &mut called) {
        None => Ok(None),
        Some(()) => {
            let ending = call_below(world, &called)?;
            Ok(Some(ending))
        }
    }
}

/// Calls the primitive, whose caller's frame is gone, at once where a Lua frame is on top.
fn call_below(world: &mut World, called: &PrimitiveCall) -> Result<Ending, AllocError>
    ghost begun: { Begun }
    requires called { IsCalled begun world.old called.now.number called.now.arguments }
    requires running { HasStack world.old }
    ensures comes { IfOk result (λ ending. CallComes begun world.new (ending_of ending)) }
    ensures order { InOrder world.new }
{
    let top = see_top(world);
    if let Top::Lua = top {
        return call_for(world, Taker::Below, called);
    }
    call_later(world, called)
}
