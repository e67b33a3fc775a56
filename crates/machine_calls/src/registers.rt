// Calls of Lua functions whose arguments stand in the registers behind them (luaD_precall of ldo.c).
ghost use Rattle.std.specs.Prelude.{◌≡◌, true, false, IfOk, OnErr};
ghost use Rattle.move_laws.specs.Memory.{InOrder};
ghost use Rattle.machine_calls.specs.declared.preparing.Prepared.TheVariants.{GivenUp};
ghost use Rattle.machine_calls.specs.Entering.{HasFunction};
ghost use Rattle.machine_calls.specs.Given.{CallsGiven, HasGiven};
ghost use Rattle.machine_calls.specs.Preparing.{CanPrepare};

use crate::entering::{is_full, shape_of};
use int_core::Allocated;
use lua_heap::World;
use lua_stack::Wait;
use machine_moves::{code_on_top, running_stack_mut};
use table_core::FuncId;

/// Calls a Lua function for a unit of the budget, with the values of so many registers behind the one from which on the Lua frame on top gives its
/// registers up. They become the function's first registers where they are, and the frame waits. `false`, with all as before, where the budget is spent
/// or the stack is full. A refusal changes nothing.
pub fn call_registers(
    world: &mut World,
    budget: &mut u64,
    function: FuncId,
    register: usize,
    given: usize,
    wait: Wait,
) -> Allocated<bool>
    requires order { InOrder world.old }
    requires ready { CanPrepare world.old (GivenUp register) }
    requires room { HasGiven world.old register given }
    requires function { HasFunction world.old function.0 }
    ensures calls { IfOk result (λ entered. entered ≡ true → CallsGiven world.old world.new budget.old budget.new function register given wait) }
    ensures kept { IfOk result (λ entered. entered ≡ false → (world.new ≡ world.old) × (budget.new ≡ budget.old)) }
    ensures order { InOrder world.new }
    ensures err { OnErr result ((world.new ≡ world.old) × (budget.new ≡ budget.old)) }
{
    if *budget == 0 {
        return Ok(false);
    }
    if is_full(world) {
        return Ok(false);
    }
    let shape = shape_of(world, function);
    let size = code_on_top(world).stack as usize;
    running_stack_mut(world).call(register, given, wait, size, function, shape)?;
    *budget -= 1;
    Ok(true)
}
