// Variables that are closed where their block ends (OP_CLOSE of lvm.c, luaF_close of lfunc.c).
ghost use Rattle.std.specs.Prelude.{◌≡◌, ◌+◌, ◌<◌, ◌^◌, [], IfOk, List, OnErr};
ghost use Rattle.int_core.specs.Value.{Value as Meant};
ghost use Rattle.machine_core.specs.Text.{close_cells as closes_cells};
ghost use Rattle.machine_core.specs.InstructionRows.{closes, next, then};
ghost use Rattle.machine_core.specs.FrameRows.{When, expand, expand_by, goes_on_by};
ghost use Rattle.machine_core.specs.Moves.{go};
ghost use Rattle.move_laws.specs.Memory.{InOrder, IsSafe, Leads, StandsAt, StandsSound, Steps};
ghost use Rattle.machine_moves.specs.Ending.{ending_of};
ghost use Rattle.machine_returns.specs.Waking.{IsSolid};
ghost use Rattle.machine_returns.specs.Closing.{MayClose, MayPass};

use crate::closables::{ask_to_close, call_to_close};
use int_core::Allocated;
use lua_heap::World;
use lua_stack::Wait;
use machine_calls::Prepared;
use machine_moves::{Ending, close_cells, go_to, see_pending};
use table_core::Value;

/// The variables of the frame on top are closed from a register on, at the place `pc`: the last one first, by its method. Where none is left the cells that
/// are open there are closed, and the frame goes on behind the instruction. A refusal may leave it changed, but in order.
pub fn close_variables(
    world: &mut World,
    budget: &mut u64,
    pc: usize,
    register: u32,
) -> Allocated<Ending>
    requires stands { StandsSound world.old pc 2 }
    requires safe { IsSafe (expand (closes register)) [] world.old }
    ensures steps { IfOk result (λ ending. Steps (expand (closes register)) [] world.old budget.old world.new budget.new (ending_of ending)) }
    ensures order { InOrder world.new }
    ensures err { OnErr result ((world.new.printed ≡ world.old.printed) × (budget.new ≡ budget.old)) }
{
    let Some(v) = see_pending(world, register as usize) else {
        pass_over(world, pc, register);
        return Ok(Ending::Go);
    };
    call_to_close(
        world,
        budget,
        v,
        Wait::ForClose,
        Prepared::Closed { register },
    )
}

/// The frame on top goes on closing its variables from a register on, at the place `pc`: the last one first, by its method in a step of its own. Where none
/// is left the cells that are open there are closed, and the frame goes on behind the instruction. A refusal changes nothing.
pub fn go_on_closing(world: &mut World, pc: usize, register: u32) -> Allocated<Ending>
    requires solid { IsSolid world.old }
    requires at { StandsAt world.old pc }
    requires room { pc + 2 < 2 ^ 64 }
    requires safe { MayClose world.old register }
    ensures leads { IfOk result (λ ending. (env : List Meant) → Leads (goes_on_by (closes register)) env world.old world.new (ending_of ending)) }
    ensures order { InOrder world.new }
    ensures err { OnErr result (world.new ≡ world.old) }
{
    let Some(v) = see_pending(world, register as usize) else {
        pass_over(world, pc, register);
        return Ok(Ending::Go);
    };
    ask_to_close(
        world,
        v,
        Value::Nil,
        Wait::ForClose,
        Prepared::Closed { register },
    )
}

/// The cells that are open from a register on are closed, and the frame goes on behind the instruction.
fn pass_over(world: &mut World, pc: usize, register: u32)
    requires order { InOrder world.old }
    requires at { StandsAt world.old pc }
    requires room { pc + 2 < 2 ^ 64 }
    requires safe { MayPass world.old register }
    ensures leads { (when : When) (env : List Meant) → Leads (expand_by when (then (closes_cells register) next)) env world.old world.new go }
    ensures order { InOrder world.new }
{
    close_cells(world, register);
    go_to(world, pc + 1);
}
