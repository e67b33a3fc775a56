// Coroutines that yield (luaB_yield of lcorolib.c).
ghost use Rattle.std.specs.Prelude.{◌≡◌, [], IfOk, OnErr};
ghost use Rattle.machine_core.specs.MachineStep.{yield_row};
ghost use Rattle.move_laws.specs.Memory.{HasStack, InOrder, IsSafe, Leads};
ghost use Rattle.machine_moves.specs.Ending.{ending_of};

use lua_heap::World;
use machine_coroutines::{runs_main, suspend};
use machine_moves::{Ending, give_values, hand_over, put_in_front, take_moving};
use std::alloc::AllocError;
use table_core::Value;

/// The row of `coroutine.yield`: the running coroutine waits, and the `resume` that it came from answers true and what was yielded. Where it is the main
/// one, the turn ends. A refusal changes nothing.
pub fn yield_running(world: &mut World) -> Result<Ending, AllocError>
    requires order { InOrder world.old }
    requires running { HasStack world.old }
    requires safe { IsSafe yield_row [] world.old }
    ensures leads { IfOk result (λ ending. Leads yield_row [] world.old world.new (ending_of ending)) }
    ensures order { InOrder world.new }
    ensures err { OnErr result (world.new ≡ world.old) }
{
    if runs_main(world) {
        suspend(world);
        return Ok(Ending::MainYielded);
    }
    let answer = put_in_front(world.alloc, &[Value::Bool(true)], &world.moving)?;
    suspend(world);
    take_moving(world);
    give_values(world, answer);
    Ok(hand_over(world))
}
