// The running coroutine, the last of the chain, and its stack.
ghost use Rattle.std.specs.Borrow.{sem};
ghost use Rattle.move_laws.specs.Memory.{HasStack};
ghost use Rattle.machine_moves.specs.Lending.{lends_running};
ghost use Rattle.machine_moves.specs.Moves.{RunsOn, RunsAs};

use lua_heap::{Coro, World};
use lua_stack::Stack;
use table_core::CoroId;

/// The coroutine that runs.
pub fn running(world: &World) -> CoroId
    requires { HasStack world.now }
    ensures { RunsAs world.now result }
{
    world.chain[world.chain.len() - 1]
}

/// Its stack.
pub fn running_stack(world: &World) -> &Stack
    requires { HasStack world.now }
    ensures { RunsOn world.now result.now }
{
    match world.coros.get(running(world).0) {
        Coro::Running(stack) => stack,
        _ => unreachable!(),
    }
}

/// Its stack, for writing.
pub fn running_stack_mut(world: &mut World) -> &mut Stack
    requires { HasStack world.old }
    ensures* writes_back { sem 𝓛 (lends_running world.entry result) }
    ensures runs { RunsOn world.old result.now }
{
    let co = running(world);
    world.coros.get_mut(co.0).stack_mut()
}
