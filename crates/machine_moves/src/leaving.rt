// What the Lua frame on top keeps in its registers while it waits or is left.
ghost use Rattle.std.specs.Prelude.{◌≤◌};
ghost use Rattle.machine_core.specs.Text.{cut_from as cuts, keep_pending as keeps, keep_results as keeps_too};
ghost use Rattle.machine_moves.specs.Moves.{CanCut, CanKeep, DoesOwn};

use crate::chain::running_stack_mut;
use lua_heap::World;

/// Sets the registers from one on to nil, and leaves as many as the code has.
pub fn cut_from(world: &mut World, register: usize, stack_size: usize)
    requires within { register ≤ stack_size }
    requires frame { CanCut world.old stack_size }
    ensures { DoesOwn world.old world.new (cuts register) }
{
    running_stack_mut(world).cut_from(register, stack_size);
}

/// Sets the registers to nil that are not pending, and leaves as many as the code has.
pub fn keep_pending(world: &mut World, stack_size: usize)
    requires { CanCut world.old stack_size }
    ensures { DoesOwn world.old world.new keeps }
{
    running_stack_mut(world).keep_pending(stack_size);
}

/// Sets the registers to nil that are neither pending nor results, and leaves as many as the code and the results have.
pub fn keep_results(world: &mut World, from: usize, count: usize, stack_size: usize)
    requires { CanKeep world.old from count stack_size }
    ensures { DoesOwn world.old world.new (keeps_too from count) }
{
    running_stack_mut(world).keep_results(from, count, stack_size);
}
