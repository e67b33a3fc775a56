// The pending registers of the Lua frame on top: those of its variables that are still to be closed.
ghost use Rattle.std.specs.Prelude.{◌≡◌, ℕ, [], List, OnErr, OnOk};
ghost use Rattle.int_core.specs.Value.{Value as Meant, boolean, nil, is_known};
ghost use Rattle.lua_heap.specs.Cells.{CellsAreListed};
ghost use Rattle.lua_heap.specs.Reading.{value as meant};
ghost use Rattle.machine_core.specs.Text.{drop_pending as drops, is_there, mark_pending as marks, see_pending as sees, take_pending as takes};
ghost use Rattle.machine_core.specs.Moves.{on_own};
ghost use Rattle.move_laws.specs.Memory.{CanDo, Makes, StandsAt};
ghost use Rattle.machine_moves.specs.Moves.{CanSee, DoesOwn, value_seen};

use crate::chain::{running_stack, running_stack_mut};
use int_core::Allocated;
use lua_heap::World;
use table_core::Value;

/// The value of the last pending register from one on.
pub fn see_pending(world: &World, register: usize) -> Option<Value>
    requires { CanSee world.now register }
    ensures { (env : List Meant) → Makes world.now world.now (on_own (sees register)) env (value_seen (meant world.now.strings) result) (is_known (boolean (is_there result))) }
{
    let stack = running_stack(world);
    match stack.last_pending(register) {
        Some(last) => Some(stack.get(last)),
        None => None,
    }
}

/// Marks a register as pending. A refusal changes nothing.
pub fn mark_pending(world: &mut World, register: usize) -> Allocated<()>
    requires { CanDo world.old (marks register) }
    ensures makes { OnOk result ((env : List Meant) → Makes world.old world.new (on_own (marks register)) env [] (is_known nil)) }
    ensures at { OnOk result ((pc : ℕ) → StandsAt world.old pc → StandsAt world.new pc) }
    ensures listed { OnOk result (CellsAreListed world.old → CellsAreListed world.new) }
    ensures rest { world.new ≡ record world.old { coros = world.new.coros } }
    ensures err { OnErr result (world.new ≡ world.old) }
{
    running_stack_mut(world).mark_pending(register)
}

/// The last pending register from one on is no longer pending.
pub fn take_pending(world: &mut World, register: usize)
    requires { CanDo world.old (takes register) }
    ensures { DoesOwn world.old world.new (takes register) }
{
    running_stack_mut(world).take_pending(register);
}

/// No register from one on is pending.
pub fn drop_pending(world: &mut World, register: usize)
    requires { CanDo world.old (drops register) }
    ensures { DoesOwn world.old world.new (drops register) }
{
    running_stack_mut(world).drop_pending(register);
}
