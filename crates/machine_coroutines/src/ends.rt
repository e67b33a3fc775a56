// Coroutines that end: they return, or an error leaves them (lua_resume and luaD_throw of ldo.c).
ghost use Rattle.std.specs.Prelude.{◌≡◌, ℕ, [], List, None, Some, IfOk};
ghost use Rattle.int_core.specs.Value.{Value as Meant};
ghost use Rattle.machine_core.specs.Text.{Arg, arg};
ghost use Rattle.machine_core.specs.Moves.{end_coroutine as ends, ends_as, fail_coroutine as fails, runs_main};
ghost use Rattle.lua_heap.specs.Cells.{CellsAreListed, open_cells_in};
ghost use Rattle.lua_heap.specs.Plain.{coroutine, plain};
ghost use Rattle.lua_heap.specs.Reading.{value as meant};
ghost use Rattle.move_laws.specs.Memory.{HasStack, Makes};
ghost use Rattle.machine_coroutines.specs.Ends.{IsPending};

use crate::burying::bury;
use int_core::Allocated;
use lua_heap::{Coro, World};
use machine_moves::{running, running_stack};
use table_core::Value;

/// The running coroutine has returned, and the one that resumed it goes on.
pub fn end_coroutine(world: &mut World)
    requires running { HasStack world.old }
    requires listed { CellsAreListed world.old }
    ensures makes { (env : List Meant) → Makes world.old world.new ends env [] (runs_main (plain world.old 0)) }
    ensures listed { CellsAreListed world.new }
    ensures rest { world.new ≡ record world.old { cells = world.new.cells; coros = world.new.coros; chain = world.new.chain } }
{
    end_as(world, Coro::Dead);
}

/// An error has left the running coroutine, which keeps the values that are still to be closed. The one that resumed it goes on.
pub fn fail_coroutine(world: &mut World, error: Value, pending: Vec<Value>)
    requires running { HasStack world.old }
    requires listed { CellsAreListed world.old }
    requires pending { IsPending world.old pending.items }
    ensures makes { (env : List Meant) (x : Arg) → arg env x ≡ meant world.old.strings error → Makes world.old world.new (fails x) env [] tt }
    ensures listed { CellsAreListed world.new }
    ensures rest { world.new ≡ record world.old { cells = world.new.cells; coros = world.new.coros; chain = world.new.chain } }
{
    end_as(world, Coro::Failed { error, pending });
}

/// The values that an error would leave to be closed: those of the pending registers of all frames, from the bottom.
pub fn pending_values(world: &World) -> Allocated<Vec<Value>>
    requires { HasStack world.now }
    ensures { IfOk result (λ values. IsPending world.now values.items) }
{
    running_stack(world).pending_values(world.alloc)
}

/// The running coroutine becomes one without a stack, and the one that resumed it goes on.
fn end_as(world: &mut World, coro: Coro)
    requires running { HasStack world.old }
    requires bare { open_cells_in coro ≡ None }
    requires listed { CellsAreListed world.old }
    ensures ends { (fuel : ℕ) → ends_as (plain world.old fuel) (coroutine world.old.strings coro) ≡ Some (plain world.new fuel) }
    ensures listed { CellsAreListed world.new }
    ensures rest { world.new ≡ record world.old { cells = world.new.cells; coros = world.new.coros; chain = world.new.chain } }
{
    let co = running(world);
    bury(world, co, coro);
    world.back_to_resumer();
}
