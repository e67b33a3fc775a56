// Another coroutine runs, and the one that ran waits for it (lua_resume of ldo.c).
ghost use Rattle.std.specs.Prelude.{◌≡◌, ℕ, ◌<◌, [], List, Some, length, slice_get, vec_capacity};
ghost use Rattle.machine_core.specs.World.{Frame, in_progress, suspended};
ghost use Rattle.lua_stack.specs.Frames.{KeptStack, frames};
ghost use Rattle.lua_heap.specs.declared.world.Coro.TheVariants.{Suspended};
ghost use Rattle.lua_heap.specs.Cells.{CellsAreListed, open_cells_in};
ghost use Rattle.lua_heap.specs.Plain.{coroutine};
ghost use Rattle.lua_heap.specs.Reading.{value as meant};
ghost use Rattle.move_laws.specs.Memory.{HasStack};
ghost use Rattle.lib_coroutine.specs.Resuming.{GoesInto, IsFresh, IsSuspended};

use lua_heap::{Coro, World};
use lua_stack::Stack;
use std::mem;
use table_core::CoroId;

/// The running coroutine waits, and one that has yielded runs.
pub(crate) fn run_suspended(world: &mut World, co: CoroId)
    requires running { HasStack world.old }
    requires suspended { IsSuspended world.old co }
    requires room { length world.old.chain.items < vec_capacity world.old.chain }
    ensures goes { (stack : KeptStack) → slice_get world.old.coros.objects co.0 ≡ Some (Suspended stack) → GoesInto world.old world.new co.0 (frames (meant world.old.strings) stack) }
    ensures running { HasStack world.new }
    ensures listed { CellsAreListed world.old → CellsAreListed world.new }
    ensures rest { world.new ≡ record world.old { coros = world.new.coros; chain = world.new.chain } }
{
    world.wait_for_another();
    world.chain.push_reserved(co);
    wake(world.coros.get_mut(co.0));
}

/// The running coroutine waits, and one that has not begun runs, with a stack in which no cell is open.
pub(crate) fn run_fresh(world: &mut World, co: CoroId, stack: Stack)
    requires running { HasStack world.old }
    requires fresh { IsFresh world.old co }
    requires room { length world.old.chain.items < vec_capacity world.old.chain }
    requires closed { stack.open_cells ≡ [] }
    ensures goes { GoesInto world.old world.new co.0 (frames (meant world.old.strings) stack) }
    ensures running { HasStack world.new }
    ensures listed { CellsAreListed world.old → CellsAreListed world.new }
    ensures rest { world.new ≡ record world.old { coros = world.new.coros; chain = world.new.chain } }
{
    world.put_coroutine(co, Coro::Suspended(stack));
    run_suspended(world, co);
}

/// A coroutine that has yielded runs.
fn wake(coro: &mut Coro)
    ensures runs { (texts : List (List ℕ)) (fs : List Frame) → coroutine texts coro.old ≡ suspended fs → coroutine texts coro.new ≡ in_progress fs }
    ensures cells { open_cells_in coro.new ≡ open_cells_in coro.old }
{
    match mem::replace(coro, Coro::Dead) {
        Coro::Suspended(stack) => *coro = Coro::Running(stack),
        other => *coro = other,
    }
}
