// Frames that wait, and get what moves (luaD_poscall and luaV_finishOp of Lua 5.4 go on so).
ghost use Rattle.std.specs.Prelude.{◌≡◌, ℕ};
ghost use Rattle.lua_heap.specs.Cells.{CellsAreListed};
ghost use Rattle.lua_heap.specs.declared.world.World.{World as Memory};
ghost use Rattle.move_laws.specs.Memory.{HasFrame, IsSound, ReadsSame, StandsAt, StaysOnTop};
ghost use Rattle.machine_returns.specs.Waking.{HasWait, IsSolid, Wakes, WaitsSo};

use lua_heap::World;
use lua_stack::Wait;
use machine_moves::{running_stack, running_stack_mut, take_moving};
use table_core::Value;

/// The Lua frame on top runs again. Told is for what it waited, and the values that came.
pub fn wake(world: &mut World) -> (Wait, Vec<Value>)
    requires { HasFrame world.old }
    ensures wakes { Wakes world.old world.new result.0 result.1.items }
    ensures solid { IsSound world.old → IsSolid world.new }
    ensures at { (pc : ℕ) → StandsAt world.old pc → StandsAt world.new pc }
    ensures listed { CellsAreListed world.old → CellsAreListed world.new }
{
    let wait = wait_on_top(world);
    let values = take_moving(world);
    set_wait(world, Wait::Running);
    (wait, values)
}

/// Lets it wait again for the same, and the values move again: so all is as before it was woken.
pub fn doze(world: &mut World, wait: Wait, values: Vec<Value>)
    requires { HasFrame world.old }
    ensures back { (before : Memory) → Wakes before world.old wait values.items → ReadsSame before world.new }
    ensures listed { CellsAreListed world.old → CellsAreListed world.new }
    ensures rest { world.new ≡ record world.old { coros = world.new.coros; moving = world.new.moving } }
{
    set_wait(world, wait);
    world.moving = values;
}

/// For what the Lua frame on top waits.
pub fn wait_on_top(world: &World) -> Wait
    requires { HasFrame world.now }
    ensures { HasWait world.now result }
{
    running_stack(world).wait()
}

/// Lets it wait, or run.
pub fn set_wait(world: &mut World, wait: Wait)
    requires { HasFrame world.old }
    ensures waits { WaitsSo world.old world.new wait }
    ensures stays { StaysOnTop world.old world.new }
{
    running_stack_mut(world).set_wait(wait);
}
