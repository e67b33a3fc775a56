// Functions that are left (luaD_poscall of ldo.c).
ghost use Rattle.std.specs.Prelude.{◌≡◌, [], List, map};
ghost use Rattle.int_core.specs.Value.{Value as Meant};
ghost use Rattle.lua_heap.specs.Cells.{CellsAreListed, open_cells_in};
ghost use Rattle.lua_heap.specs.Plain.{plain};
ghost use Rattle.lua_heap.specs.Reading.{value as meant};
ghost use Rattle.machine_core.specs.Text.{Given, given_values};
ghost use Rattle.machine_core.specs.Moves.{leave_frame as leaves, pop_frame as pops, runs_main};
ghost use Rattle.move_laws.specs.Memory.{HasFrame, HasStack, Makes};
ghost use Rattle.machine_moves.specs.Tops.{TopIs, shape_of};
ghost use Rattle.machine_calls.specs.Leaving.{HasClosed};
ghost use Rattle.machine_calls.specs.Tails.{Drops};

use lua_heap::World;
use lua_stack::Top;
use machine_moves::{running, running_stack_mut, see_top};
use table_core::Value;

/// Leaves the Lua frame on top: its cells are closed, it is popped, and its results or its error are on their way. What is on top then is told.
pub fn leave_frame(world: &mut World, given: Vec<Value>) -> Top
    requires frame { HasFrame world.old }
    requires listed { CellsAreListed world.old }
    ensures makes { (env : List Meant) (what : Given) → given_values env what ≡ map (meant world.old.strings) given.items → Makes world.old world.new (leaves what) env [] (shape_of (runs_main (plain world.new 0)) result) }
    ensures top { TopIs world.new result }
    ensures listed { CellsAreListed world.new }
    ensures rest { world.new ≡ record world.old { cells = world.new.cells; coros = world.new.coros; moving = world.new.moving } }
{
    drop_frame(world);
    world.moving = given;
    see_top(world)
}

/// Takes the Lua frame on top away, and closes its cells.
pub fn drop_frame(world: &mut World)
    requires frame { HasFrame world.old }
    requires listed { CellsAreListed world.old }
    ensures drops { Drops world.old world.new }
    ensures running { HasStack world.new }
    ensures listed { CellsAreListed world.new }
    ensures rest { world.new ≡ record world.old { cells = world.new.cells; coros = world.new.coros } }
{
    let co = running(world);
    world.close_cells(co, 0);
    pop_closed(world);
}

/// Takes the Lua frame on top away, whose cells are closed.
fn pop_closed(world: &mut World)
    requires { HasClosed world.old }
    ensures makes { Makes world.old world.new pops [] [] tt }
    ensures running { HasStack world.new }
    ensures listed { map open_cells_in world.new.coros.objects ≡ map open_cells_in world.old.coros.objects }
    ensures rest { world.new ≡ record world.old { coros = world.new.coros } }
{
    running_stack_mut(world).pop();
}
