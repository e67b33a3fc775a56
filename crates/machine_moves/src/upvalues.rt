// The upvalues of the function on top.
ghost use Rattle.std.specs.Prelude.{◌≡◌, ℕ, [], ◌∷◌, List, true};
ghost use Rattle.int_core.specs.Value.{Value as Meant};
ghost use Rattle.lua_heap.specs.Cells.{CellsAreListed};
ghost use Rattle.lua_heap.specs.Reading.{value as meant};
ghost use Rattle.machine_core.specs.Text.{Arg, arg, read_upvalue as reads, write_upvalue as writes};
ghost use Rattle.machine_core.specs.Moves.{outside};
ghost use Rattle.move_laws.specs.Memory.{Makes, StandsAt};
ghost use Rattle.machine_moves.specs.Code.{HasUpvalue, HasUpvalueCell, IsUpvalue};

use crate::code::function_on_top;
use lua_heap::World;
use table_core::{CellId, Value};

/// The value of an upvalue.
pub fn read_upvalue(world: &World, upvalue: usize) -> Value
    requires listed { CellsAreListed world.now }
    requires there { HasUpvalue world.now upvalue }
    ensures { (env : List Meant) → Makes world.now world.now (outside (reads upvalue)) env (meant world.now.strings result ∷ []) true }
{
    world.cell_value(cell_of(world, upvalue))
}

/// Gives an upvalue a value.
pub fn write_upvalue(world: &mut World, upvalue: usize, given: Value)
    requires listed { CellsAreListed world.old }
    requires there { HasUpvalue world.old upvalue }
    ensures makes { (env : List Meant) (x : Arg) → arg env x ≡ meant world.old.strings given → Makes world.old world.new (outside (writes upvalue x)) env [] true }
    ensures at { (pc : ℕ) → StandsAt world.old pc → StandsAt world.new pc }
    ensures listed { CellsAreListed world.new }
    ensures rest { world.new ≡ record world.old { cells = world.new.cells; coros = world.new.coros } }
{
    let cell = cell_of(world, upvalue);
    world.set_cell(cell, given);
}

/// The cell of an upvalue.
pub fn cell_of(world: &World, upvalue: usize) -> CellId
    requires { HasUpvalueCell world.now upvalue }
    ensures { IsUpvalue world.now upvalue result }
{
    function_on_top(world).cells[upvalue]
}
