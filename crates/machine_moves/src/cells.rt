// The cells of the Lua frame on top that are open in its registers (UpVal of lobject.h).
ghost use Rattle.std.specs.Prelude.{◌≡◌, ℕ, [], List, OnErr, OnOk};
ghost use Rattle.int_core.specs.Value.{Value as Meant, known, nil, is_known};
ghost use Rattle.lua_heap.specs.Cells.{CellsAreListed};
ghost use Rattle.machine_core.specs.Text.{close_cells as closes};
ghost use Rattle.machine_core.specs.Moves.{on_own, open_register as opens};
ghost use Rattle.lua_heap.specs.Plain.{plain};
ghost use Rattle.move_laws.specs.Memory.{HasFrame, Makes, StandsAt};
ghost use Rattle.machine_moves.specs.Moves.{CanOpen, NoneIsOpenFrom};

use crate::chain::running;
use int_core::Allocated;
use lua_heap::World;

/// A register gets a cell, where it has none. After a refusal the machine's world is as before.
pub fn open_register(world: &mut World, register: u32) -> Allocated<()>
    requires listed { CellsAreListed world.old }
    requires there { CanOpen world.old register }
    ensures makes { OnOk result ((env : List Meant) → Makes world.old world.new (opens register) env [] tt) }
    ensures listed { CellsAreListed world.new }
    ensures at { OnOk result ((pc : ℕ) → StandsAt world.old pc → StandsAt world.new pc) }
    ensures rest { world.new ≡ record world.old { cells = world.new.cells; coros = world.new.coros } }
    ensures err { OnErr result ((fuel : ℕ) → plain world.new fuel ≡ plain world.old fuel) }
{
    world.open_cell(register)?;
    Ok(())
}

/// The cells that are open at a register or above are closed.
pub fn close_cells(world: &mut World, register: u32)
    requires listed { CellsAreListed world.old }
    requires frame { HasFrame world.old }
    ensures makes { (env : List Meant) → Makes world.old world.new (on_own (closes register)) env [] (is_known nil) }
    ensures none { NoneIsOpenFrom world.new register }
    ensures listed { CellsAreListed world.new }
    ensures at { (pc : ℕ) → StandsAt world.old pc → StandsAt world.new pc }
    ensures rest { world.new ≡ record world.old { cells = world.new.cells; coros = world.new.coros } }
{
    let co = running(world);
    world.close_cells(co, register);
}
