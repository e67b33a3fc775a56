// The world of the libraries.
ghost use Rattle.std.specs.Prelude.{◌≡◌, ℕ, length, IfOk, OnOk};
ghost use Rattle.code_core.specs.Check.{IsChecked};
ghost use Rattle.code_core.specs.Prototype.{list_of};
ghost use Rattle.library_rows.specs.PreludeText.{prelude_functions};
ghost use Rattle.lua_heap.specs.Cells.{CellsAreListed};
ghost use Rattle.lua_heap.specs.Codes.{AreCodes};
ghost use Rattle.lua_heap.specs.Opening.{opened_world};
ghost use Rattle.lua_heap.specs.Plain.{plain};
ghost use Rattle.machine_runs.specs.Opening.{opening};
ghost use Rattle.lua_meaning.specs.Opening.{prelude_of};

use crate::functions::add_functions;
use crate::tables::library_tables;
use code_core::Checked;
use lua_heap::{Cell, World};
use std::alloc::{AllocError, Global};
use table_core::{TableId, Value};

/// The number of the metatable of strings.
const STRING_METATABLE: TableId = TableId(7);

/// The world before a script, with the tables of the libraries and the functions that are defined in the prelude's code, in the order of its text.
pub fn open(alloc: Global, prelude: Checked) -> Result<World, AllocError>
    requires { length (list_of prelude.inner) ≡ length prelude_functions }
    ensures plain { IfOk result (λ world. (fuel : ℕ) → plain world fuel ≡ record (opening (prelude_of (list_of prelude.inner))) { fuel = fuel }) }
    ensures codes { IfOk result (λ world. AreCodes world.strings world.codes) }
    ensures listed { IfOk result (λ world. CellsAreListed world) }
{
    let mut world = World::new(alloc)?;
    furnish(&mut world, prelude)?;
    Ok(world)
}

/// Adds the functions and the tables to a world in which nothing has run.
fn furnish(world: &mut World, prelude: Checked) -> Result<(), AllocError>
    requires prelude { length (list_of prelude.inner) ≡ length prelude_functions }
    requires opened { (fuel : ℕ) → plain world.old fuel ≡ opened_world fuel }
    requires codes { AreCodes world.old.strings world.old.codes }
    ensures plain { OnOk result ((fuel : ℕ) → plain world.new fuel ≡ record (opening (prelude_of (list_of prelude.inner))) { fuel = fuel }) }
    ensures codes { OnOk result (AreCodes world.new.strings world.new.codes) }
    ensures listed { OnOk result (CellsAreListed world.new) }
{
    let variables = Value::Table(world.prelude.env);
    let environment = world.add_cell(Cell::Closed(variables))?;
    add_functions(world, environment, prelude)?;
    world.tables = library_tables(&mut world.strings, world.alloc)?;
    world.string_meta = Some(STRING_METATABLE);
    Ok(())
}

/// Checked code keeps all rules.
pub fn rules_hold(code: &Checked)
    ensures { IsChecked code.now }
{
    code.proto();
}
