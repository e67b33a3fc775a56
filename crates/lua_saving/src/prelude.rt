// Whether the prelude of a world is as it was made.
ghost use Rattle.std.specs.Prelude.{◌≡◌, ◌↔◌, ◌≤◌, ℕ, List, Some, map, length, drop, slice_get, IsTrue, false, not};
ghost use Rattle.std.specs.List.{list_all, list_any};
ghost use Rattle.code_core.specs.Prototype.{Prototype};
ghost use Rattle.int_core.specs.Value.{a_table, object};
ghost use Rattle.library_rows.specs.PreludeText.{prelude_functions};
ghost use Rattle.lua_meaning.specs.Libraries.{environment, environment_table};
ghost use Rattle.lua_meaning.specs.Opening.{prelude_of};
ghost use Rattle.machine_core.specs.World.{closed};
ghost use Rattle.machine_runs.specs.Opening.{numbers};
ghost use Rattle.lua_heap.specs.Plain.{cell, table as read_table};
ghost use Rattle.session_images.specs.Prelude.{environment_cell};
ghost use Rattle.lua_saving.specs.Made.{holds_environment, is_apart, is_environment_cell};
ghost use Rattle.lua_saving.specs.Saving.{IsAsMade, IsTouched};

use lua_heap::{Cell, Func, World};
use lua_opening::is_environment;
use lua_prelude::functions;
use object_pool::Pool;
use table_core::{CellId, FuncId, Value};

/// The table in which the prelude's functions find their variables.
const ENVIRONMENT: usize = 1;

/// The cell that these functions share.
const ENVIRONMENT_CELL: usize = 0;

/// Whether the prelude's functions come first among all, their variables are as they were made, and no other function has the cell of these.
pub(crate) fn has_prelude(world: &World) -> bool
    ensures made { IsTrue result → IsAsMade world.now }
    ensures touched { result ≡ false → IsTouched world.now }
{
    let count = functions().len();
    if world.prelude.env.0 != ENVIRONMENT {
        return false;
    }
    if !are_numbered(world.prelude.funcs.as_slice(), count) {
        return false;
    }
    if !has_environment(world) {
        return false;
    }
    if !has_cell(world) {
        return false;
    }
    are_apart(&world.funcs, count)
}

/// Whether these are so many functions, numbered from 0 on.
fn are_numbered(ids: &[FuncId], count: usize) -> bool
    ensures { IsTrue result ↔ (map (λ id. id.0) ids.now ≡ numbers 0 count) }
{
    if ids.len() != count {
        return false;
    }
    'ids: for number in 0..ids.len() {
        if ids[number].0 != number {
            return false;
        }
    }
    true
}

/// Whether the table of the prelude's variables is as it was made.
fn has_environment(world: &World) -> bool
    ensures { (codes : List Prototype) → length codes ≡ length prelude_functions → (IsTrue result ↔ (slice_get (map (read_table world.now.strings) world.now.tables.objects) environment_table ≡ Some (environment (prelude_of codes)))) }
{
    if world.tables.len() <= ENVIRONMENT {
        return false;
    }
    is_environment(&world.strings, world.tables.get(ENVIRONMENT))
}

/// Whether the cell of the prelude's functions holds that table.
fn has_cell(world: &World) -> bool
    ensures { IsTrue result ↔ (slice_get (map (cell world.now.strings) world.now.cells.objects) environment_cell ≡ Some (closed (object a_table environment_table))) }
{
    if world.cells.len() <= ENVIRONMENT_CELL {
        return false;
    }
    holds_environment(world.cells.get(ENVIRONMENT_CELL))
}

fn holds_environment(cell: &Cell) -> bool
    ensures { result ≡ holds_environment cell.now }
{
    match cell {
        Cell::Closed(Value::Table(id)) => id.0 == ENVIRONMENT,
        _ => false,
    }
}

/// Whether no function from a number on has that cell.
fn are_apart(funcs: &Pool<Func>, from: usize) -> bool
    ensures { result ≡ list_all is_apart (drop from funcs.now.objects) }
{
    'functions: for number in from..funcs.len() {
        if has_environment_cell(funcs.get(number).cells.as_slice()) {
            return false;
        }
    }
    true
}

/// Whether that cell is among some.
fn has_environment_cell(cells: &[CellId]) -> bool
    ensures { result ≡ list_any is_environment_cell cells.now }
{
    cells.iter().any(|cell| cell.0 == ENVIRONMENT_CELL)
}
