// A script that begins in a world (`lua_load` of Lua's lapi.c).
ghost use Rattle.std.specs.Prelude.{◌≡◌, ℕ, length, map, IfOk, OnOk};
ghost use Rattle.lua_heap.specs.Cells.{CellsAreListed};
ghost use Rattle.lua_heap.specs.Plain.{plain};
ghost use Rattle.machine_runs.specs.Opening.{begun, numbers};
ghost use Rattle.move_laws.specs.Memory.{InOrder, IsSound};
ghost use Rattle.lua_session.specs.Beginning.{kept_cells, outer_value as outer};

use code_core::Checked;
use int_core::Allocated;
use lua_heap::law::cells_stay_listed;
use lua_heap::{Cell, Coro, Func, World};
use table_core::{CellId, TableId, Value};

/// Gives a script's code to a new main coroutine. Of its outer variables the first is the table of globals, and any further ones are nil (Lua 5.4 manual,
/// 2.2). Where memory is wanting no script can begin in the world any more.
pub fn begin(world: &mut World, code: Checked) -> Allocated<()>
    requires { IsSound world.old }
    ensures begun { OnOk result ((fuel : ℕ) → plain world.new fuel ≡ begun (plain world.old fuel) code) }
    ensures order { OnOk result (InOrder world.new) }
{
    cells_stay_listed();
    let count = code.proto().upvalues.len();
    let proto = world.add_code(code)?;
    let cells = main_cells(world, count)?;
    let function = world.add_func(Func { code: proto, cells })?;
    let main = world.add_coro(Coro::Fresh(Value::Func(function)))?;
    world.main = Some(main);
    world.moving.clear();
    Ok(())
}

/// New cells of a main function's outer variables.
fn main_cells(world: &mut World, count: usize) -> Allocated<Vec<CellId>>
    requires { CellsAreListed world.old }
    ensures cells { OnOk result (world.new.cells.objects ≡ kept_cells world.old.cells.objects world.old.globals count) }
    ensures ids { IfOk result (λ ids. map (λ id. id.0) ids.items ≡ numbers (length world.old.cells.objects) count) }
    ensures listed { CellsAreListed world.new }
    ensures rest { world.new ≡ record world.old { cells = world.new.cells } }
{
    cells_stay_listed();
    let globals = world.globals;
    let mut ids = Vec::new(world.alloc);
    'cells: for place in 0..count {
        let cell = world.add_cell(Cell::Closed(outer_value(globals, place)))?;
        ids.push(cell)?;
    }
    Ok(ids)
}

/// What an outer variable of a script begins as.
fn outer_value(globals: TableId, place: usize) -> Value
    ensures { result ≡ outer globals place }
{
    if place == 0 {
        Value::Table(globals)
    } else {
        Value::Nil
    }
}
