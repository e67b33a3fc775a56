// Lists that go to a table (OP_SETLIST of lvm.c).
ghost use Rattle.std.specs.Prelude.{◌≡◌, ◌+◌, ◌<◌, ◌^◌, ℕ, [], ◌∷◌, List, Some, codes, pos, map, drop, length, true, IfOk, OnErr, OnOk};
ghost use Rattle.int_core.specs.Operations.{of_type};
ghost use Rattle.int_core.specs.Value.{Value as Meant, a_table, object};
ghost use Rattle.instruction_forms.specs.Forms.{fills_behind, text_of};
ghost use Rattle.instruction_forms.specs.declared.form.Form.TheVariants.{FillTable};
ghost use Rattle.lua_heap.specs.Plain.{plain};
ghost use Rattle.lua_heap.specs.Reading.{value as meant};
ghost use Rattle.machine_core.specs.World.{Place, place_of};
ghost use Rattle.machine_core.specs.Text.{Arg, arg, fill_table as fills};
ghost use Rattle.machine_core.specs.FrameRows.{expand, raises};
ghost use Rattle.machine_core.specs.Moves.{outside};
ghost use Rattle.move_laws.specs.Memory.{HasFrame, InOrder, IsSafe, IsSound, Leads, Makes, StandsAt, StandsSound};
ghost use Rattle.machine_moves.specs.Ending.{ending_of};
ghost use Rattle.machine_call_rows.specs.Rows.{MayReadValues, ReadsValues};
ghost use Rattle.machine_objects.specs.Filling.{FrameRuns, as_table, counted, filled_rows, filling};
ghost use Rattle.table_core.specs.declared.value.Value.TheVariants.{Int};

use int_core::Allocated;
use lua_heap::{World, law};
use machine_errors::raise;
use machine_moves::{
    Ending, code_on_top, end_list, go_to, read_list, read_register, read_registers,
};
use machine_rows::extra_argument;
use meta_ops::Fault;
use std::alloc::AllocError;
use table_core::{Key, Table, TableId, Value};

/// What goes to a table: so many values, or for 0 those up to the end of the open list, to the indexes behind `last`. The frame goes on so far ahead.
#[derive(Clone, Copy)]
struct Listed {
    count: usize,
    last: usize,
    ahead: usize,
}

/// So many values behind the register of a table, or for 0 those up to the end of the open list, go to the table's indexes behind `last`, to which the next
/// word adds where it is far (Lua 5.4 manual, 3.4.9). A register without a table is an error. A refusal may leave some of the values in the table.
pub fn fill_table(
    world: &mut World,
    pc: usize,
    table: usize,
    count: usize,
    last: usize,
    far: bool,
) -> Allocated<Ending>
    requires sound { IsSound world.old }
    requires at { StandsAt world.old pc }
    requires runs { FrameRuns world.old }
    requires room { pc + 2 < 2 ^ 64 }
    requires near { table + 1 < 2 ^ 64 }
    requires small { last < 2 ^ 32 }
    requires safe { (place : Place) → place_of (plain world.old 0) ≡ Some place → IsSafe (expand (text_of place.function.code pc (FillTable table count last far))) [] world.old }
    ensures leads { IfOk result (λ ending. (place : Place) → place_of (plain world.old 0) ≡ Some place → Leads (expand (text_of place.function.code pc (FillTable table count last far))) [] world.old world.new (ending_of ending)) }
    ensures order { InOrder world.new }
    ensures err { OnErr result (world.new.printed ≡ world.old.printed) }
{
    if !far {
        let list = Listed {
            count,
            last,
            ahead: 1,
        };
        return fill_behind(world, pc, table, list);
    }
    let more = extra_argument(world, pc);
    let list = Listed {
        count,
        last: last + 256 * more,
        ahead: 2,
    };
    fill_behind(world, pc, table, list)
}

/// The values behind the register of a table go there.
fn fill_behind(world: &mut World, pc: usize, table: usize, list: Listed) -> Allocated<Ending>
    requires stands { StandsSound world.old pc list.ahead }
    requires runs { FrameRuns world.old }
    requires near { table + 1 < 2 ^ 64 }
    requires safe { IsSafe (expand (fills_behind table list.count list.last (pos list.ahead))) [] world.old }
    ensures leads { IfOk result (λ ending. Leads (expand (fills_behind table list.count list.last (pos list.ahead))) [] world.old world.new (ending_of ending)) }
    ensures order { InOrder world.new }
    ensures err { OnErr result (world.new.printed ≡ world.old.printed) }
{
    let filled = read_register(world, table);
    let Some(id) = table_of(filled) else {
        return refuse(world, filled);
    };
    fill_from(world, pc, id, table + 1, list)
}

/// The table that a value is.
fn table_of(v: Value) -> Option<TableId>
    ensures { result ≡ as_table v }
{
    match v {
        Value::Table(id) => Some(id),
        _ => None,
    }
}

/// A value that is no table cannot be filled.
fn refuse(world: &mut World, filled: Value) -> Allocated<Ending>
    requires sound { IsSound world.old }
    requires frame { HasFrame world.old }
    ensures leads { IfOk result (λ ending. (env : List Meant) → Leads (raises (of_type (codes "index") (meant world.old.strings filled))) env world.old world.new (ending_of ending)) }
    ensures order { InOrder world.new }
    ensures err { OnErr result (world.new ≡ world.old) }
{
    let text = Fault::Index(filled).text(world.alloc)?;
    raise(world, &text)
}

/// The values of the registers from one on go to a table.
fn fill_from(
    world: &mut World,
    pc: usize,
    id: TableId,
    from: usize,
    list: Listed,
) -> Allocated<Ending>
    requires stands { StandsSound world.old pc list.ahead }
    requires runs { FrameRuns world.old }
    requires safe { IsSafe (expand (filling from list.count list.last (pos list.ahead))) (object a_table id.0 ∷ []) world.old }
    ensures leads { IfOk result (λ ending. Leads (expand (filling from list.count list.last (pos list.ahead))) (object a_table id.0 ∷ []) world.old world.new (ending_of ending)) }
    ensures order { InOrder world.new }
    ensures err { OnErr result (world.new.printed ≡ world.old.printed) }
{
    let size = usize::from(code_on_top(world).stack);
    let values = listed_values(world, from, list.count).to_vec(world.alloc)?;
    fill(world, id, list.last, &values)?;
    end_list(world, size);
    go_to(world, pc + list.ahead);
    Ok(Ending::Go)
}

/// The values of so many registers from one on, or for 0 those up to the end of the open list.
fn listed_values(world: &World, from: usize, count: usize) -> &[Value]
    requires sound { IsSound world.now }
    requires safe { MayReadValues world.now from (counted count) }
    ensures { ReadsValues world.now from (counted count) result.now }
{
    if count == 0 {
        return read_list(world, from);
    }
    read_registers(world, from, count)
}

/// Values go to the indexes behind `last` of a table. A refusal may leave some of them there.
fn fill(world: &mut World, id: TableId, last: usize, values: &[Value]) -> Allocated<()>
    requires frame { HasFrame world.old }
    requires there { id.0 < length world.old.tables.objects }
    ensures makes { OnOk result ((env : List Meant) (x : Arg) (slot : ℕ) → arg env x ≡ object a_table id.0 → drop slot env ≡ map (meant world.old.strings) values.now → Makes world.old world.new (outside (fills x last slot)) env [] true) }
    ensures rest { world.new ≡ record world.old { tables = world.new.tables } }
{
    law::tables_are_read();
    // By this call's contract no content has two numbers, so keys are equal where their texts are.
    world.strings.len();
    let table = world.tables.get_mut(id.0);
    fill_rows(table, last, values)?;
    Ok(())
}

/// They go to its rows.
fn fill_rows(table: &mut Table, last: usize, values: &[Value]) -> Allocated<()>
    ensures rows { OnOk result (table.new.rows ≡ filled_rows last values.now table.old.rows) }
    ensures metatable { table.new.metatable ≡ table.old.metatable }
{
    let mut index = last;
    for v in values {
        index = index.checked_add(1).ok_or(AllocError)?;
        let key = key_of(index)?;
        table.set(key, *v)?;
    }
    Ok(())
}

/// The key that an index is. No memory holds as many values as one that is no integer would take.
fn key_of(index: usize) -> Allocated<Key>
    ensures { IfOk result (λ key. key ≡ Int (pos index)) }
{
    let n = i64::try_from(index).map_err(|_| AllocError)?;
    Key::of(Value::Int(n)).ok_or(AllocError)
}
