// Reads and writes of tables without metamethods (Lua 5.4 manual, 2.4 and 6.1).
ghost use Rattle.std.specs.Prelude.{◌≡◌, ◌≢◌, [], ◌∷◌, Some, None, slice_get, option_map, IfOk, OnOk, OnErr};
ghost use Rattle.int_core.specs.Value.{boolean, is_known};
ghost use Rattle.library_rows.specs.Look.{no_word, border_of, compare, make_table, read_field, read_metatable, row_after, write_field, write_metatable};
ghost use Rattle.lib_base.specs.Raw.{AreAlike, Operates, read_row, table_or_nil, told_border, told_row};

use crate::law::rows_are_followed_alike;
use lua_heap::World;
use lua_heap::law::{equality_is_raw, tables_are_read};
use std::alloc::AllocError;
use table_core::{Key, NoSuchKey, Table, TableId, Value};

/// Tells contracts that tables are read alike, whether their values are kept or what these stand for.
#[inline(always)]
pub(crate) fn reads_alike(world: &World)
    ensures { AreAlike world.now.strings }
{
    tables_are_read();
    rows_are_followed_alike();
    equality_is_raw();
    world.strings.len();
}

/// The table of a number, where there is one.
#[inline(always)]
pub(crate) fn table(world: &World, id: TableId) -> Option<&Table>
    ensures { option_map (λ table. table.now) result ≡ slice_get world.now.tables.objects id.0 }
{
    if id.0 < world.tables.len() {
        Some(world.tables.get(id.0))
    } else {
        None
    }
}

/// The value that a table is, or nil.
#[inline(always)]
pub fn value_of(table: Option<TableId>) -> Value
    ensures { result ≡ table_or_nil table }
{
    match table {
        Some(id) => Value::Table(id),
        None => Value::Nil,
    }
}

/// Whether two values are the same, by raw equality.
pub fn equal(world: &World, a: Value, b: Value) -> bool
    ensures { Operates compare world.now (a ∷ b ∷ []) world.now [] (is_known (boolean result)) }
{
    reads_alike(world);
    a == b
}

/// The value at a key, or nil; also for what is no table.
pub fn read_field(world: &World, object: Value, key: Value) -> Value
    ensures { Operates read_field world.now (object ∷ key ∷ []) world.now (result ∷ []) no_word }
{
    reads_alike(world);
    let Value::Table(id) = object else {
        return Value::Nil;
    };
    match table(world, id) {
        Some(table) => table.get(key),
        None => Value::Nil,
    }
}

/// Puts a value at a key. A refusal changes nothing.
pub fn write_field(world: &mut World, id: TableId, key: Key, value: Value) -> Result<(), AllocError>
    ensures does { OnOk result (Operates write_field world.old (Value.Table id ∷ key ∷ value ∷ []) world.new [] no_word) }
    ensures err { OnErr result (world.new ≡ world.old) }
{
    reads_alike(world);
    if id.0 < world.tables.len() {
        world.tables.get_mut(id.0).set(key, value)?;
    }
    Ok(())
}

/// The metatable of a table, or that of all strings.
pub fn metatable(world: &World, object: Value) -> Option<TableId>
    ensures { Operates read_metatable world.now (object ∷ []) world.now (table_or_nil result ∷ []) no_word }
{
    match object {
        Value::Table(id) => match table(world, id) {
            Some(table) => table.metatable(),
            None => None,
        },
        Value::Str(_) => world.string_meta,
        _ => None,
    }
}

/// Sets or takes off the metatable of a table.
pub fn set_metatable(world: &mut World, id: TableId, metatable: Option<TableId>)
    ensures { Operates write_metatable world.old (Value.Table id ∷ table_or_nil metatable ∷ []) world.new [] no_word }
{
    if id.0 < world.tables.len() {
        world.tables.get_mut(id.0).set_metatable(metatable);
    }
}

/// The border of a table (Lua 5.4 manual, 3.4.7), where there is one of that number.
pub fn border(world: &World, id: TableId) -> Option<i64>
    ensures { Operates border_of world.now (Value.Table id ∷ []) world.now [] (told_border result) }
{
    reads_alike(world);
    match table(world, id) {
        Some(table) => Some(table.border()),
        None => None,
    }
}

/// The first filled row after a key's row, or from the start for nil; `None` at the end (Lua 5.4 manual, 6.1, `next`).
///
/// # Errors
///
/// The key has no row.
pub fn row_after(world: &World, id: TableId, key: Value) -> Result<Option<(Key, Value)>, NoSuchKey>
    ensures { Operates row_after world.now (Value.Table id ∷ key ∷ []) world.now (read_row result) (told_row result) }
{
    reads_alike(world);
    match table(world, id) {
        Some(table) => table.next(key),
        None => Err(NoSuchKey),
    }
}

/// A new table without rows. A refusal changes nothing.
pub fn make_table(world: &mut World) -> Result<TableId, AllocError>
    ensures does { IfOk result (λ id. Operates make_table world.old [] world.new (Value.Table id ∷ []) no_word) }
    ensures err { OnErr result (world.new ≡ world.old) }
{
    let alloc = world.alloc;
    world.add_table(Table::new(alloc))
}
