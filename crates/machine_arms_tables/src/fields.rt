// Fields that no handler decides (luaV_fastget of lvm.h; Lua 5.4 manual, 2.4).
ghost use Rattle.std.specs.Prelude.{◌≡◌, ◌<◌, ℕ, List, IfSome, IfNone, IsTrue, [], ◌∷◌, length, slice_get, Some, None, MatchOption, false};
ghost use Rattle.int_core.specs.Operations.{index, store};
ghost use Rattle.int_core.specs.Rows.{get, set};
ghost use Rattle.table_core.specs.Value.{lua_values};
ghost use Rattle.table_core.specs.declared.value.Value.TheVariants.{Table as a_table};
ghost use Rattle.machine_arms_tables.specs.Fields.{is_raw, field_in, field_at_once, takes, with_field, Settles};

use lua_heap::law;
use object_pool::Pool;
use table_core::{Key, Table, TableId, Value};

/// The table of a number, where there is one.
#[inline(always)]
pub(crate) fn table_at(tables: &Pool<Table>, id: TableId) -> Option<&Table>
    ensures { MatchOption result (slice_get tables.now.objects id.0 ≡ None) (λ t. slice_get tables.now.objects id.0 ≡ Some t.now) }
{
    if id.0 < tables.len() {
        Some(tables.get(id.0))
    } else {
        None
    }
}

/// The table that a value is, where there is one.
#[inline(always)]
pub(crate) fn table_of(tables: &Pool<Table>, v: Value) -> Option<TableId>
    ensures is { IfSome result (λ id. v ≡ a_table id) }
    ensures there { IfSome result (λ id. id.0 < length tables.now.objects) }
{
    match v {
        Value::Table(id) if id.0 < tables.len() => Some(id),
        _ => None,
    }
}

/// The value of a table at a key, or nil. Most keys are strings, which are looked for among strings alone.
#[inline(always)]
fn value_at(table: &Table, key: Value) -> Value
    ensures { result ≡ get lua_values table.now.rows key }
{
    match key {
        Value::Str(id) => table.get_string(id),
        _ => table.get(key),
    }
}

/// The field of a table that has a key. `None` where the metatable may have a handler for it.
#[inline(always)]
fn field_of(table: &Table, key: Value) -> Option<Value>
    ensures { result ≡ field_in table.now key }
{
    let v = value_at(table, key);
    if v == Value::Nil && table.metatable().is_some() {
        return None;
    }
    Some(v)
}

/// The field of a value that has a key. `None` where a handler may decide it, and where it is an error.
#[inline(always)]
pub(crate) fn field(tables: &Pool<Table>, object: Value, key: Value) -> Option<Value>
    ensures field { result ≡ field_at_once tables.now.objects object key }
    ensures settles { IfSome result (λ v. (texts : List (List ℕ)) → Settles texts index (object ∷ key ∷ []) tables.now.objects tables.now.objects (v ∷ [])) }
{
    law::tables_are_read();
    match object {
        Value::Table(id) => match table_at(tables, id) {
            Some(table) => field_of(table, key),
            None => None,
        },
        _ => None,
    }
}

/// Whether no handler decides at a key.
#[inline(always)]
fn is_raw(table: &Table, key: Value) -> bool
    ensures { result ≡ is_raw table.now key }
{
    table.metatable().is_none() || value_at(table, key) != Value::Nil
}

/// Puts a value at a key of a table. `None`, with all as before, where the key is nil, where the metatable may have a handler for it, and
/// where memory is wanting.
#[inline(always)]
fn put(table: &mut Table, key: Value, v: Value) -> Option<()>
    ensures takes { IfSome result (λ _. IsTrue (takes table.old key)) }
    ensures put { IfSome result (λ _. table.new ≡ with_field table.old key v) }
    ensures kept { IfNone result (table.new ≡ table.old) }
{
    let named = Key::of(key)?;
    if !is_raw(table, key) {
        return None;
    }
    let stored = put_in_place(table, key, v);
    if stored {
        return Some(());
    }
    table.set(named, v).ok()
}

/// Puts a value at a string that has a row, and answers whether it has one. At other keys nothing is done.
#[inline(always)]
fn put_in_place(table: &mut Table, key: Value, v: Value) -> bool
    ensures put { IsTrue result → table.new.rows ≡ set lua_values table.old.rows key v }
    ensures metatable { table.new.metatable ≡ table.old.metatable }
    ensures kept { result ≡ false → table.new ≡ table.old }
{
    match key {
        Value::Str(id) => table.set_string(id, v),
        _ => false,
    }
}

/// Puts a value at a key of a value that is a table. `None`, with all as before, where a handler may decide it, where it is an error, and
/// where memory is wanting.
#[inline(always)]
pub(crate) fn put_field(tables: &mut Pool<Table>, object: Value, key: Value, v: Value) -> Option<()>
    ensures settles { IfSome result (λ _. (texts : List (List ℕ)) → Settles texts store (object ∷ key ∷ v ∷ []) tables.old.objects tables.new.objects []) }
    ensures kept { IfNone result (tables.new ≡ tables.old) }
{
    law::tables_are_read();
    let id = table_of(tables, object)?;
    put(tables.get_mut(id.0), key, v)
}
