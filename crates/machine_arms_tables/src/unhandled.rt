// Stores that the metatable of a table does not decide, since it has no handler for them: fields of objects of classes (luaV_finishset of lvm.c; Lua 5.4 manual, 2.4).
ghost use Rattle.std.specs.Prelude.{◌≡◌, ◌<◌, IfNone, IfSome, [], ◌∷◌, false, length, true};
ghost use Rattle.int_core.specs.Operations.{store};
ghost use Rattle.machine_arms_tables.specs.Fields.{LacksHandler, Settles, with_field};
ghost use Rattle.table_core.specs.Value.{is_nil};
ghost use Rattle.table_core.specs.declared.value.Value.TheVariants.{Table as a_table};

use crate::fields::{put_field, table_of};
use crate::inherited::Reach;
use lua_heap::{Strings, law};
use meta_ops::{Event, Heap, handler_in};
use object_pool::Pool;
use table_core::{Key, Table, TableId, Value};

/// Puts a value at a key of a value that is a table: where it has a value there or no metatable, and, where the reach is so far, where its metatable has no handler for
/// stores. `None`, with all as before, where something else may decide it, where it is an error, and where memory is wanting.
#[inline(always)]
pub(crate) fn put_within(
    strings: &Strings,
    tables: &mut Pool<Table>,
    object: Value,
    key: Value,
    v: Value,
    reach: Reach,
) -> Option<()>
    ensures settles { IfSome result (λ _. Settles strings.now store (object ∷ key ∷ v ∷ []) tables.old.objects tables.new.objects []) }
    ensures kept { IfNone result (tables.new ≡ tables.old) }
{
    match put_field(tables, object, key, v) {
        Some(()) => Some(()),
        None => match reach {
            Reach::Own => None,
            Reach::Inherited => {
                law::tables_are_read();
                let id = unhandled_in(strings, tables, object)?;
                put_raw(tables.get_mut(id.0), key, v)
            }
        },
    }
}

/// The table that a value is, where its metatable has no handler for stores.
fn unhandled_in(strings: &Strings, tables: &Pool<Table>, object: Value) -> Option<TableId>
    ensures is { IfSome result (λ id. object ≡ a_table id) }
    ensures there { IfSome result (λ id. id.0 < length tables.now.objects) }
    ensures lacks { IfSome result (λ id. LacksHandler strings.now tables.now.objects id.0) }
{
    let id = table_of(tables, object)?;
    if !lacks_handler(strings, tables, id) {
        return None;
    }
    Some(id)
}

/// Whether a table's metatable has no handler for stores.
fn lacks_handler(strings: &Strings, tables: &Pool<Table>, id: TableId) -> bool
    ensures { result ≡ true → LacksHandler strings.now tables.now.objects id.0 }
{
    let heap = Heap {
        tables,
        strings,
        string_meta: None,
    };
    match handler_in(heap, Event::NewIndex, Value::Table(id)) {
        Value::Nil => true,
        _ => false,
    }
}

/// Puts a value at a key of a table, whatever its metatable says. `None`, with all as before, where the key is nil, and where memory is wanting.
fn put_raw(table: &mut Table, key: Value, v: Value) -> Option<()>
    ensures named { IfSome result (λ _. is_nil key ≡ false) }
    ensures put { IfSome result (λ _. table.new ≡ with_field table.old key v) }
    ensures kept { IfNone result (table.new ≡ table.old) }
{
    let named = Key::of(key)?;
    table.set(named, v).ok()
}
