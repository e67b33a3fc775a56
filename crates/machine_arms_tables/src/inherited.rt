// Fields that handlers of `__index` which are tables lead to: methods of classes (luaV_finishget of lvm.c; Lua 5.4 manual, 2.4).
ghost use Rattle.std.specs.Prelude.{◌≡◌, IfSome, None, Some, [], ◌∷◌, codes, is_some, slice_get};
ghost use Rattle.int_core.specs.Operations.{index};
ghost use Rattle.machine_arms_tables.specs.Fields.{Settles, field_at_once, metatable_at, table_above, table_named, table_only};

use crate::fields::{field, table_at};
use lua_heap::{Strings, law};
use object_pool::Pool;
use table_core::{StrId, Table, TableId, Value};

/// Longer chains of handlers are left to the step over the whole world.
const MOST_LINKS: usize = 64;

/// How far a read looks for a field.
#[derive(Clone, Copy, Debug)]
pub(crate) enum Reach {
    /// In the value itself.
    Own,
    /// In the tables that handlers lead to as well.
    Inherited,
}

/// The field of a value that has a key: its own, or, where the reach is so far, that of the first table with one which the handlers lead to. `None` where
/// something else may decide it, and where it is an error.
#[inline(always)]
pub(crate) fn field_within(
    strings: &Strings,
    tables: &Pool<Table>,
    object: Value,
    key: Value,
    reach: Reach,
) -> Option<Value>
    ensures { IfSome result (λ v. Settles strings.now index (object ∷ key ∷ []) tables.now.objects tables.now.objects (v ∷ [])) }
{
    let own = field(tables, object, key);
    match own {
        Some(v) => Some(v),
        None => match reach {
            Reach::Own => None,
            Reach::Inherited => inherited(strings, tables, object, key),
        },
    }
}

/// The field that the handlers of a value lead to. Out of line, since most fields are those of the value itself.
#[inline(never)]
fn inherited(strings: &Strings, tables: &Pool<Table>, object: Value, key: Value) -> Option<Value>
    requires { field_at_once tables.now.objects object key ≡ None }
    ensures { IfSome result (λ v. Settles strings.now index (object ∷ key ∷ []) tables.now.objects tables.now.objects (v ∷ [])) }
{
    if !is_table(object) {
        return None;
    }
    let name = index_name(strings)?;
    follow(strings, tables, name, object, key)
}

/// Whether a value is a table.
#[inline(always)]
fn is_table(v: Value) -> bool {
    matches!(v, Value::Table(_))
}

/// The string that names the handlers of reads.
#[inline(always)]
fn index_name(strings: &Strings) -> Option<StrId>
    ensures { IfSome result (λ name. slice_get strings.now name.0 ≡ Some (codes "__index")) }
{
    let name = index_text();
    strings.find(name)
}

/// Its bytes.
#[inline(always)]
fn index_text() -> &'static [u8]
    ensures { result.now ≡ codes "__index" }
{
    b"__index"
}

/// The field of the first table with one which the handlers lead to.
fn follow(
    strings: &Strings,
    tables: &Pool<Table>,
    name: StrId,
    object: Value,
    key: Value,
) -> Option<Value>
    requires named { slice_get strings.now name.0 ≡ Some (codes "__index") }
    requires absent { field_at_once tables.now.objects object key ≡ None }
    ensures { IfSome result (λ v. Settles strings.now index (object ∷ key ∷ []) tables.now.objects tables.now.objects (v ∷ [])) }
{
    let mut at = object;
    for _link in 0..MOST_LINKS {
        law::tables_are_read();
        let handler = table_above(tables, name, at)?;
        let own = field(tables, handler, key);
        if is_found(own) {
            return own;
        }
        at = handler;
    }
    None
}

/// Whether there is a value.
#[inline(always)]
fn is_found(v: Option<Value>) -> bool
    ensures { result ≡ is_some v }
{
    match v {
        Some(_) => true,
        None => false,
    }
}

/// The table that a value's metatable has at a name.
#[inline(always)]
fn table_above(tables: &Pool<Table>, name: StrId, object: Value) -> Option<Value>
    ensures { result ≡ table_above tables.now.objects name object }
{
    match metatable_at(tables, object) {
        Some(meta) => table_named(tables, meta, name),
        None => None,
    }
}

/// The metatable of a value that is a table.
#[inline(always)]
fn metatable_at(tables: &Pool<Table>, object: Value) -> Option<TableId>
    ensures { result ≡ metatable_at tables.now.objects object }
{
    match object {
        Value::Table(id) => match table_at(tables, id) {
            Some(table) => table.metatable(),
            None => None,
        },
        _ => None,
    }
}

/// The table that a table has at a name.
#[inline(always)]
fn table_named(tables: &Pool<Table>, id: TableId, name: StrId) -> Option<Value>
    ensures { result ≡ table_named tables.now.objects id name }
{
    match table_at(tables, id) {
        Some(table) => table_only(table.get_string(name)),
        None => None,
    }
}

/// A value, where it is a table.
#[inline(always)]
fn table_only(v: Value) -> Option<Value>
    ensures { result ≡ table_only v }
{
    match v {
        Value::Table(id) => Some(Value::Table(id)),
        _ => None,
    }
}
