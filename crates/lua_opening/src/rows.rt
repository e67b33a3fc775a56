// Rows that are written into a new table.
ghost use Rattle.std.specs.Prelude.{◌≡◌, ℕ, ◌≤◌, ◌++◌, List, [], None, true, map, length, IfOk, OnOk};
ghost use Rattle.std.specs.List.{list_all};
ghost use Rattle.int_core.specs.Value.{greatest_string, known, string};
ghost use Rattle.lua_heap.specs.Adding.{Begins};
ghost use Rattle.lua_heap.specs.Reading.{value as read_as};
ghost use Rattle.lua_opening.specs.Opened.{Filled, IsShort, fits, item_value, meant};

use lua_heap::Strings;
use std::alloc::{AllocError, Global};
use table_core::{FuncId, Key, Table, TableId, Value};

/// What stands at a name of a library's table.
#[derive(Clone, Copy)]
pub enum Item {
    /// The primitive of a number.
    Primitive(u16),
    /// The prelude's function at a place of its text.
    Function(usize),
    /// The table of a number.
    Table(usize),
    Integer(i64),
    Text(&'static [u8]),
}

/// Writes rows into a table where nothing is yet. Their strings are added where they are not there.
pub(crate) fn fill(
    strings: &mut Strings,
    table: &mut Table,
    rows: &[(&'static str, Item)],
) -> Result<(), AllocError>
    requires fits { list_all (λ r. fits r.0.now r.1) rows.now ≡ true }
    requires none { table.old.rows ≡ [] }
    requires plain { table.old.metatable ≡ None }
    ensures strings { OnOk result (Begins (List ℕ) strings.old strings.new) }
    ensures table { OnOk result (Filled strings.new table.new (map (λ r. meant r.0.now r.1) rows.now)) }
{
    for (name, item) in rows {
        let key = key_of(strings, name)?;
        let value = value_of(strings, *item)?;
        table.set(key, value)?;
    }
    Ok(())
}

/// A name as a key.
fn key_of(strings: &mut Strings, name: &str) -> Result<Key, AllocError>
    requires { length name.now ≤ greatest_string }
    ensures strings { Begins (List ℕ) strings.old strings.new }
    ensures key { IfOk result (λ key. (more : List (List ℕ)) → read_as (strings.new ++ more) key ≡ known (string name.now)) }
{
    let id = strings.intern(name.as_bytes())?;
    Ok(Key::of(Value::Str(id)).unwrap())
}

/// An item as a value.
fn value_of(strings: &mut Strings, item: Item) -> Result<Value, AllocError>
    requires { IsShort item }
    ensures strings { Begins (List ℕ) strings.old strings.new }
    ensures value { IfOk result (λ v. (more : List (List ℕ)) → read_as (strings.new ++ more) v ≡ item_value item) }
{
    match item {
        Item::Primitive(number) => Ok(Value::Prim(number)),
        Item::Function(place) => Ok(Value::Func(FuncId(place))),
        Item::Table(number) => Ok(Value::Table(TableId(number))),
        Item::Integer(n) => Ok(Value::Int(n)),
        Item::Text(text) => {
            let id = strings.intern(text)?;
            Ok(Value::Str(id))
        }
    }
}
