// Rows of a table in memory, beside those of a library.
ghost use Rattle.std.specs.Prelude.{◌≡◌, ◌↔◌, ℕ, Some, None, true, map, IsTrue, IfSome};
ghost use Rattle.std.specs.List.{list_all};
ghost use Rattle.table_core.specs.declared.value.Value.{Value as Kept};
ghost use Rattle.lua_heap.specs.Reading.{row as read_row, value as read_as};
ghost use Rattle.lua_opening.specs.Opened.{IsShort, fits, item_value, meant};

use crate::rows::Item;
use lua_heap::Strings;
use table_core::{FuncId, Table, TableId, Value};

/// Whether a table has these rows and no others, in this order.
pub(crate) fn has_rows(strings: &Strings, held: &Table, rows: &[(&'static str, Item)]) -> bool
    requires { list_all (λ r. fits r.0.now r.1) rows.now ≡ true }
    ensures { IsTrue result ↔ (map (read_row strings.now) held.now.rows ≡ map (λ r. meant r.0.now r.1) rows.now) }
{
    if held.rows() != rows.len() {
        return false;
    }
    'rows: for at in 0..rows.len() {
        let (name, item) = rows[at];
        let (key, value) = held.row(at);
        if !is_row(strings, key.value(), value, name, item) {
            return false;
        }
    }
    true
}

/// Whether a key and its value are the row of an item.
fn is_row(strings: &Strings, key: Value, value: Value, name: &'static str, item: Item) -> bool
    requires { fits name.now item ≡ true }
    ensures { IsTrue result ↔ (read_row strings.now (key, value) ≡ meant name.now item) }
{
    if !is_item(strings, key, Item::Text(name.as_bytes())) {
        return false;
    }
    is_item(strings, value, item)
}

/// Whether a value is what an item stands for.
fn is_item(strings: &Strings, value: Value, item: Item) -> bool
    requires { IsShort item }
    ensures { IsTrue result ↔ (read_as strings.now value ≡ item_value item) }
{
    strings.len();
    match value_in(strings, item) {
        Some(wanted) => value == wanted,
        None => false,
    }
}

/// The value that an item stands for, unless it is a text that is no string yet.
fn value_in(strings: &Strings, item: Item) -> Option<Value>
    requires { IsShort item }
    ensures there { IfSome result (λ v. read_as strings.now v ≡ item_value item) }
    ensures none { result ≡ None → (v : Kept) → read_as strings.now v ≡ item_value item → ⊥ }
{
    match item {
        Item::Primitive(number) => Some(Value::Prim(number)),
        Item::Function(place) => Some(Value::Func(FuncId(place))),
        Item::Table(number) => Some(Value::Table(TableId(number))),
        Item::Integer(n) => Some(Value::Int(n)),
        Item::Text(text) => Some(Value::Str(strings.find(text)?)),
    }
}
