// What operations on values look at: tables, strings and the metatable that all strings share.
ghost use Rattle.std.specs.Prelude.{◌≡◌, ◌≤◌, None, Some, MatchOption, length, slice_get, option_map};
ghost use Rattle.int_core.specs.Heap.{raw_get, metatable_of};
ghost use Rattle.int_core.specs.Value.{greatest_string};
ghost use Rattle.lua_heap.specs.Reading.{value};
ghost use Rattle.meta_ops.specs.Heap.{heap_of, row_field, field_in};

use lua_heap::{Strings, law};
use object_pool::Pool;
use table_core::{Table, TableId, Value};

/// The parts of a world that operations on values look at.
#[derive(Clone, Copy)]
pub struct Heap<'a> {
    pub tables: &'a Pool<Table>,
    pub strings: &'a Strings,
    /// The metatable that all strings share.
    pub string_meta: Option<TableId>,
}

impl<'a> Heap<'a> {
    /// The table of a number, where there is one.
    #[inline(always)]
    fn table(self, id: TableId) -> Option<&'a Table>
        ensures { MatchOption result (slice_get self.entry.tables.now.objects id.0 ≡ None) (λ t. slice_get self.entry.tables.now.objects id.0 ≡ Some t.now) }
    {
        if id.0 < self.tables.len() {
            Some(self.tables.get(id.0))
        } else {
            None
        }
    }

    /// The value at a key of a table, whatever its metatable says; `None` where the object is no table.
    #[inline(always)]
    pub fn raw_get(self, object: Value, key: Value) -> Option<Value>
        ensures { option_map (value self.entry.strings.now) result ≡ raw_get (heap_of self.entry) (value self.entry.strings.now object) (value self.entry.strings.now key) }
    {
        self.strings.len();
        law::tables_are_read();
        match object {
            Value::Table(id) => match self.table(id) {
                Some(table) => Some(table.get(key)),
                None => None,
            },
            _ => None,
        }
    }

    /// The metatable of a value: a table has its own, and all strings share one (Lua 5.4 manual, 2.4).
    #[inline(always)]
    pub fn metatable(self, object: Value) -> Option<TableId>
        ensures { option_map (λ id. id.0) result ≡ metatable_of (heap_of self.entry) (value self.entry.strings.now object) }
    {
        match object {
            Value::Table(id) => match self.table(id) {
                Some(table) => table.metatable(),
                None => None,
            },
            Value::Str(_) => self.string_meta,
            _ => None,
        }
    }

    /// The field of a value's metatable that has a name, or nil.
    #[inline(always)]
    pub fn metafield(self, object: Value, name: &[u8]) -> Value
        requires { length name.now ≤ greatest_string }
        ensures { value self.entry.strings.now result ≡ field_in (heap_of self.entry) name.now (value self.entry.strings.now object) }
    {
        match self.metatable(object) {
            Some(id) => self.field(id, name),
            None => Value::Nil,
        }
    }

    /// The field of a table that has a name, or nil.
    #[inline(always)]
    fn field(self, id: TableId, name: &[u8]) -> Value
        requires { length name.now ≤ greatest_string }
        ensures { value self.entry.strings.now result ≡ row_field (heap_of self.entry) id.0 name.now }
    {
        self.strings.len();
        law::tables_are_read();
        law::strings_are_there();
        match self.table(id) {
            Some(table) => match self.strings.find(name) {
                Some(name) => table.get_string(name),
                None => Value::Nil,
            },
            None => Value::Nil,
        }
    }
}
