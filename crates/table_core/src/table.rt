// A table: rows in the order of insertion, found by their keys, and a metatable.
ghost use Rattle.std.specs.Prelude.{◌≡◌, ◌≢◌, ◌↔◌, ◌<◌, ◌≤◌, ◌^◌, ℕ, true, false, Ok, drop, find, filter, if◌then◌else◌, pos, [], ◌∷◌, ◌++◌, length, IsTrue, IsOk, OnOk, OnErr, Some, None, slice_get};
ghost use Rattle.std.specs.Result.{result_ok};
ghost use Rattle.int_core.specs.Rows.{AreRows, IsBorder, is_filled, get, has_row, kept, set, next, border};
ghost use Rattle.table_core.specs.Places.{IsNumberedPrefix};
ghost use Rattle.table_core.specs.Value.{is_nil, lua_values};

use crate::border::mended;
use crate::rows::Rows;
use crate::value::{Key, StrId, TableId, Value};
use std::alloc::{AllocError, Global};
use std::marker::Model;

/// The key that `next` was given has no row.
#[derive(Debug, Clone, Copy, PartialEq, Eq)]
pub struct NoSuchKey;

/// A table (Lua 5.4 manual, 2.1): rows in the order in which their keys came, and a metatable.
/// A row whose value is nil is cleared, and keeps its place until a new key comes while cleared rows outnumber the others.
#[derive(Debug, Drop)]
pub struct Table {
    rows: Rows,
    /// How many rows are cleared.
    cleared: usize,
    /// The border, which each write mends.
    border: usize,
    metatable: Option<TableId>,
}

impl Model for Table {
    ghost use Rattle.int_core.specs.Rows.{IsBorder};
    ghost use Rattle.table_core.specs.Table.{Contents, IsKept};
    ghost use Rattle.table_core.specs.Value.{lua_values};

    ghost Value = { Contents };

    ghost view = { λ table. record { rows = table.rows; metatable = table.metatable } };

    ghost invariant = { λ table. IsKept table.rows table.cleared × IsBorder lua_values table.rows table.border };
}

impl Table {
    /// An empty table, which takes no memory until its first row.
    pub fn new(alloc: Global) -> Table
        ensures rows { result.rows ≡ [] }
        ensures metatable { result.metatable ≡ None }
    {
        Table {
            rows: Rows::new(alloc),
            cleared: 0,
            border: 0,
            metatable: None,
        }
    }

    /// The value at a key, or nil where no filled row has it.
    #[inline(always)]
    pub fn get(&self, key: Value) -> Value
        ensures { result ≡ get lua_values self.now.rows key }
    {
        self.rows.get(key)
    }

    /// The value at an integer, or nil.
    #[inline(always)]
    pub fn get_integer(&self, n: i64) -> Value
        ensures { result ≡ get lua_values self.now.rows (Value.Int n) }
    {
        self.rows.get(Value::Int(n))
    }

    /// The value at a string, or nil.
    #[inline(always)]
    pub fn get_string(&self, id: StrId) -> Value
        ensures { result ≡ get lua_values self.now.rows (Value.Str id) }
    {
        self.rows.get(Value::Str(id))
    }

    /// Puts a value at a key. A key that has a row keeps its place, also where the row was cleared; a new key goes last,
    /// and nil for a new key does nothing. Only a new key with a value takes memory, and a refusal changes nothing.
    pub fn set(&mut self, key: Key, value: Value) -> Result<(), AllocError>
        ensures ok { OnOk result (self.new.rows ≡ set lua_values self.old.rows key value) }
        ensures metatable { self.new.metatable ≡ self.old.metatable }
        ensures err { OnErr result (self.new ≡ self.old) }
        ensures nil { value ≡ Value.Nil → IsOk result }
        ensures present { IsTrue (has_row lua_values self.old.rows key) → IsOk result }
    {
        let key = key.value();
        if self.put(key, value) {
            return Ok(());
        }
        if value.is_nil() {
            return Ok(());
        }
        self.append(key, value)
    }

    /// Puts a value at an integer that has a row, and answers whether it has one. It takes no memory.
    #[inline(always)]
    pub fn set_integer(&mut self, n: i64, value: Value) -> bool
        ensures there { result ≡ has_row lua_values self.old.rows (Value.Int n) }
        ensures set { IsTrue result → self.new.rows ≡ set lua_values self.old.rows (Value.Int n) value }
        ensures absent { result ≡ false → self.new ≡ self.old }
        ensures metatable { self.new.metatable ≡ self.old.metatable }
    {
        self.put(Value::Int(n), value)
    }

    /// Puts a value at a string that has a row, and answers whether it has one. It takes no memory.
    #[inline(always)]
    pub fn set_string(&mut self, id: StrId, value: Value) -> bool
        ensures there { result ≡ has_row lua_values self.old.rows (Value.Str id) }
        ensures set { IsTrue result → self.new.rows ≡ set lua_values self.old.rows (Value.Str id) value }
        ensures absent { result ≡ false → self.new ≡ self.old }
        ensures metatable { self.new.metatable ≡ self.old.metatable }
    {
        self.put(Value::Str(id), value)
    }

    /// Puts a value at a key that has a row, and answers whether it has one.
    #[inline(always)]
    fn put(&mut self, key: Value, value: Value) -> bool
        ensures there { result ≡ has_row lua_values self.old.rows key }
        ensures set { IsTrue result → self.new.rows ≡ set lua_values self.old.rows key value }
        ensures absent { result ≡ false → self.new ≡ self.old }
        ensures metatable { self.new.metatable ≡ self.old.metatable }
    {
        match self.rows.replace(key, value) {
            Some(was) => {
                self.cleared = self.cleared - nil_count(was) + nil_count(value);
                self.border = mended(&self.rows, self.border, key, value);
                true
            }
            None => false,
        }
    }

    /// Puts a new key last, and drops the cleared rows where they outnumbered the others.
    #[inline(always)]
    fn append(&mut self, key: Value, value: Value) -> Result<(), AllocError>
        requires not_nil { key ≢ Value.Nil }
        requires absent { has_row lua_values self.old.rows key ≡ false }
        requires filled { is_nil value ≡ false }
        ensures ok { OnOk result (self.new.rows ≡ kept lua_values self.old.rows ++ (key, value) ∷ []) }
        ensures metatable { self.new.metatable ≡ self.old.metatable }
        ensures err { OnErr result (self.new ≡ self.old) }
    {
        if self.rows.len() - self.cleared < self.cleared {
            return self.append_dropping(key, value);
        }
        self.rows.insert_last(key, value)?;
        self.border = mended(&self.rows, self.border, key, value);
        Ok(())
    }

    /// Puts a new key last in place of the cleared rows.
    fn append_dropping(&mut self, key: Value, value: Value) -> Result<(), AllocError>
        requires not_nil { key ≢ Value.Nil }
        requires absent { has_row lua_values self.old.rows key ≡ false }
        requires filled { is_nil value ≡ false }
        ensures ok { OnOk result (self.new.rows ≡ filter (is_filled lua_values) self.old.rows ++ (key, value) ∷ []) }
        ensures metatable { self.new.metatable ≡ self.old.metatable }
        ensures err { OnErr result (self.new ≡ self.old) }
    {
        self.rows.insert_dropping(key, value, self.border)?;
        self.border = mended(&self.rows, self.border, key, value);
        self.cleared = 0;
        Ok(())
    }

    /// The first filled row after a key's row, or from the start for nil; `None` at the end (Lua 5.4 manual, 6.1).
    pub fn next(&self, key: Value) -> Result<Option<(Key, Value)>, NoSuchKey>
        ensures { result_ok result ≡ next lua_values self.now.rows key }
    {
        if key == Value::Nil {
            return Ok(self.first_filled(0));
        }
        let at = self.rows.find(key).ok_or(NoSuchKey)?;
        Ok(self.first_filled(at + 1))
    }

    fn first_filled(&self, from: usize) -> Option<(Key, Value)>
        requires { from ≤ length self.now.rows }
        ensures { result ≡ find (is_filled lua_values) (drop from self.now.rows) }
    {
        for at in from..self.rows() {
            let (key, value) = self.row(at);
            if !value.is_nil() {
                return Some((key, value));
            }
        }
        None
    }

    /// The border (Lua 5.4 manual, 3.4.7): the least integer of at least 0 behind which there is no value.
    #[inline(always)]
    pub fn border(&self) -> i64
        ensures value { result ≡ pos (border lua_values self.now.rows) }
        ensures least { (n : ℕ) × (result ≡ pos n) × IsBorder lua_values self.now.rows n }
    {
        self.border as i64
    }

    /// How many rows there are, cleared ones included.
    pub fn rows(&self) -> usize
        ensures len { result ≡ length self.now.rows }
        ensures small { result < 2 ^ 63 }
        ensures are_rows { AreRows lua_values self.now.rows }
    {
        self.rows.len()
    }

    /// How many rows have the keys 1, 2, 3 and so on, from the first row on.
    pub fn array_len(&self) -> usize
        ensures { IsNumberedPrefix self.now.rows result }
    {
        self.rows.array_len()
    }

    /// The row at a place, as it is.
    pub fn row(&self, at: usize) -> (Key, Value)
        requires { at < length self.now.rows }
        ensures { slice_get self.now.rows at ≡ Some result }
    {
        let (key, value) = self.rows.row(at);
        (Key::of(key).unwrap(), value)
    }

    /// Puts a row last, as it is, and answers false where the key has a row already. A refusal changes nothing.
    pub fn push_row(&mut self, key: Key, value: Value) -> Result<bool, AllocError>
        ensures there { (result ≡ Ok false) ↔ IsTrue (has_row lua_values self.old.rows key) }
        ensures added { result ≡ Ok true → self.new.rows ≡ self.old.rows ++ (key, value) ∷ [] }
        ensures kept { result ≢ Ok true → self.new ≡ self.old }
        ensures metatable { self.new.metatable ≡ self.old.metatable }
    {
        let key = key.value();
        if self.rows.holds(key) {
            return Ok(false);
        }
        self.rows.insert_last(key, value)?;
        self.cleared += nil_count(value);
        self.border = mended(&self.rows, self.border, key, value);
        Ok(true)
    }

    /// The metatable (Lua 5.4 manual, 2.4).
    #[inline(always)]
    pub fn metatable(&self) -> Option<TableId>
        ensures { result ≡ self.now.metatable }
    {
        self.metatable
    }

    /// Sets or takes off the metatable.
    pub fn set_metatable(&mut self, metatable: Option<TableId>)
        ensures { self.new ≡ record self.old { metatable = metatable } }
    {
        self.metatable = metatable;
    }
}

/// 1 for nil, and 0 for another value.
#[inline(always)]
fn nil_count(value: Value) -> usize
    ensures { result ≡ (if is_nil value then 1 else 0) }
{
    usize::from(value.is_nil())
}
