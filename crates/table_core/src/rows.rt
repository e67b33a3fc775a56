// The rows of a table: the longest prefix whose keys are 1, 2, 3 and so on as an array of values, the others found by their keys.
ghost use Rattle.std.specs.Prelude.{◌≡◌, ◌≢◌, ◌+◌, ◌-◌, ◌<◌, ◌^◌, pos, false, Some, [], ◌∷◌, ◌++◌, length, filter, position, IfSome, IfNone, IfOk, IsTrue, OnOk, OnErr, OnSome, slice_get};
ghost use Rattle.std.specs.List.{IsDistinct};
ghost use Rattle.std.specs.Map.{keys_of, lookup, set_value};
ghost use Rattle.int_core.specs.Rows.{get, has_row, is_filled, IsBorder};
ghost use Rattle.table_core.specs.Places.{IsAbsent, IsNumberedPrefix, IsPlaceOf};
ghost use Rattle.table_core.specs.Value.{is_nil, lua_values, value_eq};

use crate::keyed::Keyed;
use crate::value::Value;
use std::alloc::{AllocError, Global};
use std::marker::Model;
use std::mem;

/// More rows than this have no place in memory.
const MOST: usize = (1 << 63) - 1;

/// The rows of a table in the order of insertion. Contracts see the rows, of which no two have one key.
#[derive(Debug, Drop)]
pub(crate) struct Rows {
    /// The values of the first rows, whose keys are 1, 2, 3 and so on.
    array: Vec<Value>,
    /// The rows after them, of which the first does not go on with the array's keys.
    keyed: Keyed,
}

impl Model for Rows {
    ghost use Rattle.std.specs.Prelude.{◌++◌, List};
    ghost use Rattle.table_core.specs.declared.value.Value.{Value as Plain};
    ghost use Rattle.table_core.specs.Places.{AreSplit, numbered};

    ghost Value = { List (Plain × Plain) };

    ghost view = { λ rows. numbered 0 rows.array.items ++ rows.keyed };

    ghost invariant = { λ rows. AreSplit rows.array.items rows.keyed };
}

impl Rows {
    /// No rows, which take no memory.
    pub(crate) fn new(alloc: Global) -> Rows
        ensures { result ≡ [] }
    {
        Rows {
            array: Vec::new(alloc),
            keyed: Keyed::new(alloc),
        }
    }

    /// The value of a key's row.
    #[inline(always)]
    fn found(&self, key: Value) -> Option<Value>
        ensures { result ≡ lookup (value_eq key) self.now }
    {
        let at = place_of(key);
        if at < self.array.len() {
            return Some(self.array[at]);
        }
        self.keyed.value(key)
    }

    /// Whether a key has a row.
    pub(crate) fn holds(&self, key: Value) -> bool
        ensures { result ≡ has_row lua_values self.now key }
    {
        self.found(key).is_some()
    }

    /// The value at a key, or nil.
    #[inline(always)]
    pub(crate) fn get(&self, key: Value) -> Value
        ensures { result ≡ get lua_values self.now key }
    {
        self.found(key).unwrap_or(Value::Nil)
    }

    /// Puts a value at a key that is there, and answers the value that it had.
    #[inline(always)]
    pub(crate) fn replace(&mut self, key: Value, value: Value) -> Option<Value>
        ensures was { result ≡ lookup (value_eq key) self.old }
        ensures now { OnSome result (self.new ≡ set_value (value_eq key) self.old value) }
        ensures absent { IfNone result (self.new ≡ self.old) }
    {
        let at = place_of(key);
        if at < self.array.len() {
            return Some(mem::replace(&mut self.array[at], value));
        }
        self.keyed.replace(key, value)
    }

    /// Puts a new row last, and answers how many rows there are then.
    #[inline(always)]
    pub(crate) fn insert_last(&mut self, key: Value, value: Value) -> Result<usize, AllocError>
        requires { IsAbsent self.old key }
        ensures added { OnOk result (self.new ≡ self.old ++ (key, value) ∷ []) }
        ensures distinct { OnOk result (IsDistinct value_eq (keys_of self.new)) }
        ensures len { IfOk result (λ n. n ≡ length self.new) }
        ensures small { IfOk result (λ n. n < 2 ^ 63) }
        ensures err { OnErr result (self.new ≡ self.old) }
    {
        let (numbered, keyed) = (self.array.len(), self.keyed.len());
        if keyed >= MOST - numbered {
            return Err(AllocError);
        }
        if goes_on(numbered, keyed, key) {
            self.array.push(value)?;
            return Ok(numbered + 1);
        }
        self.keyed.push(key, value)?;
        Ok(numbered + keyed + 1)
    }

    /// Drops the cleared rows, puts a new row last, and answers how many rows there are then.
    pub(crate) fn insert_dropping(
        &mut self,
        key: Value,
        value: Value,
        border: usize,
    ) -> Result<usize, AllocError>
        requires absent { IsAbsent self.old key }
        requires filled { is_nil value ≡ false }
        requires border { IsBorder lua_values self.old border }
        ensures added { OnOk result (self.new ≡ filter (is_filled lua_values) self.old ++ (key, value) ∷ []) }
        ensures distinct { OnOk result (IsDistinct value_eq (keys_of self.new)) }
        ensures len { IfOk result (λ n. n ≡ length self.new) }
        ensures small { IfOk result (λ n. n < 2 ^ 63) }
        ensures err { OnErr result (self.new ≡ self.old) }
    {
        let numbered = self.array.len();
        if numbered != border || place_of(key) == border {
            return self.insert_moved(key, value);
        }
        if self.keyed.len() >= MOST - numbered {
            return Err(AllocError);
        }
        self.keyed.push(key, value)?;
        self.keyed.drop_cleared();
        Ok(numbered + self.keyed.len())
    }

    /// Makes the rows anew without those that are cleared, and puts a new row last.
    fn insert_moved(&mut self, key: Value, value: Value) -> Result<usize, AllocError>
        requires { IsAbsent self.old key }
        ensures added { OnOk result (self.new ≡ filter (is_filled lua_values) self.old ++ (key, value) ∷ []) }
        ensures distinct { OnOk result (IsDistinct value_eq (keys_of self.new)) }
        ensures len { IfOk result (λ n. n ≡ length self.new) }
        ensures small { IfOk result (λ n. n < 2 ^ 63) }
        ensures err { OnErr result (self.new ≡ self.old) }
    {
        let mut rows = self.filled()?;
        let len = rows.insert_last(key, value)?;
        *self = rows;
        Ok(len)
    }

    /// The place of a key's row.
    pub(crate) fn find(&self, key: Value) -> Option<usize>
        ensures place { result ≡ position (value_eq key) (keys_of self.now) }
        ensures within { IfSome result (λ at. at < length self.now) }
    {
        let at = place_of(key);
        if at < self.array.len() {
            return Some(at);
        }
        match self.keyed.find(key) {
            Some(at) => Some(self.array.len() + at),
            None => None,
        }
    }

    /// How many rows there are.
    #[inline(always)]
    pub(crate) fn len(&self) -> usize
        ensures len { result ≡ length self.now }
        ensures small { result < 2 ^ 63 }
        ensures distinct { IsDistinct value_eq (keys_of self.now) }
    {
        self.array.len() + self.keyed.len()
    }

    /// The row at a place.
    pub(crate) fn row(&self, at: usize) -> (Value, Value)
        requires { at < length self.now }
        ensures { slice_get self.now at ≡ Some result }
    {
        if at < self.array.len() {
            return (integer_after(at), self.array[at]);
        }
        self.keyed.row(at - self.array.len())
    }

    /// How many rows stand in the array.
    #[inline(always)]
    pub(crate) fn array_len(&self) -> usize
        ensures { IsNumberedPrefix self.now result }
    {
        self.array.len()
    }

    /// No rows, in memory of the same allocator.
    fn fresh(&self) -> Rows
        ensures { result ≡ [] }
    {
        Rows::new(*self.array.allocator())
    }

    /// The rows that are not cleared.
    fn filled(&self) -> Result<Rows, AllocError>
        ensures { IfOk result (λ rows. rows ≡ filter (is_filled lua_values) self.now) }
    {
        let mut rows = self.fresh();
        for at in 0..self.len() {
            let (key, value) = self.row(at);
            if value.is_nil() {
                continue;
            }
            rows.insert_last(key, value)?;
        }
        Ok(rows)
    }
}

/// The place of a key's row among values under 1, 2, 3 and so on; a greater number for another key.
#[inline(always)]
fn place_of(key: Value) -> usize
    ensures { IsPlaceOf key result }
{
    match key {
        Value::Int(n) if n > 0 => (n - 1) as usize,
        _ => usize::MAX,
    }
}

/// The integer of the row at a place among values under 1, 2, 3 and so on.
fn integer_after(at: usize) -> Value
    requires { at < 2 ^ 63 - 1 }
    ensures { result ≡ Value.Int (pos (at + 1)) }
{
    Value::Int(at as i64 + 1)
}

/// Whether a new key goes on with the array, after which there are as many rows as `keyed`.
#[inline(always)]
fn goes_on(numbered: usize, keyed: usize, key: Value) -> bool
    requires { numbered < 2 ^ 63 }
    ensures none { IsTrue result → keyed ≡ 0 }
    ensures next { IsTrue result → key ≡ Value.Int (pos (numbered + 1)) }
    ensures other { result ≡ false → keyed ≡ 0 → key ≢ Value.Int (pos (numbered + 1)) }
{
    if keyed > 0 {
        return false;
    }
    place_of(key) == numbered
}
