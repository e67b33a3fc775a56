// Many rows in an index map, with hints at the places of their keys.
ghost use Rattle.std.specs.Prelude.{◌≡◌, ◌<◌, Some, [], ◌∷◌, ◌++◌, filter, length, IfSome, IfNone, MatchOption, OnOk, OnErr, slice_get, slice_set};
ghost use Rattle.int_core.specs.Rows.{is_filled};
ghost use Rattle.table_core.specs.Places.{HasKeyAt, HasRow, IsAbsent, IsReplaced};
ghost use Rattle.table_core.specs.Value.{lua_values};

use crate::flat_key::FlatKey;
use crate::value::Value;
use indexmap::IndexMap;
use std::alloc::{AllocError, Global};
use std::mem;

/// Rows in an index map. A hint tells where the row of a key may stand, by the low bits of the key;
/// a stale one does no harm, since the row's key is compared.
#[derive(Debug, Drop)]
pub(crate) struct Indexed {
    pub(crate) rows: IndexMap<FlatKey, Value>,
    /// As many as a power of two, or none.
    pub(crate) hints: Vec<u32>,
}

impl Indexed {
    /// No rows.
    pub(crate) fn new(alloc: Global) -> Indexed
        ensures { result.rows.entries ≡ [] }
    {
        Indexed {
            rows: IndexMap::new(alloc),
            hints: Vec::new(alloc),
        }
    }

    /// The place of a key's row, by its hint or else by its hash.
    #[inline(always)]
    pub(crate) fn find(&self, key: FlatKey) -> Option<usize>
        ensures { MatchOption result (IsAbsent self.now.rows.entries key) (λ at. HasKeyAt self.now.rows.entries key at) }
    {
        match self.hinted(key) {
            Some(at) => Some(at),
            None => self.hashed(key),
        }
    }

    /// The place of a key's row, where its hint is true.
    #[inline(always)]
    fn hinted(&self, key: FlatKey) -> Option<usize>
        ensures { IfSome result (λ at. HasKeyAt self.now.rows.entries key at) }
    {
        let hint = self.hints.get(slot(key, self.hints.len()))?;
        let at = *hint as usize;
        let (found, _) = self.rows.get_index(at)?;
        if *found == key { Some(at) } else { None }
    }

    /// The place of a key's row, by its hash.
    #[inline(never)]
    fn hashed(&self, key: FlatKey) -> Option<usize>
        ensures { MatchOption result (IsAbsent self.now.rows.entries key) (λ at. HasKeyAt self.now.rows.entries key at) }
    {
        self.rows.get_index_of(&key)
    }

    /// The value of a key's row.
    #[inline(always)]
    pub(crate) fn value(&self, key: FlatKey) -> Option<Value>
        ensures { MatchOption result (IsAbsent self.now.rows.entries key) (λ value. HasRow self.now.rows.entries key value) }
    {
        match self.find(key) {
            Some(at) => Some(self.rows[at]),
            None => None,
        }
    }

    /// Puts a value at a key that is there, and answers the value that it had.
    #[inline(always)]
    pub(crate) fn replace(&mut self, key: FlatKey, value: Value) -> Option<Value>
        ensures found { IfSome result (λ was. IsReplaced self.old.rows.entries self.new.rows.entries key was value) }
        ensures absent { IfNone result (IsAbsent self.old.rows.entries key) }
        ensures same { IfNone result (self.new ≡ self.old) }
    {
        match self.find(key) {
            Some(at) => Some(set_value(&mut self.rows, at, value)),
            None => None,
        }
    }

    /// Puts a new row last.
    pub(crate) fn push(&mut self, key: FlatKey, value: Value) -> Result<(), AllocError>
        requires { IsAbsent self.old.rows.entries key }
        ensures added { OnOk result (self.new.rows.entries ≡ self.old.rows.entries ++ (key, value) ∷ []) }
        ensures err { OnErr result (self.new.rows.entries ≡ self.old.rows.entries) }
    {
        self.rows.insert(key, value)?;
        self.add_hint(key);
        Ok(())
    }

    /// The row at a place.
    pub(crate) fn row(&self, at: usize) -> (Value, Value)
        requires { at < length self.now.rows.entries }
        ensures { slice_get self.now.rows.entries at ≡ Some result }
    {
        let (key, value) = self.rows.get_index(at).unwrap();
        (key.value(), *value)
    }

    /// Drops the cleared rows where they stand.
    pub(crate) fn drop_cleared(&mut self)
        ensures { self.new.rows.entries ≡ filter (is_filled lua_values) self.old.rows.entries }
    {
        self.rows.retain(|_, value| !value.is_nil());
        put_hints(&mut self.hints, &self.rows);
    }

    /// Notes the place of the last row. Where hints are few, all are made anew if there is memory.
    fn add_hint(&mut self, key: FlatKey)
        ensures { self.new.rows ≡ self.old.rows }
    {
        let rows = self.rows.len();
        if self.hints.len() < rows {
            more_hints(&mut self.hints, &self.rows);
        }
        put_hint(&mut self.hints, key, rows.saturating_sub(1));
    }
}

/// How many rows have hints at most.
const MOST_HINTS: usize = 1 << 31;

/// Which of `count` hints is a key's.
#[inline(always)]
fn slot(key: FlatKey, count: usize) -> usize {
    key.low_bits() & count.saturating_sub(1)
}

/// Notes the place of a key's row.
fn put_hint(hints: &mut Vec<u32>, key: FlatKey, at: usize) {
    let slot = slot(key, hints.len());
    if let Some(hint) = hints.get_mut(slot) {
        *hint = (at & 0xFFFF_FFFF) as u32;
    }
}

/// Notes the places of all rows.
fn put_hints(hints: &mut Vec<u32>, rows: &IndexMap<FlatKey, Value>) {
    for at in 0..rows.len() {
        if let Some((key, _)) = rows.get_index(at) {
            put_hint(hints, *key, at);
        }
    }
}

/// Makes two hints a row or more, from the rows that are there.
fn more_hints(hints: &mut Vec<u32>, rows: &IndexMap<FlatKey, Value>) {
    let count = (rows.len().min(MOST_HINTS) * 2).next_power_of_two();
    if hints.resize(count, 0).is_ok() {
        put_hints(hints, rows);
    }
}

/// Puts a value at a place, and answers the value that stood there.
#[inline(always)]
fn set_value(rows: &mut IndexMap<FlatKey, Value>, at: usize, value: Value) -> Value
    requires { at < length rows.old.entries }
    ensures { (key was : Value) → slice_get rows.old.entries at ≡ Some (key, was) → (result ≡ was) × (rows.new.entries ≡ slice_set rows.old.entries at (key, value)) }
{
    mem::replace(&mut rows[at], value)
}
