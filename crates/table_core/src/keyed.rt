// Rows found by their keys: a few are looked through one by one, more stand in an index map.
ghost use Rattle.std.specs.Prelude.{◌≡◌, ◌<◌, Some, [], ◌∷◌, ◌++◌, filter, length, IfSome, IfNone, IfOk, MatchOption, OnOk, OnErr, slice_get};
ghost use Rattle.std.specs.List.{IsDistinct};
ghost use Rattle.std.specs.Map.{keys_of};
ghost use Rattle.int_core.specs.Rows.{is_filled};
ghost use Rattle.table_core.specs.Places.{HasKeyAt, HasRow, IsAbsent, IsReplaced};
ghost use Rattle.table_core.specs.Value.{lua_values, value_eq};

use crate::flat_key::FlatKey;
use crate::indexed::Indexed;
use crate::value::Value;
use std::alloc::{AllocError, Global};
use std::marker::Model;
use std::mem;

/// How many rows are looked through one by one at most.
const FEW: usize = 8;

/// Rows in the order of insertion, found by raw equality of their keys. Contracts see the rows.
#[derive(Debug, Drop)]
pub(crate) struct Keyed {
    /// All rows, as long as they are few.
    few: Vec<(Value, Value)>,
    /// All rows, from then on.
    many: Option<Box<Indexed>>,
}

impl Model for Keyed {
    ghost use Rattle.std.specs.Prelude.{List};
    ghost use Rattle.table_core.specs.declared.value.Value.{Value as Plain};
    ghost use Rattle.table_core.specs.Indexed.{rows_of};

    ghost Value = { List (Plain × Plain) };

    ghost view = { λ keyed. rows_of keyed.few.items keyed.many };
}

impl Keyed {
    /// No rows, which take no memory.
    pub(crate) fn new(alloc: Global) -> Keyed
        ensures { result ≡ [] }
    {
        Keyed {
            few: Vec::new(alloc),
            many: None,
        }
    }

    /// The place of a key's row.
    pub(crate) fn find(&self, key: Value) -> Option<usize>
        ensures { MatchOption result (IsAbsent self.now key) (λ at. HasKeyAt self.now key at) }
    {
        match &self.many {
            Some(many) => many.find(FlatKey::of(key)),
            None => place_among(self.few.as_slice(), key),
        }
    }

    /// The value of a key's row.
    #[inline(always)]
    pub(crate) fn value(&self, key: Value) -> Option<Value>
        ensures { MatchOption result (IsAbsent self.now key) (λ value. HasRow self.now key value) }
    {
        match &self.many {
            Some(many) => many.value(FlatKey::of(key)),
            None => value_among(self.few.as_slice(), key),
        }
    }

    /// Puts a value at a key that is there, and answers the value that it had.
    #[inline(always)]
    pub(crate) fn replace(&mut self, key: Value, value: Value) -> Option<Value>
        ensures found { IfSome result (λ was. IsReplaced self.old self.new key was value) }
        ensures absent { IfNone result (IsAbsent self.old key) }
        ensures same { IfNone result (self.new ≡ self.old) }
    {
        if let Some(many) = &mut self.many {
            return many.replace(FlatKey::of(key), value);
        }
        replace_among(&mut self.few, key, value)
    }

    /// Puts a new row last.
    pub(crate) fn push(&mut self, key: Value, value: Value) -> Result<(), AllocError>
        requires absent { IsAbsent self.old key }
        requires distinct { IsDistinct value_eq (keys_of self.old) }
        ensures added { OnOk result (self.new ≡ self.old ++ (key, value) ∷ []) }
        ensures err { OnErr result (self.new ≡ self.old) }
    {
        if let Some(many) = &mut self.many {
            return many.push(FlatKey::of(key), value);
        }
        if self.few.len() < FEW {
            return push_few(&mut self.few, key, value);
        }
        let mut many = indexed(&self.few)?;
        many.push(FlatKey::of(key), value)?;
        self.many = Some(many);
        self.few = Vec::new(*self.few.allocator());
        Ok(())
    }

    /// Drops the cleared rows where they stand.
    pub(crate) fn drop_cleared(&mut self)
        ensures { self.new ≡ filter (is_filled lua_values) self.old }
    {
        match &mut self.many {
            Some(many) => many.drop_cleared(),
            None => drop_among(&mut self.few),
        }
    }

    /// How many rows there are.
    pub(crate) fn len(&self) -> usize
        ensures { result ≡ length self.now }
    {
        match &self.many {
            Some(many) => many.rows.len(),
            None => self.few.len(),
        }
    }

    /// The row at a place.
    pub(crate) fn row(&self, at: usize) -> (Value, Value)
        requires { at < length self.now }
        ensures { slice_get self.now at ≡ Some result }
    {
        match &self.many {
            Some(many) => many.row(at),
            None => self.few[at],
        }
    }
}

/// The rows of a few in an index map.
fn indexed(few: &Vec<(Value, Value)>) -> Result<Box<Indexed>, AllocError>
    requires { IsDistinct value_eq (keys_of few.now.items) }
    ensures { IfOk result (λ many. many.value.rows.entries ≡ few.now.items) }
{
    let alloc = *few.allocator();
    let mut many = Box::new(alloc, Indexed::new(alloc))?;
    for at in 0..few.len() {
        let (key, value) = few[at];
        many.push(FlatKey::of(key), value)?;
    }
    Ok(many)
}

/// The value of a key's row among a few.
#[inline(always)]
fn value_among(rows: &[(Value, Value)], key: Value) -> Option<Value>
    ensures { MatchOption result (IsAbsent rows.now key) (λ value. HasRow rows.now key value) }
{
    match place_among(rows, key) {
        Some(at) => Some(rows[at].1),
        None => None,
    }
}

/// Puts a value at a key among a few, and answers the value that it had.
#[inline(always)]
fn replace_among(rows: &mut Vec<(Value, Value)>, key: Value, value: Value) -> Option<Value>
    ensures found { IfSome result (λ was. IsReplaced rows.old.items rows.new.items key was value) }
    ensures absent { IfNone result (IsAbsent rows.old.items key) }
    ensures same { IfNone result (rows.new ≡ rows.old) }
{
    match place_among(rows.as_slice(), key) {
        Some(at) => Some(set_value(rows, at, key, value)),
        None => None,
    }
}

/// The place of a key's row among a few.
#[inline(always)]
fn place_among(rows: &[(Value, Value)], key: Value) -> Option<usize>
    ensures { MatchOption result (IsAbsent rows.now key) (λ at. HasKeyAt rows.now key at) }
{
    for at in 0..rows.len() {
        let row = rows[at];
        if row.0 == key {
            return Some(at);
        }
    }
    None
}

/// Puts a value at the place of a key, and answers the value that it had.
#[inline(always)]
fn set_value(rows: &mut Vec<(Value, Value)>, at: usize, key: Value, value: Value) -> Value
    requires { HasKeyAt rows.old.items key at }
    ensures { IsReplaced rows.old.items rows.new.items key result value }
{
    mem::replace(&mut rows[at], (key, value)).1
}

/// Drops the cleared rows among a few.
fn drop_among(rows: &mut Vec<(Value, Value)>)
    ensures { rows.new.items ≡ filter (is_filled lua_values) rows.old.items }
{
    rows.retain(|row| !row.1.is_nil());
}

/// Puts a row last. Room is made for two rows, and then for twice as many.
fn push_few(rows: &mut Vec<(Value, Value)>, key: Value, value: Value) -> Result<(), AllocError>
    requires { length rows.old.items < 8 }
    ensures added { OnOk result (rows.new.items ≡ rows.old.items ++ (key, value) ∷ []) }
    ensures err { OnErr result (rows.new.items ≡ rows.old.items) }
{
    if rows.len() == rows.capacity() {
        rows.reserve_exact(rows.len().max(2))?;
    }
    rows.push_reserved((key, value));
    Ok(())
}
