// What is made of what records say: values have their final numbers, those of objects that are yet to be placed among them.
ghost use Rattle.std.specs.Prelude.{◌≡◌, ◌<◌, [], ◌∷◌, ◌++◌, ℕ, List, Some, length, map, slice_get, IfOk, OnOk};
ghost use Rattle.std.specs.Option.{option_map};
ghost use Rattle.image_core.specs.Loading.{table_number};
ghost use Rattle.lua_heap.specs.Reading.{value as read};
ghost use Rattle.image_records.specs.Names.{found_object, object_of};
ghost use Rattle.image_records.specs.Views.{error as error_shown, item as item_shown, row, wait};
ghost use Rattle.image_made.specs.Making.{Makes, MakesAll, MakesCells, MakesError, MakesRow, MakesRows, MakesTable, MakesWait};

use crate::place::{Place, cell_at, value_at};
use image_records::{Item, Known, Named, Wait};
use int_core::Allocated;
use lua_heap::Strings;
use lua_stack::Wait as Kept;
use std::alloc::{AllocError, Global};
use table_core::{CellId, Key, Table, TableId, Value};

/// What values are made by.
#[derive(Clone, Copy)]
pub struct Maker<'m> {
    pub alloc: Global,
    pub places: &'m [Place],
    pub known: &'m Known<'m>,
    pub environment: TableId,
}

impl Maker<'_> {
    /// A value. Its string is there.
    #[tactic(auto, using(crate::proofs::Values::plain_made, crate::proofs::Values::numbered_made, crate::proofs::Values::permanent_made, crate::proofs::Values::environment_made))]
    pub fn value(&self, strings: &Strings, item: Item<'_>) -> Allocated<Value>
        ensures { IfOk result (λ v. Makes self.now strings.now (item_shown item.entry) v) }
    {
        match item {
            Item::Nil => Ok(Value::Nil),
            Item::Bool(truth) => Ok(Value::Bool(truth)),
            Item::Int(n) => Ok(Value::Int(n)),
            Item::Str(text) => match strings.find(text) {
                Some(id) => Ok(Value::Str(id)),
                None => Err(AllocError),
            },
            Item::Numbered(n) => Ok(value_at(self.places, n)),
            Item::Permanent(_, key) => Ok(named_value(self.known.find(key))),
            Item::Environment => Ok(Value::Table(self.environment)),
        }
    }

    /// Values.
    pub fn values(&self, strings: &Strings, items: &[Item<'_>]) -> Allocated<Vec<Value>>
        ensures { IfOk result (λ vs. MakesAll self.now strings.now (map item_shown items.now) vs.items) }
    {
        let mut values = Vec::with_capacity(self.alloc, items.len())?;
        for at in 0..items.len() {
            let value = self.value(strings, item_at(items, at))?;
            values.push(value)?;
        }
        Ok(values)
    }

    /// An error's value, where there is one.
    #[tactic(auto, using(crate::proofs::Values::error_made, crate::proofs::Values::no_error_made))]
    pub(crate) fn error(
        &self,
        strings: &Strings,
        error: Option<Item<'_>>,
    ) -> Allocated<Option<Value>>
        ensures { IfOk result (λ made. MakesError self.now strings.now (error_shown error.entry) made) }
    {
        match error {
            Some(error) => {
                let error = self.value(strings, error)?;
                Ok(Some(error))
            }
            None => Ok(None),
        }
    }

    /// The cells that records become.
    pub fn cells(&self, records: &[u32]) -> Allocated<Vec<CellId>>
        ensures { IfOk result (λ cells. MakesCells self.now records.now cells.items) }
    {
        let mut cells = Vec::with_capacity(self.alloc, records.len())?;
        for at in 0..records.len() {
            let Some(cell) = cell_at(self.places, number_at(records, at)) else {
                return Err(AllocError);
            };
            cells.push(cell)?;
        }
        Ok(cells)
    }

    /// A table.
    #[tactic(auto, using(crate::proofs::Values::table_made_is))]
    pub fn table<'r>(
        &self,
        strings: &Strings,
        rows: &[(Item<'r>, Item<'r>)],
        metatable: Item<'_>,
    ) -> Allocated<Table>
        ensures { IfOk result (λ table. MakesTable self.now strings.now (map row rows.now) (item_shown metatable.entry) table) }
    {
        let mut table = self.rows(strings, rows)?;
        let metatable = self.value(strings, metatable)?;
        table.set_metatable(table_of(metatable));
        Ok(table)
    }

    /// A table with these rows. No two have one key.
    fn rows<'r>(&self, strings: &Strings, rows: &[(Item<'r>, Item<'r>)]) -> Allocated<Table>
        ensures { IfOk result (λ table. MakesRows self.now strings.now (map row rows.now) table) }
    {
        let mut table = Table::new(self.alloc);
        for at in 0..rows.len() {
            let made = self.row(strings, pair_at(rows, at))?;
            push_row(&mut table, made.0, made.1)?;
        }
        Ok(table)
    }

    /// A row.
    #[tactic(auto, using(crate::proofs::Values::row_made_is))]
    fn row<'r>(&self, strings: &Strings, pair: &(Item<'r>, Item<'r>)) -> Allocated<(Value, Value)>
        ensures { IfOk result (λ made. MakesRow self.now strings.now (row pair.now) made) }
    {
        let key = self.value(strings, pair.0)?;
        let value = self.value(strings, pair.1)?;
        Ok((key, value))
    }

    /// For what a frame waits.
    #[tactic(auto, using(crate::proofs::Values::wait_same))]
    pub fn wait(&self, strings: &Strings, given: Wait<'_>) -> Allocated<Kept>
        ensures { IfOk result (λ kept. MakesWait self.now strings.now (wait given.entry) kept) }
    {
        match given {
            Wait::ForCall => Ok(Kept::ForCall),
            Wait::ForIterator => Ok(Kept::ForIterator),
            Wait::ForValue => Ok(Kept::ForValue),
            Wait::ForTruth => Ok(Kept::ForTruth),
            Wait::Dropped => Ok(Kept::Dropped),
            Wait::ForConcat(left) => Ok(Kept::ForConcat(usize::from(left))),
            Wait::ForClose => Ok(Kept::ForClose),
            Wait::Returning(count) => Ok(Kept::Returning(count as usize)),
            Wait::Leaving(error) => Ok(Kept::Leaving(self.value(strings, error)?)),
        }
    }
}

/// The item at a place.
fn item_at<'i>(items: &[Item<'i>], at: usize) -> Item<'i>
    requires { at < length items.now }
    ensures { slice_get items.now at ≡ Some result }
{
    items[at]
}

/// The row at a place.
fn pair_at<'s, 'i>(rows: &'s [(Item<'i>, Item<'i>)], at: usize) -> &'s (Item<'i>, Item<'i>)
    requires { at < length rows.now }
    ensures { slice_get rows.now at ≡ Some result.now }
{
    &rows[at]
}

/// The number at a place.
pub(crate) fn number_at(numbers: &[u32], at: usize) -> u32
    requires { at < length numbers.now }
    ensures { slice_get numbers.now at ≡ Some result }
{
    numbers[at]
}

/// The table that a value is, where it is one.
fn table_of(value: Value) -> Option<TableId>
    ensures { (texts : List (List ℕ)) → option_map (λ id. id.0) result ≡ table_number (read texts value) }
{
    match value {
        Value::Table(id) => Some(id),
        Value::Nil => None,
        Value::Bool(_) => None,
        Value::Int(_) => None,
        Value::Str(_) => None,
        Value::Prim(_) => None,
        Value::Func(_) => None,
        Value::Coro(_) => None,
    }
}

/// Puts a row last, whose key is a new one and not nil.
fn push_row(table: &mut Table, key: Value, value: Value) -> Allocated<()>
    ensures rows { OnOk result (table.new.rows ≡ table.old.rows ++ (key, value) ∷ []) }
    ensures metatable { table.new.metatable ≡ table.old.metatable }
{
    let Some(own) = Key::of(key) else {
        return Err(AllocError);
    };
    if table.push_row(own, value)? {
        return Ok(());
    }
    Err(AllocError)
}

/// The value that a permanent is; nil where there is none.
fn named_value(found: Option<Named<'_>>) -> Value
    ensures { (texts : List (List ℕ)) → read texts result ≡ found_object found.entry }
{
    match found {
        Some(named) => object_value(named.object),
        None => Value::Nil,
    }
}

/// A primitive or an object as it is; nil for another value.
fn object_value(value: Value) -> Value
    ensures { (texts : List (List ℕ)) → read texts result ≡ object_of value }
{
    match value {
        Value::Prim(_) => value,
        Value::Table(_) => value,
        Value::Func(_) => value,
        Value::Coro(_) => value,
        Value::Nil => Value::Nil,
        Value::Bool(_) => Value::Nil,
        Value::Int(_) => Value::Nil,
        Value::Str(_) => Value::Nil,
    }
}
