// A walk over a world: what is met of values.
ghost use Rattle.std.specs.Prelude.{◌≡◌, ◌<◌, ℕ, List, [], ◌∷◌, Some, flat_map, length, is_some, slice_get, OnOk};
ghost use Rattle.int_core.specs.Value.{a_table, object, same};
ghost use Rattle.image_core.specs.Records.{field_parts, of_cell, value_parts};
ghost use Rattle.lua_heap.specs.Reading.{value as read};
ghost use Rattle.graph_core.specs.Objects.{objects_in};
ghost use Rattle.graph_core.specs.Walk.{MeetsFields, name_in, texts_in, value_field};

use crate::object::{Object, Seen, Sort, meet};
use crate::permanents::Permanents;
use indexmap::IndexSet;
use int_core::Allocated;
use lua_heap::World;
use table_core::{CellId, TableId, Value};

/// What is the same for a whole walk.
#[derive(Clone, Copy)]
pub(crate) struct Walk<'a> {
    pub(crate) world: &'a World,
    pub(crate) permanents: &'a Permanents,
    /// A cell that is open in a coroutine of these names it; any other counts as its present value.
    pub(crate) inside: &'a IndexSet<Object>,
}

impl Walk<'_> {
    /// A value is met.
    pub(crate) fn meet(&self, seen: &mut Seen, value: Value) -> Allocated<()>
        ensures { OnOk result (MeetsFields self.now seen.old.keys seen.new.keys (value_field self.now value ∷ [])) }
    {
        match self.object_of(value) {
            Some(object) => meet(seen, object),
            None => Ok(()),
        }
    }

    /// Values are met.
    pub(crate) fn meet_all(&self, seen: &mut Seen, values: &[Value]) -> Allocated<()>
        ensures { OnOk result (MeetsFields self.now seen.old.keys seen.new.keys (flat_map (λ v. value_field self.now v ∷ []) values.now)) }
    {
        for at in 0..values.len() {
            self.meet(seen, item_at(values, at))?;
        }
        Ok(())
    }

    /// Cells are met.
    pub(crate) fn meet_cells(&self, seen: &mut Seen, cells: &[CellId]) -> Allocated<()>
        ensures { OnOk result (MeetsFields self.now seen.old.keys seen.new.keys (flat_map (λ c. of_cell c.0 ∷ []) cells.now)) }
    {
        for at in 0..cells.len() {
            let object = Object {
                sort: Sort::Cell,
                number: item_at(cells, at).0,
            };
            meet(seen, object)?;
        }
        Ok(())
    }

    /// The object of a value that has a record.
    fn object_of(&self, value: Value) -> Option<Object>
        ensures { objects_in result ≡ field_parts (name_in self.now) (value_field self.now value) }
    {
        if self.is_named(value) {
            return None;
        }
        object_in(value)
    }

    /// Whether a value stands by a name: the prelude's environment, and permanents.
    fn is_named(&self, value: Value) -> bool
        ensures { result ≡ is_some (name_in self.now (read (texts_in self.now) value)) }
    {
        is_table(value, self.world.prelude.env) || self.permanents.key(value).is_some()
    }
}

/// An item of a list.
#[inline(always)]
pub fn item_at<T: Copy>(items: &[T], at: usize) -> T
    requires { at < length items.now }
    ensures { slice_get items.now at ≡ Some result }
{
    items[at]
}

/// Whether a value is the table of a number.
pub fn is_table(value: Value, id: TableId) -> bool
    ensures { (texts : List (List ℕ)) → result ≡ same (object a_table id.0) (read texts value) }
{
    match value {
        Value::Table(own) => id == own,
        Value::Nil => false,
        Value::Bool(_) => false,
        Value::Int(_) => false,
        Value::Str(_) => false,
        Value::Prim(_) => false,
        Value::Func(_) => false,
        Value::Coro(_) => false,
    }
}

/// The object that a value is.
fn object_in(value: Value) -> Option<Object>
    ensures { (texts : List (List ℕ)) → objects_in result ≡ value_parts (read texts value) }
{
    match value {
        Value::Table(id) => Some(Object::new(Sort::Table, id.0)),
        Value::Func(id) => Some(Object::new(Sort::Func, id.0)),
        Value::Coro(id) => Some(Object::new(Sort::Coro, id.0)),
        Value::Nil => None,
        Value::Bool(_) => None,
        Value::Int(_) => None,
        Value::Str(_) => None,
        Value::Prim(_) => None,
    }
}
