// Tables: their rows, each with a key of its own, and the metatable.
ghost use Rattle.std.specs.Prelude.{◌≡◌, List};
ghost use Rattle.image_bytes.specs.Bytes.{row_after, rows_format, table_format};
ghost use Rattle.image_core.specs.Image.{Item as ItemShown};
ghost use Rattle.image_reading.specs.Rows.{AreKeysOf, AddsKey, IsRowKey, KeyAdded, own_key};
ghost use Rattle.image_records.specs.Names.{object_of, perms_of};
ghost use Rattle.image_reading.specs.Reader.{of_value};
ghost use Rattle.image_saved.specs.Permanents.{object_named};
ghost use Rattle.image_reading.specs.Says.{Says, items_of, reader_in};
ghost use Rattle.image_records.specs.Views.{key as name_of, record_read, row as row_of, item as item_of};

use crate::fault::{ReadFault, Refusal};
use crate::input::Input;
use crate::item::{Context, Wanted};
use image_records::{Item, Key, Record};
use indexmap::IndexSet;
use table_core::Value;

/// What the key of a row becomes. No two rows of a table have the same.
#[derive(Debug, Clone, Copy, PartialEq, Eq, Hash)]
pub(crate) enum RowKey<'a> {
    /// Of a permanent that is nothing here.
    Nil,
    Bool(bool),
    Int(i64),
    Text(&'a [u8]),
    /// The object of a record.
    Numbered(u32),
    Primitive(u16),
    Table(usize),
    Function(usize),
    Coroutine(usize),
}

impl<'a> Input<'a> {
    /// A table.
    #[tactic(auto, unfolding(image_bytes::specs::Bytes::table_format, image_bytes::specs::Format::case, image_bytes::specs::Format::followed))]
    pub(crate) fn table(&mut self, context: &Context<'_>) -> Result<Record<'a>, ReadFault<'a>>
        ensures reads { Says record_read ((table_format (reader_in context.now)).scan self.old.met self.old.bytes) result self.new }
    {
        let count = self.word()?;
        let rows = self.rows(count, context)?;
        let metatable = self.wanted_item(Wanted::Metatable, context)?;
        Ok(Record::Table { rows, metatable })
    }

    /// So many rows.
    #[tactic(auto, unfolding(image_bytes::specs::Bytes::rows_format))]
    fn rows(
        &mut self,
        count: u32,
        context: &Context<'_>,
    ) -> Result<Vec<(Item<'a>, Item<'a>)>, ReadFault<'a>>
        ensures reads { Says (items_of row_of) ((rows_format (reader_in context.now) count).scan self.old.met self.old.bytes) result self.new }
    {
        let mut rows = Vec::new(context.alloc);
        let mut keys = IndexSet::new(context.alloc);
        for _ in 0..count {
            let row = self.row(&mut keys, context)?;
            rows.push(row)?;
        }
        Ok(rows)
    }

    /// A row behind others, whose keys are given. Its key is added to them.
    #[tactic(auto, unfolding(image_bytes::specs::Bytes::row_after, image_bytes::specs::Bytes::only, image_bytes::specs::Format::tested, image_bytes::specs::Format::followed))]
    fn row(
        &mut self,
        keys: &mut IndexSet<RowKey<'a>>,
        context: &Context<'_>,
    ) -> Result<(Item<'a>, Item<'a>), ReadFault<'a>>
        ensures reads { (seen : List ItemShown) → AreKeysOf context.now.known.now keys.old.keys seen → Says row_of ((row_after (reader_in context.now) seen).scan self.old.met self.old.bytes) result self.new }
        ensures keys { (seen : List ItemShown) → AreKeysOf context.now.known.now keys.old.keys seen → KeyAdded context.now.known.now keys.new.keys seen result }
    {
        let key = self.item(context)?;
        add_key(keys, key, context)?;
        let value = self.item(context)?;
        Ok((key, value))
    }
}

/// Adds a key, which is not nil and not there yet.
fn add_key<'a>(
    keys: &mut IndexSet<RowKey<'a>>,
    key: Item<'a>,
    context: &Context<'_>,
) -> Result<(), ReadFault<'a>>
    ensures { (seen : List ItemShown) → AreKeysOf context.now.known.now keys.old.keys seen → AddsKey context.now.known.now keys.new.keys seen (item_of key.entry) result }
{
    let Some(own) = row_key(key, context) else {
        return Err(ReadFault::Refused(Refusal::OutOfPlace));
    };
    if keys.insert(own)? {
        Ok(())
    } else {
        Err(ReadFault::Refused(Refusal::OutOfPlace))
    }
}

/// What a value becomes as a key. Nil is none.
fn row_key<'a>(key: Item<'a>, context: &Context<'_>) -> Option<RowKey<'a>>
    ensures { IsRowKey context.now.known.now (item_of key.entry) result }
{
    match key {
        Item::Nil => None,
        Item::Bool(b) => Some(RowKey::Bool(b)),
        Item::Int(n) => Some(RowKey::Int(n)),
        Item::Str(text) => Some(RowKey::Text(text)),
        Item::Numbered(n) => Some(RowKey::Numbered(n)),
        Item::Permanent(_, name) => Some(permanent_key(name, context)),
        Item::Environment => Some(RowKey::Table(context.known.environment().0)),
    }
}

/// What a permanent is as a key.
fn permanent_key<'a>(name: Key<'_>, context: &Context<'_>) -> RowKey<'a>
    ensures { own_key result ≡ of_value (object_named (perms_of context.now.known.now) (name_of name.entry)) }
{
    match context.known.find(name) {
        Some(found) => object_key(found.object),
        None => RowKey::Nil,
    }
}

/// What an object is as a key.
fn object_key<'a>(object: Value) -> RowKey<'a>
    ensures { own_key result ≡ of_value (object_of object) }
{
    match object {
        Value::Prim(n) => RowKey::Primitive(n),
        Value::Table(id) => RowKey::Table(id.0),
        Value::Func(id) => RowKey::Function(id.0),
        Value::Coro(id) => RowKey::Coroutine(id.0),
        Value::Nil => RowKey::Nil,
        Value::Bool(_) => RowKey::Nil,
        Value::Int(_) => RowKey::Nil,
        Value::Str(_) => RowKey::Nil,
    }
}
