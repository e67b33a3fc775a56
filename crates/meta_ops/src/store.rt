// Writing a field by `__newindex` (luaV_finishset of lvm.c).
ghost use Rattle.std.specs.Prelude.{◌≡◌, ℕ, false, List, [], ◌∷◌, IfOk, OnOk, OnErr};
ghost use Rattle.int_core.specs.Heap.{Heap as Meaning};
ghost use Rattle.int_core.specs.Operations.{store_of, set_raw, greatest_chain};
ghost use Rattle.int_core.specs.Value.{Value as Meant};
ghost use Rattle.lua_heap.specs.Reading.{value};
ghost use Rattle.meta_ops.specs.Chains.{stored_as, StoreGoes};
ghost use Rattle.meta_ops.specs.Heap.{heap_in, heap_of};
ghost use Rattle.meta_ops.specs.Outcome.{is_done, settled};
ghost use Rattle.meta_ops.specs.Store.{put_in, put_outcome};

use crate::GREATEST_CHAIN;
use crate::event::Event;
use crate::fault::Fault;
use crate::handler::{handler_in, is_function, is_nil};
use crate::heap::Heap;
use crate::outcome::Outcome;
use int_core::Allocated;
use lua_heap::{Strings, law};
use object_pool::Pool;
use table_core::{Key, Table, TableId, Value};

/// What the writing of a field comes to.
#[derive(Debug, Clone, Copy, PartialEq, Eq)]
pub enum Stored {
    /// The table itself takes the value. A key that is nil is then at fault.
    Raw(TableId),
    /// The handler is called with the object, the key and the value.
    Ask { handler: Value, object: Value },
    Fault(Fault),
}

/// What one link comes to.
#[derive(Debug, Clone, Copy)]
pub(crate) enum StoreLink {
    Settled(Stored),
    Follow(Value),
}

/// Where a value goes that is written at a key of an object, by way of the handlers of `__newindex` (Lua 5.4 manual, 2.4).
/// It is the same for every value that is written.
pub fn store_of(heap: Heap, object: Value, key: Value) -> Stored
    ensures { (v : Meant) → store_of greatest_chain (heap_of heap.entry) (value heap.entry.strings.now object) (value heap.entry.strings.now key) v ≡ stored_as heap.entry.strings.now (heap_of heap.entry) (value heap.entry.strings.now key) v result }
{
    let mut at = object;
    for _link in 0..GREATEST_CHAIN {
        let handler = match store_link(heap, at, key) {
            StoreLink::Settled(answer) => return answer,
            StoreLink::Follow(handler) => handler,
        };
        if is_function(handler) {
            return Stored::Ask {
                handler,
                object: at,
            };
        }
        at = handler;
    }
    match store_link(heap, at, key) {
        StoreLink::Settled(answer) => answer,
        StoreLink::Follow(_) => Stored::Fault(Fault::NewIndexChain),
    }
}

/// Where the value goes, or the handler to go on with.
fn store_link(heap: Heap, object: Value, key: Value) -> StoreLink
    ensures { StoreGoes heap.entry.strings.now (heap_of heap.entry) (value heap.entry.strings.now object) (value heap.entry.strings.now key) result }
{
    if let Some(field) = heap.raw_get(object, key) {
        if !is_nil(field) {
            return StoreLink::Settled(raw(object));
        }
    }
    let handler = handler_in(heap, Event::NewIndex, object);
    if !is_nil(handler) {
        return StoreLink::Follow(handler);
    }
    StoreLink::Settled(raw(object))
}

/// A table takes the value itself.
fn raw(object: Value) -> Stored
    ensures { (texts : List (List ℕ)) (H : Meaning) (key v : Meant) → set_raw H (value texts object) key v ≡ stored_as texts H key v result }
{
    match object {
        Value::Table(id) => Stored::Raw(id),
        _ => Stored::Fault(Fault::Index(object)),
    }
}

/// Writes a field, by way of the handlers of `__newindex` (Lua 5.4 manual, 2.4). A refusal changes nothing.
pub fn store_field(
    tables: &mut Pool<Table>,
    strings: &Strings,
    string_meta: Option<TableId>,
    object: Value,
    key: Value,
    v: Value,
) -> Allocated<Outcome>
    ensures does { IfOk result (λ o. store_of greatest_chain (heap_in strings.now tables.old.objects string_meta) (value strings.now object) (value strings.now key) (value strings.now v) ≡ settled strings.now (heap_in strings.now tables.new.objects string_meta) (value strings.now key ∷ value strings.now v ∷ []) o) }
    ensures kept { IfOk result (λ o. is_done o ≡ false → tables.new ≡ tables.old) }
    ensures err { OnErr result (tables.new ≡ tables.old) }
{
    strings.len();
    law::tables_are_read();
    let heap = Heap {
        tables,
        strings,
        string_meta,
    };
    match store_of(heap, object, key) {
        Stored::Raw(id) => {
            let outcome = put(tables, id, key, v)?;
            Ok(outcome)
        }
        Stored::Ask { handler, object } => Ok(Outcome::Ask {
            handler,
            first: object,
        }),
        Stored::Fault(fault) => Ok(Outcome::Fault(fault)),
    }
}

/// Writes a field of a table, whatever its metatable says. A number that no table has takes nothing.
fn put(tables: &mut Pool<Table>, id: TableId, key: Value, v: Value) -> Allocated<Outcome>
    ensures outcome { IfOk result (λ o. o ≡ put_outcome key) }
    ensures objects { OnOk result (tables.new.objects ≡ put_in tables.old.objects id.0 key v) }
    ensures kept { IfOk result (λ o. is_done o ≡ false → tables.new ≡ tables.old) }
    ensures err { OnErr result (tables.new ≡ tables.old) }
{
    let Some(key) = Key::of(key) else {
        return Ok(Outcome::Fault(Fault::NilKey));
    };
    if id.0 < tables.len() {
        tables.get_mut(id.0).set(key, v)?;
    }
    Ok(Outcome::Done)
}
