// Reading a field by `__index` (luaV_finishget of lvm.c).
ghost use Rattle.std.specs.Prelude.{◌≡◌, [], ◌∷◌};
ghost use Rattle.int_core.specs.Operations.{index_of, greatest_chain};
ghost use Rattle.lua_heap.specs.Reading.{value};
ghost use Rattle.meta_ops.specs.Chains.{IndexGoes};
ghost use Rattle.meta_ops.specs.Heap.{heap_of};
ghost use Rattle.meta_ops.specs.Outcome.{settled};

use crate::GREATEST_CHAIN;
use crate::event::Event;
use crate::fault::Fault;
use crate::handler::{handler_in, is_function, is_nil};
use crate::heap::Heap;
use crate::outcome::Outcome;
use table_core::Value;

/// What one link comes to.
#[derive(Debug, Clone, Copy)]
pub(crate) enum Link {
    Settled(Outcome),
    Follow(Value),
}

/// The field of an object that has a key, by way of the handlers of `__index` (Lua 5.4 manual, 2.4).
pub fn index_of(heap: Heap, object: Value, key: Value) -> Outcome
    ensures { index_of greatest_chain (heap_of heap.entry) (value heap.entry.strings.now object) (value heap.entry.strings.now key) ≡ settled heap.entry.strings.now (heap_of heap.entry) (value heap.entry.strings.now key ∷ []) result }
{
    let mut at = object;
    for _link in 0..GREATEST_CHAIN {
        let handler = match index_link(heap, at, key) {
            Link::Settled(outcome) => return outcome,
            Link::Follow(handler) => handler,
        };
        if is_function(handler) {
            return Outcome::Ask { handler, first: at };
        }
        at = handler;
    }
    match index_link(heap, at, key) {
        Link::Settled(outcome) => outcome,
        Link::Follow(_) => Outcome::Fault(Fault::IndexChain),
    }
}

/// The field as it is, or the handler to go on with.
#[inline(always)]
fn index_link(heap: Heap, object: Value, key: Value) -> Link
    ensures { IndexGoes heap.entry.strings.now (heap_of heap.entry) (value heap.entry.strings.now object) (value heap.entry.strings.now key) result }
{
    let raw = heap.raw_get(object, key);
    if let Some(field) = raw {
        if !is_nil(field) {
            return Link::Settled(Outcome::Found(field));
        }
    }
    let handler = handler_in(heap, Event::Index, object);
    if !is_nil(handler) {
        return Link::Follow(handler);
    }
    match raw {
        Some(field) => Link::Settled(Outcome::Found(field)),
        None => Link::Settled(Outcome::Fault(Fault::Index(object))),
    }
}
