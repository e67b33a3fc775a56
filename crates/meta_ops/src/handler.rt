// The handlers of values (luaT_gettmbyobj and luaT_callbinTM of ltm.c).
ghost use Rattle.std.specs.Prelude.{◌≡◌, List, ℕ, option_map};
ghost use Rattle.int_core.specs.Operations.{handler_in, handler_of, is_function as is_callable};
ghost use Rattle.int_core.specs.Value.{is_nil as is_nothing};
ghost use Rattle.lua_heap.specs.Reading.{value};
ghost use Rattle.meta_ops.specs.Heap.{heap_of};
ghost use Rattle.meta_ops.specs.Events.{event_of};

use crate::event::Event;
use crate::heap::Heap;
use table_core::Value;

/// The handler that a value's metatable has for an event, or nil.
#[inline(always)]
pub fn handler_in(heap: Heap, event: Event, object: Value) -> Value
    ensures { value heap.entry.strings.now result ≡ handler_in (heap_of heap.entry) (event_of event) (value heap.entry.strings.now object) }
{
    heap.metafield(object, event.name())
}

/// The handler of the left operand, else that of the right one.
pub fn handler_of(heap: Heap, event: Event, left: Value, right: Value) -> Option<Value>
    ensures { option_map (value heap.entry.strings.now) result ≡ handler_of (heap_of heap.entry) (event_of event) (value heap.entry.strings.now left) (value heap.entry.strings.now right) }
{
    let handler = handler_in(heap, event, left);
    if !is_nil(handler) {
        return Some(handler);
    }
    let handler = handler_in(heap, event, right);
    if !is_nil(handler) {
        return Some(handler);
    }
    None
}

/// Whether a value is nil.
#[inline(always)]
pub(crate) fn is_nil(v: Value) -> bool
    ensures { (texts : List (List ℕ)) → result ≡ is_nothing (value texts v) }
{
    matches!(v, Value::Nil)
}

/// Whether a value is a function of Lua's or a primitive, which is called without a handler.
#[inline(always)]
pub(crate) fn is_function(v: Value) -> bool
    ensures { (texts : List (List ℕ)) → result ≡ is_callable (value texts v) }
{
    matches!(v, Value::Func(_) | Value::Prim(_))
}
