// Equality and order (luaV_equalobj, luaV_lessthan and luaV_lessequal of lvm.c).
ghost use Rattle.std.specs.Prelude.{◌≡◌, [], ◌∷◌, not, int_lt, int_le};
ghost use Rattle.int_core.specs.Operations.{before, equal_on, of_le, of_lt, ordered};
ghost use Rattle.lua_heap.specs.Reading.{value};
ghost use Rattle.meta_ops.specs.Heap.{heap_of, IsThere};
ghost use Rattle.table_core.specs.Value.{are_tables};
ghost use Rattle.meta_ops.specs.Outcome.{settled};

use crate::event::Event;
use crate::fault::Fault;
use crate::handler::handler_of;
use crate::heap::Heap;
use crate::outcome::{Outcome, asked};
use lua_heap::law;
use table_core::Value;

/// `left == right` (Lua 5.4 manual, 3.4.4). Only two tables that are not the same one ask for a handler.
pub fn equal(heap: Heap, left: Value, right: Value) -> Outcome
    ensures { equal_on (heap_of heap.entry) (value heap.entry.strings.now left) (value heap.entry.strings.now right) ≡ settled heap.entry.strings.now (heap_of heap.entry) (value heap.entry.strings.now right ∷ []) result }
{
    heap.strings.len();
    law::equality_is_raw();
    if left == right {
        return Outcome::Found(Value::Bool(true));
    }
    if !are_tables(left, right) {
        return Outcome::Found(Value::Bool(false));
    }
    match handler_of(heap, Event::Eq, left, right) {
        Some(handler) => Outcome::Ask {
            handler,
            first: left,
        },
        None => Outcome::Found(Value::Bool(false)),
    }
}

fn are_tables(left: Value, right: Value) -> bool
    ensures { result ≡ are_tables left right }
{
    matches!((left, right), (Value::Table(_), Value::Table(_)))
}

/// `left < right` (Lua 5.4 manual, 3.4.4).
pub fn less(heap: Heap, left: Value, right: Value) -> Outcome
    requires left { IsThere heap left }
    requires right { IsThere heap right }
    ensures { ordered of_lt int_lt before (heap_of heap.entry) (value heap.entry.strings.now left) (value heap.entry.strings.now right) ≡ settled heap.entry.strings.now (heap_of heap.entry) (value heap.entry.strings.now right ∷ []) result }
{
    match left {
        Value::Int(m) => match right {
            Value::Int(n) => Outcome::Found(Value::Bool(m < n)),
            _ => asked(heap, Event::Lt, left, right, Fault::Compare(left, right)),
        },
        Value::Str(s) => match right {
            Value::Str(t) => {
                let before = before(heap.strings.bytes(s), heap.strings.bytes(t));
                Outcome::Found(Value::Bool(before))
            }
            _ => asked(heap, Event::Lt, left, right, Fault::Compare(left, right)),
        },
        _ => asked(heap, Event::Lt, left, right, Fault::Compare(left, right)),
    }
}

/// `left <= right` (Lua 5.4 manual, 3.4.4).
pub fn less_equal(heap: Heap, left: Value, right: Value) -> Outcome
    requires left { IsThere heap left }
    requires right { IsThere heap right }
    ensures { ordered of_le int_le (λ s t. not (before t s)) (heap_of heap.entry) (value heap.entry.strings.now left) (value heap.entry.strings.now right) ≡ settled heap.entry.strings.now (heap_of heap.entry) (value heap.entry.strings.now right ∷ []) result }
{
    match left {
        Value::Int(m) => match right {
            Value::Int(n) => Outcome::Found(Value::Bool(m <= n)),
            _ => asked(heap, Event::Le, left, right, Fault::Compare(left, right)),
        },
        Value::Str(s) => match right {
            Value::Str(t) => {
                let after = before(heap.strings.bytes(t), heap.strings.bytes(s));
                Outcome::Found(Value::Bool(!after))
            }
            _ => asked(heap, Event::Le, left, right, Fault::Compare(left, right)),
        },
        _ => asked(heap, Event::Le, left, right, Fault::Compare(left, right)),
    }
}

/// Whether a string comes before another, by their bytes.
fn before(s: &[u8], t: &[u8]) -> bool
    ensures { result ≡ before s.now t.now }
{
    let both = s.len().min(t.len());
    for at in 0..both {
        if s[at] != t[at] {
            return s[at] < t[at];
        }
    }
    s.len() < t.len()
}
