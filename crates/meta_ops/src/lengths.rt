// Lengths (luaV_objlen of lvm.c).
ghost use Rattle.std.specs.Prelude.{◌≡◌, ◌<◌, [], ◌∷◌, length};
ghost use Rattle.int_core.specs.Operations.{found, length_on, raw_length};
ghost use Rattle.int_core.specs.Value.{a_table, integer, known, object};
ghost use Rattle.lua_heap.specs.Reading.{value};
ghost use Rattle.meta_ops.specs.Heap.{heap_of, IsThere};
ghost use Rattle.meta_ops.specs.Outcome.{settled};

use crate::event::Event;
use crate::fault::Fault;
use crate::handler::handler_of;
use crate::heap::Heap;
use crate::outcome::{Outcome, asked};
use lua_heap::law;
use table_core::{TableId, Value};

/// `#v` (Lua 5.4 manual, 3.4.7).
pub fn length(heap: Heap, v: Value) -> Outcome
    requires { IsThere heap v }
    ensures { length_on (heap_of heap.entry) (value heap.entry.strings.now v) ≡ settled heap.entry.strings.now (heap_of heap.entry) (value heap.entry.strings.now v ∷ []) result }
{
    match v {
        Value::Str(id) => Outcome::Found(Value::Int(heap.strings.bytes(id).len() as i64)),
        Value::Table(id) => match handler_of(heap, Event::Len, v, v) {
            Some(handler) => Outcome::Ask { handler, first: v },
            None => Outcome::Found(Value::Int(border(heap, id))),
        },
        _ => asked(heap, Event::Len, v, v, Fault::Length(v)),
    }
}

/// The border of a table, whatever its metatable says.
fn border(heap: Heap, id: TableId) -> i64
    requires { id.0 < length heap.tables.now.objects }
    ensures { raw_length (heap_of heap.entry) (object a_table id.0) ≡ found (heap_of heap.entry) (known (integer result) ∷ []) }
{
    heap.strings.len();
    law::tables_are_read();
    heap.tables.get(id.0).border()
}
