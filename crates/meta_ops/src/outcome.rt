// What operations come to (Lua 5.4 manual, 2.4; luaT_trybinTM of ltm.c).
ghost use Rattle.std.specs.Prelude.{◌≡◌, List, ◌∷◌};
ghost use Rattle.int_core.specs.Operations.{asked, fault, handler_of};
ghost use Rattle.int_core.specs.Value.{Value as Meant};
ghost use Rattle.lua_heap.specs.Reading.{value};
ghost use Rattle.meta_ops.specs.Events.{event_of};
ghost use Rattle.meta_ops.specs.Heap.{heap_of};
ghost use Rattle.meta_ops.specs.Outcome.{fault_text, settled};

use crate::event::Event;
use crate::fault::Fault;
use crate::handler::handler_of;
use crate::heap::Heap;
use table_core::Value;

/// What an operation comes to.
#[derive(Debug, Clone, Copy, PartialEq, Eq)]
pub enum Outcome {
    Found(Value),
    /// A value was stored.
    Done,
    /// The handler is called with the operands, where `first` takes the place of the first one: the object to which a chain of
    /// handlers led. The handler of a unary operator gets the operand twice.
    Ask { handler: Value, first: Value },
    Fault(Fault),
}

/// The handler of the operands, or the fault where they have none.
pub(crate) fn asked(
    heap: Heap,
    event: Event,
    left: Value,
    right: Value,
    otherwise: Fault,
) -> Outcome
    ensures { (more : List Meant) → asked (handler_of (heap_of heap.entry) (event_of event) (value heap.entry.strings.now left) (value heap.entry.strings.now right)) (value heap.entry.strings.now left ∷ more) (fault (fault_text heap.entry.strings.now otherwise)) ≡ settled heap.entry.strings.now (heap_of heap.entry) more result }
{
    match handler_of(heap, event, left, right) {
        Some(handler) => Outcome::Ask {
            handler,
            first: left,
        },
        None => Outcome::Fault(otherwise),
    }
}
