// What is called, by `__call` (luaD_tryfuncTM of ldo.c).
ghost use Rattle.std.specs.Prelude.{◌≡◌, List};
ghost use Rattle.int_core.specs.Operations.{callee_of, greatest_chain};
ghost use Rattle.int_core.specs.Value.{Value as Meant};
ghost use Rattle.lua_heap.specs.Reading.{value};
ghost use Rattle.meta_ops.specs.Chains.{called_as};
ghost use Rattle.meta_ops.specs.Heap.{heap_of};

use crate::GREATEST_CHAIN;
use crate::event::Event;
use crate::fault::Fault;
use crate::handler::{handler_in, is_function, is_nil};
use crate::heap::Heap;
use table_core::Value;

/// What the call of a value comes to.
#[derive(Debug, Clone, Copy, PartialEq, Eq)]
pub enum Callee {
    /// A function or a primitive, reached over so many links. Each puts the value that it leads from in front of the arguments.
    Function { function: Value, links: usize },
    Fault(Fault),
}

/// What is called where a value is, by way of the handlers of `__call` (Lua 5.4 manual, 2.4).
pub fn callee_of(heap: Heap, called: Value) -> Callee
    ensures { (arguments : List Meant) → callee_of greatest_chain (heap_of heap.entry) (value heap.entry.strings.now called) arguments ≡ called_as heap.entry.strings.now (heap_of heap.entry) (value heap.entry.strings.now called) arguments result }
{
    let mut at = called;
    for links in 0..=GREATEST_CHAIN {
        if is_function(at) {
            return Callee::Function {
                function: at,
                links,
            };
        }
        let handler = handler_in(heap, Event::Call, at);
        if is_nil(handler) {
            return Callee::Fault(Fault::Call(at));
        }
        at = handler;
    }
    Callee::Fault(Fault::CallChain)
}
