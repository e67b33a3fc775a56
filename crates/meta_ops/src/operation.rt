// One call for every operation that may ask for a handler.
ghost use Rattle.std.specs.Prelude.{◌≡◌, false, IfOk, OnOk, OnErr};
ghost use Rattle.int_core.specs.Operations.{does};
ghost use Rattle.meta_ops.specs.Heap.{heap_in};
ghost use Rattle.meta_ops.specs.Operation.{AreIn, kind_of, operands_of, more_of, strings_after};
ghost use Rattle.meta_ops.specs.Outcome.{is_done, settled};

use crate::compare::{equal, less, less_equal};
use crate::concatenation::concat;
use crate::event::Event;
use crate::heap::Heap;
use crate::index::index_of;
use crate::lengths::length;
use crate::numbers::arithmetic;
use crate::outcome::Outcome;
use crate::store::store_field;
use int_core::Allocated;
use lua_heap::Strings;
use object_pool::Pool;
use std::alloc::Global;
use table_core::{Table, TableId, Value};

/// An operation with its operands (Lua 5.4 manual, 2.4 and 3.4).
#[derive(Debug, Clone, Copy, PartialEq, Eq)]
pub enum Operation {
    Index {
        object: Value,
        key: Value,
    },
    Store {
        object: Value,
        key: Value,
        value: Value,
    },
    /// An arithmetic or bitwise operator; a unary one has its operand twice.
    Arithmetic {
        event: Event,
        left: Value,
        right: Value,
    },
    Concat {
        left: Value,
        right: Value,
    },
    Length(Value),
    Equal {
        left: Value,
        right: Value,
    },
    Less {
        left: Value,
        right: Value,
    },
    LessEqual {
        left: Value,
        right: Value,
    },
}

/// What an operation comes to. Only a store that is done changes the tables, and only a concatenation the strings; a refusal changes nothing.
pub fn operate(
    alloc: Global,
    tables: &mut Pool<Table>,
    strings: &mut Strings,
    string_meta: Option<TableId>,
    operation: Operation,
) -> Allocated<Outcome>
    requires { AreIn strings.old tables.old.objects operation }
    ensures does { IfOk result (λ o. does (kind_of operation) (operands_of strings.old operation) (heap_in strings.old tables.old.objects string_meta) ≡ settled strings.new (heap_in strings.old tables.new.objects string_meta) (more_of strings.old operation) o) }
    ensures strings { OnOk result (strings.new ≡ strings_after strings.old operation) }
    ensures tables { IfOk result (λ o. is_done o ≡ false → tables.new ≡ tables.old) }
    ensures err { OnErr result ((strings.new ≡ strings.old) × (tables.new ≡ tables.old)) }
{
    let heap = Heap {
        tables,
        strings,
        string_meta,
    };
    match operation {
        Operation::Index { object, key } => Ok(index_of(heap, object, key)),
        Operation::Store { object, key, value } => {
            let outcome = store_field(tables, strings, string_meta, object, key, value)?;
            Ok(outcome)
        }
        Operation::Arithmetic { event, left, right } => Ok(arithmetic(heap, event, left, right)),
        Operation::Concat { left, right } => {
            let outcome = concat(alloc, tables, strings, string_meta, left, right)?;
            Ok(outcome)
        }
        Operation::Length(v) => Ok(length(heap, v)),
        Operation::Equal { left, right } => Ok(equal(heap, left, right)),
        Operation::Less { left, right } => Ok(less(heap, left, right)),
        Operation::LessEqual { left, right } => Ok(less_equal(heap, left, right)),
    }
}
