// Arithmetic and bitwise operators (luaO_rawarith of lobject.c; luaT_trybinTM of ltm.c).
ghost use Rattle.std.specs.Prelude.{◌≡◌, ℕ, List, [], ◌∷◌, None, Some, negsuc, ◌-ℤ◌, bit_and, bit_or, bit_xor};
ghost use Rattle.int_core.specs.Heap.{Heap as Meaning};
ghost use Rattle.int_core.specs.Operations.{arithmetic_on, bitwise, by_zero, computed, fault, found, number_in, of_idiv, of_mod, of_type, wrong_operand};
ghost use Rattle.int_core.specs.Value.{Value as Meant, integer, known};
ghost use Rattle.lua_heap.specs.Reading.{value};
ghost use Rattle.meta_ops.specs.Events.{event_of};
ghost use Rattle.meta_ops.specs.Heap.{heap_of, IsThere};
ghost use Rattle.meta_ops.specs.Outcome.{fault_text, settled};

use crate::event::Event;
use crate::fault::Fault;
use crate::heap::Heap;
use crate::outcome::{Outcome, asked};
use int_core::{add, floor_div, floor_mod, mul, neg, read_integer, shl, shr, sub};
use table_core::Value;

/// An arithmetic or bitwise operator on integers, or strings that spell them (Lua 5.4 manual, 3.4.1 to 3.4.3). A unary one has its operand twice.
pub fn arithmetic(heap: Heap, event: Event, left: Value, right: Value) -> Outcome
    requires left { IsThere heap left }
    requires right { IsThere heap right }
    ensures { arithmetic_on (event_of event) (heap_of heap.entry) (number_in (value heap.entry.strings.now left)) (number_in (value heap.entry.strings.now right)) (value heap.entry.strings.now left) (value heap.entry.strings.now right) ≡ settled heap.entry.strings.now (heap_of heap.entry) (value heap.entry.strings.now right ∷ []) result }
{
    let Some(m) = number_in(heap, left) else {
        return asked(heap, event, left, right, wrong_operand(event, left));
    };
    let Some(n) = number_in(heap, right) else {
        return asked(heap, event, left, right, wrong_operand(event, right));
    };
    on_integers(event, m, n)
}

/// The integer that a value is, or that a string spells.
fn number_in(heap: Heap, v: Value) -> Option<i64>
    requires { IsThere heap v }
    ensures { result ≡ number_in (value heap.entry.strings.now v) }
{
    match v {
        Value::Int(n) => Some(n),
        Value::Str(id) => read_integer(heap.strings.bytes(id)),
        _ => None,
    }
}

/// The fault of an operand that is no integer.
fn wrong_operand(event: Event, operand: Value) -> Fault
    ensures { (texts : List (List ℕ)) → fault_text texts result ≡ of_type (wrong_operand (event_of event)) (value texts operand) }
{
    if event.is_bitwise() {
        return Fault::Bitwise(operand);
    }
    Fault::Arithmetic(operand)
}

/// The operator on two integers.
fn on_integers(event: Event, m: i64, n: i64) -> Outcome
    ensures { (texts : List (List ℕ)) (H : Meaning) (more : List Meant) → elim (computed (event_of event) m n) [ None ↦ fault (by_zero (event_of event)) | Some k ↦ found H (known (integer k) ∷ []) ] ≡ settled texts H more result }
{
    match computed(event, m, n) {
        Some(k) => Outcome::Found(Value::Int(k)),
        None => Outcome::Fault(by_zero(event)),
    }
}

/// The fault of an operator on integers that has no result: a division by zero.
pub fn by_zero(event: Event) -> Fault
    ensures { (texts : List (List ℕ)) → fault_text texts result ≡ by_zero (event_of event) }
{
    match event {
        Event::Mod => Fault::ModuloByZero,
        _ => Fault::DivisionByZero,
    }
}

/// The result of an operator on integers (Lua 5.4 manual, 3.4.1 and 3.4.2), or `None` for a division by zero.
pub fn computed(event: Event, m: i64, n: i64) -> Option<i64>
    ensures { result ≡ computed (event_of event) m n }
{
    match event {
        Event::Add => Some(add(m, n)),
        Event::Sub => Some(sub(m, n)),
        Event::Mul => Some(mul(m, n)),
        Event::Mod => remainder(m, n),
        Event::IDiv => quotient(m, n),
        Event::BAnd => Some(bits_of_both(m, n)),
        Event::BOr => Some(bits_of_either(m, n)),
        Event::BXor => Some(bits_of_one(m, n)),
        Event::Shl => Some(shl(m, n)),
        Event::Shr => Some(shr(m, n)),
        Event::Unm => Some(neg(m)),
        Event::BNot => Some(flipped(m)),
        _ => None,
    }
}

fn remainder(m: i64, n: i64) -> Option<i64>
    ensures { result ≡ computed of_mod m n }
{
    if n == 0 { None } else { Some(floor_mod(m, n)) }
}

fn quotient(m: i64, n: i64) -> Option<i64>
    ensures { result ≡ computed of_idiv m n }
{
    if n == 0 { None } else { Some(floor_div(m, n)) }
}

fn bits_of_both(m: i64, n: i64) -> i64
    ensures { result ≡ bitwise bit_and m n }
{
    m & n
}

fn bits_of_either(m: i64, n: i64) -> i64
    ensures { result ≡ bitwise bit_or m n }
{
    m | n
}

fn bits_of_one(m: i64, n: i64) -> i64
    ensures { result ≡ bitwise bit_xor m n }
{
    m ^ n
}

fn flipped(n: i64) -> i64
    ensures { result ≡ negsuc 0 -ℤ n }
{
    !n
}
