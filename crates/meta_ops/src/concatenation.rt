// Concatenation (luaV_concat of lvm.c).
ghost use Rattle.std.specs.Prelude.{◌≡◌, ◌≤◌, ℕ, List, [], ◌∷◌, ◌++◌, Some, true, IfOk, IfSome, OnOk, OnErr, length};
ghost use Rattle.int_core.specs.Operations.{concat_on, integer_text, is_text as has_text, text_of};
ghost use Rattle.int_core.specs.Value.{greatest_string};
ghost use Rattle.lua_heap.specs.Reading.{value};
ghost use Rattle.meta_ops.specs.Concat.{AppendsText, IsString, text_or_none, with_joined};
ghost use Rattle.meta_ops.specs.Heap.{heap_in, IsIn};
ghost use Rattle.meta_ops.specs.Outcome.{settled};

use crate::event::Event;
use crate::fault::Fault;
use crate::heap::Heap;
use crate::outcome::{Outcome, asked};
use int_core::{Allocated, write_integer};
use lua_heap::Strings;
use object_pool::Pool;
use std::alloc::Global;
use table_core::{Table, TableId, Value};

/// No string has more bytes.
const GREATEST_STRING: usize = 16_777_216;

/// `left .. right` (Lua 5.4 manual, 3.4.6). The result is added to the strings where it is not there; a refusal changes nothing.
pub fn concat(
    alloc: Global,
    tables: &Pool<Table>,
    strings: &mut Strings,
    string_meta: Option<TableId>,
    left: Value,
    right: Value,
) -> Allocated<Outcome>
    requires left { IsIn strings.old tables.now.objects left }
    requires right { IsIn strings.old tables.now.objects right }
    ensures does { IfOk result (λ o. concat_on (heap_in strings.old tables.now.objects string_meta) (text_of (value strings.old left)) (text_of (value strings.old right)) (value strings.old left) (value strings.old right) ≡ settled strings.new (heap_in strings.old tables.now.objects string_meta) (value strings.old right ∷ []) o) }
    ensures strings { OnOk result (strings.new ≡ with_joined strings.old (text_of (value strings.old left)) (text_of (value strings.old right))) }
    ensures err { OnErr result (strings.new ≡ strings.old) }
{
    let heap = Heap {
        tables,
        strings,
        string_meta,
    };
    if !is_text(left) {
        return Ok(asked(heap, Event::Concat, left, right, Fault::Concatenate(left)));
    }
    if !is_text(right) {
        return Ok(asked(heap, Event::Concat, left, right, Fault::Concatenate(right)));
    }
    let text = joined(alloc, strings, left, right)?;
    if text.len() > GREATEST_STRING {
        return Ok(Outcome::Fault(Fault::TooLarge));
    }
    let id = strings.intern_new(&text)?;
    Ok(Outcome::Found(Value::Str(id)))
}

/// Whether a value is a string or an integer.
fn is_text(v: Value) -> bool
    ensures { (texts : List (List ℕ)) → result ≡ has_text (value texts v) }
{
    matches!(v, Value::Str(_) | Value::Int(_))
}

/// The texts of both operands, one after the other.
fn joined(alloc: Global, strings: &Strings, left: Value, right: Value) -> Allocated<Vec<u8>>
    requires left { IsString strings.now left }
    requires right { IsString strings.now right }
    ensures { IfOk result (λ text. text.items ≡ text_or_none (text_of (value strings.now left)) ++ text_or_none (text_of (value strings.now right))) }
{
    let room = room_for(strings, left).saturating_add(room_for(strings, right));
    let mut text = Vec::with_capacity(alloc, room)?;
    push_text(&mut text, strings, left)?;
    push_text(&mut text, strings, right)?;
    Ok(text)
}

/// How many bytes the text of a value takes at most.
fn room_for(strings: &Strings, v: Value) -> usize
    requires { IsString strings.now v }
{
    match v {
        Value::Str(id) => strings.bytes(id).len(),
        Value::Int(_) => 20,
        _ => 0,
    }
}

/// Puts the text of a value at the end; another value than a string or an integer has none.
fn push_text(text: &mut Vec<u8>, strings: &Strings, v: Value) -> Allocated<()>
    requires { IsString strings.now v }
    ensures { OnOk result (text.new.items ≡ text.old.items ++ text_or_none (text_of (value strings.now v))) }
{
    match v {
        Value::Str(id) => {
            text.extend_from_slice(strings.bytes(id))?;
            Ok(())
        }
        Value::Int(n) => {
            push_integer(text, n)?;
            Ok(())
        }
        _ => Ok(()),
    }
}

/// Puts the text of a string or an integer at the end. `None` for another value, and where memory runs out: the text is of no use then.
pub fn append_text(text: &mut Vec<u8>, strings: &Strings, v: Value) -> Option<()>
    requires { IsString strings.now v }
    ensures { IfSome result (λ _. AppendsText strings.now text.old.items text.new.items v) }
{
    if !is_text(v) {
        return None;
    }
    match push_text(text, strings, v) {
        Ok(()) => Some(()),
        Err(_) => None,
    }
}

/// Whether a string may have so many bytes.
pub fn is_short(text: &[u8]) -> bool
    ensures { result ≡ true → length text.now ≤ greatest_string }
{
    if text.len() > GREATEST_STRING {
        return false;
    }
    true
}

/// Puts the decimal text of an integer at the end.
fn push_integer(text: &mut Vec<u8>, n: i64) -> Allocated<()>
    ensures { OnOk result (text.new.items ≡ text.old.items ++ integer_text n) }
{
    let mut digits = [0; 20];
    let len = write_integer(n, &mut digits);
    text.extend_from_slice(&digits[..len])?;
    Ok(())
}
