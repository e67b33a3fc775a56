// A pattern, read whole into its items.
ghost use Rattle.std.specs.Prelude.{◌≡◌, ◌∷◌, ◌≤◌, List, ℕ, length, IfErr, IfOk, Ok};
ghost use Rattle.lua_pattern.specs.Outcomes.{IsRead, IsRefused};
ghost use Rattle.lua_pattern.specs.Reading.{balanced_at, class_at, close_at, dollar_at, escape_at, frontier_at, item_at, items_of, open_at, reference_at, set_at};
ghost use Rattle.lua_pattern.specs.Scope.{Scope as Captures};

use crate::answer::PatternFault;
use crate::class::{Class, Part};
use crate::cursor::Cursor;
use crate::item::{Item, Plain, Repeat};
use crate::rule;
use crate::scope::Scope;
use crate::set::read_set;
use std::alloc::Global;

/// How many captures a pattern can have.
const MAX_CAPTURES: usize = 32;

/// For how many items there is room at first: most patterns have no more, and a large list costs more to be made and given up.
const FEW_ITEMS: usize = 16;

/// The items of a pattern, or the first rule that it breaks.
pub(crate) fn read_pattern(alloc: Global, pattern: &[u8]) -> Result<Vec<Item>, PatternFault>
    ensures read { IfOk result (λ items. items_of pattern.now ≡ Ok items.items) }
    ensures refused { IfErr result (λ fault. IsRefused fault (items_of pattern.now)) }
{
    let mut cursor = Cursor::new(pattern);
    let mut scope = Scope::new(alloc);
    let mut items = Vec::with_capacity(alloc, pattern.len().min(FEW_ITEMS))?;
    while let Some(byte) = cursor.next_byte() {
        let item = read_item(alloc, byte, &mut cursor, &mut scope)?;
        items.push(item)?;
    }
    if !scope.is_closed() {
        return Err(PatternFault::Malformed(rule::UNFINISHED_CAPTURE));
    }
    Ok(items)
}

/// Reads the item that begins with a byte that is passed.
#[tactic(auto, unfolding(crate::specs::Reading::item_at))]
fn read_item(
    alloc: Global,
    byte: u8,
    cursor: &mut Cursor,
    scope: &mut Scope,
) -> Result<Item, PatternFault>
    ensures { IsRead result (item_at scope.old byte cursor.old) scope.new cursor.new }
{
    match byte {
        b'(' => read_open(cursor, scope),
        b')' => read_close(scope),
        b'%' => read_escape(alloc, cursor, scope),
        b'[' => {
            let set = read_set(alloc, cursor)?;
            Ok(read_quantifier(Class::Among(set), cursor))
        }
        b'$' if cursor.ahead(0).is_none() => Ok(Item::Plain(Plain::AtEnd)),
        b'.' => Ok(read_quantifier(Class::Any, cursor)),
        _ => Ok(read_quantifier(Class::Alone(Part::Byte(byte)), cursor)),
    }
}

/// Reads what stands behind a `(`.
fn read_open(cursor: &mut Cursor, scope: &mut Scope) -> Result<Item, PatternFault>
    ensures { IsRead result (open_at scope.old cursor.old) scope.new cursor.new }
{
    if scope.opened() >= MAX_CAPTURES {
        return Err(PatternFault::Malformed(rule::TOO_MANY_CAPTURES));
    }
    if cursor.take_if(b')') {
        scope.place();
        return Ok(Item::Place);
    }
    scope.open()?;
    Ok(Item::Open)
}

/// Reads a `)`, whatever stands behind it.
fn read_close(scope: &mut Scope) -> Result<Item, PatternFault>
    ensures { (rest : List ℕ) → IsRead result (close_at scope.old rest) scope.new rest }
{
    match scope.close() {
        Some(number) => Ok(Item::Close(number)),
        None => Err(PatternFault::Malformed(rule::NOTHING_TO_CLOSE)),
    }
}

/// Reads what stands behind a `%`.
fn read_escape(alloc: Global, cursor: &mut Cursor, scope: &Scope) -> Result<Item, PatternFault>
    ensures { IsRead result (escape_at scope.now cursor.old) scope.now cursor.new }
{
    match cursor.next_byte() {
        None => Err(PatternFault::Malformed(rule::ENDS_WITH_ESCAPE)),
        Some(b'b') => read_balanced(cursor),
        Some(b'f') => read_frontier(alloc, cursor),
        Some(digit @ b'0'..=b'9') => read_reference(digit, scope),
        Some(byte) => Ok(read_quantifier(Class::Alone(Part::named(byte)), cursor)),
    }
}

/// Reads the two bytes behind `%b`.
fn read_balanced(cursor: &mut Cursor) -> Result<Item, PatternFault>
    ensures { (scope : Captures) → IsRead result (balanced_at scope cursor.old) scope cursor.new }
{
    match (cursor.next_byte(), cursor.next_byte()) {
        (Some(opening), Some(closing)) => Ok(Item::Plain(Plain::Balanced(opening, closing))),
        _ => Err(PatternFault::Malformed(rule::MISSING_ARGUMENTS)),
    }
}

/// Reads the set behind `%f`.
fn read_frontier(alloc: Global, cursor: &mut Cursor) -> Result<Item, PatternFault>
    ensures { (scope : Captures) → IsRead result (frontier_at scope cursor.old) scope cursor.new }
{
    if !cursor.take_if(b'[') {
        return Err(PatternFault::Malformed(rule::MISSING_SET));
    }
    let set = read_set(alloc, cursor)?;
    Ok(Item::Plain(Plain::Frontier(set)))
}

/// Reads a reference by its digit, whatever stands behind it.
fn read_reference(digit: u8, scope: &Scope) -> Result<Item, PatternFault>
    requires { 48 ≤ digit }
    ensures { (rest : List ℕ) → IsRead result (reference_at digit scope.now rest) scope.now rest }
{
    if digit == b'0' {
        return Err(PatternFault::Malformed(rule::INVALID_REFERENCE));
    }
    let number = usize::from(digit - b'1');
    if !scope.has_ended(number) {
        return Err(PatternFault::Malformed(rule::INVALID_REFERENCE));
    }
    Ok(Item::Plain(Plain::Reference(number)))
}

/// Reads the quantifier behind a class, if there is one.
fn read_quantifier(class: Class, cursor: &mut Cursor) -> Item
    ensures { (scope : Captures) → class_at class scope cursor.old
        ≡ Ok (record { item = result; scope = scope; rest = cursor.new }) }
{
    let repeat = match cursor.ahead(0) {
        Some(b'*') => Repeat::ZeroOrMore,
        Some(b'+') => Repeat::OneOrMore,
        Some(b'-') => Repeat::Lazy,
        Some(b'?') => Repeat::Optional,
        _ => return Item::Plain(Plain::Single(class)),
    };
    cursor.skip(1);
    Item::Repeated(class, repeat)
}
