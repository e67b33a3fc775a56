// Where a match of some items can begin.
ghost use Rattle.std.specs.Prelude.{◌≡◌, ◌+◌, ◌≤◌, length, take, drop, not};
ghost use Rattle.std.specs.List.{prefix_len};
ghost use Rattle.std.specs.Option.{option_map};
ghost use Rattle.lua_pattern.specs.Begins.{IsPassed, first_class, is_capture, needed_class, repeated_class, rules_out, single_class};
ghost use Rattle.lua_pattern.specs.ClassBytes.{class_has};

use crate::class::Class;
use crate::item::{Item, Plain, Repeat};
use crate::plain::is_class_at;

/// The first place from `at` on, and at most `left` further, before which no match of the items begins. Places whose byte begins no match are passed over.
pub(crate) fn next_start(subject: &[u8], items: &[Item], at: usize, left: usize) -> usize
    requires { at + left ≤ length subject.now }
    ensures from { at ≤ result }
    ensures within { result ≤ at + left }
    ensures passed { IsPassed subject.now items.now at result }
{
    match first_class(items) {
        Some(class) => at + others(class, span(subject, at, left)),
        None => at,
    }
}

/// How many bytes that are not in a class a text begins with.
fn others(class: &Class, text: &[u8]) -> usize
    ensures value { result ≡ prefix_len (λ byte. not (class_has class.now byte)) text.now }
    ensures within { result ≤ length text.now }
{
    text.iter()
        .take_while(|byte| !class.contains(**byte))
        .count()
}

/// Bytes in a row.
fn span(subject: &[u8], at: usize, count: usize) -> &[u8]
    requires { at + count ≤ length subject.now }
    ensures { result.now ≡ take count (drop at subject.now) }
{
    &subject[at..at + count]
}

/// Whether the byte of a place is not in the class of the byte that each match begins with.
#[inline(always)]
pub(crate) fn rules_out(class: Option<&Class>, subject: &[u8], at: usize) -> bool
    ensures { result ≡ rules_out (option_map (λ kept. kept.now) class.entry) subject.now at }
{
    match class {
        Some(class) => !is_class_at(subject, class, at),
        None => false,
    }
}

/// The class of the byte that each match of the items begins with, where the first item that is no capture tells it.
pub(crate) fn first_class(items: &[Item]) -> Option<&Class>
    ensures { option_map (λ class. class.now) result ≡ first_class items.now }
{
    let item = items.get(captures(items))?;
    needed_class(item)
}

/// How many captures begin or end before any other item.
fn captures(items: &[Item]) -> usize
    ensures { result ≡ prefix_len is_capture items.now }
{
    items.iter().take_while(|item| item.is_capture()).count()
}

/// The class of the byte that an item takes in any case.
fn needed_class(item: &Item) -> Option<&Class>
    ensures { option_map (λ class. class.now) result ≡ needed_class item.now }
{
    match item {
        Item::Plain(plain) => single_class(plain),
        Item::Repeated(class, repeat) => repeated_class(class, *repeat),
        Item::Open => None,
        Item::Close(_) => None,
        Item::Place => None,
    }
}

fn single_class(plain: &Plain) -> Option<&Class>
    ensures { option_map (λ class. class.now) result ≡ single_class plain.now }
{
    match plain {
        Plain::Single(class) => Some(class),
        Plain::Balanced(_, _) => None,
        Plain::Frontier(_) => None,
        Plain::Reference(_) => None,
        Plain::AtEnd => None,
    }
}

fn repeated_class(class: &Class, repeat: Repeat) -> Option<&Class>
    ensures { option_map (λ class. class.now) result ≡ repeated_class class.now repeat }
{
    match repeat {
        Repeat::Optional => None,
        Repeat::ZeroOrMore => None,
        Repeat::OneOrMore => Some(class),
        Repeat::Lazy => None,
    }
}
