// The first match of a list of items, found by going back over single tries.
ghost use Rattle.std.specs.Prelude.{◌≡◌, ℕ, ◌+◌, ◌≤◌, List, [], ◌∷◌, ◌++◌, length, reverse, drop, slice_get, IfOk, IfSome};
ghost use Rattle.std.specs.List.{range_with_len};
ghost use Rattle.std.specs.Option.{option_map};
ghost use Rattle.lua_pattern.specs.Begins.{first_class};
ghost use Rattle.lua_pattern.specs.Ends.{ends, ends_at};
ghost use Rattle.lua_pattern.specs.Firsts.{AreBefore, IsBefore, IsFirst, IsInside};
ghost use Rattle.lua_pattern.specs.Ways.{ended, run_of};
ghost use Rattle.lua_pattern.specs.declared.item.Item.TheVariants.{Repeated};

use crate::answer::Capture;
use crate::begins::{first_class, rules_out};
use crate::class::Class;
use crate::item::{Item, Repeat};
use crate::plain::{is_class_at, plain_end, run_at};
use std::alloc::AllocError;

/// The end of the first match of items at a place, which leaves its captures. Where there is none, they stay as they were.
#[cycle(matching)]
pub(crate) fn first_match(
    subject: &[u8],
    items: &[Item],
    at: usize,
    captures: &mut Vec<Capture>,
) -> Result<Option<usize>, AllocError>
    requires place { at ≤ length subject.now }
    requires captured { AreBefore at captures.old.items }
    ensures first { IfOk result (λ end. IsFirst (ends subject.now items.now at captures.old.items)
        end captures.old.items captures.new.items) }
    ensures inside { IfOk result (λ end. IfSome end
        (λ place. IsInside (length subject.now) at place captures.new.items)) }
{
    let mut at = at;
    let mut left = items;
    while let Some((item, rest)) = left.split_first() {
        match item {
            Item::Plain(plain) => match plain_end(subject, plain, at, captures) {
                Some(end) => at = end,
                None => return Ok(None),
            },
            Item::Repeated(class, repeat) => {
                return repeated(subject, class, *repeat, rest, at, captures);
            }
            Item::Open => {
                let capture = Capture::Text { start: at, end: at };
                return captured(subject, capture, rest, at, captures);
            }
            Item::Place => return captured(subject, Capture::Position(at), rest, at, captures),
            Item::Close(number) => return closed(subject, *number, rest, at, captures),
        }
        left = rest;
    }
    Ok(Some(at))
}

/// The first match of a class with a quantifier, and of the items behind it.
#[cycle(matching)]
fn repeated(
    subject: &[u8],
    class: &Class,
    repeat: Repeat,
    rest: &[Item],
    at: usize,
    captures: &mut Vec<Capture>,
) -> Result<Option<usize>, AllocError>
    requires place { at ≤ length subject.now }
    requires captured { AreBefore at captures.old.items }
    ensures first { IfOk result
        (λ end. IsFirst (ends subject.now (Repeated class.now repeat ∷ rest.now) at captures.old.items)
        end captures.old.items captures.new.items) }
    ensures inside { IfOk result (λ end. IfSome end
        (λ place. IsInside (length subject.now) at place captures.new.items)) }
{
    match repeat {
        Repeat::Optional => {
            let tries = if is_class_at(subject, class, at) {
                2
            } else {
                1
            };
            longest_first(subject, rest, at, tries, captures)
        }
        Repeat::ZeroOrMore => {
            let run = run_at(subject, class, at);
            longest_first(subject, rest, at, run + 1, captures)
        }
        Repeat::OneOrMore => {
            let run = run_at(subject, class, at);
            longest_first(subject, rest, at + 1, run, captures)
        }
        Repeat::Lazy => shortest_first(subject, class, rest, at, captures),
    }
}

/// The first match of items at one of so many places from the first on, of which the last is tried first.
#[cycle(matching)]
fn longest_first(
    subject: &[u8],
    rest: &[Item],
    first: usize,
    tries: usize,
    captures: &mut Vec<Capture>,
) -> Result<Option<usize>, AllocError>
    requires places { first + tries ≤ length subject.now + 1 }
    requires captured { AreBefore first captures.old.items }
    ensures first { IfOk result
        (λ end. IsFirst (ends_at subject.now rest.now (reverse (range_with_len first tries)) captures.old.items)
        end captures.old.items captures.new.items) }
    ensures inside { IfOk result (λ end. IfSome end
        (λ place. IsInside (length subject.now) first place captures.new.items)) }
{
    let class = first_class(rest);
    let mut tries = tries;
    while tries > 0 {
        tries -= 1;
        let end = tried(subject, class, rest, first + tries, captures)?;
        if end.is_some() {
            return Ok(end);
        }
    }
    Ok(None)
}

/// The first match of items at a place or behind a run of a class that begins there, the shortest run first.
#[cycle(matching)]
fn shortest_first(
    subject: &[u8],
    class: &Class,
    rest: &[Item],
    at: usize,
    captures: &mut Vec<Capture>,
) -> Result<Option<usize>, AllocError>
    requires place { at ≤ length subject.now }
    requires captured { AreBefore at captures.old.items }
    ensures first { IfOk result
        (λ end. IsFirst (ends_at subject.now rest.now
        (range_with_len at (run_of class.now (drop at subject.now) + 1)) captures.old.items)
        end captures.old.items captures.new.items) }
    ensures inside { IfOk result (λ end. IfSome end
        (λ place. IsInside (length subject.now) at place captures.new.items)) }
{
    let next = first_class(rest);
    let mut place = at;
    loop {
        let end = tried(subject, next, rest, place, captures)?;
        if end.is_some() {
            return Ok(end);
        }
        if !is_class_at(subject, class, place) {
            return Ok(None);
        }
        place += 1;
    }
}

/// The first match of items at a place, where the class of the byte that each match begins with is known. There is none where it rules the place out.
#[cycle(matching)]
#[inline(always)]
fn tried(
    subject: &[u8],
    class: Option<&Class>,
    rest: &[Item],
    at: usize,
    captures: &mut Vec<Capture>,
) -> Result<Option<usize>, AllocError>
    requires place { at ≤ length subject.now }
    requires captured { AreBefore at captures.old.items }
    requires told { option_map (λ kept. kept.now) class ≡ first_class rest.now }
    ensures first { IfOk result
        (λ end. IsFirst (ends subject.now rest.now at captures.old.items)
        end captures.old.items captures.new.items) }
    ensures inside { IfOk result (λ end. IfSome end
        (λ place. IsInside (length subject.now) at place captures.new.items)) }
{
    if rules_out(class, subject, at) {
        return Ok(None);
    }
    first_match(subject, rest, at, captures)
}

/// The first match of items with one more capture before it, which is taken off where there is none.
#[cycle(matching)]
fn captured(
    subject: &[u8],
    capture: Capture,
    rest: &[Item],
    at: usize,
    captures: &mut Vec<Capture>,
) -> Result<Option<usize>, AllocError>
    requires place { at ≤ length subject.now }
    requires captured { AreBefore at captures.old.items }
    requires capture { IsBefore at capture }
    ensures first { IfOk result
        (λ end. IsFirst (ends subject.now rest.now at (captures.old.items ++ capture ∷ []))
        end captures.old.items captures.new.items) }
    ensures inside { IfOk result (λ end. IfSome end
        (λ place. IsInside (length subject.now) at place captures.new.items)) }
{
    captures.push(capture)?;
    let end = first_match(subject, rest, at, captures)?;
    if end.is_none() {
        captures.pop();
    }
    Ok(end)
}

/// The first match of items where the capture of a number ends at the place.
#[cycle(matching)]
fn closed(
    subject: &[u8],
    number: usize,
    rest: &[Item],
    at: usize,
    captures: &mut Vec<Capture>,
) -> Result<Option<usize>, AllocError>
    requires place { at ≤ length subject.now }
    requires captured { AreBefore at captures.old.items }
    ensures first { IfOk result
        (λ end. IsFirst (ends subject.now rest.now at (ended captures.old.items number at))
        end captures.old.items captures.new.items) }
    ensures inside { IfOk result (λ end. IfSome end
        (λ place. IsInside (length subject.now) at place captures.new.items)) }
{
    match capture_at(captures, number) {
        Some(Capture::Text { start, end }) => {
            captures[number] = Capture::Text { start, end: at };
            let found = first_match(subject, rest, at, captures)?;
            if found.is_none() {
                captures[number] = Capture::Text { start, end };
            }
            Ok(found)
        }
        Some(Capture::Position(_)) => first_match(subject, rest, at, captures),
        None => first_match(subject, rest, at, captures),
    }
}

/// The capture of a number, if there is one.
fn capture_at(captures: &[Capture], number: usize) -> Option<Capture>
    ensures { result ≡ slice_get captures.now number }
{
    captures.get(number).copied()
}
