// Where an item ends that matches in one way at most.
ghost use Rattle.std.specs.Prelude.{◌≡◌, ℕ, ◌+◌, ◌-◌, ◌<◌, ◌≤◌, length, take, drop, IfSome};
ghost use Rattle.std.specs.Option.{option_map};
ghost use Rattle.lua_pattern.specs.declared.answer.Capture.TheVariants.{Text};
ghost use Rattle.lua_pattern.specs.Firsts.{AreBefore};
ghost use Rattle.lua_pattern.specs.Ways.{balanced_len, closing_len, is_class_at, is_frontier, plain_end, run_of, same_end};

use crate::answer::Capture;
use crate::class::{ByteSet, Class};
use crate::item::Plain;

/// Where a plain item ends that begins at a place.
pub(crate) fn plain_end(
    subject: &[u8],
    item: &Plain,
    at: usize,
    captures: &[Capture],
) -> Option<usize>
    requires place { at ≤ length subject.now }
    requires captured { AreBefore at captures.now }
    ensures value { result ≡ plain_end subject.now item.now at captures.now }
    ensures forward { IfSome result (λ end. at ≤ end) }
    ensures within { IfSome result (λ end. end ≤ length subject.now) }
{
    match item {
        Plain::Single(class) => is_class_at(subject, class, at).then_some(at + 1),
        Plain::Balanced(opening, closing) => balanced_end(subject, *opening, *closing, at),
        Plain::Frontier(set) => is_frontier(subject, set, at).then_some(at),
        Plain::Reference(number) => match captures.get(*number) {
            Some(Capture::Text { start, end }) => same_end(subject, *start, *end, at),
            _ => None,
        },
        Plain::AtEnd => (at == subject.len()).then_some(at),
    }
}

/// Whether the byte at a place is there and in a class.
#[inline(always)]
pub(crate) fn is_class_at(subject: &[u8], class: &Class, at: usize) -> bool
    ensures { result ≡ is_class_at class.now subject.now at }
{
    match subject.get(at) {
        Some(byte) => class.contains(*byte),
        None => false,
    }
}

/// How many bytes of a class stand from a place on.
pub(crate) fn run_at(subject: &[u8], class: &Class, at: usize) -> usize
    requires { at ≤ length subject.now }
    ensures value { result ≡ run_of class.now (drop at subject.now) }
    ensures within { at + result ≤ length subject.now }
{
    let (_, text) = subject.split_at(at);
    run_in(text, class)
}

/// How many bytes of a class a text begins with.
fn run_in(text: &[u8], class: &Class) -> usize
    ensures value { result ≡ run_of class.now text.now }
    ensures within { result ≤ length text.now }
{
    text.iter()
        .take_while(|byte| class.contains(**byte))
        .count()
}

/// The place behind the balanced text that begins at a place.
fn balanced_end(subject: &[u8], opening: u8, closing: u8, at: usize) -> Option<usize>
    requires { at ≤ length subject.now }
    ensures value { result
        ≡ option_map (λ count. at + count) (balanced_len opening closing (drop at subject.now)) }
    ensures forward { IfSome result (λ end. at ≤ end) }
    ensures within { IfSome result (λ end. end ≤ length subject.now) }
{
    if at == subject.len() || subject[at] != opening {
        return None;
    }
    match closing_len(&subject[at + 1..], opening, closing) {
        Some(count) => Some(at + 1 + count),
        None => None,
    }
}

/// How many bytes close what one byte before them has opened.
fn closing_len(text: &[u8], opening: u8, closing: u8) -> Option<usize>
    ensures value { result ≡ closing_len opening closing text.now }
    ensures within { IfSome result (λ count. count ≤ length text.now) }
{
    let mut depth = 1usize;
    for (index, byte) in text.iter().enumerate() {
        if *byte == closing {
            depth -= 1;
            if depth == 0 {
                return Some(index + 1);
            }
        } else if *byte == opening {
            depth += 1;
        }
    }
    None
}

/// Whether a set begins to hold at a place, where zero bytes stand round the subject.
fn is_frontier(subject: &[u8], set: &ByteSet, at: usize) -> bool
    requires { at ≤ length subject.now }
    ensures { result ≡ is_frontier subject.now set.now at }
{
    let before = if at == 0 { 0 } else { subject[at - 1] };
    let after = if at < subject.len() { subject[at] } else { 0 };
    !set.contains(before) && set.contains(after)
}

/// The place behind the bytes at a place that are those of a capture.
fn same_end(subject: &[u8], start: usize, end: usize, at: usize) -> Option<usize>
    requires order { start ≤ end }
    requires before { end ≤ at }
    requires place { at ≤ length subject.now }
    ensures value { result ≡ same_end subject.now at (Text start end) }
    ensures forward { IfSome result (λ place. at ≤ place) }
    ensures within { IfSome result (λ place. place ≤ length subject.now) }
{
    if subject[at..].starts_with(&subject[start..end]) {
        Some(at + (end - start))
    } else {
        None
    }
}
