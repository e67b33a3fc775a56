// What searches give where their arguments are of the usual types and there are no captures: no list is made, and no text is copied.
ghost use Rattle.std.specs.Prelude.{◌≤◌, ◌+◌, ◌∷◌, [], Ok, length, IfSome};
ghost use Rattle.library_rows.specs.Searches.{find_row, found_match, found_places, found_text, match_row};
ghost use Rattle.library_arguments.specs.Shapes.{shape_of};
ghost use Rattle.text_match.specs.Told.{IsWithin, told_hit};
ghost use Rattle.lib_string.specs.Quick.{IsQuick};
ghost use Rattle.lib_string.specs.Searches.{found_from, matched_from};

use crate::quick::Quick;
use library_arguments::{Shape, whole_number};
use std::alloc::Global;
use text_functions::start_place;
use text_match::{Hit, find_plain, search};

/// `string.find` of a plain text, or of a pattern without captures. `None` says nothing.
pub fn quick_find<'a>(
    alloc: Global,
    text: Shape<'a>,
    pattern: Shape,
    place: Shape,
    plain: Shape,
) -> Option<Quick<'a>>
    ensures { IsQuick result (find_row (shape_of text.entry ∷ shape_of pattern.entry ∷ shape_of place.entry ∷ shape_of plain.entry ∷ [])) }
{
    let plain = plain.holds();
    match (text, pattern, place) {
        (Shape::String(subject), Shape::String(text), Shape::Nil) => {
            find_from(alloc, subject, text, 1, plain)
        }
        (Shape::String(subject), Shape::String(text), Shape::Integer(at)) => {
            find_from(alloc, subject, text, at, plain)
        }
        _ => None,
    }
}

fn find_from<'a>(
    alloc: Global,
    subject: &'a [u8],
    text: &[u8],
    place: i64,
    plain: bool,
) -> Option<Quick<'a>>
    ensures { IsQuick result (found_from subject.now text.now place plain) }
{
    let start = start_place(subject.len(), place) - 1;
    if subject.len() < start {
        return Some(Quick::Nothing);
    }
    if plain {
        let found = find_plain(subject, text, start);
        return found_text(subject, text, found);
    }
    if captures(text) {
        return None;
    }
    match search(alloc, subject, text, start) {
        Ok(hit) => found_places(subject, hit),
        Err(_) => None,
    }
}

/// Whether a pattern may have captures.
fn captures(pattern: &[u8]) -> bool {
    pattern.contains(&b'(')
}

/// The places of a plain text; nil where it is not found.
fn found_text<'a>(subject: &'a [u8], text: &[u8], found: Option<usize>) -> Option<Quick<'a>>
    requires { IfSome found (λ place. place + length text.now ≤ length subject.now) }
    ensures { IsQuick result (found_text text.now found) }
{
    let Some(place) = found else {
        return Some(Quick::Nothing);
    };
    let _whole = subject.len();
    let Ok(first) = whole_number(place + 1) else {
        return None;
    };
    let Ok(last) = whole_number(place + text.len()) else {
        return None;
    };
    Some(Quick::Places(first, last))
}

/// The places of a match without captures; nil where there is none.
fn found_places(subject: &[u8], hit: Option<Hit>) -> Option<Quick<'_>>
    requires { IfSome hit (IsWithin (length subject.now)) }
    ensures { IsQuick result (found_places subject.now (Ok (told_hit hit))) }
{
    let Some(hit) = hit else {
        return Some(Quick::Nothing);
    };
    let _whole = subject.len();
    let Ok(first) = whole_number(hit.start + 1) else {
        return None;
    };
    let Ok(last) = whole_number(hit.end) else {
        return None;
    };
    if hit.captures.is_empty() {
        return Some(Quick::Places(first, last));
    }
    None
}

/// `string.match` of a pattern without captures. `None` says nothing.
pub fn quick_match<'a>(
    alloc: Global,
    text: Shape<'a>,
    pattern: Shape,
    place: Shape,
) -> Option<Quick<'a>>
    ensures { IsQuick result (match_row (shape_of text.entry ∷ shape_of pattern.entry ∷ shape_of place.entry ∷ [])) }
{
    match (text, pattern, place) {
        (Shape::String(subject), Shape::String(text), Shape::Nil) => {
            matched_from(alloc, subject, text, 1)
        }
        (Shape::String(subject), Shape::String(text), Shape::Integer(at)) => {
            matched_from(alloc, subject, text, at)
        }
        _ => None,
    }
}

fn matched_from<'a>(alloc: Global, subject: &'a [u8], text: &[u8], place: i64) -> Option<Quick<'a>>
    ensures { IsQuick result (matched_from subject.now text.now place) }
{
    let start = start_place(subject.len(), place) - 1;
    if subject.len() < start {
        return Some(Quick::Nothing);
    }
    if captures(text) {
        return None;
    }
    match search(alloc, subject, text, start) {
        Ok(hit) => found_match(subject, hit),
        Err(_) => None,
    }
}

/// The whole of a match without captures; nil where there is none.
fn found_match(subject: &[u8], hit: Option<Hit>) -> Option<Quick<'_>>
    requires { IfSome hit (IsWithin (length subject.now)) }
    ensures { IsQuick result (found_match subject.now (Ok (told_hit hit))) }
{
    let Some(hit) = hit else {
        return Some(Quick::Nothing);
    };
    if hit.captures.is_empty() {
        return Some(Quick::Text(&subject[hit.start..hit.end]));
    }
    None
}
