// Searches for patterns and plain texts.
ghost use Rattle.std.specs.Prelude.{◌≡◌, ◌≤◌, ◌+◌, ◌++◌, length, map, Ok, OnOk, IfOk, IfSome};
ghost use Rattle.lua_pattern.specs.Firsts.{IsBefore};
ghost use Rattle.library_rows.specs.Searches.{capture_value, captured, find_row, found_match, found_places, found_text, match_row};
ghost use Rattle.text_match.specs.Told.{IsWithin, told_hit};
ghost use Rattle.library_arguments.specs.Answers.{IsAnswer};
ghost use Rattle.library_arguments.specs.Shapes.{known_of, shapes_of};
ghost use Rattle.lib_string.specs.Searches.{found_from, hit_of, matched_from};

use crate::faults::pattern_fault;
use library_arguments::{Fault, Plain, Results, Shape, argument, integer_or, text_argument};
use lua_pattern::Capture;
use std::alloc::{AllocError, Global};
use text_functions::start_place;
use text_match::{Hit, find_plain, search};

/// `string.find`: the places of the first match from a place on, and its captures; or nil.
///
/// # Errors
///
/// The text or the pattern is none, the place no integer, or the pattern is refused; or memory runs out.
pub fn find(alloc: Global, shapes: &[Shape]) -> Result<Results, Fault>
    ensures { IsAnswer result (find_row (shapes_of shapes.now)) }
{
    let text = text_argument(b"find", 1, argument(shapes, 1))?;
    let pattern = text_argument(b"find", 2, argument(shapes, 2))?;
    let place = integer_or(1, b"find", 3, argument(shapes, 3))?;
    let plain = argument(shapes, 4).holds();
    let results = found_from(alloc, text.as_slice(), pattern.as_slice(), place, plain)?;
    Ok(results)
}

/// `string.match`: the captures of the first match from a place on, or the whole match where the pattern has none; or nil.
///
/// # Errors
///
/// The text or the pattern is none, the place no integer, or the pattern is refused; or memory runs out.
pub fn match_pattern(alloc: Global, shapes: &[Shape]) -> Result<Results, Fault>
    ensures { IsAnswer result (match_row (shapes_of shapes.now)) }
{
    let text = text_argument(b"match", 1, argument(shapes, 1))?;
    let pattern = text_argument(b"match", 2, argument(shapes, 2))?;
    let place = integer_or(1, b"match", 3, argument(shapes, 3))?;
    let results = matched_from(alloc, text.as_slice(), pattern.as_slice(), place)?;
    Ok(results)
}

fn found_from(
    alloc: Global,
    subject: &[u8],
    pattern: &[u8],
    place: i64,
    plain: bool,
) -> Result<Results, Fault>
    ensures { IsAnswer result (found_from subject.now pattern.now place plain) }
{
    let start = start_place(subject.len(), place) - 1;
    if subject.len() < start {
        return Ok(Results::One(Plain::Nil));
    }
    if plain {
        let found = find_plain(subject, pattern, start);
        let results = found_text(alloc, subject, pattern, found)?;
        return Ok(results);
    }
    match search(alloc, subject, pattern, start) {
        Ok(hit) => {
            let results = found_places(alloc, subject, hit)?;
            Ok(results)
        }
        Err(fault) => Err(pattern_fault(fault)),
    }
}

fn matched_from(alloc: Global, subject: &[u8], pattern: &[u8], place: i64) -> Result<Results, Fault>
    ensures { IsAnswer result (matched_from subject.now pattern.now place) }
{
    let start = start_place(subject.len(), place) - 1;
    if subject.len() < start {
        return Ok(Results::One(Plain::Nil));
    }
    match search(alloc, subject, pattern, start) {
        Ok(hit) => {
            let results = found_match(alloc, subject, hit)?;
            Ok(results)
        }
        Err(fault) => Err(pattern_fault(fault)),
    }
}

/// The places of a plain text; nil where it is not found.
fn found_text(
    alloc: Global,
    subject: &[u8],
    text: &[u8],
    found: Option<usize>,
) -> Result<Results, Fault>
    requires { IfSome found (λ place. place + length text.now ≤ length subject.now) }
    ensures { IsAnswer result (found_text text.now found) }
{
    let Some(place) = found else {
        return Ok(Results::One(Plain::Nil));
    };
    let _whole = subject.len();
    let mut values = Vec::with_capacity(alloc, 2)?;
    values.push(Plain::place(place)?)?;
    values.push(Plain::number(place + text.len())?)?;
    let results = Results::many(values)?;
    Ok(results)
}

/// The places of a match and its captures; nil where there is none.
fn found_places(alloc: Global, subject: &[u8], hit: Option<Hit>) -> Result<Results, Fault>
    requires { IfSome hit (IsWithin (length subject.now)) }
    ensures { IsAnswer result (found_places subject.now (Ok (told_hit hit))) }
{
    let Some(hit) = hit else {
        return Ok(Results::One(Plain::Nil));
    };
    let mut values = Vec::new(alloc);
    values.push(Plain::place(hit.start)?)?;
    values.push(Plain::number(hit.end)?)?;
    append_captures(alloc, &mut values, subject, &hit)?;
    let results = Results::many(values)?;
    Ok(results)
}

/// The captures of a match, or the whole of it where there are none; nil where there is no match.
fn found_match(alloc: Global, subject: &[u8], hit: Option<Hit>) -> Result<Results, Fault>
    requires { IfSome hit (IsWithin (length subject.now)) }
    ensures { IsAnswer result (found_match subject.now (Ok (told_hit hit))) }
{
    let Some(hit) = hit else {
        return Ok(Results::One(Plain::Nil));
    };
    if hit.captures.is_empty() {
        let whole = subject[hit.start..hit.end].to_vec(alloc)?;
        let results = Results::string(whole)?;
        return Ok(results);
    }
    let mut values = Vec::with_capacity(alloc, hit.captures.len())?;
    append_captures(alloc, &mut values, subject, &hit)?;
    let results = Results::many(values)?;
    Ok(results)
}

/// Puts the captures of a match at the end.
pub(crate) fn append_captures(
    alloc: Global,
    values: &mut Vec<Plain>,
    subject: &[u8],
    hit: &Hit,
) -> Result<(), AllocError>
    requires { IsWithin (length subject.now) hit.now }
    ensures { OnOk result (map known_of values.new.items ≡ map known_of values.old.items ++ captured subject.now (hit_of hit.now)) }
{
    for capture in &hit.captures {
        let value = capture_value(alloc, subject, *capture)?;
        values.push(value)?;
    }
    Ok(())
}

/// The value of a capture.
fn capture_value(alloc: Global, subject: &[u8], capture: Capture) -> Result<Plain, AllocError>
    requires { IsBefore (length subject.now) capture }
    ensures { IfOk result (λ value. known_of value ≡ capture_value subject.now capture) }
{
    let _whole = subject.len();
    match capture {
        Capture::Text { start, end } => Ok(Plain::String(subject[start..end].to_vec(alloc)?)),
        Capture::Position(at) => Ok(Plain::place(at)?),
    }
}
