// Places of sequences counted from a place.
ghost use Rattle.std.specs.Prelude.{◌≡◌, ◌≤◌, IfOk, length};
ghost use Rattle.library_rows.specs.Codepoints.{moved, place_or_nil, usual_place, utf8_offset_row};
ghost use Rattle.library_arguments.specs.Answers.{IsAnswer};
ghost use Rattle.library_arguments.specs.Shapes.{shapes_of};
ghost use Rattle.lib_utf8.specs.Codes.{offset_from};

use crate::places::{bad_argument, place_in};
use library_arguments::{
    Fault, Plain, Refusal, Results, Shape, argument, integer_argument, integer_or, text_argument,
    whole_number,
};
use std::alloc::AllocError;
use utf8_core::{back, continues_at, forward, sequence_start};

/// `utf8.offset`: the place so many sequences on or back, or of the sequence's first byte; or nil.
///
/// # Errors
///
/// The first argument is no text, another one no integer, or the place lies outside the text or in the middle of a sequence; or memory
/// runs out.
pub fn offset(shapes: &[Shape]) -> Result<Results, Fault>
    ensures { IsAnswer result (utf8_offset_row (shapes_of shapes.now)) }
{
    let text = text_argument(b"offset", 1, argument(shapes, 1))?;
    let many = integer_argument(b"offset", 2, argument(shapes, 2))?;
    let text = text.as_slice();
    let usual = usual_place(text, many)?;
    let place = integer_or(usual, b"offset", 3, argument(shapes, 3))?;
    let results = offset_from(text, many, place_in(text.len(), place))?;
    Ok(results)
}

/// The place so many sequences from a place on, which counts from 1.
fn offset_from(text: &[u8], many: i64, place: usize) -> Result<Results, Fault>
    ensures { IsAnswer result (offset_from text.now many place) }
{
    if place == 0 {
        return Err(bad_argument(3, b"offset", b"position out of bounds"));
    }
    if text.len() + 1 < place {
        return Err(bad_argument(3, b"offset", b"position out of bounds"));
    }
    let results = moved(text, many, place - 1)?;
    Ok(results)
}

/// The place that is meant without one: the first byte, or past the end where sequences are counted back.
fn usual_place(text: &[u8], many: i64) -> Result<i64, AllocError>
    ensures { IfOk result (λ place. place ≡ usual_place text.now many) }
{
    if many >= 0 {
        Ok(1)
    } else {
        whole_number(text.len() + 1)
    }
}

fn moved(text: &[u8], many: i64, at: usize) -> Result<Results, Fault>
    requires { at ≤ length text.now }
    ensures { IsAnswer result (moved text.now many at) }
{
    if many == 0 {
        return Ok(Results::One(Plain::place(sequence_start(text, at))?));
    }
    if continues_at(text, at) {
        return Err(Fault::Refused(Refusal::Text(b"initial position is a continuation byte")));
    }
    if many > 0 {
        let results = place_or_nil(forward(text, many as u64 - 1, at))?;
        return Ok(results);
    }
    let results = place_or_nil(back(text, many.unsigned_abs(), at))?;
    Ok(results)
}

fn place_or_nil(at: Option<usize>) -> Result<Results, Fault>
    ensures { IsAnswer result (place_or_nil at) }
{
    match at {
        Some(at) => Ok(Results::One(Plain::place(at)?)),
        None => Ok(Results::One(Plain::Nil)),
    }
}
