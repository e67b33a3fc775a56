// The numbers of sequences.
ghost use Rattle.std.specs.Prelude.{drop};
ghost use Rattle.library_rows.specs.Plainly.{results};
ghost use Rattle.library_rows.specs.Codepoints.{codepoints, codes_until, utf8_codepoint_row};
ghost use Rattle.library_arguments.specs.Answers.{IsAnswer};
ghost use Rattle.library_arguments.specs.Shapes.{shapes_of};
ghost use Rattle.lib_utf8.specs.Codes.{IsCodes};

use crate::places::{bad_argument, invalid_code, place_in};
use library_arguments::{
    Fault, Plain, Results, Shape, argument, integer_or, text_argument, whole_number,
};
use std::alloc::Global;
use utf8_core::{behind, decode};

/// `utf8.codepoint`: the numbers of the sequences that begin from one place on and up to another one.
///
/// # Errors
///
/// The first argument is no text, a place no integer, or it lies outside the text; a byte that should begin a sequence begins none; or
/// memory runs out.
pub fn codepoint(alloc: Global, shapes: &[Shape]) -> Result<Results, Fault>
    ensures { IsAnswer result (utf8_codepoint_row (shapes_of shapes.now)) }
{
    let text = text_argument(b"codepoint", 1, argument(shapes, 1))?;
    let first = integer_or(1, b"codepoint", 2, argument(shapes, 2))?;
    let text = text.as_slice();
    let first = place_in(text.len(), first);
    let usual = whole_number(first)?;
    let last = integer_or(usual, b"codepoint", 3, argument(shapes, 3))?;
    let last = place_in(text.len(), last);
    let lax = argument(shapes, 4).holds();
    let results = codepoints(alloc, text, first, last, lax)?;
    Ok(results)
}

fn codepoints(
    alloc: Global,
    text: &[u8],
    first: usize,
    last: usize,
    lax: bool,
) -> Result<Results, Fault>
    ensures { IsAnswer result (codepoints text.now first last lax) }
{
    if first == 0 {
        return Err(bad_argument(2, b"codepoint", b"out of bounds"));
    }
    if text.len() < last {
        return Err(bad_argument(3, b"codepoint", b"out of bounds"));
    }
    let values = codes_between(alloc, text, first - 1, last, lax)?;
    let results = Results::many(values)?;
    Ok(results)
}

/// The numbers of the sequences that begin from one place on and before another one, both from 0.
fn codes_between(
    alloc: Global,
    text: &[u8],
    from: usize,
    end: usize,
    lax: bool,
) -> Result<Vec<Plain>, Fault>
    ensures { IsCodes result (codes_until lax 0 from end (drop from text.now) (λ ps. results ps)) }
{
    let mut values = Vec::new(alloc);
    let mut at = from;
    while at < end {
        if text.len() <= at {
            return Ok(values);
        }
        let Some(decoded) = decode(behind(text, at), lax) else {
            return Err(invalid_code());
        };
        let code = Plain::number(decoded.code as usize)?;
        values.push(code)?;
        at += 1 + decoded.more;
    }
    Ok(values)
}
