// How many sequences there are.
ghost use Rattle.library_rows.specs.Codepoints.{counted, utf8_len_row};
ghost use Rattle.library_arguments.specs.Answers.{IsAnswer};
ghost use Rattle.library_arguments.specs.Shapes.{shapes_of};

use crate::places::{bad_argument, place_in};
use library_arguments::{Fault, Plain, Results, Shape, argument, integer_or, text_argument};
use std::alloc::Global;
use utf8_core::count;

/// `utf8.len`: how many sequences begin from one place on and up to another one; or nil and the place of the first byte that begins none.
///
/// # Errors
///
/// The first argument is no text, a place no integer, or it lies outside the text; or memory runs out.
pub fn len(alloc: Global, shapes: &[Shape]) -> Result<Results, Fault>
    ensures { IsAnswer result (utf8_len_row (shapes_of shapes.now)) }
{
    let text = text_argument(b"len", 1, argument(shapes, 1))?;
    let first = integer_or(1, b"len", 2, argument(shapes, 2))?;
    let last = integer_or(-1, b"len", 3, argument(shapes, 3))?;
    let lax = argument(shapes, 4).holds();
    let text = text.as_slice();
    let first = place_in(text.len(), first);
    let last = place_in(text.len(), last);
    let results = counted(alloc, text, first, last, lax)?;
    Ok(results)
}

fn counted(
    alloc: Global,
    text: &[u8],
    first: usize,
    last: usize,
    lax: bool,
) -> Result<Results, Fault>
    ensures { IsAnswer result (counted text.now first last lax) }
{
    if first == 0 {
        return Err(bad_argument(2, b"len", b"initial position out of bounds"));
    }
    if text.len() + 1 < first {
        return Err(bad_argument(2, b"len", b"initial position out of bounds"));
    }
    if text.len() < last {
        return Err(bad_argument(3, b"len", b"final position out of bounds"));
    }
    match count(text, first - 1, last, lax) {
        Ok(n) => Ok(Results::One(Plain::number(n)?)),
        Err(at) => {
            let mut values = Vec::with_capacity(alloc, 2)?;
            values.push(Plain::Nil)?;
            values.push(Plain::place(at)?)?;
            let results = Results::many(values)?;
            Ok(results)
        }
    }
}
