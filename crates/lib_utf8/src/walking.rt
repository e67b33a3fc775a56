// One sequence after another.
ghost use Rattle.std.specs.Prelude.{◌≡◌, ◌≤◌, length};
ghost use Rattle.library_rows.specs.Codepoints.{utf8_codes_row, walked, walked_from, walks};
ghost use Rattle.library_rows.specs.Library.{walk_lax_number, walk_number};
ghost use Rattle.library_arguments.specs.Answers.{IsAnswer};
ghost use Rattle.library_arguments.specs.Shapes.{shapes_of};

use crate::places::invalid_code;
use library_arguments::{Fault, Plain, Results, Shape, argument, integer_argument, text_argument};
use std::alloc::Global;
use utf8_core::{Step, behind, continued, walk};

/// The number of the function that walks, among the functions of the libraries.
pub const WALK: u16 = 58;
/// The number of the function that walks where numbers up to 2^31 are taken.
pub const WALK_LAX: u16 = 59;

/// `utf8.codes`: the function that walks, the text, and the place before its first byte.
///
/// # Errors
///
/// The first argument is no text; or memory runs out.
pub fn codes(alloc: Global, shapes: &[Shape]) -> Result<Results, Fault>
    ensures { IsAnswer result (utf8_codes_row walk_number walk_lax_number (shapes_of shapes.now)) }
{
    let text = text_argument(b"codes", 1, argument(shapes, 1))?;
    let lax = argument(shapes, 2).holds();
    let walk = if lax { WALK_LAX } else { WALK };
    let mut values = Vec::with_capacity(alloc, 3)?;
    values.push(Plain::Primitive(walk))?;
    values.push(Plain::String(text.as_slice().to_vec(alloc)?))?;
    values.push(Plain::Integer(0))?;
    let results = Results::many(values)?;
    Ok(results)
}

/// The place and the number of the sequence behind the one at a place; nothing at the end. These are the two functions that `utf8.codes`
/// gives; `lax` says which.
///
/// # Errors
///
/// The first argument is no text, or the second one no integer; a byte that should begin a sequence begins none; or memory runs out.
pub fn walk_on(alloc: Global, lax: bool, shapes: &[Shape]) -> Result<Results, Fault>
    ensures { IsAnswer result (walks lax (shapes_of shapes.now)) }
{
    let text = text_argument(b"codes", 1, argument(shapes, 1))?;
    let place = integer_argument(b"codes", 2, argument(shapes, 2))?;
    let results = walked_from(alloc, text.as_slice(), place, lax)?;
    Ok(results)
}

fn walked_from(alloc: Global, text: &[u8], place: i64, lax: bool) -> Result<Results, Fault>
    ensures { IsAnswer result (walked_from lax text.now place) }
{
    if place < 0 {
        return Ok(Results::Many(Vec::new(alloc)));
    }
    if place == 0 {
        let results = walked(alloc, text, 0, lax)?;
        return Ok(results);
    }
    let place = place as usize;
    if text.len() <= place {
        return Ok(Results::Many(Vec::new(alloc)));
    }
    let at = place + continued(behind(text, place));
    let results = walked(alloc, text, at, lax)?;
    Ok(results)
}

fn walked(alloc: Global, text: &[u8], at: usize, lax: bool) -> Result<Results, Fault>
    requires { at ≤ length text.now }
    ensures { IsAnswer result (walked lax text.now at) }
{
    match walk(text, at, lax) {
        Step::End => Ok(Results::Many(Vec::new(alloc))),
        Step::Invalid => Err(invalid_code()),
        Step::Code(code) => {
            let mut values = Vec::with_capacity(alloc, 2)?;
            values.push(Plain::place(at)?)?;
            values.push(Plain::number(code as usize)?)?;
            let results = Results::many(values)?;
            Ok(results)
        }
    }
}
