// How functions read their arguments. A missing one counts as nil.
ghost use Rattle.std.specs.Prelude.{◌≡◌, ◌<◌};
ghost use Rattle.library_rows.specs.Arguments.{argument, integer_argument, integer_or, is_absent, number_of, text_argument, text_or, wrong_type};
ghost use Rattle.library_arguments.specs.Refusals.{IsRead, refusal_text};
ghost use Rattle.library_arguments.specs.Shapes.{bytes_in, shape_of, shapes_of};

use crate::refusal::Refusal;
use crate::shape::Shape;
use crate::text::{Text, text_of};
use int_core::read_integer;

/// The argument of a place, from 1.
pub fn argument<'a>(shapes: &[Shape<'a>], place: usize) -> Shape<'a>
    requires { 0 < place }
    ensures { shape_of result ≡ argument (shapes_of shapes.now) place }
{
    match shapes.get(place - 1) {
        Some(shape) => *shape,
        None => Shape::Nil,
    }
}

/// Whether an argument is nil.
pub fn is_absent(shape: Shape) -> bool
    ensures { result ≡ is_absent (shape_of shape.entry) }
{
    matches!(shape, Shape::Nil)
}

/// The integer that a value is, or that a string spells.
pub fn number_of(shape: Shape) -> Option<i64>
    ensures { result ≡ number_of (shape_of shape.entry) }
{
    match shape {
        Shape::Integer(n) => Some(n),
        Shape::String(bytes) => read_integer(bytes),
        _ => None,
    }
}

/// The integer of an argument.
///
/// # Errors
///
/// It is none, and no string that spells one.
#[inline(always)]
pub fn integer_argument(function: &'static [u8], place: usize, shape: Shape) -> Result<i64, Refusal>
    ensures { IsRead (λ n. n) result (integer_argument function.now place (shape_of shape.entry)) }
{
    match number_of(shape) {
        Some(n) => Ok(n),
        None => Err(wrong_type(function, place, b"number", shape)),
    }
}

/// The text of an argument.
///
/// # Errors
///
/// It is no string and no integer.
pub fn text_argument<'a>(
    function: &'static [u8],
    place: usize,
    shape: Shape<'a>,
) -> Result<Text<'a>, Refusal>
    ensures { IsRead bytes_in result (text_argument function.now place (shape_of shape.entry)) }
{
    match text_of(shape) {
        Some(text) => Ok(text),
        None => Err(wrong_type(function, place, b"string", shape)),
    }
}

/// The integer of an argument, or a usual one in place of nil.
///
/// # Errors
///
/// It is not nil, no integer, and no string that spells one.
#[inline(always)]
pub fn integer_or(
    usual: i64,
    function: &'static [u8],
    place: usize,
    shape: Shape,
) -> Result<i64, Refusal>
    ensures { IsRead (λ n. n) result (integer_or usual function.now place (shape_of shape.entry)) }
{
    if is_absent(shape) {
        return Ok(usual);
    }
    integer_argument(function, place, shape)
}

/// The text of an argument, or a usual one in place of nil.
///
/// # Errors
///
/// It is not nil, no string and no integer.
pub fn text_or<'a>(
    usual: &'a [u8],
    function: &'static [u8],
    place: usize,
    shape: Shape<'a>,
) -> Result<Text<'a>, Refusal>
    ensures { IsRead bytes_in result (text_or usual.now function.now place (shape_of shape.entry)) }
{
    if is_absent(shape) {
        return Ok(Text::Bytes(usual));
    }
    text_argument(function, place, shape)
}

/// The error of an argument of another type.
fn wrong_type(function: &'static [u8], place: usize, wanted: &'static [u8], shape: Shape) -> Refusal
    ensures { refusal_text result ≡ wrong_type place function.now wanted.now (shape_of shape.entry) }
{
    Refusal::WrongType {
        place,
        function,
        wanted,
        got: shape.type_name(),
    }
}
