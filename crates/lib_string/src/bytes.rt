// Functions of the bytes of a text.
ghost use Rattle.std.specs.Prelude.{◌≡◌, map, IfOk};
ghost use Rattle.library_rows.specs.Plainly.{results};
ghost use Rattle.library_rows.specs.Strings.{byte_in, byte_row, char_row, codes_of, len_row, sub_row};
ghost use Rattle.library_arguments.specs.Answers.{IsAnswer};
ghost use Rattle.library_arguments.specs.Refusals.{IsRead};
ghost use Rattle.library_arguments.specs.Shapes.{known_of, shape_of, shapes_of};
ghost use Rattle.lib_string.specs.Bytes.{byte_argument, change_name, change_row, changed};

use library_arguments::{
    Fault, Plain, Refusal, Results, Shape, argument, integer_argument, integer_or, text_argument,
};
use std::alloc::{AllocError, Global};
use text_functions::{byte_of, lowered, part, reversed, uppered};

/// `string.byte`: the bytes from one place up to another one, as integers.
///
/// # Errors
///
/// The first argument is no text, or one behind it no integer; or memory runs out.
pub fn byte(alloc: Global, shapes: &[Shape]) -> Result<Results, Fault>
    ensures { IsAnswer result (byte_row (shapes_of shapes.now)) }
{
    let text = text_argument(b"byte", 1, argument(shapes, 1))?;
    let first = integer_or(1, b"byte", 2, argument(shapes, 2))?;
    let last = integer_or(first, b"byte", 3, argument(shapes, 3))?;
    let results = codes(alloc, part(text.as_slice(), first, last))?;
    Ok(results)
}

/// Bytes as integers.
fn codes(alloc: Global, bytes: &[u8]) -> Result<Results, Fault>
    ensures { IsAnswer result (results (codes_of bytes.now)) }
{
    if let [byte] = bytes {
        return Ok(Results::One(Plain::Integer(i64::from(*byte))));
    }
    let values = codes_of(alloc, bytes)?;
    let results = Results::many(values)?;
    Ok(results)
}

fn codes_of(alloc: Global, bytes: &[u8]) -> Result<Vec<Plain>, AllocError>
    ensures { IfOk result (λ values. map known_of values.items ≡ codes_of bytes.now) }
{
    let mut values = Vec::with_capacity(alloc, bytes.len())?;
    for byte in bytes {
        values.push(Plain::Integer(i64::from(*byte)))?;
    }
    Ok(values)
}

/// `string.char`: the text of some bytes.
///
/// # Errors
///
/// An argument is no integer, or none from 0 to 255; or memory runs out.
pub fn char(alloc: Global, shapes: &[Shape]) -> Result<Results, Fault>
    ensures { IsAnswer result (char_row (shapes_of shapes.now)) }
{
    let mut bytes = Vec::with_capacity(alloc, shapes.len())?;
    let mut place = 0;
    for shape in shapes {
        place += 1;
        let byte = byte_argument(place, *shape)?;
        bytes.push(byte)?;
    }
    let results = Results::string(bytes)?;
    Ok(results)
}

/// The byte that an argument is.
fn byte_argument(place: usize, shape: Shape) -> Result<u8, Refusal>
    ensures { IsRead (λ byte. byte) result (byte_argument place (shape_of shape.entry)) }
{
    let n = integer_argument(b"char", place, shape)?;
    let byte = byte_in(place, n)?;
    Ok(byte)
}

/// The byte that an integer is.
fn byte_in(place: usize, n: i64) -> Result<u8, Refusal>
    ensures { IsRead (λ byte. byte) result (byte_in place n) }
{
    match byte_of(n) {
        Some(byte) => Ok(byte),
        None => Err(Refusal::BadArgument {
            place,
            function: b"char",
            what: b"value out of range",
        }),
    }
}

/// `string.len`: how many bytes a text has.
///
/// # Errors
///
/// The argument is no text.
pub fn len(shapes: &[Shape]) -> Result<Results, Fault>
    ensures { IsAnswer result (len_row (shapes_of shapes.now)) }
{
    let text = text_argument(b"len", 1, argument(shapes, 1))?;
    let len = text.as_slice().len();
    Ok(Results::One(Plain::Integer(len as i64)))
}

/// How the bytes of a text are changed.
#[derive(Debug, Clone, Copy, PartialEq, Eq)]
pub enum Change {
    /// Small letters in place of capitals.
    Lower,
    /// The bytes from the last to the first.
    Reverse,
    /// Capitals in place of small letters.
    Upper,
}

impl Change {
    /// The name of its function, for errors.
    #[inline(always)]
    fn name(self) -> &'static [u8]
        ensures { result.now ≡ change_name self }
    {
        match self {
            Change::Lower => b"lower",
            Change::Reverse => b"reverse",
            Change::Upper => b"upper",
        }
    }
}

/// `string.lower`, `string.reverse` and `string.upper`: a text whose bytes are changed.
///
/// # Errors
///
/// The argument is no text; or memory runs out.
#[inline(always)]
pub fn changed(alloc: Global, change: Change, shapes: &[Shape]) -> Result<Results, Fault>
    ensures { IsAnswer result (change_row change (shapes_of shapes.now)) }
{
    let text = text_argument(change.name(), 1, argument(shapes, 1))?;
    let bytes = changed_bytes(alloc, change, text.as_slice())?;
    let results = Results::string(bytes)?;
    Ok(results)
}

#[inline(always)]
fn changed_bytes(alloc: Global, change: Change, text: &[u8]) -> Result<Vec<u8>, AllocError>
    ensures { IfOk result (λ bytes. bytes.items ≡ changed change text.now) }
{
    match change {
        Change::Lower => lowered(alloc, text),
        Change::Reverse => reversed(alloc, text),
        Change::Upper => uppered(alloc, text),
    }
}

/// `string.sub`: the bytes from one place up to another one.
///
/// # Errors
///
/// The first argument is no text, or one behind it no integer; or memory runs out.
pub fn sub(alloc: Global, shapes: &[Shape]) -> Result<Results, Fault>
    ensures { IsAnswer result (sub_row (shapes_of shapes.now)) }
{
    let text = text_argument(b"sub", 1, argument(shapes, 1))?;
    let first = integer_argument(b"sub", 2, argument(shapes, 2))?;
    let last = integer_or(-1, b"sub", 3, argument(shapes, 3))?;
    let bytes = part(text.as_slice(), first, last).to_vec(alloc)?;
    let results = Results::string(bytes)?;
    Ok(results)
}
