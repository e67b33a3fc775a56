// The text of numbers.
ghost use Rattle.std.specs.Prelude.{◌≡◌, ◌<◌, ℕ, length, get_or, IfOk};
ghost use Rattle.std.specs.List.{flat_map};
ghost use Rattle.int_core.specs.Value.{string};
ghost use Rattle.library_rows.specs.Arguments.{one};
ghost use Rattle.library_rows.specs.Codepoints.{code_in, encode, utf8_char_row};
ghost use Rattle.library_arguments.specs.Answers.{IsAnswer};
ghost use Rattle.library_arguments.specs.Refusals.{IsRead};
ghost use Rattle.library_arguments.specs.Shapes.{shape_of, shapes_of};
ghost use Rattle.lib_utf8.specs.Codes.{AreCodes, code_argument};

use library_arguments::{Fault, Refusal, Results, Shape, integer_argument};
use std::alloc::Global;
use text_functions::{Builder, StringFault};
use utf8_core::push_code;

/// `utf8.char`: the sequences of some numbers.
///
/// # Errors
///
/// An argument is no integer, or none from 0 to 2^31 - 1; the text would have more than 16,777,216 bytes; or memory runs out.
pub fn char(alloc: Global, shapes: &[Shape]) -> Result<Results, Fault>
    ensures { IsAnswer result (utf8_char_row (shapes_of shapes.now)) }
{
    let codes = code_arguments(alloc, shapes)?;
    let results = encoded(alloc, &codes)?;
    Ok(results)
}

/// The numbers that all arguments are.
fn code_arguments(alloc: Global, shapes: &[Shape]) -> Result<Vec<u32>, Fault>
    ensures read { AreCodes result (utf8_char_row (shapes_of shapes.now)) }
    ensures small { IfOk result (λ codes. (k : ℕ) → k < length codes.items → get_or codes.items k 0 < 2147483648) }
{
    let mut codes = Vec::with_capacity(alloc, shapes.len())?;
    let mut place = 0;
    for shape in shapes {
        place += 1;
        let code = code_argument(place, *shape)?;
        codes.push(code)?;
    }
    Ok(codes)
}

/// The number that an argument is.
fn code_argument(place: usize, shape: Shape) -> Result<u32, Refusal>
    ensures read { IsRead (λ code. code) result (code_argument place (shape_of shape.entry)) }
    ensures small { IfOk result (λ code. code < 2147483648) }
{
    let n = integer_argument(b"char", place, shape)?;
    let code = code_in(place, n)?;
    Ok(code)
}

/// The number that an integer is.
fn code_in(place: usize, n: i64) -> Result<u32, Refusal>
    ensures read { IsRead (λ code. code) result (code_in place n) }
    ensures small { IfOk result (λ code. code < 2147483648) }
{
    if 0 <= n && n < 2_147_483_648 {
        Ok(n as u32)
    } else {
        Err(Refusal::BadArgument {
            place,
            function: b"char",
            what: b"value out of range",
        })
    }
}

/// The sequences of some numbers.
fn encoded(alloc: Global, codes: &[u32]) -> Result<Results, Fault>
    requires { (k : ℕ) → k < length codes.now → get_or codes.now k 0 < 2147483648 }
    ensures { IsAnswer result (one (string (flat_map encode codes.now))) }
{
    let mut text = Builder::new(alloc);
    for code in codes {
        match push_code(&mut text, *code) {
            Ok(()) => {}
            Err(StringFault::TooLarge) => {
                return Err(Fault::Refused(Refusal::Text(b"resulting string too large")));
            }
            Err(StringFault::Memory) => return Err(Fault::Memory),
        }
    }
    let results = Results::string(text.finish())?;
    Ok(results)
}
