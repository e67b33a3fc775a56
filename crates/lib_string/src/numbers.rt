// Integers from strings.
ghost use Rattle.std.specs.Prelude.{◌≡◌, ◌≤◌, IfOk};
ghost use Rattle.library_rows.specs.Plainly.{results};
ghost use Rattle.library_rows.specs.Strings.{base_in, from_row, integer_or_nil, toint_row, tonumber_row};
ghost use Rattle.library_arguments.specs.Answers.{IsAnswer, results_of};
ghost use Rattle.library_arguments.specs.Refusals.{IsRead};
ghost use Rattle.library_arguments.specs.Shapes.{shapes_of};

use integer_functions::read_in_base;
use library_arguments::{
    Fault, Plain, Refusal, Results, Shape, argument, integer_argument, integer_or, is_absent,
    number_of,
};
use text_functions::start_place;

/// `tonumber`: the integer that a value is or that a string spells, in decimal or in a base; else nil.
///
/// # Errors
///
/// The base is no integer from 2 to 36.
pub fn tonumber(shapes: &[Shape]) -> Result<Results, Fault>
    ensures { IsAnswer result (tonumber_row (shapes_of shapes.now)) }
{
    let value = argument(shapes, 1);
    let base = argument(shapes, 2);
    if is_absent(base) {
        return Ok(integer_or_nil(number_of(value)));
    }
    let n = integer_argument(b"tonumber", 2, base)?;
    let base = base_in(n)?;
    match value {
        Shape::String(text) => Ok(integer_or_nil(read_in_base(text, base))),
        _ => Ok(Results::One(Plain::Nil)),
    }
}

/// The base that an integer is.
fn base_in(n: i64) -> Result<u32, Refusal>
    ensures read { IsRead (λ base. base) result (base_in n) }
    ensures least { IfOk result (λ base. 2 ≤ base) }
    ensures most { IfOk result (λ base. base ≤ 36) }
{
    if 2 <= n && n <= 36 {
        Ok(n as u32)
    } else {
        Err(Refusal::BadArgument {
            place: 2,
            function: b"tonumber",
            what: b"base out of range",
        })
    }
}

fn integer_or_nil(n: Option<i64>) -> Results
    ensures { integer_or_nil n ≡ results (results_of result) }
{
    match n {
        Some(n) => Results::One(Plain::Integer(n)),
        None => Results::One(Plain::Nil),
    }
}

/// The integer that a value is or that a string spells; else nil. It is private to the libraries' Lua text.
pub fn toint(shapes: &[Shape]) -> Results
    ensures { toint_row (shapes_of shapes.now) ≡ results (results_of result) }
{
    integer_or_nil(number_of(argument(shapes, 1)))
}

/// The place from which a text of so many bytes is searched, by an integer that counts from its end where it is negative. It is private
/// to the libraries' Lua text.
///
/// # Errors
///
/// The first argument is neither nil nor an integer, or the second one no integer.
pub fn from(shapes: &[Shape]) -> Result<Results, Fault>
    ensures { IsAnswer result (from_row (shapes_of shapes.now)) }
{
    let place = integer_or(1, b"from", 1, argument(shapes, 1))?;
    let size = integer_argument(b"from", 2, argument(shapes, 2))?;
    let size = if size < 0 { 0 } else { size as usize };
    let start = start_place(size, place);
    Ok(Results::One(Plain::Integer(start as i64)))
}
