// The functions of `math` on integers (Lua 5.4 manual, 6.7). They look at no table.
ghost use Rattle.std.specs.Prelude.{◌≡◌};
ghost use Rattle.library_rows.specs.Integers.{best_of, math_abs_row, math_fmod_row, math_max_row, math_min_row, math_tointeger_row, math_type_row, math_ult_row};
ghost use Rattle.integer_functions.specs.Told.{better_of};
ghost use Rattle.library_arguments.specs.Answers.{IsAnswer};
ghost use Rattle.library_arguments.specs.Shapes.{shapes_of};
ghost use Rattle.pure_functions.specs.Functions.{math_row};
ghost use Rattle.pure_functions.specs.Math.{IsBest, better_than};

use crate::shapes::bad_argument;
use integer_functions::{absolute, greater, is_below, lesser, remainder};
use library_arguments::{Fault, Plain, Refusal, Results, Shape, argument, integer_argument};
use std::alloc::Global;

/// `math.abs`: the integer without its sign; the least integer stays.
///
/// # Errors
///
/// The argument is no integer.
pub fn abs(shapes: &[Shape]) -> Result<Results, Fault>
    ensures { IsAnswer result (math_abs_row (shapes_of shapes.now)) }
{
    let n = integer_argument(b"abs", 1, argument(shapes, 1))?;
    Ok(Results::One(Plain::Integer(absolute(n))))
}

/// `math.fmod`: what is left of a division that rounds towards 0.
///
/// # Errors
///
/// An argument is no integer, or the second one is 0.
pub fn fmod(shapes: &[Shape]) -> Result<Results, Fault>
    ensures { IsAnswer result (math_fmod_row (shapes_of shapes.now)) }
{
    let a = integer_argument(b"fmod", 1, argument(shapes, 1))?;
    let b = integer_argument(b"fmod", 2, argument(shapes, 2))?;
    match remainder(a, b) {
        Some(rest) => Ok(Results::One(Plain::Integer(rest))),
        None => Err(Fault::Refused(bad_argument(2, b"fmod", b"zero"))),
    }
}

/// `math.tointeger`: an integer as it is, and nil for another value.
pub fn tointeger(shapes: &[Shape]) -> Result<Results, Fault>
    ensures { IsAnswer result (math_tointeger_row (shapes_of shapes.now)) }
{
    match argument(shapes, 1) {
        Shape::Integer(n) => Ok(Results::One(Plain::Integer(n))),
        _ => Ok(Results::One(Plain::Nil)),
    }
}

/// `math.type`: `integer` for an integer, and nil for another value.
pub fn type_of(alloc: Global, shapes: &[Shape]) -> Result<Results, Fault>
    ensures { IsAnswer result (math_type_row (shapes_of shapes.now)) }
{
    match argument(shapes, 1) {
        Shape::Integer(_) => {
            let word = b"integer".to_vec(alloc)?;
            Ok(Results::One(Plain::String(word)))
        }
        _ => Ok(Results::One(Plain::Nil)),
    }
}

/// `math.ult`: whether the first is below the second, both read as numbers from 0 to 2^64 - 1.
///
/// # Errors
///
/// An argument is no integer.
pub fn ult(shapes: &[Shape]) -> Result<Results, Fault>
    ensures { IsAnswer result (math_ult_row (shapes_of shapes.now)) }
{
    let m = integer_argument(b"ult", 1, argument(shapes, 1))?;
    let n = integer_argument(b"ult", 2, argument(shapes, 2))?;
    Ok(Results::One(Plain::Boolean(is_below(m, n))))
}

/// Which of some integers is wanted.
#[derive(Debug, Clone, Copy, PartialEq, Eq)]
enum Wanted {
    Greatest,
    Least,
}

/// `math.max`: the greatest of some integers.
///
/// # Errors
///
/// An argument is no integer, or there is none.
pub fn max(shapes: &[Shape]) -> Result<Results, Fault>
    ensures { IsAnswer result (math_max_row (shapes_of shapes.now)) }
{
    let greatest = best(Wanted::Greatest, b"max", shapes)?;
    Ok(Results::One(Plain::Integer(greatest)))
}

/// `math.min`: the least of some integers.
///
/// # Errors
///
/// An argument is no integer, or there is none.
pub fn min(shapes: &[Shape]) -> Result<Results, Fault>
    ensures { IsAnswer result (math_min_row (shapes_of shapes.now)) }
{
    let least = best(Wanted::Least, b"min", shapes)?;
    Ok(Results::One(Plain::Integer(least)))
}

/// The one that is wanted of all arguments.
fn best(wanted: Wanted, function: &'static [u8], shapes: &[Shape]) -> Result<i64, Refusal>
    ensures { IsBest (best_of (better_than wanted) function.now (shapes_of shapes.now)) result }
{
    let mut best = integer_argument(function, 1, argument(shapes, 1))?;
    for at in 1..shapes.len() {
        let next = integer_argument(function, at + 1, argument(shapes, at + 1))?;
        best = better(wanted, best, next);
    }
    Ok(best)
}

/// The next one where it is better than the best so far, else this.
fn better(wanted: Wanted, best: i64, next: i64) -> i64
    ensures { result ≡ better_of (better_than wanted) best next }
{
    match wanted {
        Wanted::Greatest => greater(best, next),
        Wanted::Least => lesser(best, next),
    }
}

/// The functions of `math`.
#[derive(Debug, Clone, Copy, PartialEq, Eq)]
pub enum Function {
    Abs,
    Fmod,
    Max,
    Min,
    ToInteger,
    TypeOf,
    Ult,
}

/// What a function of `math` gives.
///
/// # Errors
///
/// As its own function says; or memory runs out.
pub fn results(alloc: Global, function: Function, shapes: &[Shape]) -> Result<Results, Fault>
    ensures { IsAnswer result (math_row function (shapes_of shapes.now)) }
{
    match function {
        Function::Abs => abs(shapes),
        Function::Fmod => fmod(shapes),
        Function::Max => max(shapes),
        Function::Min => min(shapes),
        Function::ToInteger => tointeger(shapes),
        Function::TypeOf => type_of(alloc, shapes),
        Function::Ult => ult(shapes),
    }
}
