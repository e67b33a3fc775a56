// The functions of `string` and `utf8`, and `tonumber`, which see texts and integers alone (Lua 5.4 manual, 6.1, 6.4 and 6.5).
ghost use Rattle.library_arguments.specs.Answers.{IsAnswer};
ghost use Rattle.library_arguments.specs.Shapes.{shapes_of};
ghost use Rattle.pure_functions.specs.Functions.{text_row};

use lib_string::Change;
use library_arguments::{Fault, Results, Shape};
use std::alloc::Global;

/// The functions that see texts and integers alone. `From`, `Kinds`, `Layout`, `ToInteger` and the walks serve the libraries' own text.
#[derive(Debug, Clone, Copy, PartialEq, Eq)]
pub enum Function {
    Byte,
    Char,
    Find,
    From,
    Kinds,
    Layout,
    Len,
    Lower,
    Match,
    Rep,
    Reverse,
    Sub,
    ToInteger,
    ToNumber,
    Upper,
    Utf8Char,
    Utf8Codepoint,
    Utf8Codes,
    Utf8Len,
    Utf8Offset,
    Walk,
    WalkLax,
}

/// What such a function gives.
///
/// # Errors
///
/// As its own function says; or memory runs out.
pub fn results(alloc: Global, function: Function, shapes: &[Shape]) -> Result<Results, Fault>
    ensures { IsAnswer result (text_row function (shapes_of shapes.now)) }
{
    match function {
        Function::Byte => lib_string::byte(alloc, shapes),
        Function::Char => lib_string::char(alloc, shapes),
        Function::Find => lib_string::find(alloc, shapes),
        Function::From => lib_string::from(shapes),
        Function::Kinds => lib_string::kinds(alloc, shapes),
        Function::Layout => lib_string::layout(alloc, shapes),
        Function::Len => lib_string::len(shapes),
        Function::Lower => lib_string::changed(alloc, Change::Lower, shapes),
        Function::Match => lib_string::match_pattern(alloc, shapes),
        Function::Rep => lib_string::rep(alloc, shapes),
        Function::Reverse => lib_string::changed(alloc, Change::Reverse, shapes),
        Function::Sub => lib_string::sub(alloc, shapes),
        Function::ToInteger => Ok(lib_string::toint(shapes)),
        Function::ToNumber => lib_string::tonumber(shapes),
        Function::Upper => lib_string::changed(alloc, Change::Upper, shapes),
        Function::Utf8Char => lib_utf8::char(alloc, shapes),
        Function::Utf8Codepoint => lib_utf8::codepoint(alloc, shapes),
        Function::Utf8Codes => lib_utf8::codes(alloc, shapes),
        Function::Utf8Len => lib_utf8::len(alloc, shapes),
        Function::Utf8Offset => lib_utf8::offset(shapes),
        Function::Walk => lib_utf8::walk_on(alloc, false, shapes),
        Function::WalkLax => lib_utf8::walk_on(alloc, true, shapes),
    }
}
