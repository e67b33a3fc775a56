// What the functions see of values, and the errors of wrong arguments.
ghost use Rattle.std.specs.Prelude.{◌≡◌, map};
ghost use Rattle.int_core.specs.Value.{shape, nth};
ghost use Rattle.library_rows.specs.Arguments.{bad_argument, wrong_type};
ghost use Rattle.library_arguments.specs.Refusals.{refusal_text};
ghost use Rattle.library_arguments.specs.Shapes.{shape_of};
ghost use Rattle.lua_heap.specs.Reading.{value};
ghost use Rattle.pure_functions.specs.Shapes.{IsThere, IsTableArgument};
ghost use Rattle.pure_functions.specs.Answers.{Stands};

use crate::answer::argument;
use library_arguments::{Kind, Refusal, Shape};
use lua_heap::World;
use lua_heap::law::strings_are_there;
use table_core::{TableId, Value};

/// What a function sees of a value.
pub fn shape(world: &World, seen: Value) -> Shape<'_>
    requires { IsThere world.now.strings seen }
    ensures { shape_of result ≡ shape (value world.now.strings seen) }
{
    match seen {
        Value::Nil => Shape::Nil,
        Value::Bool(truth) => Shape::Boolean(truth),
        Value::Int(n) => Shape::Integer(n),
        Value::Str(id) => Shape::String(world.bytes(id)),
        Value::Prim(number) => Shape::Primitive(number),
        Value::Table(_) => Shape::Object(Kind::Table),
        Value::Func(_) => Shape::Object(Kind::Function),
        Value::Coro(_) => Shape::Object(Kind::Coroutine),
    }
}

/// What a function sees of its argument of a place, from 0.
pub fn argument_shape<'a>(world: &'a World, arguments: &[Value], at: usize) -> Shape<'a>
    requires { Stands world.now arguments.now }
    ensures { shape_of result ≡ shape (nth (map (value world.now.strings) arguments.now) at) }
{
    strings_are_there();
    shape(world, argument(arguments, at))
}

/// The error of an argument of another type, by its place from 1 (`luaL_typeerror` of lauxlib.c).
pub fn wrong_type(
    function: &'static [u8],
    place: usize,
    wanted: &'static [u8],
    got: Shape,
) -> Refusal
    ensures { refusal_text result ≡ wrong_type place function.now wanted.now (shape_of got.entry) }
{
    Refusal::WrongType {
        place,
        function,
        wanted,
        got: got.type_name(),
    }
}

/// The error of an argument that is refused for another reason, by its place from 1 (`luaL_argerror` of lauxlib.c).
pub fn bad_argument(place: usize, function: &'static [u8], what: &'static [u8]) -> Refusal
    ensures { refusal_text result ≡ bad_argument place function.now what.now }
{
    Refusal::BadArgument {
        place,
        function,
        what,
    }
}

/// The table that is the first argument.
///
/// # Errors
///
/// It is none.
pub fn table_argument(
    world: &World,
    function: &'static [u8],
    arguments: &[Value],
) -> Result<TableId, Refusal>
    requires { Stands world.now arguments.now }
    ensures { IsTableArgument function.now (nth (map (value world.now.strings) arguments.now) 0) result }
{
    match argument(arguments, 0) {
        Value::Table(id) => Ok(id),
        _ => Err(wrong_type(function, 1, b"table", argument_shape(world, arguments, 0))),
    }
}
