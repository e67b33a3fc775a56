// Functions of texts whose arguments are of the usual types, with results that take no memory (Lua 5.4 manual, 6.4).
ghost use Rattle.std.specs.Prelude.{◌≡◌, ◌∷◌, [], map};
ghost use Rattle.int_core.specs.Value.{nth, shape, string};
ghost use Rattle.library_arguments.specs.Shapes.{shape_of};
ghost use Rattle.library_rows.specs.Plainly.{plainly};
ghost use Rattle.lib_string.specs.Quick.{IsQuick, quick_of};
ghost use Rattle.lua_heap.specs.Reading.{value};
ghost use Rattle.pure_functions.specs.Answers.{Stands};
ghost use Rattle.pure_functions.specs.Functions.{text_row};
ghost use Rattle.pure_functions.specs.QuickAnswers.{IsQuickAnswer, IsToldAs};

use crate::answer::Answer;
use crate::shapes::argument_shape;
use crate::texts::Function;
use lib_string::{Quick, quick_byte, quick_find, quick_match, quick_sub};
use library_arguments::Shape;
use library_rows::plain_rows_are_functions;
use lua_heap::World;
use table_core::Value;

/// What a function gives where that takes no memory. `None` says nothing.
pub(crate) fn quick_answer(world: &World, function: Function, arguments: &[Value]) -> Option<Answer>
    requires { Stands world.now arguments.now }
    ensures { IsQuickAnswer (plainly (text_row function)) arguments.now world.now result }
{
    plain_rows_are_functions();
    match quick(world, function, arguments) {
        Some(quick) => told(world, quick),
        None => None,
    }
}

/// The same of all but `match`, whose captures may be no strings yet once they are found. `None` says nothing.
#[inline(always)]
pub fn quick_first(world: &World, function: Function, arguments: &[Value]) -> Option<Answer>
    requires { Stands world.now arguments.now }
    ensures { IsQuickAnswer (plainly (text_row function)) arguments.now world.now result }
{
    match function {
        Function::Match => None,
        _ => quick_answer(world, function, arguments),
    }
}

/// What a function gives, before it becomes values.
fn quick<'a>(world: &'a World, function: Function, arguments: &[Value]) -> Option<Quick<'a>>
    requires { Stands world.now arguments.now }
    ensures { IsQuick result (text_row function (map shape (map (value world.now.strings) arguments.now))) }
{
    match function {
        Function::Byte => {
            let (text, place, last) = first_three(world, arguments);
            quick_byte(text, place, last)
        }
        Function::Find => {
            let (text, pattern, place) = first_three(world, arguments);
            let plain = argument_shape(world, arguments, 3);
            quick_find(world.alloc, text, pattern, place, plain)
        }
        Function::Match => {
            let (text, pattern, place) = first_three(world, arguments);
            quick_match(world.alloc, text, pattern, place)
        }
        Function::Sub => {
            let (text, first, last) = first_three(world, arguments);
            quick_sub(text, first, last)
        }
        _ => None,
    }
}

/// What is seen of the first three arguments.
#[inline(always)]
fn first_three<'a>(world: &'a World, arguments: &[Value]) -> (Shape<'a>, Shape<'a>, Shape<'a>)
    requires { Stands world.now arguments.now }
    ensures first { shape_of result.0 ≡ shape (nth (map (value world.now.strings) arguments.now) 0) }
    ensures second { shape_of result.1 ≡ shape (nth (map (value world.now.strings) arguments.now) 1) }
    ensures third { shape_of result.2 ≡ shape (nth (map (value world.now.strings) arguments.now) 2) }
{
    (
        argument_shape(world, arguments, 0),
        argument_shape(world, arguments, 1),
        argument_shape(world, arguments, 2),
    )
}

/// Results as values. `None` says nothing.
fn told(world: &World, quick: Quick) -> Option<Answer>
    ensures { IsToldAs world.now (quick_of quick.entry) result }
{
    match quick {
        Quick::Nothing => Some(Answer::One(Value::Nil)),
        Quick::Integer(n) => Some(Answer::One(Value::Int(n))),
        Quick::Text(bytes) => there(world, bytes),
        Quick::Places(first, last) => Some(Answer::Two(Value::Int(first), Value::Int(last))),
    }
}

/// A string that is there already.
pub fn there(world: &World, bytes: &[u8]) -> Option<Answer>
    ensures { IsToldAs world.now (string bytes.now ∷ []) result }
{
    world.strings.len();
    match world.strings.find(bytes) {
        Some(id) => Some(Answer::One(Value::Str(id))),
        None => None,
    }
}
