// Each function that looks at no table, by its name.
ghost use Rattle.std.specs.Prelude.{map};
ghost use Rattle.int_core.specs.Value.{shape};
ghost use Rattle.library_arguments.specs.Answers.{IsAnswer};
ghost use Rattle.library_arguments.specs.Shapes.{shapes_of};
ghost use Rattle.library_rows.specs.Plainly.{plainly};
ghost use Rattle.lua_heap.specs.Reading.{value};
ghost use Rattle.pure_functions.specs.Answers.{Answers, OnlyStrings, Stands};
ghost use Rattle.pure_functions.specs.Functions.{plain_row, text_row};

use crate::answer::Answer;
use crate::plain::{all_shapes, given};
use crate::quick::quick_answer;
use crate::shapes::argument_shape;
use crate::{math, texts};
use library_arguments::{Fault, Results, Shape, answers_are_done, refusals_are_done};
use library_rows::plain_rows_are_functions;
use lua_heap::World;
use std::alloc::Global;
use table_core::Value;

/// A function that looks at no table.
#[derive(Debug, Clone, Copy, PartialEq, Eq)]
pub enum Function {
    Math(math::Function),
    OverTexts(texts::Function),
}

/// Calls a function that sees texts and integers alone. Where most results are at hand, it takes no memory.
///
/// # Errors
///
/// The function refuses its arguments, with a text that gets the place of the caller before it; or memory runs out.
pub fn over_texts(
    world: &mut World,
    function: texts::Function,
    arguments: &[Value],
) -> Result<Answer, Fault>
    requires { Stands world.old arguments.now }
    ensures answers { Answers (plainly (text_row function)) arguments.now world.old world.new result }
    ensures kept { OnlyStrings world.old world.new arguments.now }
{
    match quick_answer(world, function, arguments) {
        Some(answer) => Ok(answer),
        None => call(world, Function::OverTexts(function), arguments),
    }
}

/// Calls a function that looks at no table.
///
/// # Errors
///
/// As its own function says; or memory runs out.
pub fn call(world: &mut World, function: Function, arguments: &[Value]) -> Result<Answer, Fault>
    requires { Stands world.old arguments.now }
    ensures answers { Answers (plainly (plain_row function)) arguments.now world.old world.new result }
    ensures kept { OnlyStrings world.old world.new arguments.now }
{
    plain_rows_are_functions();
    answers_are_done();
    refusals_are_done();
    let results = plain_results(world, function, arguments)?;
    let answer = given(world, arguments, &results)?;
    Ok(answer)
}

/// What such a function gives, before it becomes values. Up to four arguments are seen without asking for memory.
fn plain_results(world: &World, function: Function, arguments: &[Value]) -> Result<Results, Fault>
    requires { Stands world.now arguments.now }
    ensures { IsAnswer result (plain_row function (map shape (map (value world.now.strings) arguments.now))) }
{
    let alloc = world.alloc;
    let many = arguments.len();
    let first = argument_shape(world, arguments, 0);
    if many == 1 {
        return results_of(alloc, function, &[first]);
    }
    let second = argument_shape(world, arguments, 1);
    if many == 2 {
        return results_of(alloc, function, &[first, second]);
    }
    let third = argument_shape(world, arguments, 2);
    if many == 3 {
        return results_of(alloc, function, &[first, second, third]);
    }
    let fourth = argument_shape(world, arguments, 3);
    if many == 4 {
        return results_of(alloc, function, &[first, second, third, fourth]);
    }
    let shapes = all_shapes(world, arguments)?;
    let results = results_of(alloc, function, shapes.as_slice())?;
    Ok(results)
}

/// What such a function gives, by what it sees of its arguments.
#[inline(always)]
fn results_of(alloc: Global, function: Function, shapes: &[Shape]) -> Result<Results, Fault>
    ensures { IsAnswer result (plain_row function (shapes_of shapes.now)) }
{
    match function {
        Function::Math(function) => math::results(alloc, function, shapes),
        Function::OverTexts(function) => texts::results(alloc, function, shapes),
    }
}
