// Functions that look at no table, over values in memory: what they see, and the values of what they give.
ghost use Rattle.std.specs.Prelude.{◌≡◌, true, map, IfOk};
ghost use Rattle.std.specs.List.{list_all};
ghost use Rattle.int_core.specs.Value.{known, nth, shape};
ghost use Rattle.library_arguments.specs.Answers.{results_of};
ghost use Rattle.library_arguments.specs.Shapes.{known_of, shapes_of};
ghost use Rattle.library_rows.specs.Look.{done};
ghost use Rattle.library_rows.specs.Plainly.{fits_length};
ghost use Rattle.lua_heap.specs.Reading.{value};
ghost use Rattle.pure_functions.specs.Answers.{Means, MeanAll, OnlyStrings, Stands, told, heap_of};

use crate::answer::Answer;
use crate::shapes::argument_shape;
use crate::strings::string;
use library_arguments::{Plain, Results, Shape};
use lua_heap::World;
use std::alloc::AllocError;
use table_core::Value;

/// What a function sees of all its arguments.
pub fn all_shapes<'a>(world: &'a World, arguments: &[Value]) -> Result<Vec<Shape<'a>>, AllocError>
    requires { Stands world.now arguments.now }
    ensures { IfOk result (λ shapes. shapes_of shapes.items ≡ map shape (map (value world.now.strings) arguments.now)) }
{
    let mut shapes = Vec::with_capacity(world.alloc, arguments.len())?;
    for at in 0..arguments.len() {
        let seen = argument_shape(world, arguments, at);
        shapes.push(seen)?;
    }
    Ok(shapes)
}

/// The results of such a function, as values: strings that are not there are added. Tables and arguments stay what they were.
pub fn given(
    world: &mut World,
    arguments: &[Value],
    results: &Results,
) -> Result<Answer, AllocError>
    requires short { list_all fits_length (results_of results.now) ≡ true }
    requires stands { Stands world.old arguments.now }
    ensures answers { IfOk result (λ answer. told world.new answer ≡ done (heap_of world.new) (map known (results_of results.now))) }
    ensures kept { OnlyStrings world.old world.new arguments.now }
{
    match results {
        Results::One(written) => {
            let made = value_of(world, arguments, written)?;
            Ok(Answer::One(made))
        }
        Results::Many(all) => {
            let values = values_of(world, arguments, all.as_slice())?;
            Ok(Answer::Gives(values))
        }
    }
}

/// The value of what is written out.
fn value_of(world: &mut World, arguments: &[Value], written: &Plain) -> Result<Value, AllocError>
    requires short { fits_length (known_of written.now) ≡ true }
    requires stands { Stands world.old arguments.now }
    ensures means { IfOk result (λ made. Means world.new.strings made (known_of written.now)) }
    ensures kept { OnlyStrings world.old world.new arguments.now }
{
    match written {
        Plain::Nil => Ok(Value::Nil),
        Plain::Boolean(truth) => Ok(Value::Bool(*truth)),
        Plain::Integer(n) => Ok(Value::Int(*n)),
        Plain::Primitive(number) => Ok(Value::Prim(*number)),
        Plain::String(bytes) => {
            let made = string(world, arguments, bytes.as_slice())?;
            Ok(made)
        }
    }
}

/// The values of what is written out, one after another.
pub fn values_of(
    world: &mut World,
    arguments: &[Value],
    all: &[Plain],
) -> Result<Vec<Value>, AllocError>
    requires short { list_all fits_length (map known_of all.now) ≡ true }
    requires stands { Stands world.old arguments.now }
    ensures mean { IfOk result (λ values. MeanAll world.new.strings values.items (map known_of all.now)) }
    ensures kept { OnlyStrings world.old world.new arguments.now }
{
    let mut values = Vec::with_capacity(world.alloc, all.len())?;
    for written in all {
        let made = value_of(world, arguments, written)?;
        values.push(made)?;
    }
    Ok(values)
}
