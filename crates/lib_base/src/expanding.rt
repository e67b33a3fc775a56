// A replacement with captures from a table, for `string.gsub` of the prelude (Lua 5.4 manual, 6.4).
ghost use Rattle.std.specs.Prelude.{◌≡◌, IfOk, map};
ghost use Rattle.std.specs.List.{list_any};
ghost use Rattle.int_core.specs.Value.{a_table, object, shape};
ghost use Rattle.library_arguments.specs.Shapes.{shapes_of};
ghost use Rattle.library_rows.specs.Base.{expand};
ghost use Rattle.table_core.specs.declared.value.Value.TheVariants.{Str, Table};
ghost use Rattle.lua_heap.specs.Reading.{value};
ghost use Rattle.pure_functions.specs.Answers.{Answers, IsArgument, OnlyStrings, Stands, heap_of};
ghost use Rattle.lib_base.specs.Expanding.{IsExpanded, is_escape};
ghost use Rattle.lib_base.specs.Lists.{items_from};
ghost use Rattle.pure_functions.specs.QuickAnswers.{IsQuickAnswer};

use crate::raw;
use library_arguments::{
    Fault, Results, Shape, answers_are_done, refusals_are_done, text_argument,
};
use lua_heap::World;
use lua_heap::law::strings_are_there;
use pure_functions::{Answer, argument, argument_shape, given, shape, wrong_type};
use std::alloc::AllocError;
use table_core::{StrId, TableId, Value};

/// The replacement that is the first argument, with the captures of the table that is the second one.
pub fn expand(world: &mut World, arguments: &[Value]) -> Result<Answer, Fault>
    requires { Stands world.old arguments.now }
    ensures answers { Answers expand arguments.now world.old world.new result }
    ensures kept { OnlyStrings world.old world.new arguments.now }
{
    if let Some(answer) = unescaped(world, arguments) {
        return Ok(answer);
    }
    let results = expanded(world, arguments)?;
    let answer = given(world, arguments, &results)?;
    Ok(answer)
}

/// A replacement that is a string without a `%`, which stands for itself. `None` says nothing.
fn unescaped(world: &World, arguments: &[Value]) -> Option<Answer>
    requires { Stands world.now arguments.now }
    ensures { IsQuickAnswer expand arguments.now world.now result }
{
    match argument(arguments, 0) {
        Value::Str(id) => unescaped_string(world, arguments, id),
        _ => None,
    }
}

fn unescaped_string(world: &World, arguments: &[Value], id: StrId) -> Option<Answer>
    requires stands { Stands world.now arguments.now }
    requires first { IsArgument arguments.now 0 (Str id) }
    ensures { IsQuickAnswer expand arguments.now world.now result }
{
    match argument(arguments, 1) {
        Value::Table(captures) => own_text(world, arguments, id, captures),
        _ => None,
    }
}

/// A string without a `%`, where captures are in a table.
fn own_text(world: &World, arguments: &[Value], id: StrId, captures: TableId) -> Option<Answer>
    requires stands { Stands world.now arguments.now }
    requires first { IsArgument arguments.now 0 (Str id) }
    requires second { IsArgument arguments.now 1 (Table captures) }
    ensures { IsQuickAnswer expand arguments.now world.now result }
{
    strings_are_there();
    world.strings.len();
    if has_escape(world.bytes(id)) {
        return None;
    }
    Some(Answer::One(Value::Str(id)))
}

fn has_escape(text: &[u8]) -> bool
    ensures { result ≡ list_any is_escape text.now }
{
    text.iter().any(|byte| *byte == b'%')
}

/// What it gives, before it becomes values.
fn expanded(world: &World, arguments: &[Value]) -> Result<Results, Fault>
    requires { Stands world.now arguments.now }
    ensures { IsExpanded (map (value world.now.strings) arguments.now) (heap_of world.now) result }
{
    answers_are_done();
    refusals_are_done();
    let text = text_argument(b"expand", 1, argument_shape(world, arguments, 0))?;
    let Value::Table(id) = argument(arguments, 1) else {
        let other = argument_shape(world, arguments, 1);
        return Err(Fault::Refused(wrong_type(b"expand", 2, b"table", other)));
    };
    let captures = captures(world, arguments, id)?;
    let results = lib_string::expand(world.alloc, text.as_slice(), captures.as_slice())?;
    Ok(results)
}

/// What is seen of the values at 0 to 9 of a table.
fn captures<'a>(
    world: &'a World,
    arguments: &[Value],
    id: TableId,
) -> Result<Vec<Shape<'a>>, AllocError>
    requires { Stands world.now arguments.now }
    ensures { IfOk result (λ captures. shapes_of captures.items ≡ map shape (items_from (heap_of world.now) (object a_table id.0) 10 0)) }
{
    strings_are_there();
    let mut captures = Vec::with_capacity(world.alloc, 10)?;
    for i in 0..10usize {
        let item = raw::read_field(world, Value::Table(id), Value::Int(i as i64));
        captures.push(shape(world, item))?;
    }
    Ok(captures)
}
