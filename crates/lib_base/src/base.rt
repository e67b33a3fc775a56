// The functions of the base library on values and tables, without metamethods (Lua 5.4 manual, 6.1).
ghost use Rattle.std.specs.Prelude.{◌≡◌, OnErr};
ghost use Rattle.library_arguments.specs.Shapes.{shape_of};
ghost use Rattle.library_rows.specs.Base.{asserts, collects_garbage, is_count, next_of, raw_equal, raw_get, raw_length, raw_set, selects, types};
ghost use Rattle.pure_functions.specs.Answers.{Answers, Changes, OnlyStrings, Stands};
ghost use Rattle.pure_functions.specs.QuickAnswers.{IsQuickAnswer};
ghost use Rattle.lib_base.specs.Select.{IsBorderValue, IsLength, selected_place};

use crate::raw;
use library_arguments::{Fault, Refusal, Shape, integer_argument};
use lua_heap::World;
use lua_heap::law::strings_are_there;
use pure_functions::{
    Answer, all_from, argument, argument_shape, bad_argument, string, table_argument, there,
    wrong_type,
};
use table_core::{Key, NoSuchKey, Value};

/// `collectgarbage`: nothing is ever collected, and 0 bytes are in use.
pub fn collect_garbage(world: &World, arguments: &[Value]) -> Result<Answer, Fault>
    ensures { Answers collects_garbage arguments.now world.now world.now result }
{
    Ok(Answer::One(Value::Int(0)))
}

/// `rawequal`: whether two values are the same.
pub fn raw_equal(world: &World, arguments: &[Value]) -> Result<Answer, Fault>
    ensures { Answers raw_equal arguments.now world.now world.now result }
{
    let equal = raw::equal(world, argument(arguments, 0), argument(arguments, 1));
    Ok(Answer::One(Value::Bool(equal)))
}

/// `rawget`: the value at a key.
pub fn raw_get(world: &World, arguments: &[Value]) -> Result<Answer, Fault>
    requires { Stands world.now arguments.now }
    ensures { Answers raw_get arguments.now world.now world.now result }
{
    let id = table_argument(world, b"rawget", arguments)?;
    let found = raw::read_field(world, Value::Table(id), argument(arguments, 1));
    Ok(Answer::One(found))
}

/// `rawlen`: the border of a table, or how many bytes a string has.
pub fn raw_length(world: &World, arguments: &[Value]) -> Result<Answer, Fault>
    requires { Stands world.now arguments.now }
    ensures { Answers raw_length arguments.now world.now world.now result }
{
    let size = length(world, arguments)?;
    Ok(Answer::One(size))
}

/// The length of the first argument.
fn length(world: &World, arguments: &[Value]) -> Result<Value, Refusal>
    requires { Stands world.now arguments.now }
    ensures { IsLength world.now arguments.now result }
{
    strings_are_there();
    match argument(arguments, 0) {
        Value::Table(id) => {
            let size = integer_or_nil(raw::border(world, id));
            Ok(size)
        }
        Value::Str(id) => Ok(Value::Int(world.bytes(id).len() as i64)),
        _ => Err(wrong_type(
            b"rawlen",
            1,
            b"table or string",
            argument_shape(world, arguments, 0),
        )),
    }
}

/// An integer, or nil where there is none.
fn integer_or_nil(n: Option<i64>) -> Value
    ensures { IsBorderValue n result }
{
    match n {
        Some(n) => Value::Int(n),
        None => Value::Nil,
    }
}

/// `rawset`: puts a value at a key, which is not nil, and gives the table.
pub fn raw_set(world: &mut World, arguments: &[Value]) -> Result<Answer, Fault>
    requires { Stands world.old arguments.now }
    ensures answers { Answers raw_set arguments.now world.old world.new result }
    ensures changes { Changes world.old world.new arguments.now }
    ensures err { OnErr result (world.new ≡ world.old) }
{
    let id = table_argument(world, b"rawset", arguments)?;
    let Some(key) = Key::of(argument(arguments, 1)) else {
        return Err(Fault::Refused(Refusal::Text(b"table index is nil")));
    };
    raw::write_field(world, id, key, argument(arguments, 2))?;
    Ok(Answer::One(Value::Table(id)))
}

/// `next`: the first row after a key's that is not cleared, or nil at the end.
pub fn next(world: &World, arguments: &[Value]) -> Result<Answer, Fault>
    requires { Stands world.now arguments.now }
    ensures { Answers next_of arguments.now world.now world.now result }
{
    let id = table_argument(world, b"next", arguments)?;
    match raw::row_after(world, id, argument(arguments, 1)) {
        Ok(Some((key, found))) => Ok(Answer::Two(key.value(), found)),
        Ok(None) => { Ok(Answer::One(Value::Nil)) }
        Err(NoSuchKey) => Err(Fault::Refused(Refusal::Text(b"invalid key to 'next'"))),
    }
}

/// `select`: the arguments from a place on, or how many there are behind the first one.
pub fn select(world: &World, arguments: &[Value]) -> Result<Answer, Fault>
    requires { Stands world.now arguments.now }
    ensures { Answers selects arguments.now world.now world.now result }
{
    let first = argument_shape(world, arguments, 0);
    let many = arguments.len().saturating_sub(1);
    if is_count(first) {
        return Ok(Answer::One(Value::Int(many as i64)));
    }
    let n = integer_argument(b"select", 1, first)?;
    match selected_place(n, many) {
        Some(from) => {
            let answer = all_from(world.alloc, arguments, from)?;
            Ok(answer)
        }
        None => Err(Fault::Refused(bad_argument(1, b"select", b"index out of range"))),
    }
}

/// What `select` gives where that is the number of arguments.
#[inline(always)]
pub(crate) fn count_of_arguments(world: &World, arguments: &[Value]) -> Option<Answer>
    requires { Stands world.now arguments.now }
    ensures { IsQuickAnswer selects arguments.now world.now result }
{
    let first = argument_shape(world, arguments, 0);
    let many = arguments.len().saturating_sub(1);
    if is_count(first) {
        return Some(Answer::One(Value::Int(many as i64)));
    }
    None
}

/// Whether the number of arguments is asked for.
fn is_count(first: Shape) -> bool
    ensures { result ≡ is_count (shape_of first.entry) }
{
    matches!(first, Shape::String(b"#"))
}

/// Where the arguments from the nth on begin, `select`'s own at 0; a negative n counts from the end.
fn selected_place(n: i64, many: usize) -> Option<usize>
    ensures { result ≡ selected_place n many }
{
    if n >= 0 {
        return if n > 0 { Some(n as usize) } else { None };
    }
    let back = !n as usize;
    if back < many { Some(many - back) } else { None }
}

/// `assert`: its arguments, or an error whose value is the second one.
pub fn assert(world: &mut World, arguments: &[Value]) -> Result<Answer, Fault>
    requires { Stands world.old arguments.now }
    ensures answers { Answers asserts arguments.now world.old world.new result }
    ensures kept { OnlyStrings world.old world.new arguments.now }
{
    if argument_shape(world, arguments, 0).holds() {
        let answer = all_from(world.alloc, arguments, 0)?;
        return Ok(answer);
    }
    match argument(arguments, 1) {
        Value::Nil => {
            let message = string(world, arguments, b"assertion failed!")?;
            Ok(Answer::Raises(message))
        }
        message => Ok(Answer::Raises(message)),
    }
}

/// `type`: the name of a value's type.
pub fn type_of(world: &mut World, arguments: &[Value]) -> Result<Answer, Fault>
    requires { Stands world.old arguments.now }
    ensures answers { Answers types arguments.now world.old world.new result }
    ensures kept { OnlyStrings world.old world.new arguments.now }
{
    let name = argument_shape(world, arguments, 0).type_name();
    let made = string(world, arguments, name)?;
    Ok(Answer::One(made))
}

/// What `type` gives where that name is there as a string.
#[inline(always)]
pub(crate) fn name_of_type(world: &World, arguments: &[Value]) -> Option<Answer>
    requires { Stands world.now arguments.now }
    ensures { IsQuickAnswer types arguments.now world.now result }
{
    let name = argument_shape(world, arguments, 0).type_name();
    there(world, name)
}
