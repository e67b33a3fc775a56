// The text of a value without `__tostring` (Lua 5.4 manual, 6.1, `tostring`).
ghost use Rattle.std.specs.Prelude.{◌≡◌, IfOk, Ok, codes, map};
ghost use Rattle.int_core.specs.Value.{known, nth, shape, string};
ghost use Rattle.library_arguments.specs.Shapes.{shape_of};
ghost use Rattle.library_rows.specs.Base.{kind_text, texts};
ghost use Rattle.table_core.specs.declared.value.Value.TheVariants.{Int, Str};
ghost use Rattle.lua_heap.specs.Reading.{value};
ghost use Rattle.pure_functions.specs.Answers.{Answers, IsArgument, OnlyStrings, Stands, heap_of};
ghost use Rattle.pure_functions.specs.QuickAnswers.{IsQuickAnswer};
ghost use Rattle.lib_base.specs.Texts.{IsShown, shown_of};

use crate::raw;
use library_arguments::{Digits, Fault, Refusal, Shape};
use lua_heap::World;
use lua_heap::law::{new_strings_keep, strings_are_there};
use pure_functions::{Answer, argument, argument_shape, shape, string};
use std::alloc::{AllocError, Global};
use table_core::{StrId, Value};
use text_functions::MAX_TEXT;

/// The text of a value without `__tostring`, for `tostring` of the prelude: of an object it begins with a string `__name` of its
/// metatable where there is one, and never shows a number.
///
/// # Errors
///
/// `resulting string too large` where it has more than 16,777,216 bytes.
pub fn text(world: &mut World, arguments: &[Value]) -> Result<Answer, Fault>
    requires { Stands world.old arguments.now }
    ensures answers { Answers texts arguments.now world.old world.new result }
    ensures kept { OnlyStrings world.old world.new arguments.now }
{
    match argument(arguments, 0) {
        Value::Str(id) => Ok(own_text(world, arguments, id)),
        Value::Int(n) => {
            let answer = integer_text(world, arguments, n)?;
            Ok(answer)
        }
        _ => {
            let answer = made_text(world, arguments)?;
            Ok(answer)
        }
    }
}

/// A string is its own text.
fn own_text(world: &World, arguments: &[Value], id: StrId) -> Answer
    requires stands { Stands world.now arguments.now }
    requires first { IsArgument arguments.now 0 (Str id) }
    ensures { Answers texts arguments.now world.now world.now (Ok result) }
{
    strings_are_there();
    world.strings.len();
    world.bytes(id);
    Answer::One(Value::Str(id))
}

/// What `text` gives of a string. `None` says nothing.
#[inline(always)]
pub(crate) fn text_of_string(world: &World, arguments: &[Value]) -> Option<Answer>
    requires { Stands world.now arguments.now }
    ensures { IsQuickAnswer texts arguments.now world.now result }
{
    match argument(arguments, 0) {
        Value::Str(id) => Some(own_text(world, arguments, id)),
        _ => None,
    }
}

/// The digits of an integer as a string, which is added where there is none.
fn integer_text(world: &mut World, arguments: &[Value], n: i64) -> Result<Answer, Fault>
    requires stands { Stands world.old arguments.now }
    requires first { IsArgument arguments.now 0 (Int n) }
    ensures answers { Answers texts arguments.now world.old world.new result }
    ensures kept { OnlyStrings world.old world.new arguments.now }
{
    let digits = Digits::of(n);
    let bytes = digits.as_slice();
    if bytes.len() > MAX_TEXT {
        return Err(Fault::Refused(Refusal::Text(b"resulting string too large")));
    }
    new_strings_keep();
    let id = world.intern_new(bytes)?;
    Ok(Answer::One(Value::Str(id)))
}

/// The text of a value as a string, which is added where there is none.
fn made_text(world: &mut World, arguments: &[Value]) -> Result<Answer, Fault>
    requires { Stands world.old arguments.now }
    ensures answers { Answers texts arguments.now world.old world.new result }
    ensures kept { OnlyStrings world.old world.new arguments.now }
{
    let name = string(world, arguments, b"__name")?;
    let bytes = shown(world, arguments, name)?;
    if bytes.len() > MAX_TEXT {
        return Err(Fault::Refused(Refusal::Text(b"resulting string too large")));
    }
    let made = string(world, arguments, bytes.as_slice())?;
    Ok(Answer::One(made))
}

/// The text of the first argument, where `name` is the string `__name`.
fn shown(world: &World, arguments: &[Value], name: Value) -> Result<Vec<u8>, AllocError>
    requires stands { Stands world.now arguments.now }
    requires named { value world.now.strings name ≡ known (string (codes "__name")) }
    ensures { IfOk result (λ bytes. IsShown (map (value world.now.strings) arguments.now) (heap_of world.now) bytes.items) }
{
    strings_are_there();
    let metatable = raw::value_of(raw::metatable(world, argument(arguments, 0)));
    let field = raw::read_field(world, metatable, name);
    let seen = argument_shape(world, arguments, 0);
    let bytes = shown_text(world.alloc, seen, shape(world, field))?;
    Ok(bytes)
}

/// The text of a value, from the field `__name` of its metatable.
fn shown_text(alloc: Global, seen: Shape, name: Shape) -> Result<Vec<u8>, AllocError>
    ensures { IfOk result (λ bytes. bytes.items ≡ shown_of (shape_of seen.entry) (shape_of name.entry)) }
{
    match seen {
        Shape::Nil => b"nil".to_vec(alloc),
        Shape::Boolean(true) => b"true".to_vec(alloc),
        Shape::Boolean(false) => b"false".to_vec(alloc),
        Shape::Integer(n) => Digits::of(n).as_slice().to_vec(alloc),
        Shape::String(bytes) => bytes.to_vec(alloc),
        Shape::Primitive(_) => b"function: object".to_vec(alloc),
        Shape::Object(_) => object_text(alloc, seen, name),
    }
}

/// The text of an object.
fn object_text(alloc: Global, seen: Shape, name: Shape) -> Result<Vec<u8>, AllocError>
    ensures { IfOk result (λ bytes. bytes.items ≡ kind_text (shape_of seen.entry) (shape_of name.entry)) }
{
    let mut text = Vec::new(alloc);
    match name {
        Shape::String(bytes) => text.extend_from_slice(bytes)?,
        _ => text.extend_from_slice(seen.type_name())?,
    }
    text.extend_from_slice(b": object")?;
    Ok(text)
}
