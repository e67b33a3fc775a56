// Metatables (Lua 5.4 manual, 2.4 and 6.1).
ghost use Rattle.std.specs.Prelude.{◌≡◌, Ok, OnErr, map};
ghost use Rattle.int_core.specs.Value.{nth};
ghost use Rattle.library_rows.specs.Base.{gets_metatable, meta_field, sets_metatable};
ghost use Rattle.lua_heap.specs.Reading.{value};
ghost use Rattle.pure_functions.specs.Answers.{Answers, Changes, OnlyStrings, Stands};
ghost use Rattle.lib_base.specs.Metatables.{IsMetatableArgument, field_or};

use crate::raw;
use library_arguments::{Fault, Refusal};
use lua_heap::World;
use pure_functions::{Answer, argument, argument_shape, string, table_argument, wrong_type};
use table_core::{TableId, Value};

/// The raw field of a value's metatable, for the prelude.
pub fn meta_field(world: &World, arguments: &[Value]) -> Result<Answer, Fault>
    ensures { Answers meta_field arguments.now world.now world.now result }
{
    Ok(field_of_metatable(world, arguments))
}

/// It, which is always there.
pub(crate) fn field_of_metatable(world: &World, arguments: &[Value]) -> Answer
    ensures { Answers meta_field arguments.now world.now world.now (Ok result) }
{
    let metatable = raw::value_of(raw::metatable(world, argument(arguments, 0)));
    let found = raw::read_field(world, metatable, argument(arguments, 1));
    Answer::One(found)
}

/// `getmetatable`: the field `__metatable` of a value's metatable where there is one, else the metatable or nil.
pub fn get_metatable(world: &mut World, arguments: &[Value]) -> Result<Answer, Fault>
    requires { Stands world.old arguments.now }
    ensures answers { Answers gets_metatable arguments.now world.old world.new result }
    ensures kept { OnlyStrings world.old world.new arguments.now }
{
    let name = string(world, arguments, b"__metatable")?;
    let metatable = raw::value_of(raw::metatable(world, argument(arguments, 0)));
    let given = field_or(raw::read_field(world, metatable, name), metatable);
    Ok(Answer::One(given))
}

/// `setmetatable`: sets or takes off a table's metatable, and gives the table.
pub fn set_metatable(world: &mut World, arguments: &[Value]) -> Result<Answer, Fault>
    requires { Stands world.old arguments.now }
    ensures answers { Answers sets_metatable arguments.now world.old world.new result }
    ensures err { OnErr result (OnlyStrings world.old world.new arguments.now) }
    ensures changes { Changes world.old world.new arguments.now }
{
    let id = table_argument(world, b"setmetatable", arguments)?;
    let metatable = metatable_argument(world, arguments)?;
    let name = string(world, arguments, b"__metatable")?;
    let present = raw::value_of(raw::metatable(world, Value::Table(id)));
    let Value::Nil = raw::read_field(world, present, name) else {
        return Err(Fault::Refused(Refusal::Text(b"cannot change a protected metatable")));
    };
    raw::set_metatable(world, id, metatable);
    Ok(Answer::One(Value::Table(id)))
}

/// The second argument: a table, or nil for none.
fn metatable_argument(world: &World, arguments: &[Value]) -> Result<Option<TableId>, Refusal>
    requires { Stands world.now arguments.now }
    ensures { IsMetatableArgument (nth (map (value world.now.strings) arguments.now) 1) result }
{
    match argument(arguments, 1) {
        Value::Table(id) => Ok(Some(id)),
        Value::Nil => Ok(None),
        _ => Err(wrong_type(
            b"setmetatable",
            2,
            b"nil or table",
            argument_shape(world, arguments, 1),
        )),
    }
}

/// A field where it is not nil, else the metatable.
fn field_or(field: Value, metatable: Value) -> Value
    ensures { result ≡ field_or field metatable }
{
    match field {
        Value::Nil => metatable,
        _ => field,
    }
}
