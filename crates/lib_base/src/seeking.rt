// The next match of a pattern with its captures in a table, for `string.gmatch` and `gsub` of the prelude (Lua 5.4 manual, 6.4).
ghost use Rattle.std.specs.Prelude.{◌≡◌, ◌<◌, List, IfOk, IfSome, OnErr, true, length, map};
ghost use Rattle.std.specs.List.{list_all};
ghost use Rattle.int_core.specs.Value.{Value as Known, shape};
ghost use Rattle.library_arguments.specs.Shapes.{known_of};
ghost use Rattle.library_rows.specs.Base.{seek};
ghost use Rattle.library_rows.specs.Look.{looked};
ghost use Rattle.library_rows.specs.Plainly.{fits_length};
ghost use Rattle.library_rows.specs.Searches.{seeks};
ghost use Rattle.lib_string.specs.Searches.{IsSought, gives_values};
ghost use Rattle.lua_heap.specs.Reading.{value};
ghost use Rattle.pure_functions.specs.Answers.{Answers, Changes, OnlyStrings, Stands, told, heap_of};

use crate::numbering::numbered_table;
use lib_string::Sought;
use library_arguments::Fault;
use lua_heap::World;
use pure_functions::{Answer, argument_shape, string, values_of};
use std::alloc::AllocError;
use table_core::Value;

/// The next match: its place, the place behind it, and a table of the whole match at 0, its captures, and their number at `n`.
pub fn seek(world: &mut World, arguments: &[Value]) -> Result<Answer, Fault>
    requires { Stands world.old arguments.now }
    ensures answers { Answers seek arguments.now world.old world.new result }
    ensures changes { Changes world.old world.new arguments.now }
    ensures err { OnErr result (OnlyStrings world.old world.new arguments.now) }
{
    let Some(found) = sought(world, arguments)? else {
        return Ok(Answer::Gives(Vec::new(world.alloc)));
    };
    if found.values.is_empty() {
        return Ok(Answer::Gives(Vec::new(world.alloc)));
    }
    let answer = found_match(world, arguments, &found)?;
    Ok(answer)
}

/// The next match, before it becomes values.
fn sought(world: &World, arguments: &[Value]) -> Result<Option<Sought>, Fault>
    requires { Stands world.now arguments.now }
    ensures row { IsSought result (seeks (map shape (map (value world.now.strings) arguments.now))) }
    ensures fits { IfOk result (λ found. IfSome found (λ s. list_all fits_length (map known_of s.values.items) ≡ true)) }
{
    let seen = [
        argument_shape(world, arguments, 0),
        argument_shape(world, arguments, 1),
        argument_shape(world, arguments, 2),
        argument_shape(world, arguments, 3),
        argument_shape(world, arguments, 4),
    ];
    lib_string::seek(world.alloc, &seen)
}

/// A match as values.
fn found_match(world: &mut World, arguments: &[Value], found: &Sought) -> Result<Answer, AllocError>
    requires fits { list_all fits_length (map known_of found.now.values.items) ≡ true }
    requires some { 0 < length found.now.values.items }
    requires stands { Stands world.old arguments.now }
    ensures answers { IfOk result (λ answer. (env : List Known) → looked (gives_values found.now.start found.now.next (map known_of found.now.values.items)) env (heap_of world.old) ≡ told world.new answer) }
    ensures changes { Changes world.old world.new arguments.now }
    ensures err { OnErr result (OnlyStrings world.old world.new arguments.now) }
{
    let values = values_of(world, arguments, found.values.as_slice())?;
    let name = string(world, arguments, b"n")?;
    let table = numbered_table(world, values.as_slice(), 0, name)?;
    let mut results = Vec::with_capacity(world.alloc, 3)?;
    let id = world.add_table(table)?;
    results.push_reserved(Value::Int(found.start));
    results.push_reserved(Value::Int(found.next));
    results.push_reserved(Value::Table(id));
    Ok(Answer::Gives(results))
}
