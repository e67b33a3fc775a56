// Tables as lists (Lua 5.4 manual, 6.6).
ghost use Rattle.std.specs.Prelude.{◌≡◌, ◌<◌, ◌^◌, map, IfOk};
ghost use Rattle.int_core.specs.Value.{a_table, object};
ghost use Rattle.library_rows.specs.Base.{spreads};
ghost use Rattle.library_arguments.specs.Shapes.{shape_of};
ghost use Rattle.lua_heap.specs.Reading.{value};
ghost use Rattle.pure_functions.specs.Answers.{Answers, Stands, heap_of};
ghost use Rattle.lib_base.specs.Lists.{IsCount, items_from};

use crate::raw;
use library_arguments::{Fault, Refusal, Shape, integer_argument};
use lua_heap::World;
use pure_functions::{Answer, argument_shape, table_argument};
use std::alloc::AllocError;
use table_core::{TableId, Value};

/// The values at 1 to n of a table, for `table.unpack` of the prelude.
pub fn spread(world: &World, arguments: &[Value]) -> Result<Answer, Fault>
    requires { Stands world.now arguments.now }
    ensures { Answers spreads arguments.now world.now world.now result }
{
    let id = table_argument(world, b"spread", arguments)?;
    let many = count(b"spread", argument_shape(world, arguments, 1))?;
    if many == 1 {
        let item = raw::read_field(world, Value::Table(id), Value::Int(1));
        return Ok(Answer::One(item));
    }
    if many == 2 {
        let first = raw::read_field(world, Value::Table(id), Value::Int(1));
        let second = raw::read_field(world, Value::Table(id), Value::Int(2));
        return Ok(Answer::Two(first, second));
    }
    let items = items(world, id, many)?;
    Ok(Answer::Gives(items))
}

/// The number of items, which is the second argument: 0 where it is negative.
pub(crate) fn count(function: &'static [u8], seen: Shape) -> Result<usize, Refusal>
    ensures { IsCount function.now (shape_of seen.entry) result }
{
    let n = integer_argument(function, 2, seen)?;
    Ok(if n > 0 { n as usize } else { 0 })
}

/// The values at 1 to `many` of a table.
pub(crate) fn items(world: &World, id: TableId, many: usize) -> Result<Vec<Value>, AllocError>
    requires { many < 2 ^ 63 }
    ensures { IfOk result (λ items. map (value world.now.strings) items.items ≡ items_from (heap_of world.now) (object a_table id.0) many 1) }
{
    let mut items = Vec::with_capacity(world.alloc, many)?;
    for i in 0..many {
        let item = raw::read_field(world, Value::Table(id), Value::Int(i as i64 + 1));
        items.push(item)?;
    }
    Ok(items)
}
