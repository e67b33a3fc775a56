// The items of a table as one text (Lua 5.4 manual, 6.6, `table.concat`).
ghost use Rattle.std.specs.Prelude.{◌≡◌, ◌<◌, ◌^◌, map};
ghost use Rattle.int_core.specs.Value.{a_table, greatest_string, object, shape};
ghost use Rattle.library_rows.specs.Base.{joined_text, joins};
ghost use Rattle.pure_functions.specs.Answers.{Answers, OnlyStrings, Stands, heap_of};
ghost use Rattle.lib_base.specs.Lists.{IsFaultOf, IsText, items_from};

use crate::lists::count;
use crate::raw;
use library_arguments::{Fault, Refusal, text_argument};
use lua_heap::World;
use lua_heap::law::strings_are_there;
use pure_functions::{Answer, argument_shape, shape, string, table_argument};
use table_core::{TableId, Value};
use text_functions::{Builder, StringFault};

/// The items 1 to n of a table joined, for `table.concat` of the prelude.
pub fn join(world: &mut World, arguments: &[Value]) -> Result<Answer, Fault>
    requires { Stands world.old arguments.now }
    ensures answers { Answers joins arguments.now world.old world.new result }
    ensures kept { OnlyStrings world.old world.new arguments.now }
{
    let id = table_argument(world, b"join", arguments)?;
    let many = count(b"join", argument_shape(world, arguments, 1))?;
    let text = joined(world, arguments, id, many)?;
    let made = string(world, arguments, text.as_slice())?;
    Ok(Answer::One(made))
}

/// The texts of the items 1 to `many`, one after another.
fn joined(world: &World, arguments: &[Value], id: TableId, many: usize) -> Result<Vec<u8>, Fault>
    requires small { many < 2 ^ 63 }
    requires stands { Stands world.now arguments.now }
    ensures { IsText result (joined_text (map shape (items_from (heap_of world.now) (object a_table id.0) many 1)) greatest_string) }
{
    strings_are_there();
    let mut text = Builder::new(world.alloc);
    for i in 0..many {
        let item = raw::read_field(world, Value::Table(id), Value::Int(i as i64 + 1));
        let piece = text_argument(b"join", 1, shape(world, item))?;
        if let Err(why) = text.push(piece.as_slice()) {
            return Err(fault_of(why));
        }
    }
    Ok(text.finish())
}

/// The error of a text that is not made.
fn fault_of(why: StringFault) -> Fault
    ensures { IsFaultOf why result }
{
    match why {
        StringFault::TooLarge => Fault::Refused(Refusal::Text(b"resulting string too large")),
        StringFault::Memory => Fault::Memory,
    }
}
