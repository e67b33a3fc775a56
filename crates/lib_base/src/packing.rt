// Arguments as a table (Lua 5.4 manual, 6.6, `table.pack`).
ghost use Rattle.std.specs.Prelude.{OnErr};
ghost use Rattle.library_rows.specs.Base.{packs};
ghost use Rattle.pure_functions.specs.Answers.{Answers, Changes, OnlyStrings, Stands};

use crate::numbering::numbered_table;
use library_arguments::Fault;
use lua_heap::World;
use pure_functions::{Answer, string};
use table_core::Value;

/// `table.pack`: a new table of the arguments, and their number at `n`.
pub fn pack(world: &mut World, arguments: &[Value]) -> Result<Answer, Fault>
    requires { Stands world.old arguments.now }
    ensures answers { Answers packs arguments.now world.old world.new result }
    ensures changes { Changes world.old world.new arguments.now }
    ensures err { OnErr result (OnlyStrings world.old world.new arguments.now) }
{
    let name = string(world, arguments, b"n")?;
    let table = numbered_table(world, arguments, 1, name)?;
    let id = world.add_table(table)?;
    Ok(Answer::One(Value::Table(id)))
}
