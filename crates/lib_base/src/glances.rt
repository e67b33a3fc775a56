// Functions whose results change nothing and take no memory, most often.
ghost use Rattle.std.specs.Prelude.{IfSome, List, Ok};
ghost use Rattle.library_rows.specs.Look.{Look};
ghost use Rattle.table_core.specs.declared.value.Value.{Value as Kept};
ghost use Rattle.lua_heap.specs.declared.world.World.{World as Memory};
ghost use Rattle.pure_functions.specs.Answers.{Answers, Stands};
ghost use Rattle.lib_base.specs.Functions.{function_row};
ghost use Rattle.pure_functions.specs.QuickAnswers.{IsQuickAnswer};

use crate::base::{count_of_arguments, name_of_type, next, raw_equal, raw_get, raw_length};
use crate::calls::Function;
use crate::metatables::field_of_metatable;
use crate::text::text_of_string;
use library_arguments::Fault;
use lua_heap::World;
use pure_functions::{Answer, quick_first};
use table_core::Value;

/// What a function gives where that is at hand: nothing changes, and no memory is taken. `None` says nothing.
#[inline(always)]
pub fn glance(world: &World, function: Function, arguments: &[Value]) -> Option<Answer>
    requires { Stands world.now arguments.now }
    ensures { IfSome result (λ answer. Answers (function_row function) arguments.now world.now world.now (Ok answer)) }
{
    match function {
        Function::MetaField => Some(field_of_metatable(world, arguments)),
        Function::Next => unless_refused(next(world, arguments)),
        Function::RawEqual => unless_refused(raw_equal(world, arguments)),
        Function::RawGet => unless_refused(raw_get(world, arguments)),
        Function::RawLength => unless_refused(raw_length(world, arguments)),
        Function::Select => count_of_arguments(world, arguments),
        Function::Text => text_of_string(world, arguments),
        Function::TypeOf => name_of_type(world, arguments),
        Function::OverTexts(function) => quick_first(world, function, arguments),
        _ => None,
    }
}

/// What a function gave. `None` where it refused its arguments.
#[inline(always)]
fn unless_refused(given: Result<Answer, Fault>) -> Option<Answer>
    ensures { (row : Look) (arguments : List Kept) (W : Memory) → Answers row arguments W W given → IsQuickAnswer row arguments W result }
{
    match given {
        Ok(answer) => Some(answer),
        Err(_) => None,
    }
}
