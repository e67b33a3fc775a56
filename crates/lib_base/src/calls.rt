// Each function by its name.
ghost use Rattle.std.specs.Prelude.{OnErr};
ghost use Rattle.pure_functions.specs.Answers.{Answers, Changes, OnlyStrings, Stands};
ghost use Rattle.lib_base.specs.Functions.{function_row};

use crate::{base, expanding, joining, lists, metatables, packing, seeking, sorting, text};
use library_arguments::Fault;
use lua_heap::World;
use pure_functions::{Answer, Function as Pure, math, over_texts, texts};
use table_core::Value;

/// The functions that look at values and tables alone: of the base library, `table`, `math`, `string` and `utf8`, and some that serve the
/// prelude alone.
#[derive(Debug, Clone, Copy, PartialEq, Eq)]
pub enum Function {
    Assert,
    CollectGarbage,
    GetMetatable,
    Next,
    RawEqual,
    RawGet,
    RawLength,
    RawSet,
    Select,
    SetMetatable,
    TypeOf,
    Pack,
    Sort,
    Math(math::Function),
    Join,
    MetaField,
    Spread,
    Text,
    Expand,
    Seek,
    OverTexts(texts::Function),
}

/// Calls a function with arguments. Tables are changed in place, and new strings change nothing that was there. An error changes no table.
///
/// # Errors
///
/// The function refuses its arguments, with a text that gets the place of the caller before it; or memory runs out.
pub fn call(world: &mut World, function: Function, arguments: &[Value]) -> Result<Answer, Fault>
    requires { Stands world.old arguments.now }
    ensures answers { Answers (function_row function) arguments.now world.old world.new result }
    ensures changes { Changes world.old world.new arguments.now }
    ensures err { OnErr result (OnlyStrings world.old world.new arguments.now) }
{
    match function {
        Function::Assert => base::assert(world, arguments),
        Function::CollectGarbage => base::collect_garbage(world, arguments),
        Function::GetMetatable => metatables::get_metatable(world, arguments),
        Function::Next => base::next(world, arguments),
        Function::RawEqual => base::raw_equal(world, arguments),
        Function::RawGet => base::raw_get(world, arguments),
        Function::RawLength => base::raw_length(world, arguments),
        Function::RawSet => base::raw_set(world, arguments),
        Function::Select => base::select(world, arguments),
        Function::SetMetatable => metatables::set_metatable(world, arguments),
        Function::TypeOf => base::type_of(world, arguments),
        Function::Pack => packing::pack(world, arguments),
        Function::Sort => sorting::sort(world, arguments),
        Function::Math(function) => pure_functions::call(world, Pure::Math(function), arguments),
        Function::Join => joining::join(world, arguments),
        Function::MetaField => metatables::meta_field(world, arguments),
        Function::Spread => lists::spread(world, arguments),
        Function::Text => text::text(world, arguments),
        Function::Expand => expanding::expand(world, arguments),
        Function::Seek => seeking::seek(world, arguments),
        Function::OverTexts(function) => over_texts(world, function, arguments),
    }
}
