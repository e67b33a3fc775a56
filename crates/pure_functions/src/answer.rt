// What the functions give.
ghost use Rattle.std.specs.Prelude.{◌≡◌, IfOk, drop, map};
ghost use Rattle.library_rows.specs.Look.{done};
ghost use Rattle.lua_heap.specs.Reading.{value};
ghost use Rattle.lua_heap.specs.declared.world.World.{World as Memory};
ghost use Rattle.pure_functions.specs.Answers.{IsArgument, told, heap_of};

use std::alloc::{AllocError, Global};
use table_core::Value;

/// What a library function gives, where it neither refuses its arguments nor wants for memory.
#[derive(Debug, Drop)]
pub enum Answer {
    /// One result, which takes no memory.
    One(Value),
    /// Two results, which take no memory.
    Two(Value, Value),
    /// Its results.
    Gives(Vec<Value>),
    /// An error whose value is handed on as it is.
    Raises(Value),
}

/// The argument of a place, from 0; nil where there is none.
pub fn argument(arguments: &[Value], at: usize) -> Value
    ensures { IsArgument arguments.now at result }
{
    match arguments.get(at) {
        Some(argument) => *argument,
        None => Value::Nil,
    }
}

/// All arguments from a place on, from 0.
pub fn all_from(alloc: Global, arguments: &[Value], from: usize) -> Result<Answer, AllocError>
    ensures { IfOk result (λ answer. (W : Memory) → told W answer ≡ done (heap_of W) (drop from (map (value W.strings) arguments.now))) }
{
    let (_, rest) = arguments.split_at(from.min(arguments.len()));
    let results = rest.to_vec(alloc)?;
    Ok(Answer::Gives(results))
}
