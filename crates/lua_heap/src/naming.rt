// The names of types.
ghost use Rattle.std.specs.Prelude.{◌≡◌, ℕ, List};
ghost use Rattle.int_core.specs.Operations.{type_name};
ghost use Rattle.int_core.specs.Value.{shape};
ghost use Rattle.lua_heap.specs.Reading.{value};

use table_core::Value;

/// The word that `type` has for a value (Lua 5.4 manual, 6.1).
pub fn type_name(v: Value) -> &'static [u8]
    ensures { (texts : List (List ℕ)) → result.now ≡ type_name (shape (value texts v)) }
{
    match v {
        Value::Nil => b"nil",
        Value::Bool(_) => b"boolean",
        Value::Int(_) => b"number",
        Value::Str(_) => b"string",
        Value::Prim(_) | Value::Func(_) => b"function",
        Value::Table(_) => b"table",
        Value::Coro(_) => b"thread",
    }
}
