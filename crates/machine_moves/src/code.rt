// The code of the Lua frame on top, and its constants.
ghost use Rattle.std.specs.Prelude.{◌≡◌, [], ◌∷◌, List};
ghost use Rattle.int_core.specs.Value.{Value as Meant, shape};
ghost use Rattle.lua_heap.specs.Codes.{AreCodes};
ghost use Rattle.lua_heap.specs.Reading.{value as meant};
ghost use Rattle.machine_core.specs.Text.{read_constant as reads};
ghost use Rattle.machine_core.specs.Moves.{on_own};
ghost use Rattle.move_laws.specs.Memory.{CanDo, Makes};
ghost use Rattle.machine_moves.specs.Code.{HasCode, HasFunctionOnTop, IsCodeOnTop, IsFunctionOnTop};

use crate::chain::running_stack;
use lua_heap::{Code, Func, World, law};
use table_core::Value;

/// What is kept of the function of the Lua frame on top.
pub fn function_on_top(world: &World) -> &Func
    requires { HasFunctionOnTop world.now }
    ensures { IsFunctionOnTop world.now result.now }
{
    let function = running_stack(world).function();
    world.funcs.get(function.0)
}

/// What is kept of the code of the Lua frame on top.
pub fn code_on_top(world: &World) -> &Code
    requires codes { AreCodes world.now.strings world.now.codes }
    requires frame { HasCode world.now }
    ensures { IsCodeOnTop world.now result.now }
{
    law::checked_code_is_there();
    world.code(function_on_top(world).code)
}

/// A constant of that code.
pub fn read_constant(world: &World, n: usize) -> Value
    requires codes { AreCodes world.now.strings world.now.codes }
    requires frame { HasCode world.now }
    requires there { CanDo world.now (reads n) }
    ensures { (env : List Meant) → Makes world.now world.now (on_own (reads n)) env (meant world.now.strings result ∷ []) (shape (meant world.now.strings result)) }
{
    code_on_top(world).constants[n]
}
