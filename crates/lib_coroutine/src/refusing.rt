// First arguments, and those of another type than is wanted (luaL_typeerror of lauxlib.c and getco of lcorolib.c).
ghost use Rattle.std.specs.Prelude.{◌≡◌, List, IfOk, OnErr};
ghost use Rattle.int_core.specs.Value.{Value as Meant, shape};
ghost use Rattle.lua_heap.specs.Reading.{value as meant};
ghost use Rattle.machine_core.specs.FrameRows.{blames};
ghost use Rattle.machine_core.specs.MachineStep.{wrong_type};
ghost use Rattle.move_laws.specs.Memory.{InOrder, IsSound, Leads};
ghost use Rattle.machine_moves.specs.Ending.{ending_of};
ghost use Rattle.lib_coroutine.specs.Arguments.{can_be_called, coroutine_in};

use library_arguments::Refusal;
use lua_heap::{World, type_name};
use machine_errors::blame;
use machine_moves::Ending;
use std::alloc::AllocError;
use table_core::{CoroId, Value};

/// The coroutine that a value is, where it is one.
pub(crate) fn coroutine_of(v: Value) -> Option<CoroId>
    ensures { result ≡ coroutine_in v }
{
    match v {
        Value::Coro(co) => Some(co),
        _ => None,
    }
}

/// Whether a value is a function.
pub(crate) fn can_be_called(v: Value) -> bool
    ensures { result ≡ can_be_called v }
{
    match v {
        Value::Func(_) => true,
        Value::Prim(_) => true,
        _ => false,
    }
}

/// The error of a first argument that has another type than is wanted. A refusal of memory changes nothing.
pub(crate) fn refuse(
    world: &mut World,
    function: &'static [u8],
    wanted: &'static [u8],
    got: Value,
) -> Result<Ending, AllocError>
    requires { IsSound world.old }
    ensures leads { IfOk result (λ ending. (env : List Meant) → Leads (blames (wrong_type 1 function.now wanted.now (shape (meant world.old.strings got)))) env world.old world.new (ending_of ending)) }
    ensures order { InOrder world.new }
    ensures err { OnErr result (world.new ≡ world.old) }
{
    let refusal = Refusal::WrongType {
        place: 1,
        function,
        wanted,
        got: type_name(got),
    };
    let text = refusal.text(world.alloc)?;
    blame(world, &text)
}
