// Primitives that were called for a Lua frame, and whose arguments do not move yet (luaD_precall of ldo.c).
ghost use Rattle.std.specs.Prelude.{◌≡◌, [], IfOk, OnErr, OnOk};
ghost use Rattle.lib_base.specs.Functions.{function_row};
ghost use Rattle.load_rows.specs.Loading.{Builds};
ghost use Rattle.loaded_code.specs.Laws.{library};
ghost use Rattle.machine_core.specs.MachineStep.{look_row};
ghost use Rattle.machine_core.specs.Moves.{calls_primitive};
ghost use Rattle.machine_moves.specs.Ending.{ending_of};
ghost use Rattle.move_laws.specs.Memory.{InOrder};
ghost use Rattle.tree_core.specs.Tree.{Body};
ghost use Rattle.machine_library_calls.specs.Calls.{Begun, CallComes, IsCalled, Takes};

use crate::answering::take_answer;
use lib_base::{Function, call};
use loaded_code::loading_is_safe;
use lua_heap::World;
use machine_call_rows::PrimitiveCall;
use machine_moves::Ending;
use machine_primitives::library_function;
use running_frame::Here;
use std::alloc::AllocError;
use table_core::Value;

/// The Lua frame on top, which takes what a function gives.
#[derive(Clone, Copy, Debug)]
pub(crate) enum Taker {
    /// It has called the function, and waits at this place, as for an iterator or not.
    Caller { here: Here, iterates: bool },
    /// It stands below the frame in whose place the function was called.
    Below,
}

/// Calls the primitive: at once where it is a function of the libraries that looks at values and tables alone, and else in the next step.
pub(crate) fn call_for(
    world: &mut World,
    to: Taker,
    called: &PrimitiveCall,
) -> Result<Ending, AllocError>
    ghost begun: { Begun }
    requires called { IsCalled begun world.old called.now.number called.now.arguments }
    requires takes { Takes world.old to }
    ensures comes { IfOk result (λ ending. CallComes begun world.new (ending_of ending)) }
    ensures order { InOrder world.new }
{
    match library_function(called.number) {
        None => call_later(world, called),
        Some(function) => call_now(world, to, called, function),
    }
}

/// Calls a function that looks at values and tables alone. One that refuses its arguments is left for the next step.
fn call_now(
    world: &mut World,
    to: Taker,
    called: &PrimitiveCall,
    function: Function,
) -> Result<Ending, AllocError>
    ghost begun: { Begun }
    requires called { IsCalled begun world.old called.now.number called.now.arguments }
    requires takes { Takes world.old to }
    requires row { (builds : Builds Body) → library builds called.now.number ≡ look_row (function_row function) }
    ensures comes { IfOk result (λ ending. CallComes begun world.new (ending_of ending)) }
    ensures order { InOrder world.new }
{
    loading_is_safe();
    match call(world, function, called.arguments.as_slice()) {
        Ok(answer) => take_answer(world, to, answer),
        Err(_) => call_later(world, called),
    }
}

/// The arguments of a call move, in the place of what moved before, and the primitive is called in the next step. After a refusal nothing moves.
pub(crate) fn call_later(world: &mut World, called: &PrimitiveCall) -> Result<Ending, AllocError>
    ensures later { IfOk result (λ ending. (ending_of ending ≡ calls_primitive called.now.number) × (world.new.moving.items ≡ called.now.arguments)) }
    ensures rest { world.new ≡ record world.old { moving = world.new.moving } }
    ensures err { OnErr result (world.new.moving.items ≡ []) }
{
    replace_with(&mut world.moving, called.arguments.as_slice())?;
    Ok(Ending::CallsPrimitive(called.number))
}

/// Puts other values into a list, in the memory that it has where they fit. After a refusal it is empty.
fn replace_with(list: &mut Vec<Value>, values: &[Value]) -> Result<(), AllocError>
    ensures ok { OnOk result (list.new.items ≡ values.now) }
    ensures err { OnErr result (list.new.items ≡ []) }
{
    list.clear();
    list.extend_from_slice(values)?;
    Ok(())
}
