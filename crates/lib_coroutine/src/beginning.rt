// Coroutines that begin: the first frame of a Lua function is put on a stack of its own (lua_newthread and lua_resume of Lua 5.4's lstate.c and ldo.c).
ghost use Rattle.std.specs.Prelude.{◌≡◌, ◌∷◌, ◌≤◌, [], Some, length, map, slice_get, IfOk, OnErr};
ghost use Rattle.int_core.specs.Limits.{greatest_resumes};
ghost use Rattle.int_core.specs.Value.{a_coroutine, object};
ghost use Rattle.machine_core.specs.World.{Function};
ghost use Rattle.machine_core.specs.Moves.{new_frame};
ghost use Rattle.machine_core.specs.MachineStep.{resume_row};
ghost use Rattle.table_core.specs.declared.value.Value.TheVariants.{Func, Prim};
ghost use Rattle.lua_stack.specs.Frames.{frames};
ghost use Rattle.lua_heap.specs.declared.world.Coro.TheVariants.{Fresh};
ghost use Rattle.lua_heap.specs.Codes.{AreCodes};
ghost use Rattle.lua_heap.specs.Plain.{plain};
ghost use Rattle.lua_heap.specs.Reading.{value as meant};
ghost use Rattle.move_laws.specs.Memory.{HasStack, InOrder, IsSound, Leads, ReadsSame};
ghost use Rattle.machine_moves.specs.Ending.{ending_of};
ghost use Rattle.machine_calls.specs.Entering.{HasFunction};
ghost use Rattle.lib_coroutine.specs.Arguments.{FirstIs};

use crate::resuming::behind_first;
use crate::switching::run_fresh;
use lua_heap::World;
use lua_stack::Stack;
use machine_calls::shape_of;
use machine_moves::{Ending, take_moving};
use std::alloc::AllocError;
use table_core::{CoroId, FuncId, Value};

/// A coroutine begins: its body is called with the arguments, without a unit of the budget.
pub(crate) fn begin(world: &mut World, co: CoroId, body: Value) -> Result<Ending, AllocError>
    requires sound { IsSound world.old }
    requires running { HasStack world.old }
    requires first { FirstIs world.old (object a_coroutine co.0) }
    requires fresh { slice_get world.old.coros.objects co.0 ≡ Some (Fresh body) }
    requires few { length world.old.chain.items ≤ greatest_resumes }
    ensures leads { IfOk result (λ ending. Leads resume_row [] world.old world.new (ending_of ending)) }
    ensures order { InOrder world.new }
    ensures err { OnErr result (ReadsSame world.old world.new) }
{
    match body {
        Value::Func(id) => begin_function(world, co, id),
        Value::Prim(n) => begin_primitive(world, co, n),
        _ => unreachable!(),
    }
}

/// A coroutine begins whose body is a Lua function.
fn begin_function(world: &mut World, co: CoroId, function: FuncId) -> Result<Ending, AllocError>
    requires sound { IsSound world.old }
    requires running { HasStack world.old }
    requires first { FirstIs world.old (object a_coroutine co.0) }
    requires fresh { slice_get world.old.coros.objects co.0 ≡ Some (Fresh (Func function)) }
    requires function { HasFunction world.old function.0 }
    requires few { length world.old.chain.items ≤ greatest_resumes }
    ensures leads { IfOk result (λ ending. Leads resume_row [] world.old world.new (ending_of ending)) }
    ensures order { InOrder world.new }
    ensures err { OnErr result (ReadsSame world.old world.new) }
{
    let stack = first_stack(world, function, behind_first(&world.moving))?;
    world.chain.reserve(1)?;
    run_fresh(world, co, stack);
    take_moving(world);
    Ok(Ending::Go)
}

/// A coroutine begins whose body is a primitive, which is called next.
fn begin_primitive(world: &mut World, co: CoroId, primitive: u16) -> Result<Ending, AllocError>
    requires sound { IsSound world.old }
    requires running { HasStack world.old }
    requires first { FirstIs world.old (object a_coroutine co.0) }
    requires fresh { slice_get world.old.coros.objects co.0 ≡ Some (Fresh (Prim primitive)) }
    requires few { length world.old.chain.items ≤ greatest_resumes }
    ensures leads { IfOk result (λ ending. Leads resume_row [] world.old world.new (ending_of ending)) }
    ensures order { InOrder world.new }
    ensures err { OnErr result (ReadsSame world.old world.new) }
{
    let arguments = behind_first(&world.moving).to_vec(world.alloc)?;
    world.chain.reserve(1)?;
    run_fresh(world, co, Stack::new(world.alloc));
    world.moving = arguments;
    Ok(Ending::CallsPrimitive(primitive))
}

/// A stack with the frame of a function that is called with these arguments.
fn first_stack(world: &World, function: FuncId, arguments: &[Value]) -> Result<Stack, AllocError>
    requires codes { AreCodes world.now.strings world.now.codes }
    requires function { HasFunction world.now function.0 }
    ensures frames { IfOk result (λ stack. (f : Function) → slice_get (plain world.now 0).functions function.0 ≡ Some f → frames (meant world.now.strings) stack ≡ new_frame function.0 f.code (map (meant world.now.strings) arguments.now) ∷ []) }
    ensures closed { IfOk result (λ stack. stack.open_cells ≡ []) }
{
    let mut stack = Stack::new(world.alloc);
    stack.enter(function, shape_of(world, function), arguments)?;
    Ok(stack)
}
