// Functions that are entered (luaD_precall of ldo.c).
ghost use Rattle.std.specs.Prelude.{◌≡◌, ◌+◌, ◌≤◌, true, false, length, map, nat_le, IfOk, OnErr};
ghost use Rattle.int_core.specs.Limits.{greatest_depth};
ghost use Rattle.int_core.specs.Value.{a_function, object};
ghost use Rattle.lua_heap.specs.Cells.{CellsAreListed};
ghost use Rattle.lua_heap.specs.Codes.{AreCodes};
ghost use Rattle.lua_heap.specs.Reading.{value as meant};
ghost use Rattle.lua_stack.specs.Frames.{Enters};
ghost use Rattle.move_laws.specs.Memory.{HasStack};
ghost use Rattle.machine_calls.specs.Entering.{EntersSo, HasFunction, HasShape, entered_or_not};
ghost use Rattle.machine_calls.specs.Waiting.{IsFull};

use int_core::Allocated;
use lua_heap::{Coro, World, law};
use lua_stack::{GREATEST_DEPTH, Shape, Stack};
use machine_moves::{running, running_stack_mut};
use table_core::{FuncId, Value};

/// Enters a function with these arguments, and says whether there was room. Where there is none, and where memory is wanting, all is as before.
pub fn enter_function(world: &mut World, function: FuncId, arguments: &[Value]) -> Allocated<bool>
    requires running { HasStack world.old }
    requires codes { AreCodes world.old.strings world.old.codes }
    requires function { HasFunction world.old function.0 }
    ensures enters { IfOk result (λ room. EntersSo world.old world.new (object a_function function.0) (map (meant world.old.strings) arguments.now) (entered_or_not room)) }
    ensures running { HasStack world.new }
    ensures listed { CellsAreListed world.old → CellsAreListed world.new }
    ensures rest { world.new ≡ record world.old { coros = world.new.coros } }
    ensures err { OnErr result (world.new ≡ world.old) }
{
    let shape = shape_of(world, function);
    enter_stack(running_stack_mut(world), function, shape, arguments)
}

/// What a call needs to know of a function's code.
pub fn shape_of(world: &World, function: FuncId) -> Shape
    requires codes { AreCodes world.now.strings world.now.codes }
    requires function { HasFunction world.now function.0 }
    ensures { HasShape world.now function.0 result }
{
    law::checked_code_is_there();
    let code = world.code(world.funcs.get(function.0).code);
    Shape {
        params: code.params as usize,
        vararg: code.vararg,
        stack: code.stack as usize,
    }
}

/// Puts a function's frame on top of a stack that has room for one.
fn enter_stack(
    stack: &mut Stack,
    function: FuncId,
    shape: Shape,
    arguments: &[Value],
) -> Allocated<bool>
    requires { shape.params ≤ shape.stack }
    ensures room { IfOk result (λ room. room ≡ nat_le (length stack.old.frames + 1) greatest_depth) }
    ensures entered { IfOk result (λ room. room ≡ true → Enters stack.old stack.new function shape arguments.now) }
    ensures kept { IfOk result (λ room. room ≡ false → stack.new ≡ stack.old) }
    ensures cells { stack.new.open_cells ≡ stack.old.open_cells }
    ensures err { OnErr result (stack.new ≡ stack.old) }
{
    if stack.len() >= GREATEST_DEPTH {
        return Ok(false);
    }
    stack.enter(function, shape, arguments)?;
    Ok(true)
}

/// Whether the running stack has as many frames as it may have.
pub fn is_full(world: &World) -> bool
    requires { HasStack world.now }
    ensures { IsFull world.now result }
{
    match world.coros.get(running(world).0) {
        Coro::Running(stack) => stack.len() >= GREATEST_DEPTH,
        _ => unreachable!(),
    }
}
