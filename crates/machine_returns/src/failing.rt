// Functions that are left by an error (luaD_throw and luaD_closeprotected of ldo.c).
ghost use Rattle.std.specs.Prelude.{◌≡◌, [], IfOk, List, OnErr, map};
ghost use Rattle.int_core.specs.Value.{Value as Meant};
ghost use Rattle.lua_heap.specs.Reading.{value as meant};
ghost use Rattle.machine_core.specs.InstructionRows.{fails};
ghost use Rattle.machine_core.specs.FrameRows.{goes_on_by, unwound};
ghost use Rattle.machine_core.specs.Moves.{lua_top};
ghost use Rattle.move_laws.specs.Memory.{HasFrame, InOrder, Leads, ReadsSame};
ghost use Rattle.machine_moves.specs.Ending.{ending_of};
ghost use Rattle.machine_returns.specs.Waking.{IsSolid};
ghost use Rattle.machine_returns.specs.Failing.{first_or};

use crate::closables::ask_to_close;
use crate::leaving::leave_with_error;
use int_core::Allocated;
use lua_heap::World;
use lua_stack::Wait;
use machine_calls::Prepared;
use machine_moves::{Ending, see_pending, take_moving};
use table_core::Value;

/// An error reaches the Lua frame on top, which is left with it. A refusal leaves all that stands there as it was.
pub fn unwind_function(world: &mut World) -> Allocated<Ending>
    requires solid { IsSolid world.old }
    requires frame { HasFrame world.old }
    ensures leads { IfOk result (λ ending. Leads (unwound lua_top) [] world.old world.new (ending_of ending)) }
    ensures order { InOrder world.new }
    ensures err { OnErr result (ReadsSame world.old world.new) }
{
    let moved = take_moving(world);
    match fail_with(world, &moved) {
        Ok(ending) => Ok(ending),
        Err(refusal) => {
            world.moving = moved;
            Err(refusal)
        }
    }
}

/// The Lua frame on top is left with the first of these values as its error. The last of its variables that is still to be closed is closed first, by
/// its method in a step of its own; without an error its value stands for one. A refusal changes nothing.
pub fn fail_with(world: &mut World, moved: &[Value]) -> Allocated<Ending>
    requires solid { IsSolid world.old }
    requires frame { HasFrame world.old }
    ensures leads { IfOk result (λ ending. Leads (goes_on_by fails) (map (meant world.old.strings) moved.now) world.old world.new (ending_of ending)) }
    ensures order { InOrder world.new }
    ensures err { OnErr result (world.new ≡ world.old) }
{
    let Some(v) = see_pending(world, 0) else {
        return leave_with_error(world, first_or(moved, Value::Nil));
    };
    let error = first_or(moved, v);
    ask_to_close(world, v, error, Wait::Leaving(error), Prepared::LeftSo)
}

/// The first of some values, or another one where there is none.
fn first_or(values: &[Value], other: Value) -> Value
    ensures { result ≡ first_or values.now other }
{
    match values.split_first() {
        Some((first, _)) => *first,
        None => other,
    }
}
