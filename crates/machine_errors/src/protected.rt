// What reaches the frames of `pcall` and `xpcall` (luaB_pcall and luaB_xpcall of lbaselib.c; Lua 5.4 manual, 6.1).
ghost use Rattle.std.specs.Prelude.{◌≡◌, List, IfOk, OnErr};
ghost use Rattle.int_core.specs.Value.{Value as Meant};
ghost use Rattle.lua_heap.specs.Cells.{CellsAreListed};
ghost use Rattle.machine_core.specs.FrameRows.{caught, handed_to};
ghost use Rattle.machine_core.specs.Moves.{pcall_top};
ghost use Rattle.move_laws.specs.Memory.{InOrder, Leads};
ghost use Rattle.machine_moves.specs.Tops.{HasOther};
ghost use Rattle.machine_moves.specs.Ending.{ending_of};
ghost use Rattle.machine_errors.specs.Protected.{AnswersWith, first_of};

use int_core::Allocated;
use lua_heap::World;
use machine_moves::{Ending, give_values, hand_over, pop_frame, put_in_front, take_moving};
use table_core::Value;

/// Results reach the frame of a `pcall` or an `xpcall`: it answers true and the results. A refusal changes nothing.
pub fn answer_results(world: &mut World) -> Allocated<Ending>
    requires order { InOrder world.old }
    requires frame { HasOther world.old }
    ensures leads { IfOk result (λ ending. (env : List Meant) → Leads (handed_to pcall_top) env world.old world.new (ending_of ending)) }
    ensures order { InOrder world.new }
    ensures err { OnErr result (world.new ≡ world.old) }
{
    let answer = put_in_front(world.alloc, &[Value::Bool(true)], &world.moving)?;
    Ok(answer_with(world, answer))
}

/// An error reaches it: it answers false and the error. A refusal changes nothing.
pub fn answer_error(world: &mut World) -> Allocated<Ending>
    requires order { InOrder world.old }
    requires frame { HasOther world.old }
    ensures leads { IfOk result (λ ending. (env : List Meant) → Leads caught env world.old world.new (ending_of ending)) }
    ensures order { InOrder world.new }
    ensures err { OnErr result (world.new ≡ world.old) }
{
    let error = first_of(&world.moving);
    let answer = put_in_front(world.alloc, &[Value::Bool(false)], &[error])?;
    Ok(answer_with(world, answer))
}

/// The frame on top is left with an answer.
fn answer_with(world: &mut World, answer: Vec<Value>) -> Ending
    requires { HasOther world.old }
    ensures answers { AnswersWith world.old world.new answer.items (ending_of result) }
    ensures listed { CellsAreListed world.old → CellsAreListed world.new }
    ensures rest { world.new ≡ record world.old { coros = world.new.coros; moving = world.new.moving } }
{
    take_moving(world);
    pop_frame(world);
    give_values(world, answer);
    hand_over(world)
}

/// The first value, or nil.
pub(crate) fn first_of(values: &[Value]) -> Value
    ensures { result ≡ first_of values.now }
{
    match values.split_first() {
        Some((first, _)) => *first,
        None => Value::Nil,
    }
}
