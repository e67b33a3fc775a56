// What comes of a coroutine's end: its resumer is answered, or the main script has ended (auxresume of lcorolib.c).
ghost use Rattle.std.specs.Prelude.{◌≡◌, ℕ, List, [], map, true, false, IfOk, OnErr};
ghost use Rattle.int_core.specs.Value.{nth};
ghost use Rattle.machine_core.specs.FrameRows.{coroutine_fails, handed_to, unwound};
ghost use Rattle.machine_core.specs.Moves.{main_returned, main_failed, no_top};
ghost use Rattle.lua_heap.specs.Reading.{value as meant};
ghost use Rattle.move_laws.specs.Memory.{HasStack, InOrder, IsSafe, Leads};
ghost use Rattle.machine_moves.specs.Ending.{ending_of};

use crate::ends::{end_coroutine, fail_coroutine, pending_values};
use int_core::Allocated;
use lua_heap::World;
use machine_moves::{Ending, give_values, hand_over, put_in_front, take_moving};
use table_core::Value;

/// A resumed coroutine has returned: it is dead, and `coroutine.resume` answers true and the results (Lua 5.4 manual, 6.2). A refusal changes nothing.
pub fn return_running(world: &mut World) -> Allocated<Ending>
    requires order { InOrder world.old }
    requires running { HasStack world.old }
    requires safe { IsSafe (handed_to (no_top false)) [] world.old }
    ensures leads { IfOk result (λ ending. Leads (handed_to (no_top false)) [] world.old world.new (ending_of ending)) }
    ensures order { InOrder world.new }
    ensures err { OnErr result (world.new ≡ world.old) }
{
    let answer = put_in_front(world.alloc, &[Value::Bool(true)], &world.moving)?;
    take_moving(world);
    end_coroutine(world);
    give_values(world, answer);
    Ok(hand_over(world))
}

/// Nothing in a resumed coroutine catches an error: the coroutine has failed, and `coroutine.resume` answers false and the error. A refusal changes
/// nothing.
pub fn fail_running(world: &mut World) -> Allocated<Ending>
    requires order { InOrder world.old }
    requires running { HasStack world.old }
    requires safe { IsSafe coroutine_fails [] world.old }
    ensures leads { IfOk result (λ ending. Leads coroutine_fails [] world.old world.new (ending_of ending)) }
    ensures order { InOrder world.new }
    ensures err { OnErr result (world.new ≡ world.old) }
{
    let error = first_of(&world.moving);
    let pending = pending_values(world)?;
    let answer = put_in_front(world.alloc, &[Value::Bool(false)], &[error])?;
    take_moving(world);
    fail_coroutine(world, error, pending);
    give_values(world, answer);
    Ok(hand_over(world))
}

/// The main script has returned, and its results move.
pub fn return_from_main(world: &mut World) -> Ending
    requires order { InOrder world.old }
    requires running { HasStack world.old }
    ensures leads { Leads (handed_to (no_top true)) [] world.old world.new (ending_of result) }
    ensures ends { ending_of result ≡ main_returned }
    ensures order { InOrder world.new }
{
    end_coroutine(world);
    Ending::MainReturned
}

/// The main script has failed, and the error moves. A refusal changes nothing.
pub fn fail_main(world: &mut World) -> Allocated<Ending>
    requires order { InOrder world.old }
    requires running { HasStack world.old }
    ensures leads { IfOk result (λ ending. Leads (unwound (no_top true)) [] world.old world.new (ending_of ending)) }
    ensures ends { IfOk result (λ ending. ending_of ending ≡ main_failed) }
    ensures order { InOrder world.new }
    ensures err { OnErr result (world.new ≡ world.old) }
{
    let error = first_of(&world.moving);
    let pending = pending_values(world)?;
    let answer = put_in_front(world.alloc, &[error], &[])?;
    take_moving(world);
    give_values(world, answer);
    fail_coroutine(world, error, pending);
    Ok(Ending::MainFailed)
}

/// The first value, or nil.
pub fn first_of(values: &[Value]) -> Value
    ensures { (texts : List (List ℕ)) → meant texts result ≡ nth (map (meant texts) values.now) 0 }
{
    match values.split_first() {
        Some((first, _)) => *first,
        None => Value::Nil,
    }
}
