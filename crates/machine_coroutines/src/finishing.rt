// Coroutines that are being closed: the `__close` methods are called one after another, each as one before it is done (luaF_close of lfunc.c;
// Lua 5.4 manual, 6.2, `coroutine.close`).
ghost use Rattle.std.specs.Prelude.{◌≡◌, ◌≤◌, [], List, IfOk, OnErr, vec_capacity};
ghost use Rattle.int_core.specs.Value.{Value as Meant};
ghost use Rattle.machine_core.specs.FrameRows.{closing_row, handed_to, unwound};
ghost use Rattle.machine_core.specs.Moves.{closing_top};
ghost use Rattle.lua_stack.specs.declared.frame.Top.TheVariants.{Closing as ClosingTop};
ghost use Rattle.move_laws.specs.Memory.{InOrder, Leads};
ghost use Rattle.machine_moves.specs.Ending.{ending_of};
ghost use Rattle.machine_moves.specs.Tops.{TopIs};
ghost use Rattle.machine_coroutines.specs.Closings.{LeavesWith};

use crate::closing::{Closing, find_close, set_error, take_closing};
use crate::endings::first_of;
use int_core::Allocated;
use lua_heap::World;
use machine_moves::{Ending, give_values, hand_over, pop_frame, take_moving};
use table_core::Value;

/// A `__close` method has returned: the next one is called, or `coroutine.close` answers. A refusal changes nothing.
pub fn close_on(world: &mut World) -> Allocated<Ending>
    requires order { InOrder world.old }
    requires closing { TopIs world.old ClosingTop }
    ensures leads { IfOk result (λ ending. Leads (handed_to closing_top) [] world.old world.new (ending_of ending)) }
    ensures order { InOrder world.new }
    ensures err { OnErr result (world.new ≡ world.old) }
{
    let room = Vec::with_capacity(world.alloc, 3)?;
    take_moving(world);
    Ok(close_next(world, room))
}

/// A `__close` method has failed: its error takes the place of the one that there was, and the next one is called, or `coroutine.close` answers.
/// A refusal changes nothing.
pub fn close_on_error(world: &mut World) -> Allocated<Ending>
    requires order { InOrder world.old }
    requires closing { TopIs world.old ClosingTop }
    ensures leads { IfOk result (λ ending. Leads (unwound closing_top) [] world.old world.new (ending_of ending)) }
    ensures order { InOrder world.new }
    ensures err { OnErr result (world.new ≡ world.old) }
{
    let error = first_of(&world.moving);
    let room = Vec::with_capacity(world.alloc, 3)?;
    take_moving(world);
    set_error(world, error);
    Ok(close_next(world, room))
}

/// The last value that is left is to be closed, by its method and with the error that there is; where none is left, `coroutine.close` answers.
/// What moves then is put into `room`.
pub fn close_next(world: &mut World, room: Vec<Value>) -> Ending
    requires order { InOrder world.old }
    requires closing { TopIs world.old ClosingTop }
    requires empty { room.items ≡ [] }
    requires room { 3 ≤ vec_capacity room }
    ensures leads { (env : List Meant) → Leads closing_row env world.old world.new (ending_of result) }
    ensures order { InOrder world.new }
{
    let mut moving = room;
    match take_closing(world) {
        Closing::One(value, error) => {
            moving.push_reserved(find_close(world, value));
            moving.push_reserved(value);
            moving.push_reserved(error);
            give_values(world, moving);
            Ending::Asks
        }
        Closing::All => {
            moving.push_reserved(Value::Bool(true));
            leave_with(world, moving)
        }
        Closing::Failed(error) => {
            moving.push_reserved(Value::Bool(false));
            moving.push_reserved(error);
            leave_with(world, moving)
        }
    }
}

/// The frame on top is left, and what moves is for the frame below.
fn leave_with(world: &mut World, answer: Vec<Value>) -> Ending
    requires order { InOrder world.old }
    requires closing { TopIs world.old ClosingTop }
    ensures leaves { LeavesWith world.old world.new answer.items (ending_of result) }
    ensures order { InOrder world.new }
{
    pop_frame(world);
    give_values(world, answer);
    hand_over(world)
}
