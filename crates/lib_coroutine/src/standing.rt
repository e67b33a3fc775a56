// How coroutines stand (luaB_costatus of lcorolib.c).
ghost use Rattle.std.specs.Prelude.{◌≡◌, ◌≤◌, [], length, IfOk, OnErr};
ghost use Rattle.int_core.specs.Value.{greatest_string};
ghost use Rattle.machine_core.specs.MachineStep.{status_row, status_word};
ghost use Rattle.move_laws.specs.Memory.{InOrder, Leads};
ghost use Rattle.machine_moves.specs.Ending.{ending_of};
ghost use Rattle.machine_coroutines.specs.Standing.{status_in};
ghost use Rattle.lib_coroutine.specs.Arguments.{IsCalledOn};

use lua_heap::World;
use machine_coroutines::{Status, see_status};
use machine_moves::{Ending, give_values, hand_over};
use std::alloc::AllocError;
use table_core::{CoroId, Value};

/// Answers how a coroutine stands.
pub(crate) fn answer_status(world: &mut World, co: CoroId) -> Result<Ending, AllocError>
    requires { IsCalledOn world.old co }
    ensures leads { IfOk result (λ ending. Leads status_row [] world.old world.new (ending_of ending)) }
    ensures order { InOrder world.new }
    ensures err { OnErr result (world.new ≡ world.old) }
{
    let mut answer = Vec::with_capacity(world.alloc, 1)?;
    let word = world.intern(word_of(see_status(world, co)))?;
    answer.push_reserved(Value::Str(word));
    give_values(world, answer);
    Ok(hand_over(world))
}

/// The word for it.
fn word_of(status: Status) -> &'static [u8]
    ensures word { result.now ≡ status_word (status_in status) }
    ensures short { length result.now ≤ greatest_string }
{
    match status {
        Status::Suspended => b"suspended",
        Status::Running => b"running",
        Status::Normal => b"normal",
        Status::Dead => b"dead",
    }
}
