// One turn of a script.
ghost use Rattle.std.specs.Prelude.{◌≡◌, true, IfOk, OnOk, length};
ghost use Rattle.library_rows.specs.Library.{all_entries};
ghost use Rattle.lua_heap.specs.Plain.{plain};
ghost use Rattle.machine_core.specs.Moves.{main_yielded};
ghost use Rattle.machine_moves.specs.Ending.{ending_of};
ghost use Rattle.machine_runs.specs.Laws.{MayTurn};
ghost use Rattle.machine_runs.specs.Runs.{is_end};
ghost use Rattle.machine_sound.specs.Sound.{Sound};
ghost use Rattle.move_laws.specs.Memory.{InOrder};
ghost use Rattle.loaded_code.specs.Laws.{library};
ghost use Rattle.source_builds.specs.Readings.{AsRead};
ghost use Rattle.step_laws.specs.Turns.{MayGoOn};
ghost use Rattle.lua_driver.specs.Turns.{Turns};

use crate::running::run;
use int_core::Allocated;
use loaded_code::loading_is_safe;
use lua_heap::World;
use lua_session::resume_main;
use machine_moves::Ending;
use machine_runs::{turns_do_not_trap, yields_leave_main_waiting};

/// One turn: the main coroutine is resumed with what moves, and steps are done until the turn ends. What is printed is the turn's own.
///
/// # Errors
///
/// Want of memory. The world is in order then, but the script cannot be resumed any more.
pub fn turn(world: &mut World, budget: u64) -> Allocated<Ending>
    requires { MayGoOn world.old }
    ensures turns { IfOk result (λ ending. AsRead (λ builds. Turns (library builds) world.old world.new budget (ending_of ending))) }
    ensures ends { IfOk result (λ ending. is_end (ending_of ending) ≡ true) }
    ensures sound { OnOk result (Sound (length all_entries) (plain world.new 0)) }
    ensures waits { IfOk result (λ ending. ending_of ending ≡ main_yielded → MayTurn (plain world.new 0)) }
    ensures order { InOrder world.new }
{
    loading_is_safe();
    turns_do_not_trap();
    yields_leave_main_waiting();
    world.printed.clear();
    let mut left = budget;
    let begun = resume_main(world)?;
    let ended = run(world, &mut left, begun)?;
    Ok(ended)
}
