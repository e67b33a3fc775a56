// Steps of the machine up to the end of a turn.
ghost use Rattle.std.specs.Prelude.{◌≡◌, true, IfOk, length};
ghost use Rattle.library_rows.specs.Library.{all_entries};
ghost use Rattle.machine_runs.specs.Runs.{is_end};
ghost use Rattle.move_laws.specs.Memory.{InOrder};
ghost use Rattle.machine_moves.specs.Ending.{ending_of};
ghost use Rattle.step_laws.specs.Steps.{IsReady};
ghost use Rattle.loaded_code.specs.Laws.{library};
ghost use Rattle.source_builds.specs.Readings.{AsRead};
ghost use Rattle.lua_driver.specs.Turns.{GoesFurther, Reaches};

use crate::returning::step_on;
use int_core::Allocated;
use loaded_code::loading_is_safe;
use lua_heap::World;
use machine_ends::steps_fall;
use machine_moves::Ending;
use machine_step::step;
use running_frame::run_ahead;
use step_laws::law::steps_stay_ready;

/// Does steps until the turn ends. It ends, since each step makes a measure of the world smaller. Where memory runs out the world is in order, but not
/// between two turns.
#[inline(never)]
pub fn run(world: &mut World, budget: &mut u64, begun: Ending) -> Allocated<Ending>
    requires ready { IsReady (length all_entries) (ending_of begun) world.old }
    ensures reaches { IfOk result (λ ended. AsRead (λ builds. Reaches (library builds) (ending_of begun) world.old budget.old world.new budget.new (ending_of ended))) }
    ensures ends { IfOk result (λ ended. is_end (ending_of ended) ≡ true) }
    ensures ready { IfOk result (λ ended. IsReady (length all_entries) (ending_of ended) world.new) }
    ensures order { InOrder world.new }
{
    steps_fall();
    loading_is_safe();
    steps_stay_ready();
    let mut ending = begun;
    'turn: while !ends_turn(ending) {
        ending = go_further(world, budget, ending)?;
    }
    Ok(ending)
}

/// Does the step after an ending. Where a Lua frame goes on, it first runs as long as it does so by itself.
#[inline(always)]
fn go_further(world: &mut World, budget: &mut u64, ending: Ending) -> Allocated<Ending>
    requires { IsReady (length all_entries) (ending_of ending) world.old }
    ensures goes { IfOk result (λ next. AsRead (λ builds. GoesFurther (library builds) (ending_of ending) world.old budget.old world.new budget.new (ending_of next))) }
    ensures order { InOrder world.new }
{
    if let Ending::Go = ending {
        let here = run_ahead(world, budget);
        return step_on(world, budget, here);
    }
    step(world, budget, ending)
}

/// Whether a turn ends so.
fn ends_turn(ending: Ending) -> bool
    ensures { result ≡ is_end (ending_of ending) }
{
    match ending {
        Ending::Spent => true,
        Ending::MainYielded => true,
        Ending::MainReturned => true,
        Ending::MainFailed => true,
        Ending::Go => false,
        Ending::Returned => false,
        Ending::Asks => false,
        Ending::CallsPrimitive(_) => false,
        Ending::Raised => false,
        Ending::Unwinding => false,
    }
}
