// Results that reach the frame on top (luaD_poscall of ldo.c, and what calls a function by lua_call there).
ghost use Rattle.std.specs.Prelude.{◌≡◌, [], IfOk, OnErr};
ghost use Rattle.lua_heap.specs.Plain.{plain};
ghost use Rattle.machine_core.specs.FrameRows.{handed_to, results_row};
ghost use Rattle.machine_core.specs.Moves.{no_top, runs_main};
ghost use Rattle.move_laws.specs.Memory.{HasStack, InOrder, IsSafe, Leads};
ghost use Rattle.machine_moves.specs.Ending.{ending_of};

use int_core::Allocated;
use lua_heap::World;
use lua_stack::Top;
use machine_coroutines::{close_on, return_from_main, return_running};
use machine_errors::{answer_handler, answer_results};
use machine_moves::{Ending, see_top};

/// Results reach the frame on top, or are what the running coroutine ends with. A refusal changes nothing.
pub fn hand_results(world: &mut World) -> Allocated<Ending>
    requires order { InOrder world.old }
    requires safe { IsSafe results_row [] world.old }
    ensures leads { IfOk result (λ ending. Leads results_row [] world.old world.new (ending_of ending)) }
    ensures order { InOrder world.new }
    ensures err { OnErr result (world.new ≡ world.old) }
{
    match see_top(world) {
        Top::Lua => Ok(Ending::Go),
        Top::Pcall => answer_results(world),
        Top::Xpcall(_) => answer_results(world),
        Top::Handler => answer_handler(world),
        Top::Closing => close_on(world),
        Top::Missing => end_with_results(world),
    }
}

/// The running coroutine ends with results.
fn end_with_results(world: &mut World) -> Allocated<Ending>
    requires order { InOrder world.old }
    requires running { HasStack world.old }
    requires safe { IsSafe (handed_to (no_top (runs_main (plain world.old 0)))) [] world.old }
    ensures leads { IfOk result (λ ending. Leads (handed_to (no_top (runs_main (plain world.old 0)))) [] world.old world.new (ending_of ending)) }
    ensures order { InOrder world.new }
    ensures err { OnErr result (world.new ≡ world.old) }
{
    if runs_main(world) {
        return Ok(return_from_main(world));
    }
    return_running(world)
}

/// Whether the main coroutine runs.
pub(crate) fn runs_main(world: &World) -> bool
    ensures { result ≡ runs_main (plain world.now 0) }
{
    world.chain.len() == 1
}
