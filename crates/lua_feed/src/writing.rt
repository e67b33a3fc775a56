// A turn, and what is written of it.
ghost use Rattle.std.specs.Prelude.{◌≡◌, ◌++◌, true, IfErr, IfOk, OnErr};
ghost use Rattle.std.specs.Option.{option_map};
ghost use Rattle.io_edge.specs.Causes.{HasCause};
ghost use Rattle.lua_heap.specs.Plain.{plain};
ghost use Rattle.lua_session.specs.Report.{HaveTexts};
ghost use Rattle.machine_core.specs.Moves.{main_yielded};
ghost use Rattle.machine_moves.specs.Ending.{ending_of};
ghost use Rattle.machine_runs.specs.Runs.{is_end, turn_text};
ghost use Rattle.move_laws.specs.Memory.{InOrder};
ghost use Rattle.step_laws.specs.Turns.{MayGoOn};
ghost use Rattle.lua_driver.specs.Turns.{Turns};
ghost use Rattle.lua_feed.specs.Faults.{is_output_fault, of_output};
ghost use Rattle.lua_feed.specs.Feeding.{IsFront, OnlyGrows};
ghost use Rattle.loaded_code.specs.Laws.{library};
ghost use Rattle.source_builds.specs.Readings.{AsRead};

use crate::fault::FeedFault;
use int_core::Allocated;
use io_edge::{Sink, write_all};
use lua_driver::turn;
use lua_heap::World;
use lua_heap::law::strings_are_there;
use lua_session::report;
use machine_moves::Ending;

/// Does a turn, and writes what was printed and the line that reports the turn's end.
pub(crate) fn write_turn<K: Sink>(
    world: &mut World,
    budget: u64,
    out: &mut K,
) -> Result<Ending, FeedFault>
    requires { MayGoOn world.old }
    ensures turns { IfOk result (λ ending. AsRead (λ builds. Turns (library builds) world.old world.new budget (ending_of ending))) }
    ensures ends { IfOk result (λ ending. is_end (ending_of ending) ≡ true) }
    ensures written { IfOk result (λ ending. K.written out.new ≡ option_map (λ written. written ++ turn_text (ending_of ending) (plain world.new 0)) (K.written out.old)) }
    ensures waits { IfOk result (λ ending. ending_of ending ≡ main_yielded → MayGoOn world.new) }
    ensures front { OnErr result (AsRead (λ builds. IsFront (library builds) (plain world.old 0) budget (K.written out.old) (K.written out.new))) }
    ensures grows { OnErr result (OnlyGrows (K.written out.old) (K.written out.new)) }
    ensures cause { HasCause (K.faults out.old) (K.faults out.new) (is_output_fault result) }
    ensures kind { IfErr result (λ fault. of_output fault ≡ true) }
    ensures order { InOrder world.new }
{
    strings_are_there();
    let ending = turn(world, budget)?;
    let text = text_of_turn(world, ending)?;
    write_all(out, text.as_slice())?;
    Ok(ending)
}

/// What was printed in a turn, and the line that reports its end.
fn text_of_turn(world: &World, ending: Ending) -> Allocated<Vec<u8>>
    requires { HaveTexts world.now.strings world.now.moving.items }
    ensures { IfOk result (λ text. text.items ≡ turn_text (ending_of ending) (plain world.now 0)) }
{
    let mut text = world.printed.as_slice().to_vec(world.alloc)?;
    text.extend_from_slice(report(world, ending)?.as_slice())?;
    Ok(text)
}
