// The session of an image goes on with the lines of the input.
ghost use Rattle.std.specs.Prelude.{◌≡◌, ◌+◌, ◌-◌, ◌≤◌, ◌⊎◌, List, ℕ, IfErr, IfOk, length, option_map, true};
ghost use Rattle.code_core.specs.Prototype.{list_of};
ghost use Rattle.library_rows.specs.PreludeText.{prelude_functions};
ghost use Rattle.step_laws.specs.Turns.{MayGoOn};
ghost use Rattle.lua_heap.specs.Plain.{plain};
ghost use Rattle.lua_saving.specs.Saving.{HasYielded, IsSession};
ghost use Rattle.program.specs.Devices.{Holds};
ghost use Rattle.program.specs.Faults.{status_of};
ghost use Rattle.program.specs.Outcomes.{IsNoSessionFor};
ghost use Rattle.program.specs.Report.{ImageFits, LimitFits, is_quiet};
ghost use Rattle.program.specs.Resuming.{IsResume};
ghost use Rattle.source_builds.specs.Readings.{AsRead};
ghost use Rattle.program.specs.Sessions.{functions_of};

use crate::fault::Fault;
use crate::refusing::fault_of_reading;
use crate::saving::leave_session;
use crate::session::{Session, state_at};
use code_core::Checked;
use io_edge::{Files, LineReader, Sink, Source};
use lua_feed::feed_on;
use lua_heap::World;
use lua_saving::load_session;
use machine_runs::runs_are_one;
use prelude_code::prelude_code;
use std::alloc::Global;

/// Goes on with the session whose image is in a file, on the lines of the input, each turn with the whole budget, saves it in the file that is named for that where
/// it waits for a line then, and answers a status that has no line on standard error.
pub fn resume_file<F: Files, S: Source, K: Sink>(
    alloc: Global,
    name: &str,
    budget: u64,
    save: Option<&str>,
    files: &mut F,
    input: &mut S,
    out: &mut K,
    last: &mut Option<Session>,
) -> Result<u8, Fault>
    ensures resume { AsRead (λ builds. IsResume builds name.now budget (option_map (λ image. image.now) save.entry) (record { faults = F.faults files.old; faults' = F.faults files.new; content = F.held files.old; content' = F.held files.new }) (record { faults = S.faults input.old; faults' = S.faults input.new; content = S.left input.old; content' = S.left input.new }) (record { faults = K.faults out.old; faults' = K.faults out.new; content = K.written out.old; content' = K.written out.new }) last.new (status_of result)) }
    ensures fits { (content : List ℕ) → Holds (F.held files.old) name.now content → IfErr result (λ fault. ImageFits content fault) }
    ensures limits { IfErr result (λ fault. LimitFits (S.left input.old) fault) }
    ensures quiet { IfOk result (λ status. is_quiet status ≡ true) }
    ensures once { (F.faults files.new - F.faults files.old) + (S.faults input.new - S.faults input.old) + (K.faults out.new - K.faults out.old) ≤ 1 }
{
    runs_are_one();
    let content = files.get(alloc, name)?;
    let prelude = prelude_code(alloc)?;
    let mut world = session_in(alloc, prelude, content.as_slice())?;
    let mut reader = LineReader::new(alloc)?;
    let close = feed_on(&mut world, budget, &mut reader, input, out)?;
    let answer = leave_session(&world, close, save, files);
    *last = Some(Session {
        world,
        state: state_at(close),
    });
    answer
}

/// The session whose image some bytes are.
fn session_in(alloc: Global, prelude: Checked, content: &[u8]) -> Result<World, Fault>
    requires { length (list_of prelude.inner) ≡ length prelude_functions }
    ensures session { IfOk result (λ world. IsSession (functions_of prelude) content.now (plain world 0)) }
    ensures yielded { IfOk result (λ world. HasYielded (plain world 0)) }
    ensures may { IfOk result (λ world. MayGoOn world) }
    ensures refused { IfErr result (λ fault. IsNoSessionFor prelude content.now fault ⊎ (fault ≡ Fault.Memory)) }
{
    match load_session(alloc, prelude, content) {
        Ok(world) => Ok(world),
        Err(fault) => Err(fault_of_reading(alloc, fault)),
    }
}
