// The code in a file runs on the lines of the input.
ghost use Rattle.std.specs.Prelude.{◌≡◌, ◌+◌, ◌-◌, ◌≤◌, ◌⊎◌, List, ℕ, IfErr, IfOk, length, option_map, true};
ghost use Rattle.program.specs.Checking.{begins_chunk};
ghost use Rattle.program.specs.Devices.{Holds};
ghost use Rattle.program.specs.Faults.{status_of};
ghost use Rattle.program.specs.Outcomes.{IsCodeIn, IsNoCodeFor};
ghost use Rattle.program.specs.Report.{CodeFits, LimitFits, is_quiet};
ghost use Rattle.program.specs.Running.{IsRun};
ghost use Rattle.source_builds.specs.Readings.{AsRead};

use crate::checking::checked_chunk;
use crate::compiling::source_name;
use crate::fault::Fault;
use crate::saving::leave_session;
use crate::session::{Session, state_at};
use code_core::Checked;
use compile_chunk::{code_of, script_in};
use io_edge::{Files, LineReader, Sink, Source};
use loaded_code::loading_is_safe;
use lua_feed::{feed, start};
use lua_opening::rules_hold;
use machine_runs::runs_are_one;
use prelude_code::prelude_code;
use prelude_stays::runs_have_the_prelude;
use scripts_mean::{prelude_is_alike, scripts_do_as_they_mean};
use std::alloc::Global;

/// Runs the script or the chunk in a file on the lines of the input, each turn with the whole budget, saves its session in the file that is named for that where it
/// waits for a line then, and answers a status that has no line on standard error.
pub fn run_file<F: Files, S: Source, K: Sink>(
    alloc: Global,
    name: &str,
    budget: u64,
    save: Option<&str>,
    files: &mut F,
    input: &mut S,
    out: &mut K,
    last: &mut Option<Session>,
) -> Result<u8, Fault>
    requires short { length name.now ≤ 65536 }
    ensures run { AsRead (λ builds. IsRun builds name.now budget (option_map (λ image. image.now) save.entry) (record { faults = F.faults files.old; faults' = F.faults files.new; content = F.held files.old; content' = F.held files.new }) (record { faults = S.faults input.old; faults' = S.faults input.new; content = S.left input.old; content' = S.left input.new }) (record { faults = K.faults out.old; faults' = K.faults out.new; content = K.written out.old; content' = K.written out.new }) last.new (status_of result)) }
    ensures fits { (content : List ℕ) → Holds (F.held files.old) name.now content → IfErr result (λ fault. CodeFits content fault) }
    ensures limits { IfErr result (λ fault. LimitFits (S.left input.old) fault) }
    ensures quiet { IfOk result (λ status. is_quiet status ≡ true) }
    ensures once { (F.faults files.new - F.faults files.old) + (S.faults input.new - S.faults input.old) + (K.faults out.new - K.faults out.old) ≤ 1 }
{
    runs_are_one();
    scripts_do_as_they_mean();
    prelude_is_alike();
    loading_is_safe();
    runs_have_the_prelude();
    let content = files.get(alloc, name)?;
    let prelude = prelude_code(alloc)?;
    let code = code_in(alloc, name, content.as_slice())?;
    rules_hold(&code);
    let mut reader = LineReader::new(alloc)?;
    let mut world = start(alloc, prelude, code)?;
    let close = feed(&mut world, budget, &mut reader, input, out)?;
    let answer = leave_session(&world, close, save, files);
    *last = Some(Session {
        world,
        state: state_at(close),
    });
    answer
}

/// The code in a file: that of the chunk with which its bytes begin, where the first of them is that of a chunk, and else that of the script in it, under
/// the file's name and with lines.
fn code_in(alloc: Global, name: &str, content: &[u8]) -> Result<Checked, Fault>
    requires short { length name.now ≤ 65536 }
    ensures code { IfOk result (λ code. IsCodeIn name.now content.now code) }
    ensures refused { IfErr result (λ fault. IsNoCodeFor content.now fault ⊎ (fault ≡ Fault.Memory)) }
{
    if begins_chunk(content) {
        return checked_chunk(alloc, content);
    }
    let source = source_name(alloc, name)?;
    Ok(code_of(alloc, source.as_slice(), script_in(content), true)?)
}

/// Whether the first byte is that of a chunk.
fn begins_chunk(content: &[u8]) -> bool
    ensures { result ≡ begins_chunk content.now }
{
    match content {
        [first, ..] => *first == 0x1b,
        [] => false,
    }
}
