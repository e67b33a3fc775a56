// A script that is work alone runs.
ghost use Rattle.std.specs.Prelude.{◌≡◌, ◌-◌, ◌≤◌, ◌++◌, IfErr, IfOk, codes, decimal, true};
ghost use Rattle.lua_feed.specs.Closes.{close_of};
ghost use Rattle.work_script.specs.Script.{work_script as text_of};
ghost use Rattle.program.specs.Faults.{status_of};
ghost use Rattle.program.specs.Report.{ScriptFits, is_quiet};
ghost use Rattle.program.specs.Sessions.{status_of_close};
ghost use Rattle.program.specs.Working.{IsWork};
ghost use Rattle.source_builds.specs.Readings.{AsRead};

use crate::checking::write_output;
use crate::fault::Fault;
use crate::no_input::NoInput;
use crate::session::{Session, state_at};
use compile_chunk::code_of;
use io_edge::{LineReader, Sink};
use itoa::Buffer;
use lua_feed::{Close, feed, start};
use lua_opening::rules_hold;
use machine_runs::runs_are_one;
use prelude_code::prelude_code;
use scripts_mean::{prelude_is_alike, scripts_do_as_they_mean};
use std::alloc::{AllocError, Global};
use work_script::work_script;

/// How many calls and jumps back each turn may do.
const BUDGET: u64 = 10_000_000;

/// Runs the script of so many functions, without input, and writes then how many functions and bytes it has. Answers a status that has no line on
/// standard error.
pub fn work<K: Sink>(
    alloc: Global,
    count: u32,
    out: &mut K,
    last: &mut Option<Session>,
) -> Result<u8, Fault>
    ensures work { AsRead (λ builds. IsWork builds count (record { faults = K.faults out.old; faults' = K.faults out.new; content = K.written out.old; content' = K.written out.new }) last.new (status_of result)) }
    ensures fits { IfErr result (λ fault. ScriptFits (text_of count) fault) }
    ensures quiet { IfOk result (λ status. is_quiet status ≡ true) }
    ensures once { K.faults out.new - K.faults out.old ≤ 1 }
{
    runs_are_one();
    scripts_do_as_they_mean();
    prelude_is_alike();
    let prelude = prelude_code(alloc)?;
    let script = work_script(alloc, count)?;
    let code = code_of(alloc, b"work", script.as_slice(), true)?;
    rules_hold(&code);
    let line = line_of_work(alloc, count, script.len())?;
    let mut reader = LineReader::new(alloc)?;
    let mut world = start(alloc, prelude, code)?;
    let close = feed(&mut world, BUDGET, &mut reader, &mut NoInput, out)?;
    *last = Some(Session {
        world,
        state: state_at(close),
    });
    write_output(out, line.as_slice())?;
    status_at(close)
}

/// The line that tells how many functions and bytes a script has.
fn line_of_work(alloc: Global, count: u32, bytes: usize) -> Result<Vec<u8>, AllocError>
    ensures { IfOk result (λ line. line.items ≡ codes "work " ++ (decimal count ++ (codes " " ++ (decimal bytes ++ codes "\n")))) }
{
    let mut line = Vec::from_slice(alloc, b"work ")?;
    line.extend_from_slice(Buffer::new().format(count).as_bytes())?;
    line.extend_from_slice(b" ")?;
    line.extend_from_slice(Buffer::new().format(bytes).as_bytes())?;
    line.extend_from_slice(b"\n")?;
    Ok(line)
}

/// The status of a session that closed.
fn status_at(close: Close) -> Result<u8, Fault>
    ensures status { status_of result ≡ status_of_close (close_of close) }
    ensures quiet { IfOk result (λ status. is_quiet status ≡ true) }
    ensures spent { IfErr result (λ fault. fault ≡ Fault.Spent) }
{
    match close {
        Close::Returned => Ok(0),
        Close::Failed => Ok(1),
        Close::Suspended => Ok(3),
        Close::Spent => Err(Fault::Spent),
    }
}
