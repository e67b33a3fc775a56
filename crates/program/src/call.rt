// The program over its devices.
ghost use Rattle.std.specs.Prelude.{◌≡◌, ◌+◌, ◌-◌, ◌≤◌, Option, Some, IfErr, IfOk, map, string_bytes, true};
ghost use Rattle.command_words.specs.Kept.{asked};
ghost use Rattle.command_words.specs.Words.{AreShort, Command as Asked, IsAsked};
ghost use Rattle.program.specs.Faults.{status_of};
ghost use Rattle.source_builds.specs.Readings.{AsRead};
ghost use Rattle.program.specs.Program.{IsCall, IsUnread};
ghost use Rattle.program.specs.Report.{FitsFor, IsReported, LimitFitsFor, is_quiet};

use crate::checking::check_file;
use crate::compiling::compile_file;
use crate::fault::Fault;
use crate::reporting::report;
use crate::resuming::resume_file;
use crate::running::run_file;
use crate::session::Session;
use crate::working::work;
use command_words::{Command, read_words};
use io_edge::{Files, Sink, Source};
use std::alloc::Global;

/// Does what the arguments ask for: runs the script or the chunk in a file on the lines of the input, goes on with the session whose image is in a file, checks
/// the chunk in a file, compiles the script in a file into the chunk of another one, or runs a script that is work alone. A session that waits for a line at the end of the input is saved in
/// the file that is named for that. Answers the status: 0 where the script returned or the work was done, 1 where the script failed, 2 for wrong arguments,
/// 3 where the script waits for a line and there is none, 4 where a turn has spent its budget, 5 for a refused source, 6 for a device fault, 7 for input
/// past the limits on lines or an image that would be too large, 8 for a refused chunk or image, 9 for want of memory, 11 where there is no such file, and
/// 12 where the prelude is refused, or is not as it was made in an image that no call has written, and the session that went on is to be saved. What the
/// script prints with a line for each turn's end, the chunk's counts, or the line of the work, go to `out`, and the line of a status of a fault to `err`; a failed
/// write to `err` changes no status. `run` and `resume` alone read input. Where the status of one of these is 0, 1, 3 or 4, the session that ran is handed back in
/// `last`, as it stands at the end, whether it is saved or not. Once `files`, `input` or `out` has failed, none of the three is called again: at most one fault
/// of theirs is counted.
pub fn luaris<F: Files, S: Source, K: Sink, E: Sink>(
    alloc: Global,
    words: &[String],
    files: &mut F,
    input: &mut S,
    out: &mut K,
    err: &mut E,
    last: &mut Option<Session>,
) -> u8
    ensures call { (command : Option Asked) → IsAsked (map string_bytes words.now) command → AsRead (λ builds. IsCall builds command (record { faults = F.faults files.old; faults' = F.faults files.new; content = F.held files.old; content' = F.held files.new }) (record { faults = S.faults input.old; faults' = S.faults input.new; content = S.left input.old; content' = S.left input.new }) (record { faults = K.faults out.old; faults' = K.faults out.new; content = K.written out.old; content' = K.written out.new }) last.new result) }
    ensures reports { (command : Option Asked) → IsAsked (map string_bytes words.now) command → IsReported command (F.held files.old) (S.left input.old) (record { faults = E.faults err.old; faults' = E.faults err.new; content = E.written err.old; content' = E.written err.new }) result }
    ensures unread { (command : Option Asked) → IsAsked (map string_bytes words.now) command → IsUnread command input.old input.new }
    ensures once { (F.faults files.new - F.faults files.old) + (S.faults input.new - S.faults input.old) + (K.faults out.new - K.faults out.old) ≤ 1 }
{
    match perform(alloc, words, files, input, out, last) {
        Ok(status) => status,
        Err(fault) => {
            let _ = report(err, &fault);
            fault.status()
        }
    }
}

/// Does what the arguments ask for, and answers a status that has no line on standard error.
fn perform<F: Files, S: Source, K: Sink>(
    alloc: Global,
    words: &[String],
    files: &mut F,
    input: &mut S,
    out: &mut K,
    last: &mut Option<Session>,
) -> Result<u8, Fault>
    ensures call { (command : Option Asked) → IsAsked (map string_bytes words.now) command → AsRead (λ builds. IsCall builds command (record { faults = F.faults files.old; faults' = F.faults files.new; content = F.held files.old; content' = F.held files.new }) (record { faults = S.faults input.old; faults' = S.faults input.new; content = S.left input.old; content' = S.left input.new }) (record { faults = K.faults out.old; faults' = K.faults out.new; content = K.written out.old; content' = K.written out.new }) last.new (status_of result)) }
    ensures fits { (command : Option Asked) → IsAsked (map string_bytes words.now) command → IfErr result (λ fault. FitsFor command (F.held files.old) fault) }
    ensures limits { (command : Option Asked) → IsAsked (map string_bytes words.now) command → IfErr result (λ fault. LimitFitsFor command (S.left input.old) fault) }
    ensures quiet { IfOk result (λ status. is_quiet status ≡ true) }
    ensures unread { (command : Option Asked) → IsAsked (map string_bytes words.now) command → IsUnread command input.old input.new }
    ensures once { (F.faults files.new - F.faults files.old) + (S.faults input.new - S.faults input.old) + (K.faults out.new - K.faults out.old) ≤ 1 }
{
    let Some(command) = read_words(words) else {
        return Err(Fault::Words);
    };
    carry_out(alloc, command, files, input, out, last)
}

/// Does a command, and answers a status that has no line on standard error.
fn carry_out<F: Files, S: Source, K: Sink>(
    alloc: Global,
    command: Command<'_>,
    files: &mut F,
    input: &mut S,
    out: &mut K,
    last: &mut Option<Session>,
) -> Result<u8, Fault>
    requires { AreShort (asked command) }
    ensures call { AsRead (λ builds. IsCall builds (Some (asked command.entry)) (record { faults = F.faults files.old; faults' = F.faults files.new; content = F.held files.old; content' = F.held files.new }) (record { faults = S.faults input.old; faults' = S.faults input.new; content = S.left input.old; content' = S.left input.new }) (record { faults = K.faults out.old; faults' = K.faults out.new; content = K.written out.old; content' = K.written out.new }) last.new (status_of result)) }
    ensures fits { IfErr result (λ fault. FitsFor (Some (asked command.entry)) (F.held files.old) fault) }
    ensures limits { IfErr result (λ fault. LimitFitsFor (Some (asked command.entry)) (S.left input.old) fault) }
    ensures quiet { IfOk result (λ status. is_quiet status ≡ true) }
    ensures unread { IsUnread (Some (asked command.entry)) input.old input.new }
    ensures once { (F.faults files.new - F.faults files.old) + (S.faults input.new - S.faults input.old) + (K.faults out.new - K.faults out.old) ≤ 1 }
{
    match command {
        Command::Run { file, budget, save } => {
            run_file(alloc, file, budget, save, files, input, out, last)
        }
        Command::Resume {
            image,
            budget,
            save,
        } => resume_file(alloc, image, budget, save, files, input, out, last),
        Command::Check { file } => {
            check_file(alloc, file, files, out)?;
            Ok(0)
        }
        Command::Compile {
            script,
            chunk,
            strip,
        } => {
            compile_file(alloc, script, chunk, strip, files)?;
            Ok(0)
        }
        Command::Work { count } => work(alloc, count, out, last),
    }
}
