// A script is fed line by line.
ghost use Rattle.std.specs.Prelude.{◌≡◌, IfOk, IsErrOf, OnErr};
ghost use Rattle.io_edge.specs.Causes.{HasCause};
ghost use Rattle.io_edge.specs.Lines.{ahead};
ghost use Rattle.lua_heap.specs.Plain.{plain};
ghost use Rattle.machine_moves.specs.Ending.{ending_of};
ghost use Rattle.move_laws.specs.Memory.{InOrder};
ghost use Rattle.step_laws.specs.Turns.{MayGoOn};
ghost use Rattle.lua_feed.specs.Closes.{close_of, closing};
ghost use Rattle.lua_feed.specs.Faults.{is_input_fault, is_output_fault};
ghost use Rattle.lua_feed.specs.Feeding.{Does, GoesOn, IsBrokenOff, IsCutOff, IsFedFront, IsFedTo, OnlyGrows};
ghost use Rattle.machine_runs.specs.Runs.{is_suspended};
ghost use Rattle.loaded_code.specs.Laws.{library};
ghost use Rattle.source_builds.specs.Readings.{AsRead};

use crate::fault::FeedFault;
use crate::writing::write_turn;
use io_edge::{LineReader, Sink, Source};
use lua_heap::World;
use lua_session::hand_line;
use machine_moves::Ending;

/// How a script closed that was fed.
#[derive(Debug, Clone, Copy, PartialEq, Eq)]
pub enum Close {
    Returned,
    Failed,
    /// A turn spent its budget.
    Spent,
    /// It yielded, and there is no further line.
    Suspended,
}

/// Does turns of a script, each with the whole budget, and hands a line of the input to each turn but the first, up to the turn in which the script
/// returns, fails or spends its budget, or to the end of the input. Each turn's printed bytes and the line that reports its end are written before the
/// next line is read.
///
/// # Errors
///
/// `Input` and `Output` where a device fails, `Limit` where the script waits for a line that is too long, or up to whose end the input is, and `Memory`. A prefix
/// of what the run on the lines prints was written then, at `Limit` all that it prints up to that line, at `Input` all that it prints on the lines that were
/// taken, and the script cannot be resumed any more.
pub fn feed<S: Source, K: Sink>(
    world: &mut World,
    budget: u64,
    reader: &mut LineReader,
    input: &mut S,
    out: &mut K,
) -> Result<Close, FeedFault>
    requires { MayGoOn world.old }
    ensures fed { IfOk result (λ close. AsRead (λ builds. IsFedTo (Does (library builds) (plain world.old 0) budget) reader.old.taken (ahead reader.old (S.left input.old)) (K.written out.old) (K.written out.new) (close_of close) world.new)) }
    ensures waits { IfOk result (λ close. close_of close ≡ is_suspended → MayGoOn world.new) }
    ensures front { OnErr result (AsRead (λ builds. IsFedFront (Does (library builds) (plain world.old 0) budget) reader.old.taken (ahead reader.old (S.left input.old)) (K.written out.old) (K.written out.new))) }
    ensures grows { OnErr result (OnlyGrows (K.written out.old) (K.written out.new)) }
    ensures input { HasCause (S.faults input.old) (S.faults input.new) (is_input_fault result) }
    ensures output { HasCause (K.faults out.old) (K.faults out.new) (is_output_fault result) }
    ensures limit { IsErrOf result FeedFault.Limit → AsRead (λ builds. IsCutOff (Does (library builds) (plain world.old 0) budget) reader.old.taken (ahead reader.old (S.left input.old)) (K.written out.old) (K.written out.new)) }
    ensures broken { IsErrOf result FeedFault.Input → AsRead (λ builds. IsBrokenOff (Does (library builds) (plain world.old 0) budget) reader.old.taken (ahead reader.old (S.left input.old)) (K.written out.old) (K.written out.new)) }
    ensures order { InOrder world.new }
{
    'turns: loop {
        let ending = write_turn(world, budget, out)?;
        if let Some(close) = close_at(ending) {
            return Ok(close);
        }
        let Some(line) = reader.next_line(input)? else {
            return Ok(Close::Suspended);
        };
        hand_line(world, line.as_slice())?;
    }
}

/// Goes on with a script that waits for a line: the first line of the input is handed over, and the script is fed then. Where the input has no line nothing is
/// done.
///
/// # Errors
///
/// Those of `feed`.
pub fn feed_on<S: Source, K: Sink>(
    world: &mut World,
    budget: u64,
    reader: &mut LineReader,
    input: &mut S,
    out: &mut K,
) -> Result<Close, FeedFault>
    requires { MayGoOn world.old }
    ensures fed { IfOk result (λ close. AsRead (λ builds. IsFedTo (GoesOn (library builds) (plain world.old 0) budget) reader.old.taken (ahead reader.old (S.left input.old)) (K.written out.old) (K.written out.new) (close_of close) world.new)) }
    ensures waits { IfOk result (λ close. close_of close ≡ is_suspended → MayGoOn world.new) }
    ensures front { OnErr result (AsRead (λ builds. IsFedFront (GoesOn (library builds) (plain world.old 0) budget) reader.old.taken (ahead reader.old (S.left input.old)) (K.written out.old) (K.written out.new))) }
    ensures grows { OnErr result (OnlyGrows (K.written out.old) (K.written out.new)) }
    ensures input { HasCause (S.faults input.old) (S.faults input.new) (is_input_fault result) }
    ensures output { HasCause (K.faults out.old) (K.faults out.new) (is_output_fault result) }
    ensures limit { IsErrOf result FeedFault.Limit → AsRead (λ builds. IsCutOff (GoesOn (library builds) (plain world.old 0) budget) reader.old.taken (ahead reader.old (S.left input.old)) (K.written out.old) (K.written out.new)) }
    ensures broken { IsErrOf result FeedFault.Input → AsRead (λ builds. IsBrokenOff (GoesOn (library builds) (plain world.old 0) budget) reader.old.taken (ahead reader.old (S.left input.old)) (K.written out.old) (K.written out.new)) }
    ensures order { InOrder world.new }
{
    let Some(line) = reader.next_line(input)? else {
        return Ok(Close::Suspended);
    };
    hand_line(world, line.as_slice())?;
    feed(world, budget, reader, input, out)
}

/// How the end of a turn closes a run, unless it is a yield.
fn close_at(ending: Ending) -> Option<Close>
    ensures { result ≡ closing (ending_of ending) }
{
    match ending {
        Ending::MainReturned => Some(Close::Returned),
        Ending::MainFailed => Some(Close::Failed),
        Ending::Spent => Some(Close::Spent),
        _ => None,
    }
}
