// A script from its code (`handle_script` of Lua's lua.c).
ghost use Rattle.std.specs.Prelude.{◌≡◌, IfOk, IsErrOf, OnErr, length};
ghost use Rattle.code_core.specs.Prototype.{list_of};
ghost use Rattle.io_edge.specs.Causes.{HasCause};
ghost use Rattle.io_edge.specs.Lines.{ahead};
ghost use Rattle.library_rows.specs.PreludeText.{prelude_functions};
ghost use Rattle.step_laws.specs.Turns.{MayGoOn};
ghost use Rattle.lua_heap.specs.Plain.{plain};
ghost use Rattle.lua_feed.specs.Closes.{close_of};
ghost use Rattle.lua_feed.specs.Faults.{is_input_fault, is_output_fault};
ghost use Rattle.lua_feed.specs.Feeding.{OnlyGrows};
ghost use Rattle.lua_feed.specs.Running.{IsBrokenOffOf, IsCutOffOf, IsFrontOf, IsRunOf, started};

use crate::fault::FeedFault;
use crate::feeding::{Close, feed};
use code_core::Checked;
use int_core::Allocated;
use io_edge::{LineReader, Sink, Source};
use lua_heap::World;
use lua_opening::{open, rules_hold};
use lua_session::begin;
use machine_runs::sessions_are_sound;
use std::alloc::Global;

/// The world of the libraries over the prelude's code, in which a script with this code has begun.
pub fn start(alloc: Global, prelude: Checked, code: Checked) -> Allocated<World>
    requires { length (list_of prelude.inner) ≡ length prelude_functions }
    ensures begun { IfOk result (λ world. plain world 0 ≡ started prelude code) }
    ensures may { IfOk result (λ world. MayGoOn world) }
{
    sessions_are_sound();
    rules_hold(&prelude);
    rules_hold(&code);
    let mut world = open(alloc, prelude)?;
    begin(&mut world, code)?;
    Ok(world)
}

/// Runs a script from its code, and feeds it with the lines of an input. The prelude's code has its functions in the order of its text.
///
/// # Errors
///
/// Those of `feed`.
pub fn run_code<S: Source, K: Sink>(
    alloc: Global,
    prelude: Checked,
    code: Checked,
    budget: u64,
    reader: &mut LineReader,
    input: &mut S,
    out: &mut K,
) -> Result<Close, FeedFault>
    requires { length (list_of prelude.inner) ≡ length prelude_functions }
    ensures runs { IfOk result (λ close. IsRunOf prelude code budget reader.old.taken (ahead reader.old (S.left input.old)) (K.written out.old) (K.written out.new) (close_of close)) }
    ensures front { OnErr result (IsFrontOf prelude code budget reader.old.taken (ahead reader.old (S.left input.old)) (K.written out.old) (K.written out.new)) }
    ensures grows { OnErr result (OnlyGrows (K.written out.old) (K.written out.new)) }
    ensures input { HasCause (S.faults input.old) (S.faults input.new) (is_input_fault result) }
    ensures output { HasCause (K.faults out.old) (K.faults out.new) (is_output_fault result) }
    ensures limit { IsErrOf result FeedFault.Limit → IsCutOffOf prelude code budget reader.old.taken (ahead reader.old (S.left input.old)) (K.written out.old) (K.written out.new) }
    ensures broken { IsErrOf result FeedFault.Input → IsBrokenOffOf prelude code budget reader.old.taken (ahead reader.old (S.left input.old)) (K.written out.old) (K.written out.new) }
{
    let mut world = start(alloc, prelude, code)?;
    let close = feed(&mut world, budget, reader, input, out)?;
    Ok(close)
}
