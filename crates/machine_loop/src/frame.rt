// The loop over the instructions of the frame that runs.
ghost use Rattle.std.specs.Prelude.{◌≡◌, IfNone, IfSome};
ghost use Rattle.machine_arms_tables.specs.Frame.{IsReadyAt, AreOpenAlike, RunsTo, code, moment};
ghost use Rattle.machine_loop.specs.Knowing.{AllHold};
ghost use Rattle.machine_loop.specs.Running.{Running, StepsOnce};

use crate::around::go_around;
use crate::decoding::opcode_in;
use crate::memo::Memo;
use code_core::fetch;
use lua_heap::{Cell, Strings};
use machine_arms_tables::{Closure, run_instruction};
use machine_ends::steps_fall;
use object_pool::Pool;
use table_core::{Table, Value};

/// Runs one instruction, and answers where the frame goes on. `None`, with all as before, where the instruction takes more than the frame.
#[inline(always)]
fn step_frame(
    closure: Closure,
    strings: &Strings,
    tables: &mut Pool<Table>,
    cells: &mut Pool<Cell>,
    registers: &mut [Value],
    pc: usize,
    fuel: &mut u64,
) -> Option<usize>
    ghost g: { Running }
    requires { IsReadyAt g.around g.string_metatable (code closure strings.now) (moment tables.old.objects cells.old.objects registers.old pc fuel.old) }
    ensures once { IfSome result (λ to. StepsOnce g (code closure.entry strings.now) (moment tables.old.objects cells.old.objects registers.old pc fuel.old) (moment tables.new.objects cells.new.objects registers.new to fuel.new)) }
    ensures tables { IfNone result (tables.new ≡ tables.old) }
    ensures cells { IfNone result (cells.new ≡ cells.old) }
    ensures registers { IfNone result (registers.new ≡ registers.old) }
    ensures unpaid { IfNone result (fuel.new ≡ fuel.old) }
{
    let i = fetch(closure.words, pc);
    let op = opcode_in(i)?;
    run_instruction(op, closure, strings, tables, cells, registers, i, pc, fuel)
}

/// Runs one instruction, or does a read, a comparison or a store that looks beyond the frame or beyond a value itself, and answers where the frame goes on. `None`,
/// with all as before, at any other instruction.
#[inline(always)]
fn go_on(
    closure: Closure,
    strings: &Strings,
    tables: &mut Pool<Table>,
    cells: &mut Pool<Cell>,
    registers: &mut [Value],
    memo: &Memo,
    pc: usize,
    fuel: &mut u64,
) -> Option<usize>
    ghost g: { Running }
    requires ready { IsReadyAt g.around g.string_metatable (code closure strings.now) (moment tables.old.objects cells.old.objects registers.old pc fuel.old) }
    requires known { AllHold g.around closure.upvalues.now cells.old.objects memo.now }
    ensures once { IfSome result (λ to. StepsOnce g (code closure.entry strings.now) (moment tables.old.objects cells.old.objects registers.old pc fuel.old) (moment tables.new.objects cells.new.objects registers.new to fuel.new)) }
    ensures tables { IfNone result (tables.new ≡ tables.old) }
    ensures cells { IfNone result (cells.new ≡ cells.old) }
    ensures registers { IfNone result (registers.new ≡ registers.old) }
    ensures unpaid { IfNone result (fuel.new ≡ fuel.old) }
{
    match step_frame(closure, strings, tables, cells, registers, pc, fuel) {
        Some(to) => Some(to),
        None => go_around(closure, strings, tables, cells, registers, memo, pc),
    }
}

/// Runs instructions of the frame on top from the place `start` on, and tells where it stops: at one that takes more than the frame. It does stop, since each
/// step of the machine comes nearer to the end of the turn. The world's frame stands there, and is ready for a step of any kind: what the loop did is some
/// steps. Of variables in frames below, of which it has no registers, it reads those whose values are known, of fields those that handlers which are tables lead
/// to as well, and it stores to those of tables whose metatables have no handler for stores.
#[inline(never)]
pub fn run_frame(
    closure: Closure,
    strings: &Strings,
    tables: &mut Pool<Table>,
    cells: &mut Pool<Cell>,
    registers: &mut [Value],
    memo: &Memo,
    start: usize,
    fuel: &mut u64,
) -> usize
    ghost g: { Running }
    requires ready { IsReadyAt g.around g.string_metatable (code closure strings.now) (moment tables.old.objects cells.old.objects registers.old start fuel.old) }
    requires known { AllHold g.around closure.upvalues.now cells.old.objects memo.now }
    ensures runs { RunsTo g.around g.string_metatable (moment tables.old.objects cells.old.objects registers.old start fuel.old) (moment tables.new.objects cells.new.objects registers.new result fuel.new) }
    ensures opened { AreOpenAlike cells.old.objects cells.new.objects }
    ensures ready { IsReadyAt g.around g.string_metatable (code closure.entry strings.now) (moment tables.new.objects cells.new.objects registers.new result fuel.new) }
{
    steps_fall();
    let mut pc = start;
    'rounds: loop {
        let Some(next) = go_on(closure, strings, tables, cells, registers, memo, pc, fuel) else {
            return pc;
        };
        pc = next;
    }
}
