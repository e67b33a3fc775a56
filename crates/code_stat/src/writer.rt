// The code of a function while its statements are written, and the jumps in it whose ends are not known yet.
ghost use Rattle.std.specs.Prelude.{◌≡◌, ◌||◌, ℕ, true, List, take, drop, length, OnOk};
ghost use Rattle.tree_core.specs.Tree.{Break};
ghost use Rattle.code_of.specs.Jumps.{Reach, leads};
ghost use Rattle.code_of.specs.Statements.{in_loop};
ghost use Rattle.code_emitter.specs.declared.emitter.Step.{Step};
ghost use Rattle.code_emitter.specs.Listing.{listed};
ghost use Rattle.code_stat.specs.Drafts.{Wrote, WroteStat, beyond, arrives, drafted, fill};

use crate::jumps::{Destination, Jump, leave_all};
use code_core::Opcode;
use code_emitter::Emitter;
use code_of::Leaving;
use code_parts::Variables;
use int_core::{Allocated, Bytes};
use std::alloc::Global;

/// What is written of a function's code.
#[derive(Drop)]
pub(crate) struct Writer {
    /// The code.
    pub(crate) emitter: Emitter,
    /// The `goto`s and `break`s in it, in the order of the text.
    pub(crate) jumps: Vec<Jump>,
    /// The local variables that were declared, in the order of the text.
    pub(crate) variables: Variables,
    /// The field C of each RETURN, and whether jumps close locals wherever they stand.
    pub(crate) back: Leaving,
    pub(crate) alloc: Global,
}

/// Writes a CLOSE and a JMP that lead nowhere yet.
fn put_closing_jump(emitter: &mut Emitter, line: u32) -> Allocated<()>
    ensures { OnOk result (emitter.new ≡ listed emitter.old (drafted true line)) }
{
    emitter.put_abc(Opcode::Close, 0, 0, 0, line)?;
    emitter.put_jump_over(0, line)?;
    Ok(())
}

/// Writes a jump that leads nowhere yet.
fn put_jump(emitter: &mut Emitter, closes: bool, line: u32) -> Allocated<()>
    ensures { OnOk result (emitter.new ≡ listed emitter.old (drafted closes line)) }
{
    if closes {
        return put_closing_jump(emitter, line);
    }
    emitter.put_jump_over(0, line)
}

impl Writer {
    /// The place of the next instruction.
    pub(crate) fn place(&self) -> usize
        ensures { result ≡ length self.now.emitter.steps }
    {
        self.emitter.steps().len()
    }

    /// Ends a loop that holds the jumps from one on and around which so many locals are in scope.
    pub(crate) fn end_loop(&mut self, first: usize, level: usize)
        ensures emitter { self.new.emitter ≡ self.old.emitter }
        ensures back { self.new.back ≡ self.old.back }
        ensures variables { self.new.variables ≡ self.old.variables }
        ensures front { take first self.new.jumps.items ≡ take first self.old.jumps.items }
        ensures leads { (reach : Reach) (xs : List Step) → fill (arrives reach) (drop first self.new.jumps.items) xs ≡ fill (arrives (in_loop reach (length self.old.emitter.steps) level)) (drop first self.old.jumps.items) xs }
    {
        let place = self.place();
        leave_all(&mut self.jumps, first, Destination { place, level });
    }

    /// Whether a jump closes the locals that it leaves, where a variable is to be closed or none is.
    pub(crate) fn closes(&self, closing: bool) -> bool
        ensures { result ≡ (self.now.back.closes || closing) }
    {
        self.back.closes || closing
    }

    /// Writes a `goto`, or a `break` where there is no label. Where it leads is not known yet.
    pub(crate) fn jump(&mut self, label: Option<Bytes>, closes: bool, line: u32) -> Allocated<()>
        ensures code { OnOk result (Wrote self.old self.new 0 (λ reach. leads closes (beyond label reach) (length self.old.emitter.steps) line)) }
        ensures variables { OnOk result (self.new.variables ≡ self.old.variables) }
    {
        let place = self.emitter.steps().len();
        put_jump(&mut self.emitter, closes, line)?;
        self.jumps.push(Jump {
            place,
            line,
            label,
            closes,
            landing: None,
            settled: false,
        })?;
        Ok(())
    }

    /// Writes `break`.
    pub(crate) fn leave_loop(&mut self, closing: bool, line: u32) -> Allocated<()>
        ensures code { (level : ℕ) → OnOk result (WroteStat self.old self.new (Break line) closing level) }
        ensures variables { OnOk result (self.new.variables ≡ self.old.variables) }
    {
        let closes = self.closes(closing);
        self.jump(None, closes, line)?;
        Ok(())
    }
}
