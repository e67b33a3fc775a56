// The code of a whole function.
ghost use Rattle.std.specs.Prelude.{◌≡◌, true, false, OnOk, IfOk, length, map};
ghost use Rattle.tree_core.specs.Plain.{plain_block, plain_body};
ghost use Rattle.code_of.specs.Levels.{made_in_block};
ghost use Rattle.code_emitter.specs.Listing.{steps};
ghost use Rattle.code_parts.specs.Scopes.{over};
ghost use Rattle.code_stat.specs.Declares.{DeclaresWhole};
ghost use Rattle.code_stat.specs.Drafts.{Wrote, arrives, landing, or_nowhere, put_jump};
ghost use Rattle.code_stat.specs.Whole.{filled, function_of, led, made_in_body, nowhere, variables_in, whole_from};

use crate::jumps::{Destination, Jump};
use crate::returns::put_leaving;
use crate::writer::Writer;
use code_constants::Constants;
use code_core::Opcode;
use code_emitter::{Emitter, next};
use code_of::Leaving;
use code_parts::{Variables, back_field, makes_functions, put_opening};
use int_core::Allocated;
use std::alloc::Global;
use tree_core::{Block, Body};

/// The code of a function, and its local variables.
#[derive(Drop)]
pub struct Written {
    /// The code.
    pub emitter: Emitter,
    /// The variables, all of whose scopes have ended.
    pub variables: Variables,
}

/// Where a jump leads. No tree that keeps the rules has a jump to nowhere, which leads to the start.
#[tactic(auto, using(crate::proofs::Filling::lands_somewhere, crate::proofs::Filling::lands_nowhere))]
fn destination(jump: &Jump) -> Destination
    ensures { landing result ≡ or_nowhere (arrives nowhere jump.now) }
{
    match jump.landing {
        Some(landing) => landing,
        None => Destination { place: 0, level: 0 },
    }
}

/// Puts the CLOSE and the JMP of a jump in their places.
fn lead_closing(emitter: &mut Emitter, jump: &Jump, to: Destination) -> Allocated<()>
    ensures { OnOk result (emitter.new ≡ record { constants = emitter.old.constants; steps = put_jump true (landing to) jump.now.place jump.now.line emitter.old.steps; made = emitter.old.made }) }
{
    let behind = next(jump.place)?;
    emitter.set_abc(jump.place, Opcode::Close, to.level, 0, 0, jump.line);
    emitter.set_jump(behind, to.place, jump.line)?;
    Ok(())
}

/// Puts the instructions of a jump in their places.
fn lead(emitter: &mut Emitter, jump: &Jump) -> Allocated<()>
    ensures { OnOk result (emitter.new ≡ led emitter.old jump.now) }
{
    let to = destination(jump);
    if jump.closes {
        return lead_closing(emitter, jump, to);
    }
    emitter.set_jump(jump.place, to.place, jump.line)
}

impl Writer {
    /// Puts all jumps in their places.
    fn lead_all(&mut self) -> Allocated<()>
        ensures code { OnOk result (self.new.emitter ≡ filled self.old.emitter self.old.jumps.items) }
        ensures variables { OnOk result (self.new.variables ≡ self.old.variables) }
    {
        let mut left = self.jumps.len();
        while left > 0 {
            left -= 1;
            lead(&mut self.emitter, &self.jumps[left])?;
        }
        Ok(())
    }

    /// Writes the block of a function with so many parameters.
    fn whole(&mut self, block: &Block, params: usize) -> Allocated<()>
        ensures variables { OnOk result (DeclaresWhole self.old self.new (plain_block block.now) params) }
        ensures code { OnOk result (Wrote self.old self.new (made_in_block (plain_block block.now)) (λ reach. whole_from self.old.emitter.constants self.old.back (plain_block block.now) params self.old.emitter.made (length self.old.emitter.steps) reach)) }
    {
        match &block.result {
            None => {
                let first = self.variables.count();
                let end = self.statements(&block.stats, true, false, 0, params)?;
                let back = self.back.back;
                let emitter = &mut self.emitter;
                put_leaving(emitter, Opcode::Return, end.level, 1, back, block.line)?;
                let place = self.place();
                self.variables.end_scopes(first, place)?;
                Ok(())
            }
            Some(_) => {
                self.block(block, false, 0, params)?;
                Ok(())
            }
        }
    }
}

/// Writes the code of a function, whose constants are these, with its local variables.
pub fn write_body(alloc: Global, constants: Constants, body: &Body) -> Allocated<Written>
    ensures code { IfOk result (λ written. written.emitter ≡ record { constants = constants; steps = steps (function_of constants (plain_body body.now)); made = made_in_body (plain_body body.now) }) }
    ensures variables { IfOk result (λ written. written.variables ≡ map over (variables_in constants (plain_body body.now))) }
{
    let params = body.params.len();
    let field = back_field(body.vararg, params)?;
    let closes = makes_functions(alloc, &body.block)?;
    let back = Leaving {
        back: field,
        closes,
    };
    let mut writer = Writer {
        emitter: Emitter::new(alloc, constants),
        jumps: Vec::new(alloc),
        variables: Variables::new(alloc),
        back,
        alloc,
    };
    writer.variables.declare_names(alloc, &body.params, 0)?;
    put_opening(&mut writer.emitter, body.vararg, params, body.line)?;
    writer.whole(&body.block, params)?;
    let end = writer.place();
    writer.variables.end_scopes(0, end)?;
    writer.lead_all()?;
    let Writer {
        emitter,
        variables,
        ..
    } = writer;
    Ok(Written { emitter, variables })
}
