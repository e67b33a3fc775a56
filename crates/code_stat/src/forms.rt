// Statements that have no block, and the parts without one of those that have.
ghost use Rattle.std.specs.Prelude.{◌≡◌, Bool, ℕ, map, OnOk};
ghost use Rattle.std.specs.Option.{option_map};
ghost use Rattle.tree_core.specs.Tree.{exps, Empty, Label, Local, LocalFunction, Assign, CallStat, Goto};
ghost use Rattle.tree_core.specs.Plain.{plain_exp, plain_exps, plain_stat, plain_body};
ghost use Rattle.code_emitter.specs.Listing.{followed};
ghost use Rattle.code_stat.specs.Declares.{DeclaresStat};
ghost use Rattle.code_stat.specs.Drafts.{WroteStat};
ghost use Rattle.code_stat.specs.Forms.{range_code, made_in_range};

use crate::marks::write_marks;
use crate::ranges::{write_bounds, write_steps};
use crate::simple::{write_assign, write_call, write_local_function};
use crate::writer::Writer;
use code_emitter::{Emitter, next};
use code_expr::list;
use int_core::{Allocated, Bytes};
use tree_core::{Body, Declared, Exp, Name};

/// Writes the values of a numeric `for`. Without a step it is 1.
pub(crate) fn write_range(
    emitter: &mut Emitter,
    from: &Exp,
    limit: &Exp,
    step: &Option<Box<Exp>>,
    register: usize,
    line: u32,
) -> Allocated<()>
    ensures { OnOk result (emitter.new ≡ followed emitter.old (range_code emitter.old.constants (plain_exp from.now) (plain_exp limit.now) (option_map (λ e. plain_exp e.value) step.now) register emitter.old.made line) (made_in_range (plain_exp from.now) (plain_exp limit.now) (option_map (λ e. plain_exp e.value) step.now))) }
{
    match step {
        None => write_bounds(emitter, from, limit, register, line),
        Some(step) => write_steps(emitter, from, limit, step, register),
    }
}

impl Writer {
    /// Writes `local` names and their values.
    pub(crate) fn local(
        &mut self,
        names: &Vec<Declared>,
        values: &Vec<Exp>,
        level: usize,
        line: u32,
    ) -> Allocated<()>
        ensures code { (closing : Bool) → OnOk result (WroteStat self.old self.new (Local line names.now.items (exps (plain_exps values.now.items))) closing level) }
        ensures variables { (closing : Bool) → OnOk result (DeclaresStat self.old self.new (Local line names.now.items (exps (plain_exps values.now.items))) closing level) }
    {
        list(&mut self.emitter, values, Some(names.len()), level, line)?;
        let place = self.place();
        self.variables.declare_locals(self.alloc, names, place)?;
        write_marks(&mut self.emitter, names, level)?;
        Ok(())
    }

    /// Writes `local function`.
    pub(crate) fn local_function(&mut self, name: &Name, body: &Body, level: usize) -> Allocated<()>
        ensures code { (line : ℕ) (closing : Bool) → OnOk result (WroteStat self.old self.new (LocalFunction line name.now (plain_body body.now)) closing level) }
        ensures variables { (line : ℕ) (closing : Bool) → OnOk result (DeclaresStat self.old self.new (LocalFunction line name.now (plain_body body.now)) closing level) }
    {
        let start = next(self.place())?;
        self.variables.declare(self.alloc, name, start)?;
        write_local_function(&mut self.emitter, body, level)?;
        Ok(())
    }

    /// Writes an assignment.
    pub(crate) fn assign(
        &mut self,
        targets: &Vec<Exp>,
        values: &Vec<Exp>,
        level: usize,
        line: u32,
    ) -> Allocated<()>
        ensures variables { OnOk result (self.new.variables ≡ self.old.variables) }
        ensures code { (closing : Bool) → OnOk result (WroteStat self.old self.new (Assign line (exps (plain_exps targets.now.items)) (exps (plain_exps values.now.items))) closing level) }
    {
        write_assign(&mut self.emitter, targets, values, level, line)?;
        Ok(())
    }

    /// Writes a call that stands alone.
    pub(crate) fn call(&mut self, call: &Exp, level: usize) -> Allocated<()>
        ensures variables { OnOk result (self.new.variables ≡ self.old.variables) }
        ensures code { (line : ℕ) (closing : Bool) → OnOk result (WroteStat self.old self.new (CallStat line (plain_exp call.now)) closing level) }
    {
        write_call(&mut self.emitter, call, level)?;
        Ok(())
    }

    /// Writes `goto`.
    pub(crate) fn goto(&mut self, name: &Name, closing: bool, line: u32) -> Allocated<()>
        ensures variables { OnOk result (self.new.variables ≡ self.old.variables) }
        ensures code { (level : ℕ) → OnOk result (WroteStat self.old self.new (Goto line name.now) closing level) }
    {
        let label = Bytes::of(name.text.as_slice().to_vec(self.alloc)?);
        let closes = self.closes(closing);
        self.jump(Some(label), closes, line)?;
        Ok(())
    }
}
