// Labels (Lua 5.4 manual, 3.3.4).
ghost use Rattle.std.specs.Prelude.{◌≡◌, ◌&&◌, List, [], ◌∷◌, cond, nat_le, take, drop, OnOk};
ghost use Rattle.tree_core.specs.Plain.{plain_stat};
ghost use Rattle.code_of.specs.Jumps.{Visible, Reach};
ghost use Rattle.code_of.specs.Statements.{passed_after};
ghost use Rattle.code_emitter.specs.declared.emitter.Step.{Step};
ghost use Rattle.code_stat.specs.Drafts.{landing, newest_first, leads_to, fill};
ghost use Rattle.code_stat.specs.Forms.{ahead_with};

use crate::jumps::{Destination, Jump, Passed, meet_all};
use int_core::{Allocated, Bytes};
use std::alloc::Global;
use tree_core::{Name, Stat, StatNode};

/// A block while its statements are written.
#[derive(Clone, Copy, Debug, PartialEq, Eq)]
pub(crate) struct Frame {
    /// Whether its end is reached by falling off its statements.
    pub(crate) falls: bool,
    /// How many locals are in scope around it.
    pub(crate) outer: usize,
    /// The number of the statement from which on all are void.
    pub(crate) void_from: usize,
}

impl Frame {
    /// How many locals are in scope at a label, for a `goto` that stands before it: those around
    /// the block where only void statements follow, from the one of number `behind` on.
    pub(crate) fn level_at(self, behind: usize, level: usize) -> usize
        ensures { result ≡ cond (self.falls && nat_le self.void_from behind) self.outer level }
    {
        if self.falls && self.void_from <= behind {
            return self.outer;
        }
        level
    }
}

/// Keeps a label that was passed.
fn keep(alloc: Global, passed: &mut Vec<Passed>, name: &Name, here: Destination) -> Allocated<()>
    ensures { OnOk result (newest_first passed.new.items [] ≡ record { name = name.now.text; landing = landing here } ∷ newest_first passed.old.items []) }
{
    let copy = Bytes::of(name.text.as_slice().to_vec(alloc)?);
    passed.push(Passed {
        name: copy,
        landing: here,
    })?;
    Ok(())
}

/// Lets the jumps of a block from the first one on lead to a statement that is a label, where
/// `level` locals are in scope for them, and keeps the label.
pub(crate) fn meet_label(
    alloc: Global,
    jumps: &mut Vec<Jump>,
    passed: &mut Vec<Passed>,
    first: usize,
    stat: &Stat,
    here: Destination,
    level: usize,
) -> Allocated<()>
    ensures passed { OnOk result (newest_first passed.new.items [] ≡ passed_after (plain_stat stat.now) here.level here.place (newest_first passed.old.items [])) }
    ensures front { OnOk result (take first jumps.new.items ≡ take first jumps.old.items) }
    ensures leads { OnOk result ((ahead : List Visible) (reach : Reach) (xs : List Step) → fill (leads_to ahead reach) (drop first jumps.new.items) xs ≡ fill (leads_to (ahead_with (plain_stat stat.now) here.place level ahead) reach) (drop first jumps.old.items) xs) }
{
    match &stat.node {
        StatNode::Label(name) => {
            let end = Destination {
                place: here.place,
                level,
            };
            meet_all(jumps, first, &name.text, end);
            keep(alloc, passed, name, here)?;
            Ok(())
        }
        _ => Ok(()),
    }
}
