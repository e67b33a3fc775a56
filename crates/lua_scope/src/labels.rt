// The labels in the blocks around a place.
ghost use Rattle.std.specs.Prelude.{◌≡◌, List, [], ◌∷◌, ◌++◌, Some, drop, map, IfOk};
ghost use Rattle.std.specs.List.{list_any};
ghost use Rattle.tree_core.specs.Tree.{stats};
ghost use Rattle.tree_core.specs.Plain.{plain_stat};
ghost use Rattle.scope_core.specs.Rules.{is_label, only_labels, find_behind, find_in, find_label, stands_before};
ghost use Rattle.lua_scope.specs.declared.labels.BlockPlace.{BlockPlace};
ghost use Rattle.lua_scope.specs.Blocks.{around_of, arounds, found_of, find_at, moved};
ghost use Rattle.lua_scope.specs.Indexed.{first_label, IsEndFrom};

use crate::index::{LabelPlace, declares_variable, end_from, index_labels, is_label};
use int_core::{Allocated, Bytes};
use std::alloc::Global;
use std::collections::HashMap;
use std::marker::Model;
use tree_core::Stat;

/// What a `goto` finds.
#[derive(Debug, Clone, Copy, PartialEq, Eq)]
pub enum Found {
    /// No label.
    Missing,
    /// One that it can go to.
    Fine,
    /// One in the scope of a variable that it would enter.
    Entering,
}

/// A block around a place.
#[derive(Clone, Copy, Drop)]
pub struct BlockPlace<'a> {
    /// All its statements.
    pub stats: &'a Vec<Stat>,
    /// How many of them stand before the place.
    pub before: usize,
    /// Where those behind the place begin.
    pub behind: usize,
    /// Whether its end is the end of its variables' scope.
    pub ends_scope: bool,
}

/// A block around a place, with an index of its labels. Contracts see the place in the block.
#[derive(Drop)]
pub struct IndexedBlock<'a> {
    place: BlockPlace<'a>,
    /// The first label of each name in the block.
    labels: HashMap<Vec<u8>, LabelPlace>,
    /// The number of the statement from which on all do nothing.
    end: usize,
}

impl<'a> Model for IndexedBlock<'a> {
    ghost use Rattle.std.specs.Prelude.{map};
    ghost use Rattle.std.specs.Coded.{codes};
    ghost use Rattle.tree_core.specs.Plain.{plain_stat};
    ghost use Rattle.tree_core.specs.contracts.tree.Stat as statement;
    ghost use Rattle.lua_scope.specs.declared.labels.BlockPlace.{BlockPlace};
    ghost use Rattle.lua_scope.specs.Indexed.{IsIndexOf, IsEndFrom};

    ghost Value = { BlockPlace };

    ghost coded = { Prim.hlevel (codes, statement.the_row.coded) };

    ghost view = { λ block. block.place };

    ghost invariant = { λ block. IsIndexOf block.labels (map plain_stat block.place.stats.now.items) × IsEndFrom block.end (map plain_stat block.place.stats.now.items) };
}

impl<'a> IndexedBlock<'a> {
    /// A block in which no place is taken yet.
    pub fn new(alloc: Global, list: &'a Vec<Stat>, ends_scope: bool) -> Allocated<IndexedBlock<'a>>
        ensures stats { IfOk result (λ block. block.stats.now.items ≡ list.now.items) }
        ensures ends { IfOk result (λ block. block.ends_scope ≡ ends_scope) }
    {
        let labels = index_labels(alloc, list)?;
        let end = end_from(list);
        let place = BlockPlace {
            stats: list,
            before: 0,
            behind: 0,
            ends_scope,
        };
        Ok(IndexedBlock { place, labels, end })
    }

    /// Goes to another place of the block.
    fn move_to(&mut self, before: usize, behind: usize)
        ensures { self.new ≡ moved self.old before behind }
    {
        self.place.before = before;
        self.place.behind = behind;
    }

    /// The first label of a name.
    fn first(&self, text: &Bytes) -> Option<LabelPlace>
        ensures { result ≡ first_label text.now 0 0 (map plain_stat self.now.stats.now.items) }
    {
        self.labels.get(text.as_slice()).copied()
    }

    /// Whether a label of a name stands before the place.
    fn has_passed(&self, text: &Bytes) -> bool
        ensures { result ≡ list_any (is_label text.now) (around_of self.now).before }
    {
        match self.first(text) {
            Some(label) => label.at < self.place.before,
            None => false,
        }
    }

    /// What a `goto` finds.
    fn find(&self, text: &Bytes) -> Found
        ensures { found_of result ≡ find_in text.now (around_of self.now) }
    {
        match self.first(text) {
            Some(label) => self.find_from(label, text),
            None => Found::Missing,
        }
    }

    /// What a `goto` finds, which looks from the first label of its name on.
    fn find_from(&self, label: LabelPlace, text: &Bytes) -> Found
        requires { first_label text.now 0 0 (map plain_stat self.now.stats.now.items) ≡ Some label }
        ensures { found_of result ≡ find_in text.now (around_of self.now) }
    {
        let passed = label.at < self.place.before;
        if passed {
            return Found::Fine;
        }
        let behind = self.place.behind;
        let start = behind.max(label.at);
        find_behind(self.place, self.end, start, behind < label.declared, text)
    }
}

/// What a `goto` finds from a statement of a block on, where a variable was declared behind the
/// `goto` and before the statement, or not.
#[tactic(auto, using(crate::proofs::Sought::next_stat, crate::proofs::Sought::no_stat))]
fn find_behind(block: BlockPlace, end: usize, start: usize, declared: bool, text: &Bytes) -> Found
    requires { IsEndFrom end (map plain_stat block.stats.now.items) }
    ensures { found_of result ≡ find_behind text.now declared block.entry.ends_scope (stats (drop start (map plain_stat block.entry.stats.now.items))) }
{
    let list = block.stats;
    let mut entered = declared;
    let mut at = start;
    while at < list.len() {
        let stat = &list[at];
        at += 1;
        if is_label(stat, text) {
            return found_at(block, end, at, entered);
        }
        entered = entered || declares_variable(stat);
    }
    Found::Missing
}

/// What a `goto` finds where its label stands just before a statement of a block.
fn found_at(block: BlockPlace, end: usize, start: usize, entered: bool) -> Found
    requires { IsEndFrom end (map plain_stat block.stats.now.items) }
    ensures { found_of result ≡ find_at entered block.entry.ends_scope (stats (drop start (map plain_stat block.entry.stats.now.items))) }
{
    if !entered {
        return Found::Fine;
    }
    if block.ends_scope && is_end(block, end, start) {
        return Found::Fine;
    }
    Found::Entering
}

/// Whether the statements of a block from one on do nothing.
fn is_end(block: BlockPlace, end: usize, start: usize) -> bool
    requires { IsEndFrom end (map plain_stat block.stats.now.items) }
    ensures { result ≡ only_labels (stats (drop start (map plain_stat block.entry.stats.now.items))) }
{
    end <= start
}

/// Goes to another place of the innermost block.
pub fn move_to(blocks: &mut Vec<IndexedBlock>, before: usize, behind: usize)
    ensures { (front : List BlockPlace) (block : BlockPlace) → blocks.old.items ≡ front ++ block ∷ [] → blocks.new.items ≡ front ++ moved block before behind ∷ [] }
{
    let count = blocks.len();
    if count == 0 {
        return;
    }
    blocks[count - 1].move_to(before, behind);
}

/// What a `goto` finds in the blocks around it.
#[tactic(auto, using(crate::proofs::Sought::missed, crate::proofs::Sought::found_fine, crate::proofs::Sought::found_entering))]
pub fn find_label(blocks: &Vec<IndexedBlock>, text: &Bytes) -> Found
    ensures { found_of result ≡ find_label text.now (arounds blocks.now.items) }
{
    let mut count = blocks.len();
    while count > 0 {
        count -= 1;
        let found = blocks[count].find(text);
        if found != Found::Missing {
            return found;
        }
    }
    Found::Missing
}

/// Whether a label of a name stands before a place, in a block around.
#[tactic(auto, using(crate::proofs::Sought::before_here, crate::proofs::Sought::before_further))]
pub fn stands_before(blocks: &Vec<IndexedBlock>, text: &Bytes) -> bool
    ensures { result ≡ stands_before text.now (arounds blocks.now.items) }
{
    let mut count = blocks.len();
    while count > 0 {
        count -= 1;
        if blocks[count].has_passed(text) {
            return true;
        }
    }
    false
}
