// What is in scope behind statements.
ghost use Rattle.std.specs.Prelude.{◌≡◌, ◌||◌, ℕ, IfOk, cond, false, map, drop, nat_le};
ghost use Rattle.tree_core.specs.Tree.{stats};
ghost use Rattle.tree_core.specs.Plain.{plain_stat};
ghost use Rattle.tree_terms.specs.Labels.{are_void};
ghost use Rattle.code_of.specs.Levels.{closing_after, closings_after, has_closed};
ghost use Rattle.tree_terms.specs.Levels.{level_after};
ghost use Rattle.code_stat.specs.Forms.{is_void};

use crate::marks::is_closed;
use crate::stores::behind;
use code_emitter::next;
use int_core::Allocated;
use tree_core::{Declared, Stat, StatNode};

/// How many locals are in scope, and whether a variable is to be closed.
#[derive(Clone, Copy, Debug, PartialEq, Eq)]
pub(crate) struct Scope {
    /// How many locals there are.
    pub(crate) level: usize,
    /// Whether one is to be closed.
    pub(crate) closing: bool,
}

/// Whether a declaration has a variable to be closed.
fn has_closed(names: &Vec<Declared>) -> bool
    ensures { result ≡ has_closed names.now.items }
{
    for declared in names.iter() {
        if is_closed(&declared.attrib) {
            return true;
        }
    }
    false
}

/// How many locals are in scope behind a statement.
pub(crate) fn level_after(stat: &Stat, level: usize) -> Allocated<usize>
    ensures { IfOk result (λ n. n ≡ level_after (plain_stat stat.now) level) }
{
    match &stat.node {
        StatNode::Local(names, _) => behind(level, names.len()),
        StatNode::LocalFunction(_, _) => next(level),
        StatNode::Empty
        | StatNode::Assign(_, _)
        | StatNode::Call(_)
        | StatNode::Do(_)
        | StatNode::While(_, _)
        | StatNode::Repeat(_, _)
        | StatNode::If(_, _)
        | StatNode::NumFor(_, _, _, _, _)
        | StatNode::GenFor(_, _, _)
        | StatNode::Label(_)
        | StatNode::Goto(_)
        | StatNode::Break => Ok(level),
    }
}

/// Whether a variable is to be closed behind a statement.
pub(crate) fn closing_after(stat: &Stat, closing: bool) -> bool
    ensures { result ≡ closing_after (plain_stat stat.now) closing }
{
    match &stat.node {
        StatNode::Local(names, _) => closing || has_closed(names),
        _ => closing,
    }
}

/// Whether statements declare a variable to be closed.
fn has_marked(list: &Vec<Stat>) -> bool
    ensures { result ≡ closings_after (stats (map plain_stat list.now.items)) false }
{
    for stat in list.iter() {
        if closing_after(stat, false) {
            return true;
        }
    }
    false
}

/// The number below which locals are closed at the end of a scope, around which `outer` of `level` locals are in scope. Where no function is made in
/// it and none of its variables is to be closed, there are none from `outer` on.
pub(crate) fn closed_below(list: &Vec<Stat>, makes: bool, outer: usize, level: usize) -> usize
    ensures { result ≡ cond (makes || closings_after (stats (map plain_stat list.now.items)) false) level outer }
{
    if makes || has_marked(list) {
        return level;
    }
    outer
}

/// The number of the statement from which on all in a list are void.
pub(crate) fn void_from(list: &Vec<Stat>) -> usize
    ensures { (i : ℕ) → are_void (stats (map plain_stat (drop i list.now.items))) ≡ nat_le result i }
{
    let mut from = list.len();
    while from > 0 {
        if !is_void(&list[from - 1]) {
            return from;
        }
        from -= 1;
    }
    0
}

/// Whether a statement is void.
fn is_void(stat: &Stat) -> bool
    ensures { result ≡ is_void (plain_stat stat.now) }
{
    matches!(&stat.node, StatNode::Empty | StatNode::Label(_))
}

/// What is in scope behind a statement.
pub(crate) fn scope_after(stat: &Stat, scope: Scope) -> Allocated<Scope>
    ensures level { IfOk result (λ s. s.level ≡ level_after (plain_stat stat.now) scope.level) }
    ensures closing { IfOk result (λ s. s.closing ≡ closing_after (plain_stat stat.now) scope.closing) }
{
    let level = level_after(stat, scope.level)?;
    let closing = closing_after(stat, scope.closing);
    Ok(Scope { level, closing })
}
