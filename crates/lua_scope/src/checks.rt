// The rules on one part of a tree.
ghost use Rattle.std.specs.Prelude.{◌≡◌, ◌+◌, ◌||◌, false, nat_lt};
ghost use Rattle.tree_core.specs.Tree.{MoreExps, EndExps, exps};
ghost use Rattle.tree_core.specs.Plain.{plain_exp, plain_exps, plain_stat};
ghost use Rattle.scope_core.specs.Parts.{Statement};
ghost use Rattle.scope_core.specs.Rules.{breach, locals, target_violations, attrib_breach, attrib_violations, goto_violations, stat_violations, part_violations, is_close};
ghost use Rattle.lua_scope.specs.Met.{meet_all, met_declared};
ghost use Rattle.lua_scope.specs.Blocks.{scope_at, found_of};

use crate::labels::{Found, IndexedBlock, find_label, stands_before};
use scope_core::{Least, Nesting, Violation, held_by_stat};
use tree_core::{Attrib, Declared, Exp, ExpNode, Stat, StatNode};

/// What a place in a function is to the rules besides its variables and blocks.
#[derive(Debug, Clone, Copy, PartialEq, Eq)]
pub struct Flags {
    /// Whether a loop of the function stands around it.
    pub in_loop: bool,
    /// Whether the function takes `...`.
    pub is_vararg: bool,
}

/// Takes a violation where a condition holds.
pub fn meet_where(least: &mut Least, holds: bool, line: u32, rule: u8)
    ensures { least.new.violation ≡ meet_all least.old.violation (breach holds line rule) }
{
    if holds {
        least.meet(Violation { line, rule });
    }
}

/// The limit on the variables in scope, where one was declared.
#[tactic(auto, using(crate::proofs::Meeting::own_locals))]
pub fn check_declared(nesting: &Nesting, least: &mut Least, line: u32)
    ensures { least.new.violation ≡ met_declared nesting.now least.old.violation line }
{
    meet_where(least, nesting.count() > 200, line, 9);
}

/// The limit on values that are held at once.
#[tactic(auto, using(crate::proofs::Meeting::own_locals, crate::proofs::Meeting::capped))]
pub fn check_held(nesting: &Nesting, least: &mut Least, line: u32, held: u32)
    ensures { least.new.violation ≡ meet_all least.old.violation (breach (nat_lt 250 (locals nesting.now + held)) line 11) }
{
    let most = nesting.count().min(1000) as u32 + held.min(1000);
    meet_where(least, most > 250, line, 11);
}

/// The rules on a statement.
pub fn check_stat(
    nesting: &Nesting,
    flags: Flags,
    blocks: &Vec<IndexedBlock>,
    least: &mut Least,
    stat: &Stat,
)
    ensures { least.new.violation ≡ meet_all least.old.violation (part_violations (scope_at nesting.now blocks.now.items flags) (Statement (plain_stat stat.now))) }
{
    check_form(nesting, flags, blocks, least, stat);
    check_held(nesting, least, stat.line, held_by_stat(stat));
}

/// The rules on a statement of its form.
#[tactic(auto, using(tree_core::proofs::Rows::exps_of, crate::proofs::Rows::block_tokens))]
fn check_form(
    nesting: &Nesting,
    flags: Flags,
    blocks: &Vec<IndexedBlock>,
    least: &mut Least,
    stat: &Stat,
)
    ensures { least.new.violation ≡ meet_all least.old.violation (stat_violations (scope_at nesting.now blocks.now.items flags) (plain_stat stat.now)) }
{
    match &stat.node {
        StatNode::Assign(targets, _) => check_targets(nesting, least, targets),
        StatNode::Local(names, _) => check_attribs(least, names),
        StatNode::Goto(name) => check_goto(least, find_label(blocks, &name.text), stat.line),
        StatNode::Label(name) => meet_where(least, stands_before(blocks, &name.text), stat.line, 3),
        StatNode::Break => meet_where(least, !flags.in_loop, stat.line, 5),
        StatNode::NumFor(_, _, _, _, block) => meet_where(
            least,
            block.tokens > 16000,
            stat.line,
            12,
        ),
        StatNode::GenFor(_, _, block) => meet_where(least, block.tokens > 16000, stat.line, 12),
        StatNode::Empty | StatNode::LocalFunction(_, _) | StatNode::Call(_) => {}
        StatNode::Do(_) | StatNode::While(_, _) | StatNode::Repeat(_, _) | StatNode::If(_, _) => {}
    }
}

/// The rules on what a `goto` finds.
fn check_goto(least: &mut Least, found: Found, line: u32)
    ensures { least.new.violation ≡ meet_all least.old.violation (goto_violations line (found_of found)) }
{
    match found {
        Found::Missing => meet_where(least, true, line, 2),
        Found::Fine => {}
        Found::Entering => meet_where(least, true, line, 4),
    }
}

/// The rule on the targets of an assignment.
fn check_targets(nesting: &Nesting, least: &mut Least, targets: &Vec<Exp>)
    ensures { least.new.violation ≡ meet_all least.old.violation (target_violations nesting.now (exps (plain_exps targets.now.items))) }
{
    for target in targets.iter() {
        check_target(nesting, least, target);
    }
}

/// The rule on one target.
fn check_target(nesting: &Nesting, least: &mut Least, target: &Exp)
    ensures { least.new.violation ≡ meet_all least.old.violation (target_violations nesting.now (MoreExps (plain_exp target.now) EndExps)) }
{
    match &target.node {
        ExpNode::Var(name) => meet_where(least, nesting.names_fixed(&name.text), name.line, 1),
        _ => {}
    }
}

/// The rules on the attributes of a `local`.
fn check_attribs(least: &mut Least, names: &Vec<Declared>)
    ensures { least.new.violation ≡ meet_all least.old.violation (attrib_violations false names.now.items) }
{
    let mut closed = false;
    for declared in names.iter() {
        check_attrib(least, closed, &declared.attrib, declared.attrib_line);
        closed = either(closed, is_close(&declared.attrib));
    }
}

/// Whether one of two conditions holds.
fn either(one: bool, other: bool) -> bool
    ensures { result ≡ (one || other) }
{
    one || other
}

/// Whether an attribute is `close`.
fn is_close(attrib: &Attrib) -> bool
    ensures { result ≡ is_close attrib.now }
{
    matches!(attrib, Attrib::Close)
}

/// The rules on an attribute, before which the declaration has a `close` or not.
fn check_attrib(least: &mut Least, closed: bool, attrib: &Attrib, line: u32)
    ensures { least.new.violation ≡ meet_all least.old.violation (attrib_breach closed attrib.now line) }
{
    match attrib {
        Attrib::Close => meet_where(least, closed, line, 6),
        Attrib::Other(_) => meet_where(least, true, line, 7),
        Attrib::Plain | Attrib::Const => {}
    }
}
