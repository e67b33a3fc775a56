// Items of a constructor (Lua 5.4 manual, 3.4.9). Those during whose evaluation nothing is asked wait in registers behind the table's, and are stored together.
ghost use Rattle.std.specs.Prelude.{◌≡◌, ◌+◌, true, [], OnOk, IfOk, cond};
ghost use Rattle.tree_core.specs.Plain.{plain_exp};
ghost use Rattle.code_of.specs.Expressions.{exp_code, made_by, set_list, waiting_code};
ghost use Rattle.code_of.specs.Items.{is_own, waits, is_full};
ghost use Rattle.code_emitter.specs.Listing.{listed, followed};
ghost use Rattle.code_expr.specs.Parts.{so_many, held_code, item_behind, one_item};

use crate::expressions::expression;
use crate::lists::{item_field, stored_field};
use crate::literals::is_literal;
use code_emitter::{Emitter, next};
use int_core::Allocated;
use std::alloc::AllocError;
use tree_core::{Exp, ExpNode, Name, Place, UnOp};

/// How many items of a constructor are stored, and how many wait.
#[derive(Clone, Copy, Debug, PartialEq, Eq)]
pub(crate) struct Items {
    /// How many are stored.
    pub(crate) stored: usize,
    /// How many wait in the registers behind the table's.
    pub(crate) waiting: usize,
}

/// The sum of two numbers. For as many things as `usize` counts there is no memory.
pub(crate) fn plus(first: usize, second: usize) -> Allocated<usize>
    ensures { IfOk result (λ n. n ≡ first + second) }
{
    first.checked_add(second).ok_or(AllocError)
}

/// Whether a name is that of a local variable.
fn is_own(name: &Name) -> bool
    ensures { result ≡ is_own name.now.place }
{
    matches!(name.place, Place::Local(_))
}

/// Whether an item waits.
fn waits(exp: &Exp) -> bool
    ensures { result ≡ waits (plain_exp exp.now) }
{
    match &exp.node {
        ExpNode::Var(name) => is_own(name),
        ExpNode::Unary(UnOp::Not, inner) => waits(inner),
        ExpNode::Unary(_, _) => false,
        ExpNode::Paren(inner) => waits(inner),
        _ => is_literal(exp),
    }
}

/// Whether the items that wait are stored behind one with which there are so many.
fn is_full(items: usize) -> bool
    ensures { result ≡ is_full items }
{
    items % 50 == 0
}

/// Stores the items that wait, behind those that are stored.
pub(crate) fn store_items(
    emitter: &mut Emitter,
    items: Items,
    target: usize,
    line: u32,
) -> Allocated<()>
    ensures { OnOk result (emitter.new ≡ listed emitter.old (waiting_code items.stored items.waiting target line)) }
{
    if items.waiting == 0 {
        return Ok(());
    }
    emitter.set_list(target, items.waiting, items.stored, line)?;
    Ok(())
}

/// Stores the items that wait if there are as many as are stored at once, and answers how many there are then.
fn store_full(emitter: &mut Emitter, items: Items, target: usize, line: u32) -> Allocated<Items>
    ensures code { OnOk result (emitter.new ≡ listed emitter.old (cond (is_full (items.stored + items.waiting)) (set_list target items.waiting items.stored line) [])) }
    ensures items { IfOk result (λ n. n ≡ cond (is_full (items.stored + items.waiting)) (so_many (items.stored + items.waiting) 0) items) }
{
    let count = plus(items.stored, items.waiting)?;
    if !is_full(count) {
        return Ok(items);
    }
    emitter.set_list(target, items.waiting, items.stored, line)?;
    Ok(Items {
        stored: count,
        waiting: 0,
    })
}

/// Writes an item, of which all values are wanted or the first one, and answers how many there are then. One that does
/// not wait is stored by itself, behind those that do.
#[cycle(expressions)]
pub(crate) fn item(
    emitter: &mut Emitter,
    value: &Exp,
    whole: bool,
    items: Items,
    target: usize,
    line: u32,
) -> Allocated<Items>
    ensures code { OnOk result (emitter.new ≡ followed emitter.old (one_item emitter.old.constants (plain_exp value.now) whole items target emitter.old.made line) (made_by (plain_exp value.now))) }
    ensures items { IfOk result (λ n. n ≡ item_behind (waits (plain_exp value.now)) items) }
{
    if waits(value) {
        return waiting_item(emitter, value, items, target, line);
    }
    let above = next(target)?;
    let count = plus(items.stored, items.waiting)?;
    let stored = next(count)?;
    store_items(emitter, items, target, line)?;
    expression(emitter, value, above, item_field(whole))?;
    emitter.set_list(target, stored_field(whole), count, line)?;
    Ok(Items { stored, waiting: 0 })
}

/// Writes an item that waits.
#[cycle(expressions)]
fn waiting_item(
    emitter: &mut Emitter,
    value: &Exp,
    items: Items,
    target: usize,
    line: u32,
) -> Allocated<Items>
    ensures code { OnOk result (emitter.new ≡ followed emitter.old (held_code (is_full (items.stored + items.waiting + 1)) (exp_code emitter.old.constants (plain_exp value.now) (target + 1 + items.waiting) emitter.old.made 2) items.stored items.waiting target line) (made_by (plain_exp value.now))) }
    ensures items { IfOk result (λ n. n ≡ item_behind true items) }
{
    let above = next(target)?;
    let register = plus(above, items.waiting)?;
    let waiting = next(items.waiting)?;
    expression(emitter, value, register, 2)?;
    let held = Items {
        stored: items.stored,
        waiting,
    };
    let behind = store_full(emitter, held, target, line)?;
    Ok(behind)
}
