// Lists of values, and what a call or `...` at their end fills.
ghost use Rattle.std.specs.Prelude.{◌≡◌, ◌&&◌, IfOk, cond, nat_eq};
ghost use Rattle.tree_core.specs.Tree.{exps};
ghost use Rattle.tree_core.specs.Plain.{plain_exp, plain_exps};
ghost use Rattle.code_of.specs.Expressions.{is_open, list_field};
ghost use Rattle.code_of.specs.Operands.{lone_local};
ghost use Rattle.code_expr.specs.Parts.{field_where, wanted_where};

use code_emitter::{local_of, next};
use int_core::Allocated;
use tree_core::{Exp, ExpNode};

/// Whether an expression gives any number of values.
pub fn is_open(exp: &Exp) -> bool
    ensures { result ≡ is_open (plain_exp exp.now) }
{
    matches!(
        &exp.node,
        ExpNode::Vararg | ExpNode::Call(_, _) | ExpNode::Method(_, _, _)
    )
}

/// Whether an expression stands last, behind which none is left, and gives any number of values.
pub(crate) fn fills(exp: &Exp, left: usize) -> bool
    ensures { result ≡ (nat_eq left 0 && is_open (plain_exp exp.now)) }
{
    left == 0 && is_open(exp)
}

/// The field of a list's length with some registers in front: one more than their number, or 0
/// where the list is open.
#[tactic(auto, using(crate::proofs::Ends::open_field, crate::proofs::Ends::closed_field, crate::proofs::Ends::empty_field))]
pub fn list_field(before: u8, list: &Vec<Exp>) -> usize
    ensures { result ≡ list_field before (exps (plain_exps list.now.items)) }
{
    let count = list.len();
    if count == 0 {
        return usize::from(before) + 1;
    }
    if is_open(&list[count - 1]) {
        return 0;
    }
    usize::from(before) + count + 1
}

/// The register of a local that is all of a list, in brackets or not, or none.
pub fn lone_local(list: &Vec<Exp>) -> Option<usize>
    ensures { result ≡ lone_local (exps (plain_exps list.now.items)) }
{
    if list.len() != 1 {
        return None;
    }
    let only = &list[0];
    local_of(only)
}

/// The field C of an expression, which may fill what is left of the wanted values.
pub(crate) fn field_where(fills: bool, wanted: Option<usize>) -> Allocated<usize>
    ensures { IfOk result (λ field. field ≡ field_where fills wanted) }
{
    if !fills {
        return Ok(2);
    }
    match wanted {
        Some(count) => next(count),
        None => Ok(0),
    }
}

/// How many values are wanted behind an expression, which may fill what is left.
pub(crate) fn wanted_where(fills: bool, wanted: Option<usize>) -> Option<usize>
    ensures { result ≡ wanted_where fills wanted }
{
    match wanted {
        Some(count) if !fills => Some(count.saturating_sub(1)),
        _ => None,
    }
}

/// The field C of an item, of which all values are wanted or the first one.
pub(crate) fn item_field(whole: bool) -> usize
    ensures { result ≡ cond whole 0 2 }
{
    if whole { 0 } else { 2 }
}

/// The field B of the instruction that stores an item, whose values are all stored or the first one.
pub(crate) fn stored_field(whole: bool) -> usize
    ensures { result ≡ cond whole 0 1 }
{
    if whole { 0 } else { 1 }
}
