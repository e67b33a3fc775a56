// First operands of `and` and `or` (Lua 5.4 manual, 3.4.5), whose values are kept where they decide.
ghost use Rattle.std.specs.Prelude.{◌≡◌, ◌+◌, IfOk};
ghost use Rattle.tree_core.specs.Plain.{plain_exp};
ghost use Rattle.code_of.specs.Expressions.{exp_code, kept_value, made_by};
ghost use Rattle.code_of.specs.Truths.{is_compared, is_not};
ghost use Rattle.code_emitter.specs.Leading.{Opened};
ghost use Rattle.code_expr.specs.Testing.{is_truth, either_keep, kept_truth, Keeps};

use crate::conditions::condition;
use crate::expressions::expression;
use code_core::Opcode;
use code_emitter::{Emitter, local_of};
use int_core::Allocated;
use tree_core::ExpNode::{
    And, Binary, Call, False, Function, Index, Int, Method, Nil, Or, Paren, Str, Table, True,
    Unary, Var, Vararg,
};
use tree_core::{BinOp, Exp, UnOp};

/// Writes a first operand. Where its truth is `k`, its value is in the register then and the code leads
/// away: answers the places of the jumps that do. Else code goes on behind it. The registers from this
/// one on are free.
#[cycle(expressions)]
pub(crate) fn keep(
    emitter: &mut Emitter,
    exp: &Exp,
    k: bool,
    target: usize,
) -> Allocated<Vec<usize>>
    ensures { IfOk result (λ places. Keeps emitter.old emitter.new (plain_exp exp.now) k target places.items) }
{
    if is_truth(exp) {
        return keep_truth(emitter, exp, k, target);
    }
    match &exp.node {
        Paren(inner) => keep(emitter, inner, k, target),
        And(first, second) => keep_either(emitter, false, first, second, k, target),
        Or(first, second) => keep_either(emitter, true, first, second, k, target),
        Nil
        | True
        | False
        | Int(_)
        | Str(_)
        | Vararg
        | Function(_)
        | Var(_)
        | Index(_, _)
        | Call(_, _)
        | Method(_, _, _)
        | Unary(_, _)
        | Binary(_, _, _)
        | Table(_) => keep_value(emitter, exp, k, target),
    }
}

/// Writes `and` or `or`, whose own first operand decides if its truth is `decides`. Where that value is
/// wanted, a value of either operand is kept; else the first operand is only tested.
#[cycle(expressions)]
fn keep_either(
    emitter: &mut Emitter,
    decides: bool,
    first: &Exp,
    second: &Exp,
    k: bool,
    target: usize,
) -> Allocated<Vec<usize>>
    ensures { IfOk result (λ places. Opened emitter.old emitter.new (λ ahead. either_keep emitter.old.constants decides (plain_exp first.now) (plain_exp second.now) k ahead target emitter.old.made) (made_by (plain_exp first.now) + made_by (plain_exp second.now)) places.items) }
{
    if decides == k {
        let mut decided = keep(emitter, first, decides, target)?;
        let mut away = keep(emitter, second, k, target)?;
        away.append(&mut decided)?;
        return Ok(away);
    }
    let passed = condition(emitter, first, !decides, target)?;
    let away = keep(emitter, second, k, target)?;
    let end = emitter.steps().len();
    emitter.lead(&passed, end)?;
    Ok(away)
}

/// Writes an operand whose value is made in the register, or goes there from that of a local by the test.
#[cycle(expressions)]
fn keep_value(emitter: &mut Emitter, exp: &Exp, k: bool, target: usize) -> Allocated<Vec<usize>>
    ensures { IfOk result (λ places. Opened emitter.old emitter.new (λ ahead. kept_value (plain_exp exp.now) (exp_code emitter.old.constants (plain_exp exp.now) target emitter.old.made 2) k ahead target) (made_by (plain_exp exp.now)) places.items) }
{
    if let Some(register) = local_of(exp) {
        return emitter.test(Opcode::TestSet, target, register, k, exp.line);
    }
    expression(emitter, exp, target, 2)?;
    let away = emitter.test(Opcode::Test, target, 0, k, exp.line)?;
    Ok(away)
}

/// Writes a comparison or `not`: the condition, which leads past the instruction that loads its truth.
#[cycle(expressions)]
fn keep_truth(emitter: &mut Emitter, exp: &Exp, k: bool, target: usize) -> Allocated<Vec<usize>>
    ensures { IfOk result (λ places. Opened emitter.old emitter.new (λ ahead. kept_truth emitter.old.constants (plain_exp exp.now) k ahead target emitter.old.made) (made_by (plain_exp exp.now)) places.items) }
{
    let passed = condition(emitter, exp, k, target)?;
    let away = emitter.load_truth(k, target, exp.line)?;
    let end = emitter.steps().len();
    emitter.lead(&passed, end)?;
    Ok(away)
}

/// Whether an operator compares.
fn is_compared(op: BinOp) -> bool
    ensures { result ≡ is_compared op }
{
    matches!(
        op,
        BinOp::Eq | BinOp::Ne | BinOp::Lt | BinOp::Le | BinOp::Gt | BinOp::Ge
    )
}

/// Whether a prefix operator is `not`.
fn is_not(op: UnOp) -> bool
    ensures { result ≡ is_not op }
{
    matches!(op, UnOp::Not)
}

/// Whether an expression is a comparison or `not`, without brackets.
fn is_truth(exp: &Exp) -> bool
    ensures { result ≡ is_truth (plain_exp exp.now) }
{
    match &exp.node {
        Unary(op, _) => is_not(*op),
        Binary(op, _, _) => is_compared(*op),
        Nil | True | False | Int(_) | Str(_) | Vararg | Function(_) | Var(_) | Index(_, _) => false,
        Call(_, _) | Method(_, _, _) | And(_, _) | Or(_, _) | Paren(_) | Table(_) => false,
    }
}
