// Conditions: expressions of which only the truth is wanted (Lua 5.4 manual, 3.3.4 and 3.4.5).
ghost use Rattle.std.specs.Prelude.{◌+◌, IfOk};
ghost use Rattle.tree_core.specs.Plain.{plain_exp};
ghost use Rattle.code_of.specs.Conditions.{value_test};
ghost use Rattle.code_of.specs.Expressions.{made_by};
ghost use Rattle.code_emitter.specs.Leading.{Opened};
ghost use Rattle.code_expr.specs.Testing.{compared_code, either_test, Tests};

use crate::expressions::{operand, operands};
use code_core::Opcode;
use code_emitter::{Comparison, Emitter, comparing, flag};
use int_core::Allocated;
use tree_core::{Exp, ExpNode, UnOp};

/// Writes a condition. Code goes on behind it where its truth is the wanted one, and else leads
/// away: answers the places of the jumps that do, which `lead` leads somewhere. The registers
/// from one on are free.
#[cycle(expressions)]
pub fn condition(
    emitter: &mut Emitter,
    exp: &Exp,
    wanted: bool,
    free: usize,
) -> Allocated<Vec<usize>>
    ensures { IfOk result (λ places. Tests emitter.old emitter.new (plain_exp exp.now) wanted free places.items) }
{
    match &exp.node {
        ExpNode::Paren(inner) => condition(emitter, inner, wanted, free),
        ExpNode::And(first, second) => either_of(emitter, false, first, second, wanted, free),
        ExpNode::Or(first, second) => either_of(emitter, true, first, second, wanted, free),
        ExpNode::Binary(op, left, right) => match comparing(*op) {
            Some(comparison) => {
                compare(emitter, &comparison, left, right, wanted, free, exp.line)
            }
            None => by_value(emitter, exp, wanted, free),
        },
        ExpNode::Unary(op, operand) => match op {
            UnOp::Not => condition(emitter, operand, !wanted, free),
            UnOp::Neg | UnOp::BitNot | UnOp::Len => by_value(emitter, exp, wanted, free),
        },
        ExpNode::True => emitter.always(wanted, exp.line),
        ExpNode::Nil
        | ExpNode::False
        | ExpNode::Int(_)
        | ExpNode::Str(_)
        | ExpNode::Vararg
        | ExpNode::Function(_)
        | ExpNode::Var(_)
        | ExpNode::Index(_, _)
        | ExpNode::Call(_, _)
        | ExpNode::Method(_, _, _)
        | ExpNode::Table(_) => by_value(emitter, exp, wanted, free),
    }
}

/// Writes `and` or `or` as a condition, where the first operand decides if its truth is `decides`.
#[cycle(expressions)]
fn either_of(
    emitter: &mut Emitter,
    decides: bool,
    first: &Exp,
    second: &Exp,
    wanted: bool,
    free: usize,
) -> Allocated<Vec<usize>>
    ensures { IfOk result (λ places. Opened emitter.old emitter.new (λ ahead. either_test emitter.old.constants decides (plain_exp first.now) (plain_exp second.now) wanted ahead free emitter.old.made) (made_by (plain_exp first.now) + made_by (plain_exp second.now)) places.items) }
{
    let mut decided = condition(emitter, first, !decides, free)?;
    let mut away = condition(emitter, second, wanted, free)?;
    if decides == wanted {
        let end = emitter.steps().len();
        emitter.lead(&decided, end)?;
        return Ok(away);
    }
    away.append(&mut decided)?;
    Ok(away)
}

/// Writes a comparison of two operands and the jump where it does not come to what is wanted.
#[cycle(expressions)]
fn compare(
    emitter: &mut Emitter,
    comparison: &Comparison,
    left: &Exp,
    right: &Exp,
    wanted: bool,
    free: usize,
    line: u32,
) -> Allocated<Vec<usize>>
    ensures { IfOk result (λ places. Opened emitter.old emitter.new (λ ahead. compared_code emitter.old.constants comparison.now (plain_exp left.now) (plain_exp right.now) wanted ahead free emitter.old.made line) (made_by (plain_exp left.now) + made_by (plain_exp right.now)) places.items) }
{
    let stays = emitter.standing(comparison.op, right);
    let operands = operands(emitter, stays, left, right, free)?;
    let k = flag(comparison, wanted);
    let away = emitter.test_operands(comparison, operands, k, line)?;
    Ok(away)
}

/// Writes an expression whose value is tested, and the jump where its truth is not the wanted one.
#[cycle(expressions)]
fn by_value(emitter: &mut Emitter, exp: &Exp, wanted: bool, free: usize) -> Allocated<Vec<usize>>
    ensures { IfOk result (λ places. Opened emitter.old emitter.new (λ ahead. value_test emitter.old.constants (plain_exp exp.now) wanted ahead free emitter.old.made) (made_by (plain_exp exp.now)) places.items) }
{
    let register = operand(emitter, exp, free)?;
    let away = emitter.test(Opcode::Test, register, 0, !wanted, exp.line)?;
    Ok(away)
}
