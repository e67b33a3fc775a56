// Values that go straight to the register of a local (Lua 5.4 manual, 3.3.3).
ghost use Rattle.std.specs.Prelude.{◌≡◌, cond, None, OnOk};
ghost use Rattle.tree_core.specs.Tree.{Binary};
ghost use Rattle.tree_core.specs.Plain.{plain_exp};
ghost use Rattle.code_of.specs.Expressions.{made_by};
ghost use Rattle.code_of.specs.Operands.{computes, is_direct, target_local};
ghost use Rattle.code_of.specs.Parts.{direct_code};
ghost use Rattle.code_emitter.specs.Listing.{followed};
ghost use Rattle.code_emitter.specs.Operands.{made_directly};

use crate::expressions::{index, operands, unary};
use crate::literals::literal;
use code_emitter::{Emitter, local_at};
use int_core::Allocated;
use tree_core::{BinOp, Exp, ExpNode};

/// Whether an operator has an instruction that writes its result.
fn computes(op: BinOp) -> bool
    ensures { result ≡ computes op }
{
    !matches!(
        op,
        BinOp::Concat | BinOp::Eq | BinOp::Ne | BinOp::Lt | BinOp::Le | BinOp::Gt | BinOp::Ge
    )
}

/// Whether the value of an expression is written by one instruction at its end.
fn is_direct(exp: &Exp) -> bool
    ensures { result ≡ is_direct (plain_exp exp.now) }
{
    match &exp.node {
        ExpNode::Binary(op, _, _) => computes(*op),
        ExpNode::Paren(inner) => is_direct(inner),
        ExpNode::Nil | ExpNode::True | ExpNode::False | ExpNode::Int(_) | ExpNode::Str(_) => true,
        ExpNode::Var(_) | ExpNode::Unary(_, _) | ExpNode::Index(_, _) => true,
        ExpNode::Vararg | ExpNode::Function(_) | ExpNode::Table(_) => false,
        ExpNode::Call(_, _) | ExpNode::Method(_, _, _) => false,
        ExpNode::And(_, _) | ExpNode::Or(_, _) => false,
    }
}

/// The register of a target that is a local, or none.
fn target_local(target: &Exp) -> Option<usize>
    ensures { result ≡ target_local (plain_exp target.now) }
{
    match &target.node {
        ExpNode::Var(name) => local_at(name),
        _ => None,
    }
}

/// The register that an assignment of one value writes straight to, or none.
pub fn direct_local(target: &Exp, value: &Exp) -> Option<usize>
    ensures { result ≡ cond (is_direct (plain_exp value.now)) (target_local (plain_exp target.now)) None }
{
    if is_direct(value) {
        target_local(target)
    } else {
        None
    }
}

/// Writes an operator whose result goes to one register and whose operands stand in those from another one on.
fn binary_into(
    emitter: &mut Emitter,
    op: BinOp,
    left: &Exp,
    right: &Exp,
    target: usize,
    free: usize,
    line: u32,
) -> Allocated<()>
    ensures { OnOk result (emitter.new ≡ followed emitter.old (direct_code emitter.old.constants (Binary line op (plain_exp left.now) (plain_exp right.now)) target free emitter.old.made) (made_by (Binary line op (plain_exp left.now) (plain_exp right.now)))) }
{
    let stays = emitter.standing(op, right);
    let operands = operands(emitter, stays, left, right, free)?;
    emitter.apply(op, operands, target, line)?;
    Ok(())
}

/// Writes a value straight to a register, where the registers from another one on are free. Of an
/// expression that has no instruction for it nothing is written.
#[tactic(auto, using(code_emitter::proofs::Seats::nothing_more, code_emitter::proofs::Joining::none_made, crate::proofs::LiteralCode::literal_direct))]
pub fn direct(emitter: &mut Emitter, exp: &Exp, target: usize, free: usize) -> Allocated<()>
    ensures { OnOk result (emitter.new ≡ followed emitter.old (direct_code emitter.old.constants (plain_exp exp.now) target free emitter.old.made) (made_directly (plain_exp exp.now))) }
{
    let line = exp.line;
    match &exp.node {
        ExpNode::Nil | ExpNode::True | ExpNode::False | ExpNode::Int(_) | ExpNode::Str(_) => {
            literal(emitter, exp, target)
        }
        ExpNode::Var(name) => emitter.read_name(name, target, free, line),
        ExpNode::Paren(inner) => direct(emitter, inner, target, free),
        ExpNode::Unary(op, operand) => unary(emitter, *op, operand, target, free, line),
        ExpNode::Binary(op, left, right) => {
            binary_into(emitter, *op, left, right, target, free, line)
        }
        ExpNode::Index(object, key) => index(emitter, object, key, target, free, line),
        ExpNode::Vararg
        | ExpNode::Function(_)
        | ExpNode::Call(_, _)
        | ExpNode::Method(_, _, _)
        | ExpNode::And(_, _)
        | ExpNode::Or(_, _)
        | ExpNode::Table(_) => Ok(()),
    }
}
