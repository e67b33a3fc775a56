// Chains of `..` (Lua 5.4 manual, 3.4.6), whose operands stand in registers that follow each other.
ghost use Rattle.std.specs.Prelude.{◌≡◌, ◌+◌, ◌++◌, ◌&&◌, suc, OnOk, IfOk, nat_eq};
ghost use Rattle.tree_core.specs.Plain.{plain_exp};
ghost use Rattle.code_of.specs.Chains.{continues, links, unjoined, chain_code};
ghost use Rattle.code_of.specs.Expressions.{exp_code, made_by};
ghost use Rattle.code_of.specs.Operands.{joins};
ghost use Rattle.code_emitter.specs.Listing.{followed};

use crate::expressions::expression;
use code_core::Opcode;
use code_emitter::{Emitter, next};
use int_core::Allocated;
use tree_core::{BinOp, Exp, ExpNode};

/// Whether an operator is `..`.
pub(crate) fn joins(op: BinOp) -> bool
    ensures { result ≡ joins op }
{
    matches!(op, BinOp::Concat)
}

/// Whether an operator on one line goes on with a chain on another.
fn continues(op: BinOp, own: u32, line: u32) -> bool
    ensures { result ≡ (joins op && nat_eq own line) }
{
    joins(op) && own == line
}

/// Writes a chain: its operands from the left, and the one instruction that joins their values.
#[cycle(expressions)]
pub(crate) fn join(
    emitter: &mut Emitter,
    left: &Exp,
    right: &Exp,
    target: usize,
    line: u32,
) -> Allocated<()>
    ensures { OnOk result (emitter.new ≡ followed emitter.old (chain_code line (plain_exp right.now) (exp_code emitter.old.constants (plain_exp left.now) target emitter.old.made 2) (exp_code emitter.old.constants (plain_exp right.now) (target + 1) (emitter.old.made + made_by (plain_exp left.now)) 2) target) (made_by (plain_exp left.now) + made_by (plain_exp right.now))) }
{
    let count = link(emitter, left, right, target, line)?;
    emitter.put_abc(Opcode::Concat, target, count, 0, line)?;
    Ok(())
}

/// Writes the operands of a `..` into registers from one on, and answers how many registers they take.
#[cycle(expressions)]
fn link(
    emitter: &mut Emitter,
    left: &Exp,
    right: &Exp,
    target: usize,
    line: u32,
) -> Allocated<usize>
    ensures code { OnOk result (emitter.new ≡ followed emitter.old (exp_code emitter.old.constants (plain_exp left.now) target emitter.old.made 2 ++ unjoined (continues line (plain_exp right.now)) (exp_code emitter.old.constants (plain_exp right.now) (target + 1) (emitter.old.made + made_by (plain_exp left.now)) 2)) (made_by (plain_exp left.now) + made_by (plain_exp right.now))) }
    ensures count { IfOk result (λ n. n ≡ suc (links line (plain_exp right.now))) }
{
    let above = next(target)?;
    expression(emitter, left, target, 2)?;
    let behind = link_right(emitter, right, above, line)?;
    let count = next(behind)?;
    Ok(count)
}

/// Writes the right operand of a `..`, which goes on with the chain on its line or ends it.
#[cycle(expressions)]
fn link_right(emitter: &mut Emitter, exp: &Exp, target: usize, line: u32) -> Allocated<usize>
    ensures code { OnOk result (emitter.new ≡ followed emitter.old (unjoined (continues line (plain_exp exp.now)) (exp_code emitter.old.constants (plain_exp exp.now) target emitter.old.made 2)) (made_by (plain_exp exp.now))) }
    ensures count { IfOk result (λ n. n ≡ links line (plain_exp exp.now)) }
{
    match &exp.node {
        ExpNode::Binary(op, left, right) => {
            if continues(*op, exp.line, line) {
                return link(emitter, left, right, target, line);
            }
            last_link(emitter, exp, target)
        }
        _ => last_link(emitter, exp, target),
    }
}

/// Writes the last operand of a chain.
#[cycle(expressions)]
fn last_link(emitter: &mut Emitter, exp: &Exp, target: usize) -> Allocated<usize>
    ensures code { OnOk result (emitter.new ≡ followed emitter.old (exp_code emitter.old.constants (plain_exp exp.now) target emitter.old.made 2) (made_by (plain_exp exp.now))) }
    ensures count { IfOk result (λ n. n ≡ 1) }
{
    expression(emitter, exp, target, 2)?;
    Ok(1)
}
