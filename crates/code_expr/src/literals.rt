// Integers, strings, nil and Booleans, written as such.
ghost use Rattle.std.specs.Prelude.{◌≡◌, [], cond, OnOk};
ghost use Rattle.tree_core.specs.Plain.{plain_exp};
ghost use Rattle.code_of.specs.Operands.{is_literal};
ghost use Rattle.code_of.specs.Parts.{direct_code};
ghost use Rattle.code_emitter.specs.Listing.{listed};

use code_core::Opcode;
use code_emitter::Emitter;
use int_core::Allocated;
use tree_core::{Exp, ExpNode};

/// Whether an expression is an integer, a string, nil or a Boolean, written as such.
pub(crate) fn is_literal(exp: &Exp) -> bool
    ensures { result ≡ is_literal (plain_exp exp.now) }
{
    matches!(
        &exp.node,
        ExpNode::Nil | ExpNode::True | ExpNode::False | ExpNode::Int(_) | ExpNode::Str(_)
    )
}

/// Writes one of these to a register. Of another expression nothing is written.
#[tactic(auto, using(crate::proofs::TargetSeats::nothing_listed))]
pub(crate) fn literal(emitter: &mut Emitter, exp: &Exp, target: usize) -> Allocated<()>
    ensures { OnOk result (emitter.new ≡ listed emitter.old (cond (is_literal (plain_exp exp.now)) (direct_code emitter.old.constants (plain_exp exp.now) target target emitter.old.made) [])) }
{
    let line = exp.line;
    match &exp.node {
        ExpNode::Nil => emitter.put_abc(Opcode::LoadNil, target, 0, 0, line),
        ExpNode::True => emitter.put_abc(Opcode::LoadTrue, target, 0, 0, line),
        ExpNode::False => emitter.put_abc(Opcode::LoadFalse, target, 0, 0, line),
        ExpNode::Int(integer) => emitter.load_integer(*integer, target, line),
        ExpNode::Str(bytes) => emitter.load_text(bytes, target, line),
        _ => Ok(()),
    }
}
