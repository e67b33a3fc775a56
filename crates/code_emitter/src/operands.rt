// Where the operands of an operator stand, and an object and its key.
ghost use Rattle.std.specs.Prelude.{◌≡◌};
ghost use Rattle.tree_core.specs.Plain.{plain_exp};
ghost use Rattle.code_of.specs.Operands.{local_at, local_of, second_of, key_operand};
ghost use Rattle.code_of.specs.Operations.{constant_in};
ghost use Rattle.code_emitter.specs.Operands.{number_of_second, local_of_second, staying, operation_staying};

use crate::emitter::Emitter;
use code_constants::{numeral_of, operand_numeral};
use tree_core::{BinOp, Exp, ExpNode, Name, Place};

/// Where a second operand stands.
#[derive(Clone, Copy, Debug, PartialEq, Eq)]
pub enum Second {
    /// It is a constant in the instruction, of this number.
    Constant(usize),
    /// It is a numeral in the instruction.
    Number(usize),
    /// It is in a register.
    Register(usize),
}

/// Where two operands stand.
#[derive(Clone, Copy, Debug, PartialEq, Eq)]
pub struct Operands {
    /// The register of the first one.
    pub first: usize,
    /// The second one.
    pub second: Second,
}

/// The register of a local variable, or none for another name.
pub fn local_at(name: &Name) -> Option<usize>
    ensures { result ≡ local_at name.now.place }
{
    match name.place {
        Place::Local(register) => Some(usize::from(register)),
        Place::Unset | Place::Upvalue(_) | Place::GlobalIn(_) | Place::GlobalOf(_) => None,
    }
}

/// The register of the local variable that an expression names, in brackets or not.
pub fn local_of(exp: &Exp) -> Option<usize>
    ensures { result ≡ local_of (plain_exp exp.now) }
{
    match &exp.node {
        ExpNode::Var(name) => local_at(name),
        ExpNode::Paren(inner) => local_of(inner),
        _ => None,
    }
}

/// The second operand of an operator as a numeral in the instruction, or none.
#[tactic(auto, using(crate::proofs::Seats::second_numeral))]
fn numeral(op: BinOp, exp: &Exp) -> Option<usize>
    ensures { result ≡ number_of_second (second_of op (plain_exp exp.now)) }
{
    operand_numeral(op, exp)
}

/// The register of a local that is the second operand of an operator and no numeral, or none.
#[tactic(auto, using(crate::proofs::Seats::second_joins, crate::proofs::Seats::second_number, crate::proofs::Seats::second_local))]
fn local(op: BinOp, exp: &Exp) -> Option<usize>
    ensures { result ≡ local_of_second (second_of op (plain_exp exp.now)) }
{
    if op == BinOp::Concat || operand_numeral(op, exp).is_some() {
        return None;
    }
    local_of(exp)
}

/// Where the second operand of an operator stays, or none for one that is made.
#[tactic(auto, using(crate::proofs::Seats::none_stays))]
fn staying(op: BinOp, exp: &Exp) -> Option<Second>
    ensures { result ≡ staying (second_of op (plain_exp exp.now)) }
{
    if let Some(number) = numeral(op, exp) {
        return Some(Second::Number(number));
    }
    match local(op, exp) {
        Some(register) => Some(Second::Register(register)),
        None => None,
    }
}

/// Where the key of a field stays, or none for one that is made.
#[tactic(auto, using(crate::proofs::Seats::key_number, crate::proofs::Seats::key_local, crate::proofs::Seats::key_none))]
pub fn key_staying(exp: &Exp) -> Option<Second>
    ensures { result ≡ staying (key_operand (plain_exp exp.now)) }
{
    if let Some(number) = numeral_of(exp, Some(255)) {
        return Some(Second::Number(number));
    }
    match local_of(exp) {
        Some(register) => Some(Second::Register(register)),
        None => None,
    }
}

impl Emitter {
    /// Where the second operand of an operator stays, or none for one that is made.
    #[tactic(auto, using(crate::proofs::ConstantSeats::constant_stays, crate::proofs::ConstantSeats::other_stays))]
    pub fn standing(&self, op: BinOp, exp: &Exp) -> Option<Second>
        ensures { result ≡ operation_staying (constant_in self.now.constants op (plain_exp exp.now)) (second_of op (plain_exp exp.now)) }
    {
        match self.constants().operand(op, exp) {
            Some(number) => Some(Second::Constant(number)),
            None => staying(op, exp),
        }
    }
}
