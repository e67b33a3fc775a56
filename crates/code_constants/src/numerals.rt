// Numerals that stand in an instruction, and numbers that a field of 8 bits holds.
ghost use Rattle.std.specs.Prelude.{◌≡◌};
ghost use Rattle.tree_core.specs.Plain.{plain_exp};
ghost use Rattle.code_of.specs.Operands.{greatest, up_to, numeral_of, from_one, operand_numeral};
ghost use Rattle.code_of.specs.Stores.{short_number};

use tree_core::{BinOp, Exp, ExpNode};

/// The number of a constant, where a field of 8 bits holds it, or none.
#[tactic(auto, using(crate::proofs::Bounds::near, crate::proofs::Bounds::far))]
pub fn short(number: usize) -> Option<usize>
    ensures { result ≡ short_number number }
{
    if number < 256 {
        return Some(number);
    }
    None
}

/// The greatest numeral that the instruction of an operator may hold, or none.
fn greatest(op: BinOp) -> Option<usize>
    ensures { result ≡ greatest op }
{
    match op {
        BinOp::Add
        | BinOp::Shr
        | BinOp::Eq
        | BinOp::Ne
        | BinOp::Lt
        | BinOp::Le
        | BinOp::Gt
        | BinOp::Ge => Some(128),
        BinOp::Sub | BinOp::Shl => Some(127),
        _ => None,
    }
}

/// An integer from 0 to some number, or none.
#[tactic(auto, using(crate::proofs::Bounds::below, crate::proofs::Bounds::above))]
fn up_to(most: usize, integer: i64) -> Option<usize>
    ensures { result ≡ up_to most integer }
{
    if integer < 0 {
        return None;
    }
    let number = integer as usize;
    if number > most {
        return None;
    }
    Some(number)
}

/// An expression that is a numeral of at most some number, or none.
pub fn numeral_of(exp: &Exp, most: Option<usize>) -> Option<usize>
    ensures { result ≡ numeral_of (plain_exp exp.now) most }
{
    match &exp.node {
        ExpNode::Int(integer) => up_to(most?, *integer),
        _ => None,
    }
}

/// A number that is at least 1, or none.
#[tactic(auto, using(crate::proofs::Bounds::one_or_more, crate::proofs::Bounds::less_than_one))]
fn from_one(number: Option<usize>) -> Option<usize>
    ensures { result ≡ from_one number }
{
    let number = number?;
    if number < 1 {
        return None;
    }
    Some(number)
}

/// The second operand of an operator, where it is a numeral in its instruction, or none.
pub fn operand_numeral(op: BinOp, exp: &Exp) -> Option<usize>
    ensures { result ≡ operand_numeral op (plain_exp exp.now) }
{
    match op {
        BinOp::Shl => from_one(numeral_of(exp, greatest(op))),
        _ => numeral_of(exp, greatest(op)),
    }
}
