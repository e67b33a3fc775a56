// Second operands that are constants in the instruction of an operator.
ghost use Rattle.std.specs.Prelude.{◌≡◌, OnOk};
ghost use Rattle.tree_core.specs.Plain.{plain_exp};
ghost use Rattle.code_of.specs.Constants.{with_any};
ghost use Rattle.code_of.specs.ConstantOperands.{integer_constant, any_constant, constant_by, constant_of};
ghost use Rattle.code_of.specs.Operations.{short_of, constant_in};

use crate::constants::Constants;
use crate::numerals::operand_numeral;
use int_core::Allocated;
use std::alloc::Global;
use tree_core::BinOp::{Add, Band, Bor, Bxor, Eq, Idiv, Mod, Mul, Ne, Sub};
use tree_core::{BinOp, Exp, ExpNode};

impl Constants {
    /// Adds the second operand of an operator, where its instruction may hold it as a constant.
    #[tactic(auto, using(crate::proofs::Operands::numeral_adds))]
    pub(crate) fn add_operand(&mut self, alloc: Global, op: BinOp, exp: &Exp) -> Allocated<()>
        ensures { OnOk result (self.new ≡ with_any (constant_of op (plain_exp exp.now)) self.old) }
    {
        if operand_numeral(op, exp).is_some() {
            return Ok(());
        }
        self.add_literal_of(alloc, op, exp)
    }

    /// Adds a literal that is the operand of an operator, where one of its instructions takes such a constant.
    fn add_literal_of(&mut self, alloc: Global, op: BinOp, exp: &Exp) -> Allocated<()>
        ensures { OnOk result (self.new ≡ with_any (constant_by op (plain_exp exp.now)) self.old) }
    {
        match op {
            Add | Sub | Mul | Mod | Idiv | Band | Bor | Bxor => self.add_numeral(exp),
            Eq | Ne => self.add_literal(alloc, exp),
            _ => Ok(()),
        }
    }

    /// Adds an integer that is written out.
    fn add_numeral(&mut self, exp: &Exp) -> Allocated<()>
        ensures { OnOk result (self.new ≡ with_any (integer_constant (plain_exp exp.now)) self.old) }
    {
        match &exp.node {
            ExpNode::Int(integer) => self.add_integer(*integer),
            _ => Ok(()),
        }
    }

    /// Adds a constant that is written out.
    pub(crate) fn add_literal(&mut self, alloc: Global, exp: &Exp) -> Allocated<()>
        ensures { OnOk result (self.new ≡ with_any (any_constant (plain_exp exp.now)) self.old) }
    {
        match &exp.node {
            ExpNode::Nil => self.add_nil(),
            ExpNode::True => self.add_true(),
            ExpNode::False => self.add_false(),
            ExpNode::Int(integer) => self.add_integer(*integer),
            ExpNode::Str(bytes) => self.add_text(alloc, bytes),
            _ => Ok(()),
        }
    }

    /// The number of an integer that is written out, if it is a constant of 8 bits, or none.
    fn numeral_number(&self, exp: &Exp) -> Option<usize>
        ensures { result ≡ short_of self.now (integer_constant (plain_exp exp.now)) }
    {
        match &exp.node {
            ExpNode::Int(integer) => self.short(self.number_of_integer(*integer)),
            _ => None,
        }
    }

    /// The number of a constant that is written out, if it has 8 bits, or none.
    pub fn literal_number(&self, exp: &Exp) -> Option<usize>
        ensures { result ≡ short_of self.now (any_constant (plain_exp exp.now)) }
    {
        match &exp.node {
            ExpNode::Nil => self.short(self.number_of_nil()),
            ExpNode::True => self.short(self.number_of_true()),
            ExpNode::False => self.short(self.number_of_false()),
            ExpNode::Int(integer) => self.short(self.number_of_integer(*integer)),
            ExpNode::Str(bytes) => self.short(self.number_of_text(bytes)),
            _ => None,
        }
    }

    /// The number of a literal that is the operand of an operator, where one of its instructions takes such a constant.
    fn literal_of(&self, op: BinOp, exp: &Exp) -> Option<usize>
        ensures { result ≡ short_of self.now (constant_by op (plain_exp exp.now)) }
    {
        match op {
            Add | Sub | Mul | Mod | Idiv | Band | Bor | Bxor => self.numeral_number(exp),
            Eq | Ne => self.literal_number(exp),
            _ => None,
        }
    }

    /// The number of the constant that is the second operand of an operator, in a field of 8 bits, or none.
    #[tactic(auto, using(crate::proofs::Operands::numeral_none, crate::proofs::Operands::no_numeral))]
    pub fn operand(&self, op: BinOp, exp: &Exp) -> Option<usize>
        ensures { result ≡ constant_in self.now op (plain_exp exp.now) }
    {
        if operand_numeral(op, exp).is_some() {
            return None;
        }
        self.literal_of(op, exp)
    }
}
