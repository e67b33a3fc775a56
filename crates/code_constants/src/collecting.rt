// The constants of expressions, in the order in which their code first names them.
ghost use Rattle.std.specs.Prelude.{◌≡◌, OnOk, map};
ghost use Rattle.tree_core.specs.Tree.{exps, fields};
ghost use Rattle.tree_core.specs.Plain.{plain_exp, plain_exps, plain_field};
ghost use Rattle.code_of.specs.ConstantOperands.{global_constant, target_constant, stored_constant};
ghost use Rattle.code_of.specs.Constants.{with_any, of_name, of_exp, of_exps, of_fields, of_field};

use crate::constants::{Constants, is_small};
use int_core::Allocated;
use std::alloc::Global;
use tree_core::{Exp, ExpNode, Field, Name, Place};

impl Constants {
    /// Adds the constant that a variable's name takes.
    fn add_name(&mut self, alloc: Global, name: &Name) -> Allocated<()>
        ensures { OnOk result (self.new ≡ of_name name.now.place name.now.text self.old) }
    {
        match name.place {
            Place::GlobalIn(_) | Place::GlobalOf(_) => self.add_text(alloc, &name.text),
            Place::Unset | Place::Local(_) | Place::Upvalue(_) => Ok(()),
        }
    }

    /// Adds the constants of an expression.
    #[cycle(collecting)]
    #[tactic(auto, using(tree_core::proofs::Rows::exps_of, tree_core::proofs::Rows::fields_of))]
    pub fn add_exp(&mut self, alloc: Global, exp: &Exp) -> Allocated<()>
        ensures { OnOk result (self.new ≡ of_exp (plain_exp exp.now) self.old) }
    {
        match &exp.node {
            ExpNode::Nil
            | ExpNode::True
            | ExpNode::False
            | ExpNode::Vararg
            | ExpNode::Function(_) => Ok(()),
            ExpNode::Int(integer) if is_small(*integer) => Ok(()),
            ExpNode::Int(integer) => self.add_integer(*integer),
            ExpNode::Str(bytes) => self.add_text(alloc, bytes),
            ExpNode::Var(name) => self.add_name(alloc, name),
            ExpNode::Unary(_, operand) => self.add_exp(alloc, operand),
            ExpNode::Paren(inner) => self.add_exp(alloc, inner),
            ExpNode::Binary(op, left, right) => {
                self.add_exp(alloc, left)?;
                self.add_operand(alloc, *op, right)?;
                self.add_exp(alloc, right)
            }
            ExpNode::Index(left, right) | ExpNode::And(left, right) | ExpNode::Or(left, right) => {
                self.add_exp(alloc, left)?;
                self.add_exp(alloc, right)
            }
            ExpNode::Call(called, arguments) => {
                self.add_exp(alloc, called)?;
                self.add_exps(alloc, arguments)
            }
            ExpNode::Method(object, name, arguments) => {
                self.add_exp(alloc, object)?;
                self.add_text(alloc, &name.text)?;
                self.add_exps(alloc, arguments)
            }
            ExpNode::Table(list) => self.add_fields(alloc, list),
        }
    }

    /// Adds the constants of a list of expressions.
    #[cycle(collecting)]
    pub fn add_exps(&mut self, alloc: Global, list: &Vec<Exp>) -> Allocated<()>
        ensures { OnOk result (self.new ≡ of_exps (exps (plain_exps list.now.items)) self.old) }
    {
        for exp in list.iter() {
            self.add_exp(alloc, exp)?;
        }
        Ok(())
    }

    /// Adds the constants of a constructor's fields.
    #[cycle(collecting)]
    fn add_fields(&mut self, alloc: Global, list: &Vec<Field>) -> Allocated<()>
        ensures { OnOk result (self.new ≡ of_fields (fields (map plain_field list.now.items)) self.old) }
    {
        for field in list.iter() {
            self.add_field(alloc, field)?;
        }
        Ok(())
    }

    /// Adds the constants of a field.
    #[cycle(collecting)]
    fn add_field(&mut self, alloc: Global, field: &Field) -> Allocated<()>
        ensures { OnOk result (self.new ≡ of_field (plain_field field.now) self.old) }
    {
        match field {
            Field::Item(value) => self.add_exp(alloc, value),
            Field::Keyed { key, value, .. } => {
                self.add_exp(alloc, key)?;
                self.add_literal(alloc, value)?;
                self.add_exp(alloc, value)
            }
        }
    }
    /// Adds a constant that is stored in a global name.
    fn add_global(&mut self, alloc: Global, name: &Name, value: &Exp) -> Allocated<()>
        ensures { OnOk result (self.new ≡ with_any (global_constant name.now.place (plain_exp value.now)) self.old) }
    {
        match name.place {
            Place::GlobalIn(_) | Place::GlobalOf(_) => self.add_literal(alloc, value),
            Place::Unset | Place::Local(_) | Place::Upvalue(_) => Ok(()),
        }
    }

    /// Adds a constant that is stored in a target, where its store may name it.
    fn add_target(&mut self, alloc: Global, target: &Exp, value: &Exp) -> Allocated<()>
        ensures { OnOk result (self.new ≡ with_any (target_constant (plain_exp target.now) (plain_exp value.now)) self.old) }
    {
        match &target.node {
            ExpNode::Var(name) => self.add_global(alloc, name, value),
            ExpNode::Index(_, _) => self.add_literal(alloc, value),
            _ => Ok(()),
        }
    }

    /// Adds the value of an assignment of one value to one target, where its store may name it as a constant.
    pub fn add_stored(
        &mut self,
        alloc: Global,
        targets: &Vec<Exp>,
        values: &Vec<Exp>,
    ) -> Allocated<()>
        ensures { OnOk result (self.new ≡ with_any (stored_constant (exps (plain_exps targets.now.items)) (exps (plain_exps values.now.items))) self.old) }
    {
        if targets.len() != 1 {
            return Ok(());
        }
        if values.len() != 1 {
            return Ok(());
        }
        let target = &targets[0];
        let value = &values[0];
        self.add_target(alloc, target, value)
    }
}
