// Expressions (Lua 5.4 manual, 3.4).
ghost use Rattle.std.specs.Prelude.{◌≡◌, ◌+◌, ◌<◌, ◌++◌, ◌∷◌, [], max, map, Some, None, IfOk};
ghost use Rattle.std.specs.Option.{option_map};
ghost use Rattle.tree_core.specs.Tree as tree;
ghost use Rattle.tree_core.specs.Plain.{plain_exp, plain_exps, plain_field, plain_arm, plain_stat, plain_block, plain_body, block_of, if_of, num_for_of};
ghost use Rattle.tree_making.specs.Made.{plain_boxed, IsMade, above, key_of, joined, plain_items, all_plain, all_arms, all_fields, all_stats};

use crate::lists::one_exp;
use crate::operator::Infix;
use crate::part::Found;
use int_core::{Allocated, Bytes};
use std::alloc::Global;
use tree_core::{Body, Exp, ExpNode, Field, Name, UnOp};

/// An expression with this many levels.
fn exp(alloc: Global, line: u32, node: ExpNode, height: u32) -> Allocated<Found<Box<Exp>>>
    ensures node { IfOk result (λ made. made.node.value ≡ record { line = line; node = node }) }
    ensures levels { IfOk result (λ made. made.height ≡ height) }
{
    let node = Box::new(alloc, Exp { line, node })?;
    Ok(Found { node, height })
}

/// A string.
pub fn string(alloc: Global, line: u32, bytes: Bytes) -> Allocated<Found<Box<Exp>>>
    ensures { IfOk result (λ made. IsMade plain_boxed made (tree.Str line bytes) 0) }
{
    exp(alloc, line, ExpNode::Str(bytes), 0)
}

/// An operator before its operand.
pub fn unary(
    alloc: Global,
    line: u32,
    operator: UnOp,
    operand: Found<Box<Exp>>,
) -> Allocated<Found<Box<Exp>>>
    requires { operand.height < 1000 }
    ensures { IfOk result (λ made. IsMade plain_boxed made (tree.Unary line operator (plain_boxed operand.node)) (operand.height + 1)) }
{
    let height = operand.height + 1;
    let node = ExpNode::Unary(operator, operand.node);
    exp(alloc, line, node, height)
}

/// An operator between its operands.
pub fn infix(
    alloc: Global,
    line: u32,
    operator: Infix,
    left: Found<Box<Exp>>,
    right: Found<Box<Exp>>,
) -> Allocated<Found<Box<Exp>>>
    requires low { left.height < 1000 }
    requires right_low { right.height < 1000 }
    ensures { IfOk result (λ made. IsMade plain_boxed made (joined operator line (plain_boxed left.node) (plain_boxed right.node)) (above left.height right.height)) }
{
    let height = left.height.max(right.height) + 1;
    let node = match operator {
        Infix::Or => ExpNode::Or(left.node, right.node),
        Infix::And => ExpNode::And(left.node, right.node),
        Infix::Binary(operator) => ExpNode::Binary(operator, left.node, right.node),
    };
    exp(alloc, line, node, height)
}

/// A function as an expression.
pub fn function(alloc: Global, line: u32, body: Found<Body>) -> Allocated<Found<Box<Exp>>>
    ensures { IfOk result (λ made. IsMade plain_boxed made (tree.Function line (plain_body body.node)) body.height) }
{
    let node = ExpNode::Function(Box::new(alloc, body.node)?);
    exp(alloc, line, node, body.height)
}

/// A table whose fields lie one level deeper.
pub fn table(alloc: Global, line: u32, fields: Found<Vec<Field>>) -> Allocated<Found<Box<Exp>>>
    requires { fields.height < 1000 }
    ensures { IfOk result (λ made. IsMade plain_boxed made (tree.Table line (tree.fields (map plain_field fields.node.items))) (fields.height + 1)) }
{
    exp(alloc, line, ExpNode::Table(fields.node), fields.height + 1)
}

/// The table that is the only argument of a call. The call's level holds its fields.
pub fn table_argument(
    alloc: Global,
    line: u32,
    fields: Found<Vec<Field>>,
) -> Allocated<Found<Vec<Exp>>>
    ensures { IfOk result (λ made. IsMade all_plain made (tree.Table line (tree.fields (map plain_field fields.node.items)) ∷ []) fields.height) }
{
    one_exp(
        alloc,
        exp(alloc, line, ExpNode::Table(fields.node), fields.height)?,
    )
}

/// A variable.
pub fn variable(alloc: Global, name: Name) -> Allocated<Found<Box<Exp>>>
    ensures { IfOk result (λ made. IsMade plain_boxed made (tree.Var name.line name) 0) }
{
    exp(alloc, name.line, ExpNode::Var(name), 0)
}

/// An expression in parentheses.
pub fn paren(alloc: Global, line: u32, inner: Found<Box<Exp>>) -> Allocated<Found<Box<Exp>>>
    requires { inner.height < 1000 }
    ensures { IfOk result (λ made. IsMade plain_boxed made (tree.Paren line (plain_boxed inner.node)) (inner.height + 1)) }
{
    let height = inner.height + 1;
    let node = ExpNode::Paren(inner.node);
    exp(alloc, line, node, height)
}

/// The value at a key.
pub fn index(
    alloc: Global,
    line: u32,
    indexed: Found<Box<Exp>>,
    key: Found<Box<Exp>>,
) -> Allocated<Found<Box<Exp>>>
    requires low { indexed.height < 1000 }
    requires key_low { key.height < 1000 }
    ensures { IfOk result (λ made. IsMade plain_boxed made (tree.Index line (plain_boxed indexed.node) (plain_boxed key.node)) (above indexed.height key.height)) }
{
    let height = indexed.height.max(key.height) + 1;
    let node = ExpNode::Index(indexed.node, key.node);
    exp(alloc, line, node, height)
}

/// The value at a name.
pub fn dotted(
    alloc: Global,
    line: u32,
    indexed: Found<Box<Exp>>,
    name: Name,
) -> Allocated<Found<Box<Exp>>>
    requires { indexed.height < 1000 }
    ensures { IfOk result (λ made. IsMade plain_boxed made (tree.Index line (plain_boxed indexed.node) (key_of name)) (indexed.height + 1)) }
{
    let height = indexed.height + 1;
    let key = exp(alloc, name.line, ExpNode::Str(name.text), 0)?;
    exp(alloc, line, ExpNode::Index(indexed.node, key.node), height)
}

/// A call.
pub fn call(
    alloc: Global,
    line: u32,
    called: Found<Box<Exp>>,
    arguments: Found<Vec<Exp>>,
) -> Allocated<Found<Box<Exp>>>
    requires low { called.height < 1000 }
    requires arguments_low { arguments.height < 1000 }
    ensures { IfOk result (λ made. IsMade plain_boxed made (tree.Call line (plain_boxed called.node) (tree.exps (plain_exps arguments.node.items))) (above called.height arguments.height)) }
{
    let height = called.height.max(arguments.height) + 1;
    let node = ExpNode::Call(called.node, arguments.node);
    exp(alloc, line, node, height)
}

/// A call of a method.
pub fn method(
    alloc: Global,
    line: u32,
    object: Found<Box<Exp>>,
    name: Name,
    arguments: Found<Vec<Exp>>,
) -> Allocated<Found<Box<Exp>>>
    requires low { object.height < 1000 }
    requires arguments_low { arguments.height < 1000 }
    ensures { IfOk result (λ made. IsMade plain_boxed made (tree.Method line (plain_boxed object.node) name (tree.exps (plain_exps arguments.node.items))) (above object.height arguments.height)) }
{
    let height = object.height.max(arguments.height) + 1;
    let node = ExpNode::Method(object.node, name, arguments.node);
    exp(alloc, line, node, height)
}
