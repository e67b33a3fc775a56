// Statements (Lua 5.4 manual, 3.3).
ghost use Rattle.std.specs.Prelude.{◌≡◌, ◌+◌, ◌<◌, ◌++◌, ◌∷◌, [], max, map, Some, None, IfOk};
ghost use Rattle.std.specs.Option.{option_map};
ghost use Rattle.tree_core.specs.Tree as tree;
ghost use Rattle.tree_core.specs.Plain.{plain_exp, plain_exps, plain_field, plain_arm, plain_stat, plain_block, plain_body, block_of, if_of, num_for_of};
ghost use Rattle.tree_making.specs.Made.{plain_boxed, IsMade, above, key_of, joined, plain_items, all_plain, all_arms, all_fields, all_stats};

use crate::expressions::function;
use crate::lists::one_exp;
use crate::part::{Found, Range};
use int_core::Allocated;
use std::alloc::Global;
use tree_core::{Arm, Block, Body, Declared, Exp, Name, Stat, StatNode};

/// A statement with this many levels.
fn stat(line: u32, node: StatNode, height: u32) -> Found<Stat>
    ensures node { result.node ≡ record { line = line; node = node } }
    ensures levels { result.height ≡ height }
{
    Found {
        node: Stat { line, node },
        height,
    }
}

/// A statement that holds nothing.
pub fn bare_stat(line: u32, node: StatNode) -> Found<Stat>
    ensures { IsMade plain_stat result (plain_stat (record { line = line; node = node })) 0 }
{
    stat(line, node, 0)
}

/// A call that stands alone.
pub fn call_stat(line: u32, call: Found<Box<Exp>>) -> Found<Stat>
    ensures { IsMade plain_stat result (tree.CallStat line (plain_boxed call.node)) call.height }
{
    stat(line, StatNode::Call(call.node), call.height)
}

/// An assignment.
pub fn assign(line: u32, targets: Found<Vec<Exp>>, values: Found<Vec<Exp>>) -> Found<Stat>
    ensures { IsMade plain_stat result (tree.Assign line (tree.exps (plain_exps targets.node.items)) (tree.exps (plain_exps values.node.items))) (max targets.height values.height) }
{
    let height = targets.height.max(values.height);
    stat(line, StatNode::Assign(targets.node, values.node), height)
}

/// The function is assigned to the target.
pub fn function_stat(
    alloc: Global,
    line: u32,
    target: Found<Box<Exp>>,
    body: Found<Body>,
) -> Allocated<Found<Stat>>
    ensures { IfOk result (λ made. IsMade plain_stat made (tree.Assign line (tree.exps (plain_boxed target.node ∷ [])) (tree.exps (tree.Function line (plain_body body.node) ∷ []))) (max target.height body.height)) }
{
    let targets = one_exp(alloc, target)?;
    let value = function(alloc, line, body)?;
    let values = one_exp(alloc, value)?;
    Ok(assign(line, targets, values))
}

/// A declaration of local variables.
pub fn local(line: u32, names: Vec<Declared>, values: Found<Vec<Exp>>) -> Found<Stat>
    ensures { IsMade plain_stat result (tree.Local line names.items (tree.exps (plain_exps values.node.items))) values.height }
{
    stat(line, StatNode::Local(names, values.node), values.height)
}

/// A declaration of a local function.
pub fn local_function(
    alloc: Global,
    line: u32,
    name: Name,
    body: Found<Body>,
) -> Allocated<Found<Stat>>
    ensures { IfOk result (λ made. IsMade plain_stat made (tree.LocalFunction line name (plain_body body.node)) body.height) }
{
    let node = StatNode::LocalFunction(name, Box::new(alloc, body.node)?);
    Ok(stat(line, node, body.height))
}

/// A block that stands alone.
pub fn do_stat(alloc: Global, line: u32, block: Found<Block>) -> Allocated<Found<Stat>>
    ensures { IfOk result (λ made. IsMade plain_stat made (tree.Do line (plain_block block.node)) block.height) }
{
    let node = StatNode::Do(Box::new(alloc, block.node)?);
    Ok(stat(line, node, block.height))
}

/// A `while`, whose block has its level already.
pub fn while_stat(
    alloc: Global,
    line: u32,
    test: Found<Box<Exp>>,
    block: Found<Block>,
) -> Allocated<Found<Stat>>
    ensures { IfOk result (λ made. IsMade plain_stat made (tree.While line (plain_boxed test.node) (plain_block block.node)) (max test.height block.height)) }
{
    let height = test.height.max(block.height);
    let node = StatNode::While(test.node, Box::new(alloc, block.node)?);
    Ok(stat(line, node, height))
}

/// A `repeat` whose block lies one level deeper.
pub fn repeat_stat(
    alloc: Global,
    line: u32,
    block: Found<Block>,
    test: Found<Box<Exp>>,
) -> Allocated<Found<Stat>>
    requires { block.height < 1000 }
    ensures { IfOk result (λ made. IsMade plain_stat made (tree.Repeat line (plain_block block.node) (plain_boxed test.node)) (max (block.height + 1) test.height)) }
{
    let height = (block.height + 1).max(test.height);
    let node = StatNode::Repeat(Box::new(alloc, block.node)?, test.node);
    Ok(stat(line, node, height))
}

/// A test and its block, which lies one level deeper.
pub fn arm(test: Found<Box<Exp>>, block: Found<Block>) -> Found<Arm>
    requires { block.height < 1000 }
    ensures { IsMade plain_arm result (plain_boxed test.node, plain_block block.node) (max test.height (block.height + 1)) }
{
    Found {
        node: Arm {
            test: Box::into_inner(test.node),
            block: block.node,
        },
        height: test.height.max(block.height + 1),
    }
}

/// The value in a box, where there is one.
fn boxed<T: Drop>(alloc: Global, value: Option<T>) -> Allocated<Option<Box<T>>>
    ensures { IfOk result (λ made. option_map (λ b. b.value) made ≡ value) }
{
    match value {
        Some(value) => Ok(Some(Box::new(alloc, value)?)),
        None => Ok(None),
    }
}

/// An `if`, whose blocks have their levels already.
pub fn if_stat(
    alloc: Global,
    line: u32,
    arms: Found<Vec<Arm>>,
    other: Found<Option<Block>>,
) -> Allocated<Found<Stat>>
    ensures { IfOk result (λ made. IsMade plain_stat made (if_of line (map plain_arm arms.node.items) (option_map plain_block other.node)) (max arms.height other.height)) }
{
    let height = arms.height.max(other.height);
    let last = boxed(alloc, other.node)?;
    Ok(stat(line, StatNode::If(arms.node, last), height))
}

/// A numeric `for`, whose block has its level already.
pub fn numeric_for(
    alloc: Global,
    line: u32,
    name: Name,
    range: Range,
    block: Found<Block>,
) -> Allocated<Found<Stat>>
    ensures { IfOk result (λ made. IsMade plain_stat made (num_for_of line name (plain_boxed range.first.node) (plain_boxed range.limit.node) (option_map plain_boxed range.step.node) (plain_block block.node)) (max (max range.first.height range.limit.height) (max range.step.height block.height))) }
{
    let height = range
        .first
        .height
        .max(range.limit.height)
        .max(range.step.height.max(block.height));
    let Range { first, limit, step } = range;
    let inner = Box::new(alloc, block.node)?;
    let node = StatNode::NumFor(name, first.node, limit.node, step.node, inner);
    Ok(stat(line, node, height))
}

/// A generic `for`, whose block has its level already.
pub fn generic_for(
    alloc: Global,
    line: u32,
    names: Vec<Name>,
    values: Found<Vec<Exp>>,
    block: Found<Block>,
) -> Allocated<Found<Stat>>
    ensures { IfOk result (λ made. IsMade plain_stat made (tree.GenFor line names.items (tree.exps (plain_exps values.node.items)) (plain_block block.node)) (max values.height block.height)) }
{
    let height = values.height.max(block.height);
    let node = StatNode::GenFor(names, values.node, Box::new(alloc, block.node)?);
    Ok(stat(line, node, height))
}
