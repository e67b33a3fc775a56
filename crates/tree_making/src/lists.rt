// Lists that grow.
ghost use Rattle.std.specs.Prelude.{◌≡◌, ◌+◌, ◌<◌, ◌++◌, ◌∷◌, [], max, map, Some, None, IfOk};
ghost use Rattle.std.specs.Option.{option_map};
ghost use Rattle.tree_core.specs.Tree as tree;
ghost use Rattle.tree_core.specs.Plain.{plain_exp, plain_exps, plain_field, plain_arm, plain_stat, plain_block, plain_body, block_of, if_of, num_for_of};
ghost use Rattle.tree_making.specs.Made.{plain_boxed, IsMade, above, key_of, joined, plain_items, all_plain, all_arms, all_fields, all_stats};

use crate::part::Found;
use int_core::Allocated;
use std::alloc::Global;
use tree_core::{Arm, Exp, Field, Stat};

/// A list with one item more.
pub fn more<T: Drop>(mut list: Found<Vec<T>>, item: Found<T>) -> Allocated<Found<Vec<T>>>
    ensures items { IfOk result (λ made. made.node.items ≡ list.node.items ++ item.node ∷ []) }
    ensures levels { IfOk result (λ made. made.height ≡ max list.height item.height) }
{
    list.node.push(item.node)?;
    list.height = list.height.max(item.height);
    Ok(list)
}

/// A list with one expression more.
pub fn more_exps(mut list: Found<Vec<Exp>>, item: Found<Box<Exp>>) -> Allocated<Found<Vec<Exp>>>
    ensures items { IfOk result (λ made. made.node.items ≡ list.node.items ++ item.node.value ∷ []) }
    ensures levels { IfOk result (λ made. made.height ≡ max list.height item.height) }
{
    list.node.push(Box::into_inner(item.node))?;
    list.height = list.height.max(item.height);
    Ok(list)
}

/// A list of one expression.
pub fn one_exp(alloc: Global, item: Found<Box<Exp>>) -> Allocated<Found<Vec<Exp>>>
    ensures { IfOk result (λ made. IsMade all_plain made (plain_boxed item.node ∷ []) item.height) }
{
    // Most lists have one expression and never grow.
    let mut items = Vec::with_capacity(alloc, 1)?;
    items.push(Box::into_inner(item.node))?;
    Ok(Found {
        node: items,
        height: item.height,
    })
}

/// No expressions.
pub fn no_exps(alloc: Global) -> Found<Vec<Exp>>
    ensures { IsMade all_plain result [] 0 }
{
    Found {
        node: Vec::new(alloc),
        height: 0,
    }
}

/// No fields.
pub fn no_fields(alloc: Global) -> Found<Vec<Field>>
    ensures { IsMade all_fields result [] 0 }
{
    Found {
        node: Vec::new(alloc),
        height: 0,
    }
}

/// No statements.
pub fn no_stats(alloc: Global) -> Found<Vec<Stat>>
    ensures { IsMade all_stats result [] 0 }
{
    Found {
        node: Vec::new(alloc),
        height: 0,
    }
}

/// A list of one test and its block.
pub fn one_arm(alloc: Global, item: Found<Arm>) -> Allocated<Found<Vec<Arm>>>
    ensures { IfOk result (λ made. IsMade all_arms made (plain_arm item.node ∷ []) item.height) }
{
    let mut items = Vec::with_capacity(alloc, 1)?;
    items.push(item.node)?;
    Ok(Found {
        node: items,
        height: item.height,
    })
}
