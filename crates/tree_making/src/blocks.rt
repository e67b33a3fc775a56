// Blocks and the bodies of functions (Lua 5.4 manual, 3.3.1 and 3.4.11).
ghost use Rattle.std.specs.Prelude.{◌≡◌, ◌+◌, ◌<◌, ◌++◌, ◌∷◌, [], max, map, Some, None, IfOk};
ghost use Rattle.std.specs.Option.{option_map};
ghost use Rattle.tree_core.specs.Tree as tree;
ghost use Rattle.tree_core.specs.Plain.{plain_exp, plain_exps, plain_field, plain_arm, plain_stat, plain_block, plain_body, block_of, if_of, num_for_of};
ghost use Rattle.tree_making.specs.Made.{IsMade, above, key_of, joined, plain_items, all_plain, all_arms, all_fields, all_stats};

use crate::part::{Found, Items, Params};
use std::alloc::Global;
use tree_core::{Block, Body, Exp, Stat};

/// The body of a function, whose block lies two levels deeper.
pub fn body(alloc: Global, line: u32, params: Params, inner: Found<Block>) -> Found<Body>
    requires { inner.height < 1000 }
    ensures { IsMade plain_body result (tree.BodyOf params.names.items params.vararg (plain_block inner.node) [] line) (inner.height + 2) }
{
    Found {
        node: Body {
            params: params.names,
            vararg: params.vararg,
            block: inner.node,
            upvalues: Vec::new(alloc),
            line,
        },
        height: inner.height + 2,
    }
}

/// Statements up to a token on the line that ends the block.
pub fn items(stats: Found<Vec<Stat>>, line: u32) -> Found<Items>
    ensures { IsMade plain_items result (map plain_stat stats.node.items, None, line) stats.height }
{
    Found {
        node: Items {
            stats: stats.node,
            result: None,
            line,
        },
        height: stats.height,
    }
}

/// Statements and what stands behind the `return` on the line.
pub fn returning(stats: Found<Vec<Stat>>, values: Found<Vec<Exp>>, line: u32) -> Found<Items>
    ensures { IsMade plain_items result (map plain_stat stats.node.items, Some (plain_exps values.node.items), line) (max stats.height values.height) }
{
    Found {
        node: Items {
            stats: stats.node,
            result: Some(values.node),
            line,
        },
        height: stats.height.max(values.height),
    }
}

/// A block of this many tokens.
pub fn block(items: Found<Items>, tokens: u32) -> Found<Block>
    ensures { IsMade plain_block result (block_of (map plain_stat items.node.stats.items) (option_map (λ es. plain_exps es.items) items.node.result) tokens items.node.line) items.height }
{
    let height = items.height;
    let Items {
        stats,
        result,
        line,
    } = items.node;
    Found {
        node: Block {
            stats,
            result,
            tokens,
            line,
        },
        height,
    }
}

/// The block, one level deeper.
pub fn deeper(block: Found<Block>) -> Found<Block>
    requires { block.height < 1000 }
    ensures { IsMade plain_block result (plain_block block.node) (block.height + 1) }
{
    Found {
        node: block.node,
        height: block.height + 1,
    }
}
