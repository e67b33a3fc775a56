// The fields of tables (Lua 5.4 manual, 3.4.9).
ghost use Rattle.std.specs.Prelude.{◌≡◌, ◌+◌, ◌<◌, ◌++◌, ◌∷◌, [], max, map, Some, None, IfOk};
ghost use Rattle.std.specs.Option.{option_map};
ghost use Rattle.tree_core.specs.Tree as tree;
ghost use Rattle.tree_core.specs.Plain.{plain_exp, plain_exps, plain_field, plain_arm, plain_stat, plain_block, plain_body, block_of, if_of, num_for_of};
ghost use Rattle.tree_making.specs.Made.{plain_boxed, IsMade, above, key_of, joined, plain_items, all_plain, all_arms, all_fields, all_stats};

use crate::part::Found;
use tree_core::{Exp, ExpNode, Field, Name};

/// The field of a key that lies one level deeper.
pub fn keyed(line: u32, key: Found<Box<Exp>>, value: Found<Box<Exp>>) -> Found<Field>
    requires { key.height < 1000 }
    ensures { IsMade plain_field result (tree.Keyed line (plain_boxed key.node) (plain_boxed value.node)) (max (key.height + 1) value.height) }
{
    Found {
        node: Field::Keyed {
            line,
            key: Box::into_inner(key.node),
            value: Box::into_inner(value.node),
        },
        height: (key.height + 1).max(value.height),
    }
}

/// The field of a name.
pub fn named(name: Name, value: Found<Box<Exp>>) -> Found<Field>
    ensures { IsMade plain_field result (tree.Keyed name.line (key_of name) (plain_boxed value.node)) value.height }
{
    let line = name.line;
    Found {
        node: Field::Keyed {
            line,
            key: Exp {
                line,
                node: ExpNode::Str(name.text),
            },
            value: Box::into_inner(value.node),
        },
        height: value.height,
    }
}

/// A field at the next place.
pub fn item(value: Found<Box<Exp>>) -> Found<Field>
    ensures { IsMade plain_field result (tree.Item (plain_boxed value.node)) value.height }
{
    Found {
        node: Field::Item(Box::into_inner(value.node)),
        height: value.height,
    }
}
