// Which form an expression has (Lua 5.4 manual, 3.3.3 and 3.3.6).
ghost use Rattle.std.specs.Prelude.{◌≡◌};
ghost use Rattle.tree_making.specs.Form.{is_call, is_target, variable_of};
ghost use Rattle.tree_making.specs.Made.{plain_boxed};

use crate::part::Found;
use tree_core::{Exp, ExpNode, Name};

/// Whether this is a call.
pub fn is_call(found: &Found<Box<Exp>>) -> bool
    ensures { result ≡ is_call (plain_boxed found.now.node) }
{
    matches!(
        found.node.node,
        ExpNode::Call(_, _) | ExpNode::Method(_, _, _)
    )
}

/// Whether this may be assigned to.
pub fn is_target(found: &Found<Box<Exp>>) -> bool
    ensures { result ≡ is_target (plain_boxed found.now.node) }
{
    matches!(found.node.node, ExpNode::Var(_) | ExpNode::Index(_, _))
}

/// The name that this is, where it is a variable.
pub fn name_of(found: Found<Box<Exp>>) -> Option<Name>
    ensures { result ≡ variable_of (plain_boxed found.node) }
{
    match Box::into_inner(found.node).node {
        ExpNode::Var(name) => Some(name),
        _ => None,
    }
}
