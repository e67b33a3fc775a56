// Expressions during whose evaluation no other code runs, so no local is assigned.
ghost use Rattle.std.specs.Prelude.{◌≡◌};
ghost use Rattle.tree_core.specs.Plain.{plain_exp};
ghost use Rattle.code_of.specs.Stores.{is_near, is_quiet, beside_quiet};

use crate::literals::is_literal;
use tree_core::{Exp, ExpNode, Name, Place, UnOp};

/// Whether a name is that of a local variable or of an upvalue.
fn is_near(name: &Name) -> bool
    ensures { result ≡ is_near name.now.place }
{
    matches!(name.place, Place::Local(_) | Place::Upvalue(_))
}

/// Whether an expression is quiet.
pub(crate) fn is_quiet(exp: &Exp) -> bool
    ensures { result ≡ is_quiet (plain_exp exp.now) }
{
    match &exp.node {
        ExpNode::Function(_) => true,
        ExpNode::Var(name) => is_near(name),
        ExpNode::Unary(UnOp::Not, inner) => is_quiet(inner),
        ExpNode::Unary(_, _) => false,
        ExpNode::Paren(inner) => is_quiet(inner),
        _ => is_literal(exp),
    }
}

/// The register of a local that stays where the value stored is quiet, or none.
pub(crate) fn beside_quiet(quiet: bool, local: Option<usize>) -> Option<usize>
    ensures { result ≡ beside_quiet quiet local }
{
    if !quiet {
        return None;
    }
    local
}
