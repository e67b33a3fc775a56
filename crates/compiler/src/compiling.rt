// The code of a whole source.
ghost use Rattle.std.specs.Prelude.{◌≡◌, ◌≤◌, IfOk, length};
ghost use Rattle.int_core.specs.Value.{greatest_string};
ghost use Rattle.tree_core.specs.Plain.{plain_body};
ghost use Rattle.code_of.specs.CodeOf.{code_of};
ghost use Rattle.code_means.specs.Means.{Means};
ghost use Rattle.compiler.specs.Source.{IsOfSource, name_where};

use crate::functions::function;
use code_core::Checked;
use int_core::{Allocated, Bytes};
use scope_core::Resolved;
use std::alloc::Global;

/// The source's name, where lines are kept.
fn name_where(alloc: Global, lines: bool, source: &[u8]) -> Allocated<Option<Bytes>>
    ensures { IfOk result (λ name. name ≡ name_where lines source.now) }
{
    if lines {
        Ok(Some(Bytes::of(source.to_vec(alloc)?)))
    } else {
        Ok(None)
    }
}

/// The code of a source, from its tree with the places of all names. With lines it has the source's
/// name, the lines of its instructions and the names of its variables, else none of them. It keeps
/// the rules on code, and means the tree.
pub fn compile(alloc: Global, tree: &Resolved, source: &[u8], lines: bool) -> Allocated<Checked>
    requires tree { IsOfSource tree.now }
    requires name { length source.now ≤ greatest_string }
    ensures code { IfOk result (λ checked. checked ≡ code_of (name_where lines source.now) (plain_body tree.now.main)) }
    ensures means { IfOk result (λ checked. Means lines checked (plain_body tree.now.main)) }
{
    let name = name_where(alloc, lines, source)?;
    let proto = function(alloc, &name, &tree.main)?;
    Ok(Checked::keep(proto))
}
