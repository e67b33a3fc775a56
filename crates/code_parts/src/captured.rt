// The upvalues of a function: where it finds each when it is made, and their names.
ghost use Rattle.std.specs.Prelude.{◌≡◌, Some, IfOk, map};
ghost use Rattle.code_of.specs.CodeOf.{upvalue};

use code_core::UpDesc;
use int_core::{Allocated, Bytes};
use std::alloc::Global;
use tree_core::UpName;

/// Where a function finds its upvalues. A tree keeps the number of each in 8 bits, as a prototype
/// does.
pub fn upvalues(alloc: Global, names: &[UpName]) -> Allocated<Vec<UpDesc>>
    ensures { IfOk result (λ list. list.items ≡ map upvalue names.now) }
{
    let mut list = Vec::new(alloc);
    for name in names {
        list.push(UpDesc {
            in_stack: name.in_stack,
            index: name.index,
            kind: 0,
        })?;
    }
    Ok(list)
}

/// The names of the upvalues.
pub fn up_names(alloc: Global, names: &[UpName]) -> Allocated<Vec<Option<Bytes>>>
    ensures { IfOk result (λ list. list.items ≡ map (λ name. Some name.text) names.now) }
{
    let mut list = Vec::new(alloc);
    for name in names {
        let text = Bytes::of(name.text.as_slice().to_vec(alloc)?);
        list.push(Some(text))?;
    }
    Ok(list)
}
