// The prototype of a function, with those of the functions in it.
ghost use Rattle.std.specs.Prelude.{◌≡◌, IfOk, map};
ghost use Rattle.tree_core.specs.Plain.{plain_block, plain_body};
ghost use Rattle.code_core.specs.Prototype.{none, prototypes};
ghost use Rattle.code_of.specs.CodeOf.{code_of, from_block, where_known};
ghost use Rattle.code_parts.specs.Assembled.{low_prototype, low_prototypes};
ghost use Rattle.code_parts.specs.Scopes.{finished};

use code_core::{LocVar, Proto};
use code_emitter::Emitted;
use code_parts::{Variables, block_constants, inner_bodies, prototype};
use code_stat::{Written, write_body};
use int_core::{Allocated, Bytes};
use std::alloc::Global;
use tree_core::{Block, Body};

/// The local variables, where the source is known.
fn known_locals(
    alloc: Global,
    source: &Option<Bytes>,
    variables: Variables,
) -> Allocated<Vec<LocVar>>
    ensures { IfOk result (λ list. list.items ≡ where_known source.now (map finished variables)) }
{
    match source {
        Some(_) => variables.into_vec(alloc),
        None => Ok(Vec::new(alloc)),
    }
}

/// The prototype of a function. Where the source has a name it has lines and names.
#[cycle(functions)]
pub(crate) fn function(alloc: Global, source: &Option<Bytes>, body: &Body) -> Allocated<Proto>
    ensures { IfOk result (λ p. p ≡ low_prototype (code_of source.now (plain_body body.now))) }
{
    let constants = block_constants(alloc, &body.block)?;
    let Written { emitter, variables } = write_body(alloc, constants, body)?;
    let inner = inner_functions(alloc, source, &body.block)?;
    let locals = known_locals(alloc, source, variables)?;
    let Emitted { steps, constants } = emitter.finish();
    let constants = constants.into_vec();
    prototype(alloc, source, body, &steps, constants, locals, inner)
}

/// The prototypes of the functions that a block makes, in the order of the text.
#[cycle(functions)]
fn inner_functions(alloc: Global, source: &Option<Bytes>, block: &Block) -> Allocated<Vec<Proto>>
    ensures { IfOk result (λ list. prototypes list.items ≡ low_prototypes (from_block source.now (plain_block block.now) none)) }
{
    let mut list = Vec::new(alloc);
    for body in inner_bodies(alloc, block)?.iter() {
        list.push(function(alloc, source, body)?)?;
    }
    Ok(list)
}
