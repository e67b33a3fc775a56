// The places of all names in a source.
ghost use Rattle.std.specs.Prelude.{◌≡◌, IfOk};
ghost use Rattle.tree_core.specs.Plain.{plain_block, plain_body};
ghost use Rattle.scope_core.specs.Places.{placed};

use crate::nesting::Nesting;
use crate::placing::place_block;
use int_core::{Allocated, Bytes};
use std::alloc::Global;
use tree_core::{Block, Body, UpName};

/// Sets the place of the name of every variable in a source, and the upvalues of every function
/// in the order in which it or a function within it first names them (Lua 5.4 manual, 2.2, 3.3.5
/// and 3.5). The source becomes the body of the main function, which takes `...` and has the one
/// upvalue `_ENV`. The only error is that the memory is not there; the source is then given up.
pub fn place(alloc: Global, block: Block) -> Allocated<Body>
    ensures { IfOk result (λ main. plain_body main ≡ placed (plain_block block)) }
{
    let mut block = block;
    let mut nesting = Nesting::main(alloc)?;
    place_block(&mut nesting, alloc, &mut block)?;
    let environment = UpName {
        text: Bytes::of(b"_ENV".to_vec(alloc)?),
        in_stack: true,
        index: 0,
    };
    let upvalues = vec![in alloc; environment]?;
    Ok(Body {
        params: Vec::new(alloc),
        vararg: true,
        block,
        upvalues,
        line: 0,
    })
}
