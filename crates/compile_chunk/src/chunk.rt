// The chunk of a source file.
ghost use Rattle.std.specs.Prelude.{◌≡◌, ◌≤◌, IfOk, IfErr, length, not};
ghost use Rattle.int_core.specs.Value.{greatest_string};
ghost use Rattle.compile_text.specs.Source.{IsRefused};
ghost use Rattle.compile_chunk.specs.Chunk.{IsChunkOf, script_in};

use crate::script::script_in;
use chunk_format::write_chunk;
use compile_text::{TextFault, source_tree};
use compiler::compile;
use std::alloc::Global;
use std::mem::forget;

/// The chunk of the script in a file, under a source name, or without lines and names. For a program that ends with it: the tree and the code are left to the
/// system as a whole, since giving back each piece of a large script takes a sixth of the time.
///
/// # Errors
///
/// Those of `compile_text` for the script. `Memory` can be answered of every file.
pub fn chunk_of(
    alloc: Global,
    name: &[u8],
    content: &[u8],
    strip: bool,
) -> Result<Vec<u8>, TextFault>
    requires name { length name.now ≤ greatest_string }
    ensures chunk { IfOk result (λ bytes. IsChunkOf name.now (script_in content.now) strip bytes.items) }
    ensures refused { IfErr result (λ fault. IsRefused (script_in content.now) fault) }
{
    let tree = source_tree(alloc, script_in(content))?;
    let checked = compile(alloc, &tree, name, !strip)?;
    let bytes = write_chunk(alloc, checked.proto(), false)?;
    forget(tree);
    forget(checked);
    Ok(bytes)
}
