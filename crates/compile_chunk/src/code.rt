// The code of a source.
ghost use Rattle.std.specs.Prelude.{◌≡◌, ◌≤◌, IfOk, IfErr, length};
ghost use Rattle.int_core.specs.Value.{greatest_string};
ghost use Rattle.compile_text.specs.Source.{IsRefused};
ghost use Rattle.compile_chunk.specs.Chunk.{IsCodeOf};

use code_core::Checked;
use compile_text::{TextFault, source_tree};
use compiler::compile;
use std::alloc::Global;

/// The checked code of a source, with the source's name and the lines of its instructions, or without lines and names (Lua 5.4 manual, 3).
///
/// # Errors
///
/// Those of `compile_text` for the source. `Memory` can be answered of every source.
pub fn code_of(alloc: Global, name: &[u8], source: &[u8], lines: bool) -> Result<Checked, TextFault>
    requires name { length name.now ≤ greatest_string }
    ensures code { IfOk result (λ checked. IsCodeOf name.now source.now lines checked) }
    ensures refused { IfErr result (λ fault. IsRefused source.now fault) }
{
    let tree = source_tree(alloc, source)?;
    Ok(compile(alloc, &tree, name, lines)?)
}
