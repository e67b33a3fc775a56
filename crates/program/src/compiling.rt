// The script in a file is compiled into a chunk.
ghost use Rattle.std.specs.Prelude.{◌≡◌, ◌-◌, ◌≤◌, ◌⊎◌, List, ℕ, IfErr, IfOk, length};
ghost use Rattle.program.specs.Compiling.{IsCompilation, source_name};
ghost use Rattle.program.specs.Devices.{Holds};
ghost use Rattle.program.specs.Faults.{done_status};
ghost use Rattle.program.specs.Outcomes.{IsChunk, IsNoScriptFor};
ghost use Rattle.program.specs.Report.{ScriptFits};

use crate::fault::Fault;
use compile_chunk::chunk_of;
use io_edge::Files;
use std::alloc::{AllocError, Global};

/// Puts the chunk of the script in a file into another file. A failed `put` leaves that one file unknown.
pub fn compile_file<F: Files>(
    alloc: Global,
    script: &str,
    chunk: &str,
    strip: bool,
    files: &mut F,
) -> Result<(), Fault>
    requires short { length script.now ≤ 65536 }
    ensures call { IsCompilation script.now chunk.now strip (record { faults = F.faults files.old; faults' = F.faults files.new; content = F.held files.old; content' = F.held files.new }) (done_status result) }
    ensures fits { (content : List ℕ) → Holds (F.held files.old) script.now content → IfErr result (λ fault. ScriptFits content fault) }
    ensures once { F.faults files.new - F.faults files.old ≤ 1 }
{
    let content = files.get(alloc, script)?;
    let bytes = chunk_of_script(alloc, script, content.as_slice(), strip)?;
    files.put(chunk, bytes.as_slice())?;
    Ok(())
}

/// The bytes of the chunk of the script in a file, whose source is named by the file.
fn chunk_of_script(
    alloc: Global,
    script: &str,
    content: &[u8],
    strip: bool,
) -> Result<Vec<u8>, Fault>
    requires short { length script.now ≤ 65536 }
    ensures chunk { IfOk result (λ bytes. IsChunk script.now strip content.now bytes.items) }
    ensures refused { IfErr result (λ fault. IsNoScriptFor content.now fault ⊎ (fault ≡ Fault.Memory)) }
{
    let name = source_name(alloc, script)?;
    Ok(chunk_of(alloc, name.as_slice(), content, strip)?)
}

/// `@` and the file's name.
pub fn source_name(alloc: Global, script: &str) -> Result<Vec<u8>, AllocError>
    ensures { IfOk result (λ name. name.items ≡ source_name script.now) }
{
    let mut name = Vec::from_slice(alloc, b"@")?;
    name.extend_from_slice(script.as_bytes())?;
    Ok(name)
}
