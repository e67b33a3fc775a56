// The chunk in a file is checked.
ghost use Rattle.std.specs.Prelude.{◌≡◌, ◌+◌, ◌-◌, ◌≤◌, ◌++◌, ◌⊎◌, List, ℕ, IfErr, IfOk, OnErr, OnOk, is_err};
ghost use Rattle.std.specs.Option.{option_map};
ghost use Rattle.io_edge.specs.Causes.{HasCause};
ghost use Rattle.io_edge.specs.Content.{GrowsByFront};
ghost use Rattle.program.specs.Checking.{IsCheck, report_of};
ghost use Rattle.program.specs.Devices.{Holds};
ghost use Rattle.program.specs.Faults.{done_status};
ghost use Rattle.program.specs.Outcomes.{IsChunkIn, IsNoChunkFor};
ghost use Rattle.program.specs.Report.{ChunkFits};

use crate::fault::Fault;
use chunk_check::check;
use chunk_format::read_chunk;
use code_core::Checked;
use io_edge::{Files, Sink, write_all};
use itoa::Buffer;
use lua_opening::rules_hold;
use std::alloc::{AllocError, Global};

/// Writes how many functions and instructions the chunk in a file has, where its code may run.
pub fn check_file<F: Files, K: Sink>(
    alloc: Global,
    name: &str,
    files: &mut F,
    out: &mut K,
) -> Result<(), Fault>
    ensures check { IsCheck name.now (record { faults = F.faults files.old; faults' = F.faults files.new; content = F.held files.old; content' = F.held files.new }) (record { faults = K.faults out.old; faults' = K.faults out.new; content = K.written out.old; content' = K.written out.new }) (done_status result) }
    ensures fits { (content : List ℕ) → Holds (F.held files.old) name.now content → IfErr result (λ fault. ChunkFits content fault) }
    ensures once { (F.faults files.new - F.faults files.old) + (K.faults out.new - K.faults out.old) ≤ 1 }
{
    let content = files.get(alloc, name)?;
    let checked = checked_chunk(alloc, content.as_slice())?;
    let text = counts(alloc, &checked)?;
    write_output(out, text.as_slice())
}

/// The code of the chunk with which the bytes begin, where it may run.
pub fn checked_chunk(alloc: Global, bytes: &[u8]) -> Result<Checked, Fault>
    ensures code { IfOk result (λ code. IsChunkIn bytes.now code) }
    ensures refused { IfErr result (λ fault. IsNoChunkFor bytes.now fault ⊎ (fault ≡ Fault.Memory)) }
{
    let proto = read_chunk(alloc, bytes)?;
    let checked = check(alloc, proto)?;
    rules_hold(&checked);
    Ok(checked)
}

fn counts(alloc: Global, checked: &Checked) -> Result<Vec<u8>, AllocError>
    ensures { IfOk result (λ text. text.items ≡ report_of checked.now) }
{
    let mut text = Vec::from_slice(alloc, b"ok ")?;
    text.extend_from_slice(Buffer::new().format(checked.functions()).as_bytes())?;
    text.extend_from_slice(b" ")?;
    text.extend_from_slice(Buffer::new().format(checked.instructions()).as_bytes())?;
    text.extend_from_slice(b"\n")?;
    Ok(text)
}

/// Writes all of the output.
pub fn write_output<K: Sink>(out: &mut K, text: &[u8]) -> Result<(), Fault>
    ensures cause { HasCause (K.faults out.old) (K.faults out.new) (is_err result) }
    ensures written { OnOk result (K.written out.new ≡ option_map (λ before. before ++ text.now) (K.written out.old)) }
    ensures front { OnErr result (GrowsByFront text.now (K.written out.old) (K.written out.new)) }
    ensures device { IfErr result (λ fault. fault ≡ Fault.Device) }
{
    write_all(out, text)?;
    Ok(())
}
