// The text of the prelude, compiled.
ghost use Rattle.std.specs.Prelude.{◌≡◌, IfOk, IfErr};
ghost use Rattle.prelude_code.specs.Prelude.{IsPreludeCode, IsNoPrelude};

use crate::fault::PreludeFault;
use code_core::Checked;
use compile_chunk::code_of;
use lua_prelude::{functions, text};
use prelude_guard::all_guarded;
use std::alloc::Global;

/// The code of the prelude's text, without lines and names, in which its functions stand in their order.
///
/// # Errors
///
/// `Refused` where the text is no source, has not as many functions as there are names for them, or has one that does not keep its environment to itself.
pub fn prelude_code(alloc: Global) -> Result<Checked, PreludeFault>
    ensures code { IfOk result (λ checked. IsPreludeCode checked) }
    ensures refused { IfErr result (λ fault. IsNoPrelude fault) }
{
    let checked = code_of(alloc, b"", text().as_bytes(), false)?;
    if checked.proto().protos.len() != functions().len() {
        return Err(PreludeFault::Refused);
    }
    if !all_guarded(checked.proto()) {
        return Err(PreludeFault::Refused);
    }
    Ok(checked)
}
