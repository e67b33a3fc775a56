// Writing all of some bytes.
ghost use Rattle.std.specs.Prelude.{◌≡◌, ◌++◌, OnErr, OnOk, is_err};
ghost use Rattle.std.specs.Option.{option_map};
ghost use Rattle.io_edge.specs.Causes.{HasCause};
ghost use Rattle.io_edge.specs.Content.{GrowsByFront};

use crate::device::Sink;
use crate::fault::Failed;

/// Writes all the bytes, by as many calls of `write` as that takes.
///
/// # Errors
///
/// `Failed` where one of the calls fails; a front of the bytes was written then.
pub fn write_all<K: Sink>(out: &mut K, bytes: &[u8]) -> Result<(), Failed>
    ensures cause { HasCause (K.faults out.old) (K.faults out.new) (is_err result) }
    ensures written { OnOk result (K.written out.new ≡ option_map (λ text. text ++ bytes.now) (K.written out.old)) }
    ensures front { OnErr result (GrowsByFront bytes.now (K.written out.old) (K.written out.new)) }
{
    let mut done = 0;
    while done < bytes.len() {
        done += out.write(&bytes[done..])?;
    }
    Ok(())
}
