// Whole images.
ghost use Rattle.std.specs.Prelude.{◌≤◌, ℕ, IfOk, length};
ghost use Rattle.eris_write.specs.Images.{Finishes, IsDrawn};
ghost use Rattle.eris_write.specs.Persisting.{CanPersist, Persists};
ghost use Rattle.eris_write.specs.Writing.{HaveTexts, IsReadable, texts_in};

use crate::fault::{PersistFault, Refusal};
use crate::keys::have_equal_keys;
use crate::output::{MOST, Output};
use crate::records::put_sorts;
use crate::writer::Writer;
use graph_core::{Permanents, reach};
use int_core::Allocated;
use lua_heap::World;
use lua_heap::law::strings_are_there;
use std::alloc::Global;
use table_core::Value;

/// What each image begins with: a signature, and the version.
const HEAD: [u8; 5] = [0x4c, 0x55, 0x49, 0x4d, 1];

/// The image of what some values reach, as bytes (docs/IMAGES.md): each object once, and permanents by their keys alone (Eris's manual,
/// `eris.persist`). The world is only read.
///
/// # Errors
///
/// `Refused` where two permanents have one key; else where the first of the image's fields that cannot be written is a library function without a
/// permanent, or a coroutine that runs or resumed another. `TooLarge` where nothing is refused and there are over 2,147,483,647 bytes.
/// `Memory` where memory runs out.
pub fn persist(
    alloc: Global,
    world: &World,
    roots: &[Value],
    permanents: &Permanents,
) -> Result<Vec<u8>, PersistFault>
    requires { CanPersist world.now roots.now }
    ensures { Persists world.now roots.now permanents.now result }
{
    let equal = have_equal_keys(alloc, permanents)?;
    if equal {
        return Err(PersistFault::Refused(Refusal::EqualKeys));
    }
    strings_are_there();
    let numbering = reach(alloc, world, roots, permanents)?;
    let writer = Writer {
        world,
        permanents,
        numbering: &numbering,
    };
    let out = writer.write_image(alloc, roots)?;
    finish(out)
}

impl Writer<'_> {
    /// Writes the image of some roots.
    fn write_image(&self, alloc: Global, roots: &[Value]) -> Allocated<Output>
        requires readable { IsReadable self.now.world.now }
        requires texts { HaveTexts (texts_in self.now) roots.now }
        requires few { length roots.now ≤ 255 }
        ensures { IfOk result (λ out. (fuel : ℕ) → IsDrawn self.now roots.now fuel out) }
    {
        let mut out = Output::new(alloc);
        out.put(&HEAD)?;
        put_sorts(&mut out, &self.numbering.order)?;
        let count = roots.len() as u8;
        out.put_byte(count)?;
        self.write_all(&mut out, roots)?;
        self.write_records(&mut out)?;
        Ok(out)
    }
}

/// The bytes that were written, unless something was refused or they are too many.
fn finish(out: Output) -> Result<Vec<u8>, PersistFault>
    ensures { Finishes out result }
{
    if let Some(refusal) = out.refusal {
        return Err(PersistFault::Refused(refusal));
    }
    if out.bytes.len() >= MOST {
        return Err(PersistFault::TooLarge);
    }
    Ok(out.bytes)
}
