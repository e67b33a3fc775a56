// Reading an image into a world.
ghost use Rattle.std.specs.Prelude.{◌≡◌, IfOk, IfErr, OnErr};
ghost use Rattle.graph_core.specs.Permanents.{permanents as listed};
ghost use Rattle.eris_read.specs.Unpersist.{CanRead, Loads, IsCause, IsAsBefore, Reads};

use crate::known::known_in;
use crate::loading::load;
use graph_core::Permanents;
use image_reading::{ReadFault, read_image};
use image_records::Image;
use lua_heap::World;
use table_core::Value;

/// Reads an image into a world, and gives its roots (Eris's manual, `eris.unpersist`). Its objects stand behind those that were there; permanent values are
/// put in by their keys, of several with one key the first. It is refused for the first fault in the order of its bytes, or for want of memory, and
/// then the world is as before.
#[tactic(auto, using(crate::proofs::Whole::loads_read, crate::proofs::Whole::marked, crate::proofs::Whole::back, crate::proofs::CameBack::as_before_same))]
pub fn unpersist<'a>(
    world: &mut World,
    bytes: &'a [u8],
    permanents: &Permanents,
    roots: u8,
) -> Result<Vec<Value>, ReadFault<'a>>
    requires { CanRead world.old (listed permanents.now) }
    ensures loaded { IfOk result (λ values. Loads world.old world.new (listed permanents.now) roots bytes.now values.items) }
    ensures refused { IfErr result (λ fault. IsCause world.old (listed permanents.now) roots bytes.now fault) }
    ensures err { OnErr result (IsAsBefore world.old world.new) }
{
    let image = read(world, bytes, permanents, roots)?;
    let mark = world.mark();
    match load(world, image, permanents) {
        Ok(values) => Ok(values),
        Err(_) => {
            world.release_to(mark);
            Err(ReadFault::Memory)
        }
    }
}

/// Reads the records of an image. The world is only read.
#[tactic(auto, using(crate::proofs::Given::reads_known))]
fn read<'a>(
    world: &World,
    bytes: &'a [u8],
    permanents: &Permanents,
    roots: u8,
) -> Result<Image<'a>, ReadFault<'a>>
    requires { CanRead world.now (listed permanents.now) }
    ensures { Reads world.now (listed permanents.now) roots bytes.now result }
{
    match known_in(world, permanents) {
        Ok(known) => read_image(world.alloc, bytes, &known, roots),
        Err(_) => Err(ReadFault::Memory),
    }
}
