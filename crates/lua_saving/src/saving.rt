// A session is saved.
ghost use Rattle.std.specs.Prelude.{◌≡◌, IfOk, IsErrOf};
ghost use Rattle.step_laws.specs.Turns.{MayGoOn};
ghost use Rattle.lua_saving.specs.Saving.{IsImage, IsLarge, IsTouched};

use crate::fault::SaveFault;
use crate::permanents::base_permanents;
use crate::prelude::has_prelude;
use crate::roots::roots_of;
use eris_write::{PersistFault, persist};
use kept_tables::tables_are_kept;
use lua_heap::World;

/// The image of a session that waits for a line, as bytes. The world is only read.
///
/// # Errors
///
/// `Prelude` where the functions of the prelude or their variables are not as they were made, `TooLarge` where there are over 2,147,483,647 bytes, and
/// `Memory`.
pub fn save_session(world: &World) -> Result<Vec<u8>, SaveFault>
    requires { MayGoOn world.now }
    ensures image { IfOk result (λ bytes. IsImage world.now bytes.items) }
    ensures large { IsErrOf result SaveFault.TooLarge → IsLarge world.now }
    ensures touched { IsErrOf result SaveFault.Prelude → IsTouched world.now }
{
    if !has_prelude(world) {
        return Err(SaveFault::Prelude);
    }
    tables_are_kept(world);
    let permanents = base_permanents(world.alloc)?;
    let roots = roots_of(world);
    match persist(world.alloc, world, &roots, &permanents) {
        Ok(bytes) => Ok(bytes),
        Err(PersistFault::TooLarge) => Err(SaveFault::TooLarge),
        Err(PersistFault::Memory) => Err(SaveFault::Memory),
        Err(PersistFault::Refused(_)) => unreachable!(),
    }
}
