// A session goes on from an image.
ghost use Rattle.std.specs.Prelude.{◌≡◌, IfErr, IfOk, false, length, true};
ghost use Rattle.code_core.specs.Prototype.{list_of};
ghost use Rattle.library_rows.specs.PreludeText.{prelude_functions};
ghost use Rattle.lua_meaning.specs.Opening.{prelude_of};
ghost use Rattle.step_laws.specs.Turns.{MayGoOn};
ghost use Rattle.lua_heap.specs.Plain.{plain};
ghost use Rattle.lua_saving.specs.Saving.{AreThere, HasYielded, IsNoSession, IsRefused, IsSession, TakesRoots};

use crate::permanents::base_permanents;
use crate::roots::{has_yielded, roots_in};
use code_core::Checked;
use eris_read::unpersist;
use image_reading::{ReadFault, Refusal};
use lua_heap::World;
use lua_opening::{open, rules_hold};
use machine_runs::sessions_are_sound;
use std::alloc::Global;
use table_core::Value;

/// How many roots a session has.
const ROOTS: u8 = 5;

/// The session of an image, in a new world of the libraries over the prelude's code: its main coroutine waits for a line.
///
/// # Errors
///
/// `Refused` with the first fault of the bytes, which is `OutOfPlace` where nothing else is refused and the roots are no session's; and `Memory`.
pub fn load_session<'a>(
    alloc: Global,
    prelude: Checked,
    image: &'a [u8],
) -> Result<World, ReadFault<'a>>
    requires { length (list_of prelude.inner) ≡ length prelude_functions }
    ensures session { IfOk result (λ world. IsSession (prelude_of (list_of prelude.inner)) image.now (plain world 0)) }
    ensures may { IfOk result (λ world. MayGoOn world) }
    ensures yielded { IfOk result (λ world. HasYielded (plain world 0)) }
    ensures refused { IfErr result (λ fault. IsRefused (prelude_of (list_of prelude.inner)) image.now fault) }
{
    sessions_are_sound();
    rules_hold(&prelude);
    let mut world = open(alloc, prelude)?;
    let permanents = base_permanents(alloc)?;
    match unpersist(&mut world, image, &permanents, ROOTS) {
        Ok(values) => {
            if take_roots(&mut world, values.as_slice()) {
                return Ok(world);
            }
            Err(ReadFault::Refused(Refusal::OutOfPlace))
        }
        Err(fault) => Err(fault),
    }
}

/// Takes over the roots that some values are, and answers whether they are a session's whose main coroutine waits for a line; else nothing is changed.
fn take_roots(world: &mut World, values: &[Value]) -> bool
    requires there { AreThere world.old values.now }
    ensures taken { result ≡ true → TakesRoots world.old world.new values.now }
    ensures none { result ≡ false → IsNoSession world.old values.now }
{
    let [main, globals, metatable, key, depth] = values else {
        return false;
    };
    let Some(roots) = roots_in(*main, *globals, *metatable, *key, *depth) else {
        return false;
    };
    if !has_yielded(world.coros.get(roots.main.0)) {
        return false;
    }
    world.main = Some(roots.main);
    world.globals = roots.globals;
    world.string_meta = roots.string_meta;
    world.spkey = roots.spkey;
    world.maxrec = roots.maxrec;
    true
}
