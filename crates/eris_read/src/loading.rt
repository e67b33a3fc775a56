// The objects of an image in a world.
ghost use Rattle.std.specs.Prelude.{IfOk};
ghost use Rattle.graph_core.specs.Permanents.{permanents as listed};
ghost use Rattle.image_records.specs.Views.{image_read};
ghost use Rattle.eris_read.specs.Unpersist.{CanRead};
ghost use Rattle.eris_read.specs.Loaded.{CanComeBack, LoadsBy, LoadsImage};
ghost use Rattle.move_laws.specs.Memory.{InOrder};

use crate::known::names_of;
use graph_core::Permanents;
use image_made::{Maker, Place, places_of};
use image_placed::{add_parts, place_all};
use image_records::{Image, Known};
use int_core::Allocated;
use lua_heap::World;
use table_core::Value;

/// Loads an image into a world, and gives its roots. What a refusal leaves begins with what was there.
#[tactic(auto, using(crate::proofs::CameBack::come_same))]
pub(crate) fn load(
    world: &mut World,
    image: Image<'_>,
    permanents: &Permanents,
) -> Allocated<Vec<Value>>
    requires { CanRead world.old (listed permanents.now) }
    ensures loads { IfOk result (λ values. LoadsImage world.old world.new (listed permanents.now) (image_read image.entry) values.items) }
    ensures order { IfOk result (λ values. InOrder world.new) }
    ensures back { CanComeBack world.old world.new }
{
    let known = names_of(world, permanents)?;
    let places = places_of(world, &image.records)?;
    load_by(world, image, &places, &known)
}

/// Loads an image, whose objects become these, by what the keys of permanents stand for.
#[tactic(auto, using(crate::proofs::CameBack::come_more, crate::proofs::CameBack::come_all))]
fn load_by(
    world: &mut World,
    image: Image<'_>,
    places: &[Place],
    known: &Known<'_>,
) -> Allocated<Vec<Value>>
    requires { InOrder world.old }
    ensures loads { IfOk result (λ values. LoadsBy places.now known.now world.old world.new (image_read image.entry) values.items) }
    ensures order { IfOk result (λ values. InOrder world.new) }
    ensures back { CanComeBack world.old world.new }
{
    let Image { roots, records } = image;
    let parts = add_parts(world, &roots, records)?;
    let maker = Maker {
        alloc: world.alloc,
        places,
        known,
        environment: world.prelude.env,
    };
    let values = maker.values(&world.strings, &roots)?;
    place_all(world, &maker, &parts)?;
    Ok(values)
}
