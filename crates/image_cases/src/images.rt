// Small images of a new world, byte by byte as docs/IMAGES.md has them, and values that cannot be written.
ghost use Rattle.machine_sound.specs.Sound.{Valid, sizes};
ghost use Rattle.lua_heap.specs.Opening.{first_texts, opened_world};
ghost use Rattle.lua_heap.specs.Reading.{value as read};

use eris_write::{PersistFault, persist};
use graph_core::{Permanent, PermanentKey, PermanentSort, Permanents};
use lua_heap::World;
use lua_heap::law::new_worlds_are_sound;
use std::alloc::Global;
use std::test::Fail;
use table_core::{TableId, Value};

/// The globals of a new world, and the environment of its prelude.
const GLOBALS: Value = Value::Table(TableId(0));

const ENVIRONMENT: Value = Value::Table(TableId(1));

/// The image of two values of a new world, or why there is none.
fn image_of(
    alloc: Global,
    first: Value,
    second: Value,
    permanents: &Permanents,
) -> Result<Vec<u8>, PersistFault>
    requires first { Valid (sizes 100 (opened_world 0)) (read first_texts first) }
    requires second { Valid (sizes 100 (opened_world 0)) (read first_texts second) }
{
    new_worlds_are_sound();
    let world = World::new(alloc)?;
    persist(alloc, &world, &[first, second], permanents)
}

/// The kind of a refusal, or 0.
fn kind_of(outcome: Result<Vec<u8>, PersistFault>) -> u8 {
    match outcome {
        Err(PersistFault::Refused(refusal)) => refusal.kind(),
        _ => 0,
    }
}

/// A primitive function as what a permanent stands for.
fn primitive(number: usize) -> Permanent {
    Permanent {
        sort: PermanentSort::Primitive,
        number,
    }
}

#[test]
fn values_stand_as_they_are(rt: HostRuntime) -> Result<(), Fail> {
    let alloc = rt.alloc();
    let none = Permanents::new(alloc);
    let image = image_of(alloc, Value::Nil, Value::Int(-2), &none)?;
    let expected: [u8; 20] = [
        0x4c, 0x55, 0x49, 0x4d, 1, 0, 0, 0, 0, 2, 0, 3, 0xfe, 0xff, 0xff, 0xff, 0xff, 0xff, 0xff,
        0xff,
    ];
    assert_eq!(rt; image.as_slice(), expected.as_slice());
    Ok(())
}

#[test]
fn a_table_has_one_record(rt: HostRuntime) -> Result<(), Fail> {
    let alloc = rt.alloc();
    let none = Permanents::new(alloc);
    let image = image_of(alloc, GLOBALS, GLOBALS, &none)?;
    let expected: [u8; 26] = [
        0x4c, 0x55, 0x49, 0x4d, 1, 1, 0, 0, 0, 1, 2, 5, 0, 0, 0, 0, 5, 0, 0, 0, 0, 0, 0, 0, 0, 0,
    ];
    assert_eq!(rt; image.as_slice(), expected.as_slice());
    Ok(())
}

#[test]
fn names_stand_for_what_has_them(rt: HostRuntime) -> Result<(), Fail> {
    let alloc = rt.alloc();
    let mut permanents = Permanents::new(alloc);
    let globals = Permanent {
        sort: PermanentSort::Table,
        number: 0,
    };
    permanents.add(globals, PermanentKey::Text(Vec::from_slice(alloc, b"_G")?))?;
    let image = image_of(alloc, ENVIRONMENT, GLOBALS, &permanents)?;
    let expected: [u8; 19] = [
        0x4c, 0x55, 0x49, 0x4d, 1, 0, 0, 0, 0, 2, 9, 7, 4, 2, 0, 0, 0, 0x5f, 0x47,
    ];
    assert_eq!(rt; image.as_slice(), expected.as_slice());
    Ok(())
}

#[test]
fn what_cannot_be_written_is_told(rt: HostRuntime) -> Result<(), Fail> {
    let alloc = rt.alloc();
    let mut permanents = Permanents::new(alloc);
    permanents.add(primitive(3), PermanentKey::Number(7))?;
    assert_eq!(rt;
        kind_of(image_of(alloc, Value::Prim(3), Value::Nil, &permanents)),
        0
    );
    assert_eq!(rt;
        kind_of(image_of(alloc, Value::Nil, Value::Prim(4), &permanents)),
        1
    );
    permanents.add(primitive(4), PermanentKey::Number(7))?;
    assert_eq!(rt;
        kind_of(image_of(alloc, Value::Nil, Value::Nil, &permanents)),
        5
    );
    Ok(())
}
