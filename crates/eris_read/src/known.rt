// What the keys of permanents stand for in a world.
ghost use Rattle.std.specs.Prelude.{◌≡◌, IfOk};
ghost use Rattle.graph_core.specs.Permanents.{key_read, object_read, permanents as listed};
ghost use Rattle.image_records.specs.Views.{key as key_shown};
ghost use Rattle.image_records.specs.Names.{object_of, proto_of};
ghost use Rattle.lua_heap.specs.Plain.{plain};
ghost use Rattle.eris_read.specs.Unpersist.{CanRead, code_of};
ghost use Rattle.eris_read.specs.Known.{IsKnown, IsNamed, IsPermanent, IsSmall};

use code_core::Proto;
use graph_core::{Permanent, PermanentKey, PermanentSort, Permanents};
use image_records::{Key, Known, Named};
use int_core::Allocated;
use lua_heap::World;
use table_core::{CoroId, FuncId, TableId, Value};

/// All permanents by their keys, with the code of Lua functions.
pub(crate) fn known_in<'k>(world: &'k World, permanents: &'k Permanents) -> Allocated<Known<'k>>
    requires { CanRead world.now (listed permanents.now) }
    ensures { IfOk result (λ known. IsKnown world.now (listed permanents.now) known) }
{
    let mut known = Known::new(world.alloc, world.prelude.env);
    for at in 0..permanents.len() {
        let (permanent, key) = permanents.at(at);
        let named = Named {
            object: value_of(permanent),
            code: code_in(world, permanent),
        };
        known.add(key_of(key), named)?;
    }
    Ok(known)
}

/// All permanents by their keys, without code. Nothing of the world is borrowed.
pub(crate) fn names_of<'k>(world: &World, permanents: &'k Permanents) -> Allocated<Known<'k>>
    requires { CanRead world.now (listed permanents.now) }
    ensures { IfOk result (λ known. IsNamed (listed permanents.now) known) }
{
    let mut known = Known::new(world.alloc, world.prelude.env);
    for at in 0..permanents.len() {
        let (permanent, key) = permanents.at(at);
        let named = Named {
            object: value_of(permanent),
            code: None,
        };
        known.add(key_of(key), named)?;
    }
    Ok(known)
}

/// A key, as an image has it.
fn key_of(key: &PermanentKey) -> Key<'_>
    ensures { key_shown result ≡ key_read key.now }
{
    match key {
        PermanentKey::Number(n) => Key::Number(*n),
        PermanentKey::Text(text) => Key::Text(text.as_slice()),
    }
}

/// The value that a permanent is.
fn value_of(permanent: Permanent) -> Value
    requires { IsSmall permanent }
    ensures { object_of result ≡ object_read permanent }
{
    match permanent.sort {
        PermanentSort::Primitive => Value::Prim(permanent.number as u16),
        PermanentSort::Table => Value::Table(TableId(permanent.number)),
        PermanentSort::Func => Value::Func(FuncId(permanent.number)),
        PermanentSort::Coro => Value::Coro(CoroId(permanent.number)),
    }
}

/// The code of a permanent that is a Lua function.
fn code_in(world: &World, permanent: Permanent) -> Option<&Proto>
    requires { IsPermanent world.now permanent }
    ensures { proto_of result ≡ code_of (plain world.now 0) (object_read permanent) }
{
    match permanent.sort {
        PermanentSort::Func => {
            let function = world.funcs.get(permanent.number);
            Some(world.codes.proto(function.code))
        }
        PermanentSort::Primitive => None,
        PermanentSort::Table => None,
        PermanentSort::Coro => None,
    }
}
