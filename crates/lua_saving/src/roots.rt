// The roots of a session.
ghost use Rattle.std.specs.Prelude.{◌≡◌, ℕ, map};
ghost use Rattle.int_core.specs.Value.{integer, known};
ghost use Rattle.image_load.specs.Session.{main_value, session_roots};
ghost use Rattle.image_core.specs.Records.{metatable_value};
ghost use Rattle.lua_heap.specs.Plain.{plain};
ghost use Rattle.lua_heap.specs.Reading.{value as read};
ghost use Rattle.lua_saving.specs.Roots.{has_yielded, metatable_of, roots_of_five};

use lua_heap::{Coro, World};
use table_core::{CoroId, StrId, TableId, Value};

/// What a session holds on to.
#[derive(Debug, Clone, Copy)]
pub struct Roots {
    /// The main coroutine.
    pub main: CoroId,
    /// The table of globals.
    pub globals: TableId,
    /// The metatable that all strings share.
    pub string_meta: Option<TableId>,
    /// The field of a metatable that says how its table is saved.
    pub spkey: StrId,
    /// A number that scripts may set.
    pub maxrec: i64,
}

/// The main coroutine, the table of globals, the metatable of strings, and the two settings of Eris.
pub(crate) fn roots_of(world: &World) -> [Value; 5]
    ensures { (fuel : ℕ) → map (read world.now.strings) result ≡ session_roots (plain world.now fuel) }
{
    [
        main_value(world),
        Value::Table(world.globals),
        metatable_value(world),
        Value::Str(world.spkey),
        depth_value(world),
    ]
}

/// The main coroutine as a value.
fn main_value(world: &World) -> Value
    ensures { (fuel : ℕ) → read world.now.strings result ≡ main_value (plain world.now fuel).main }
{
    match world.main {
        Some(main) => Value::Coro(main),
        None => Value::Nil,
    }
}

/// The metatable of strings as a value.
fn metatable_value(world: &World) -> Value
    ensures { (fuel : ℕ) → read world.now.strings result ≡ metatable_value (plain world.now fuel).heap.string_metatable }
{
    match world.string_meta {
        Some(metatable) => Value::Table(metatable),
        None => Value::Nil,
    }
}

/// The number that scripts may set, as a value.
fn depth_value(world: &World) -> Value
    ensures { (fuel : ℕ) → read world.now.strings result ≡ known (integer (plain world.now fuel).max_depth) }
{
    Value::Int(world.maxrec)
}

/// The roots that these values are: a coroutine, a table, a table or nil, a string and an integer.
pub(crate) fn roots_in(
    main: Value,
    globals: Value,
    metatable: Value,
    key: Value,
    depth: Value,
) -> Option<Roots>
    ensures { result ≡ roots_of_five main globals metatable key depth }
{
    let string_meta = metatable_of(metatable)?;
    let Value::Coro(main) = main else {
        return None;
    };
    let Value::Table(globals) = globals else {
        return None;
    };
    let Value::Str(spkey) = key else {
        return None;
    };
    let Value::Int(maxrec) = depth else {
        return None;
    };
    Some(Roots {
        main,
        globals,
        string_meta,
        spkey,
        maxrec,
    })
}

/// Whether a coroutine waits where it has yielded.
pub(crate) fn has_yielded(coro: &Coro) -> bool
    ensures { result ≡ has_yielded coro.now }
{
    matches!(coro, Coro::Suspended(_))
}

/// The metatable that a value is, or none.
fn metatable_of(value: Value) -> Option<Option<TableId>>
    ensures { result ≡ metatable_of value }
{
    match value {
        Value::Nil => Some(None),
        Value::Table(id) => Some(Some(id)),
        _ => None,
    }
}
