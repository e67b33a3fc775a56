// Calls of `error` (luaB_error of lbaselib.c; Lua 5.4 manual, 6.1).
ghost use Rattle.std.specs.Prelude.{◌≡◌, List, codes, IfOk, OnErr};
ghost use Rattle.int_core.specs.Value.{Value as Meant, shape};
ghost use Rattle.lua_heap.specs.Errors.{HasText};
ghost use Rattle.lua_heap.specs.Plain.{plain};
ghost use Rattle.lua_heap.specs.Reading.{value as meant};
ghost use Rattle.machine_core.specs.FrameRows.{blames};
ghost use Rattle.machine_core.specs.MachineStep.{error_row, level_in, wrong_type};
ghost use Rattle.machine_core.specs.Moves.{placed};
ghost use Rattle.move_laws.specs.Memory.{InOrder, IsSound, Leads};
ghost use Rattle.machine_moves.specs.Ending.{ending_of};
ghost use Rattle.machine_moves.specs.declared.ending.Ending.TheVariants.{Raised};
ghost use Rattle.machine_errors.specs.Throwing.{Sends, level_of};

use crate::asking::from;
use crate::protected::first_of;
use crate::raising::blame;
use int_core::{Allocated, read_integer};
use library_arguments::Refusal;
use lua_heap::law::strings_are_there;
use lua_heap::{World, type_name};
use machine_moves::{Ending, give_values};
use table_core::Value;

/// The place that `error` puts in front of a string.
#[derive(Debug, Clone, Copy)]
enum Level {
    /// That of the function of this level, where the one that called `error` has level 0.
    Of(usize),
    /// None.
    Nowhere,
    /// The argument is no integer.
    Wrong,
}

/// The row of `error`: its first argument is an error. A string gets the place of the function of a level in front, which the second argument says.
/// A refusal changes nothing.
pub fn error(world: &mut World) -> Allocated<Ending>
    requires { IsSound world.old }
    ensures leads { IfOk result (λ ending. (env : List Meant) → Leads error_row env world.old world.new (ending_of ending)) }
    ensures order { InOrder world.new }
    ensures err { OnErr result (world.new ≡ world.old) }
{
    strings_are_there();
    let message = first_of(&world.moving);
    let level = first_of(from(&world.moving, 1));
    match level_of(world, level) {
        Level::Of(level) => throw_placed(world, message, level),
        Level::Nowhere => throw(world, message),
        Level::Wrong => refuse_level(world, level),
    }
}

/// What a value says of the place: an integer, or a string that spells one; a missing one is 1.
fn level_of(world: &World, level: Value) -> Level
    requires { HasText world.now.strings level }
    ensures { result ≡ level_of (level_in (shape (meant world.now.strings level))) }
{
    let number = match level {
        Value::Nil => Some(1),
        Value::Int(n) => Some(n),
        Value::Str(id) => read_integer(world.bytes(id)),
        _ => None,
    };
    match number {
        None => Level::Wrong,
        Some(n) if n > 0 => Level::Of((n - 1) as usize),
        Some(_) => Level::Nowhere,
    }
}

/// A value moves as an error.
fn throw(world: &mut World, thrown: Value) -> Allocated<Ending>
    requires { InOrder world.old }
    ensures sends { IfOk result (λ ending. Sends world.old world.new (λ fuel. meant world.old.strings thrown)) }
    ensures raised { IfOk result (λ ending. ending ≡ Raised) }
    ensures order { InOrder world.new }
    ensures err { OnErr result (world.new ≡ world.old) }
{
    let mut moving = Vec::new(world.alloc);
    moving.push(thrown)?;
    give_values(world, moving);
    Ok(Ending::Raised)
}

/// So does a string with the place of a level in front, or another value.
fn throw_placed(world: &mut World, message: Value, level: usize) -> Allocated<Ending>
    requires sound { IsSound world.old }
    requires there { HasText world.old.strings message }
    ensures sends { IfOk result (λ ending. Sends world.old world.new (λ fuel. placed (plain world.old fuel) level (meant world.old.strings message))) }
    ensures raised { IfOk result (λ ending. ending ≡ Raised) }
    ensures order { InOrder world.new }
    ensures err { OnErr result (world.new ≡ world.old) }
{
    let mut moving = Vec::new(world.alloc);
    moving.reserve(1)?;
    let thrown = world.place_text(message, level)?;
    moving.push_reserved(thrown);
    give_values(world, moving);
    Ok(Ending::Raised)
}

/// The error of a level that is no integer.
fn refuse_level(world: &mut World, level: Value) -> Allocated<Ending>
    requires { IsSound world.old }
    ensures leads { IfOk result (λ ending. (env : List Meant) → Leads (blames (wrong_type 2 (codes "error") (codes "number") (shape (meant world.old.strings level)))) env world.old world.new (ending_of ending)) }
    ensures order { InOrder world.new }
    ensures err { OnErr result (world.new ≡ world.old) }
{
    let refusal = Refusal::WrongType {
        place: 2,
        function: b"error",
        wanted: b"number",
        got: type_name(level),
    };
    let text = refusal.text(world.alloc)?;
    blame(world, &text)
}
