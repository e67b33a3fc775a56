// What scripts print (`print` of the Lua 5.4 manual, 6.1).
ghost use Rattle.std.specs.Prelude.{◌≡◌, List, IfOk, OnOk, OnErr, map};
ghost use Rattle.int_core.specs.Value.{Value as Meant, nth};
ghost use Rattle.lua_heap.specs.Errors.{HasText};
ghost use Rattle.lua_heap.specs.Reading.{value as meant};
ghost use Rattle.machine_core.specs.Moves.{bytes_in};
ghost use Rattle.machine_core.specs.MachineStep.{print_row};
ghost use Rattle.move_laws.specs.Memory.{HasStack, InOrder, IsSound, Leads, ReadsSame};
ghost use Rattle.machine_moves.specs.Ending.{ending_of};
ghost use Rattle.machine_library.specs.Answers.{Goes, IsFirst, PrintsValue};

use lua_heap::law::strings_are_there;
use lua_heap::{Strings, World};
use machine_moves::{Ending, hand_over, take_moving};
use std::alloc::AllocError;
use table_core::Value;

/// Prints a string that moves; of another value nothing is printed. There are no results. Where memory is wanting, nothing is printed and all reads
/// as before.
pub fn print(world: &mut World) -> Result<Ending, AllocError>
    requires sound { IsSound world.old }
    requires running { HasStack world.old }
    ensures leads { IfOk result (λ ending. (env : List Meant) → Leads print_row env world.old world.new (ending_of ending)) }
    ensures goes { IfOk result Goes }
    ensures order { InOrder world.new }
    ensures err { OnErr result (ReadsSame world.old world.new) }
{
    strings_are_there();
    let printed = first_of(&world.moving);
    print_value(world, printed)?;
    take_moving(world);
    Ok(hand_over(world))
}

/// Prints a string; of another value nothing is printed.
fn print_value(world: &mut World, v: Value) -> Result<(), AllocError>
    requires { HasText world.old.strings v }
    ensures printed { OnOk result (PrintsValue world.old world.new v) }
    ensures rest { world.new ≡ record world.old { printed = world.new.printed } }
    ensures err { OnErr result (ReadsSame world.old world.new) }
{
    world
        .printed
        .extend_from_slice(bytes_of(&world.strings, v))?;
    Ok(())
}

/// The bytes of a string; another value has none.
fn bytes_of(strings: &Strings, v: Value) -> &[u8]
    requires { HasText strings.now v }
    ensures { result.now ≡ bytes_in (meant strings.now v) }
{
    match v {
        Value::Str(id) => strings.bytes(id),
        _ => &[],
    }
}

/// The first value, or nil.
fn first_of(values: &[Value]) -> Value
    ensures { IsFirst values.now result }
{
    match values.first() {
        Some(first) => *first,
        None => Value::Nil,
    }
}
