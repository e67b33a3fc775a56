// A line of input for the main coroutine.
ghost use Rattle.std.specs.Prelude.{◌≡◌, ◌≤◌, ℕ, length, OnErr, OnOk};
ghost use Rattle.int_core.specs.Value.{greatest_string};
ghost use Rattle.machine_sound.specs.Sound.{Sound};
ghost use Rattle.machine_runs.specs.Laws.{MayTurn};
ghost use Rattle.machine_runs.specs.Opening.{handed_line};
ghost use Rattle.lua_heap.specs.Plain.{plain};
ghost use Rattle.move_laws.specs.Memory.{InOrder, IsSound};

use int_core::Allocated;
use lua_heap::World;
use machine_runs::sessions_are_sound;
use table_core::Value;

/// A line of input moves, for the main coroutine that waits to be resumed with it (`lua_resume` of Lua's ldo.c).
///
/// # Errors
///
/// Want of memory, which changes nothing.
pub fn hand_line(world: &mut World, line: &[u8]) -> Allocated<()>
    requires sound { IsSound world.old }
    requires may { MayTurn (plain world.old 0) }
    requires short { length line.now ≤ greatest_string }
    ensures handed { OnOk result ((fuel : ℕ) → plain world.new fuel ≡ handed_line (plain world.old fuel) line.now) }
    ensures sound { OnOk result ((primitives : ℕ) → Sound primitives (plain world.old 0) → Sound primitives (plain world.new 0)) }
    ensures may { OnOk result (MayTurn (plain world.new 0)) }
    ensures order { InOrder world.new }
    ensures err { OnErr result (world.new ≡ world.old) }
{
    sessions_are_sound();
    let mut values = Vec::with_capacity(world.alloc, 1)?;
    let text = world.intern(line)?;
    values.push_reserved(Value::Str(text));
    world.moving = values;
    Ok(())
}
