// Frames over which a value is called (lua_pcallk of lapi.c, luaG_errormsg of ldebug.c).
ghost use Rattle.std.specs.Prelude.{◌≡◌, ◌++◌, drop, IfOk, OnErr};
ghost use Rattle.lua_heap.specs.Cells.{CellsAreListed};
ghost use Rattle.move_laws.specs.Memory.{HasStack};
ghost use Rattle.machine_errors.specs.Asking.{AsksOver};

use int_core::Allocated;
use lua_heap::World;
use machine_moves::{Over, give_values, push_frame};
use table_core::Value;

/// Puts a frame on top, over which the first of these values is to be called with the others, and says whether there was room. Where there is none, the
/// machine's world is as before. A refusal changes nothing.
pub(crate) fn ask_over(world: &mut World, over: Over, asked: Vec<Value>) -> Allocated<bool>
    requires { HasStack world.old }
    ensures asks { IfOk result (λ room. AsksOver world.old world.new over asked.items room) }
    ensures listed { CellsAreListed world.old → CellsAreListed world.new }
    ensures rest { world.new ≡ record world.old { coros = world.new.coros; moving = world.new.moving } }
    ensures err { OnErr result (world.new ≡ world.old) }
{
    if !push_frame(world, over)? {
        return Ok(false);
    }
    give_values(world, asked);
    Ok(true)
}

/// The values from one on.
pub(crate) fn from(values: &[Value], place: usize) -> &[Value]
    ensures { result.now ≡ drop place values.now }
{
    values.get(place..).unwrap_or_default()
}
