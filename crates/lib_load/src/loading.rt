// The row of `load` (luaB_load of lbaselib.c of Lua 5.4).
ghost use Rattle.std.specs.Prelude.{◌≡◌, [], IfOk, OnErr};
ghost use Rattle.machine_core.specs.PrimitiveRows.{load_row};
ghost use Rattle.source_builds.specs.Builds.{code_builds};
ghost use Rattle.source_builds.specs.Readings.{AsRead};
ghost use Rattle.move_laws.specs.Memory.{HasStack, InOrder, IsSound, Leads, ReadsSame};
ghost use Rattle.machine_moves.specs.Ending.{ending_of};

use crate::reading::{Loaded, compiled};
use lua_heap::World;
use machine_errors::blame;
use machine_loads::{give_function, give_reason};
use machine_moves::Ending;
use std::alloc::AllocError;

/// Calls `load` with the values on their way: it gives a function, or nil and why there is none. The error of a wrong argument gets the place of the
/// caller in front (Lua 5.4 manual, 6.1). Where memory is wanting, all reads as before.
pub fn load(world: &mut World) -> Result<Ending, AllocError>
    requires sound { IsSound world.old }
    requires running { HasStack world.old }
    ensures leads { IfOk result (λ ending. AsRead (λ builds. Leads (load_row (code_builds builds)) [] world.old world.new (ending_of ending))) }
    ensures order { InOrder world.new }
    ensures err { OnErr result (ReadsSame world.old world.new) }
{
    match compiled(world)? {
        Loaded::Wrong(refusal) => {
            let text = refusal.text(world.alloc)?;
            let ending = blame(world, text.as_slice())?;
            Ok(ending)
        }
        Loaded::NotLoaded(why) => {
            let ending = give_reason(world, why.as_slice())?;
            Ok(ending)
        }
        Loaded::Loaded(code) => {
            let ending = give_function(world, code)?;
            Ok(ending)
        }
    }
}
