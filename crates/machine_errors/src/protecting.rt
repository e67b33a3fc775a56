// Calls of `pcall` and `xpcall` (luaB_pcall and luaB_xpcall of lbaselib.c; Lua 5.4 manual, 6.1).
ghost use Rattle.std.specs.Prelude.{◌≡◌, List, IfOk, OnErr};
ghost use Rattle.int_core.specs.Value.{Value as Meant};
ghost use Rattle.machine_core.specs.MachineStep.{pcall_row, xpcall_row};
ghost use Rattle.move_laws.specs.Memory.{HasStack, InOrder, IsSound, Leads, ReadsSame};
ghost use Rattle.machine_moves.specs.Ending.{ending_of};

use crate::asking::{ask_over, from};
use crate::protected::first_of;
use crate::raising::blame;
use int_core::Allocated;
use lua_heap::World;
use machine_moves::{Ending, Over, put_in_front};

/// The error of a call for which the stack has no room.
const STACK_OVERFLOW: &[u8] = b"stack overflow";

/// The row of `pcall`: its first argument is to be called with the others over a frame that catches errors. After a refusal the machine's world is as
/// before.
pub fn pcall(world: &mut World) -> Allocated<Ending>
    requires sound { IsSound world.old }
    requires running { HasStack world.old }
    ensures leads { IfOk result (λ ending. (env : List Meant) → Leads pcall_row env world.old world.new (ending_of ending)) }
    ensures order { InOrder world.new }
    ensures err { OnErr result (ReadsSame world.old world.new) }
{
    let called = first_of(&world.moving);
    let asked = put_in_front(world.alloc, &[called], from(&world.moving, 1))?;
    if ask_over(world, Over::Pcall, asked)? {
        return Ok(Ending::Asks);
    }
    blame(world, STACK_OVERFLOW)
}

/// The row of `xpcall`: the same, with its second argument as the message handler of that frame.
pub fn xpcall(world: &mut World) -> Allocated<Ending>
    requires sound { IsSound world.old }
    requires running { HasStack world.old }
    ensures leads { IfOk result (λ ending. (env : List Meant) → Leads xpcall_row env world.old world.new (ending_of ending)) }
    ensures order { InOrder world.new }
    ensures err { OnErr result (ReadsSame world.old world.new) }
{
    let called = first_of(&world.moving);
    let handler = first_of(from(&world.moving, 1));
    let asked = put_in_front(world.alloc, &[called], from(&world.moving, 2))?;
    if ask_over(world, Over::Xpcall(handler), asked)? {
        return Ok(Ending::Asks);
    }
    blame(world, STACK_OVERFLOW)
}
