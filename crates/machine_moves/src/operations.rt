// Operations that may ask for a handler (Lua 5.4 manual, 2.4).
ghost use Rattle.std.specs.Prelude.{◌≡◌, false, IfOk, OnErr};
ghost use Rattle.meta_ops.specs.Operation.{AreIn};
ghost use Rattle.move_laws.specs.Memory.{HasFrame};
ghost use Rattle.machine_moves.specs.Operations.{Settles, joins};

use int_core::Allocated;
use lua_heap::World;
use meta_ops::{Operation, Outcome, operate};

/// What an operation other than a concatenation comes to. Only a store that is done changes the world; a refusal changes nothing.
pub fn settle(world: &mut World, operation: Operation) -> Allocated<Outcome>
    requires frame { HasFrame world.old }
    requires operands { AreIn world.old.strings world.old.tables.objects operation }
    requires kind { joins operation ≡ false }
    ensures settles { IfOk result (λ outcome. Settles world.old world.new operation outcome) }
    ensures rest { world.new ≡ record world.old { tables = world.new.tables } }
    ensures err { OnErr result (world.new ≡ world.old) }
{
    let alloc = world.alloc;
    let string_meta = world.string_meta;
    operate(
        alloc,
        &mut world.tables,
        &mut world.strings,
        string_meta,
        operation,
    )
}
