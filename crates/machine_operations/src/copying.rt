// The first operand of an operation, which may go to a register as well (SELF of lopcodes.h).
ghost use Rattle.std.specs.Prelude.{◌≡◌, ℕ};
ghost use Rattle.move_laws.specs.Memory.{InOrder, StandsAt};
ghost use Rattle.machine_errors.specs.Raising.{CanLeave};
ghost use Rattle.machine_operations.specs.Copying.{CanCopy, Copies, prepared_by};

use lua_heap::World;
use machine_calls::Prepared;
use machine_moves::write_register;
use table_core::Value;

/// The first operand goes to a register, where there is one for it.
pub(crate) fn copy_first(world: &mut World, also: Option<usize>, first: Value)
    requires order { InOrder world.old }
    requires whole { CanLeave world.old }
    requires there { CanCopy world.old also }
    ensures copies { Copies world.old world.new also first }
    ensures whole { CanLeave world.new }
    ensures at { (pc : ℕ) → StandsAt world.old pc → StandsAt world.new pc }
    ensures order { InOrder world.new }
    ensures rest { world.new ≡ record world.old { coros = world.new.coros } }
{
    match also {
        Some(register) => write_register(world, register, first),
        None => {}
    }
}

/// What a frame does to itself before a handler is called.
pub(crate) fn prepared(also: Option<usize>, first: Value) -> Prepared
    ensures { result ≡ prepared_by also first }
{
    match also {
        None => Prepared::Nothing,
        Some(register) => Prepared::Copied {
            register,
            value: first,
        },
    }
}
