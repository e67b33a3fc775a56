// One operand of a concatenation that is joined (luaV_concat of lvm.c).
ghost use Rattle.std.specs.Prelude.{◌≡◌, false, IfOk, OnErr};
ghost use Rattle.meta_ops.specs.Heap.{IsIn};
ghost use Rattle.meta_ops.specs.Outcome.{is_done};
ghost use Rattle.move_laws.specs.Memory.{CanDo, IsSound, ReadsSame};
ghost use Rattle.machine_core.specs.Text.{read_register as reads};
ghost use Rattle.machine_operations.specs.Joining.{JoinsOne};

use int_core::Allocated;
use lua_heap::World;
use machine_moves::read_register;
use meta_ops::{Outcome, concat, law};
use table_core::Value;

/// A register's value is put in front of what has been joined, `left .. right` (Lua 5.4 manual, 3.4.6). The result is a string of the world, which stands for
/// the same as before; a refusal changes nothing.
pub(crate) fn join_one(world: &mut World, register: usize, whole: Value) -> Allocated<Outcome>
    requires sound { IsSound world.old }
    requires there { CanDo world.old (reads register) }
    requires whole { IsIn world.old.strings world.old.tables.objects whole }
    ensures joins { IfOk result (λ outcome. JoinsOne world.old world.new register whole outcome) }
    ensures done { IfOk result (λ outcome. is_done outcome ≡ false) }
    ensures same { ReadsSame world.old world.new }
    ensures sound { IsSound world.new }
    ensures rest { world.new ≡ record world.old { strings = world.new.strings } }
    ensures err { OnErr result (world.new ≡ world.old) }
{
    law::operands_are_there();
    let operand = read_register(world, register);
    let alloc = world.alloc;
    let string_meta = world.string_meta;
    concat(
        alloc,
        &world.tables,
        &mut world.strings,
        string_meta,
        operand,
        whole,
    )
}
