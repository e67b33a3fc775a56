// Lists of values (VARARG of lopcodes.h; luaT_getvarargs of ltm.c).
ghost use Rattle.std.specs.Prelude.{◌≡◌, [], IfOk, OnErr};
ghost use Rattle.code_core.specs.Prototype.{Prototype};
ghost use Rattle.machine_core.specs.FrameRows.{expand};
ghost use Rattle.instruction_forms.specs.Forms.{text_of};
ghost use Rattle.instruction_forms.specs.declared.form.Form.TheVariants.{ExtraArguments};
ghost use Rattle.move_laws.specs.Memory.{InOrder, Leads};
ghost use Rattle.machine_moves.specs.Ending.{ending_of};
ghost use Rattle.machine_rows.specs.Rows.{MayDo};

use int_core::Allocated;
use lua_heap::World;
use machine_moves::{Ending, read_varargs};
use machine_returns::take_results;

/// The arguments beyond the parameters go to registers: to one fewer than `count`, or for 0 all of them as an open list. A refusal changes nothing.
pub fn extra_arguments(world: &mut World, pc: usize, to: usize, count: usize) -> Allocated<Ending>
    requires { MayDo world.old pc (ExtraArguments to count) }
    ensures leads { IfOk result (λ ending. (p : Prototype) → Leads (expand (text_of p pc (ExtraArguments to count))) [] world.old world.new (ending_of ending)) }
    ensures order { InOrder world.new }
    ensures err { OnErr result (world.new ≡ world.old) }
{
    let values = read_varargs(world).to_vec(world.alloc)?;
    take_results(world, pc, to, count, &values)
}
