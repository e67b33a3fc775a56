// Jumps (JMP of lopcodes.h).
ghost use Rattle.std.specs.Prelude.{◌≡◌, ◌+◌, ◌<◌, ◌^◌, List, []};
ghost use Rattle.code_core.specs.Prototype.{Prototype};
ghost use Rattle.int_core.specs.Value.{Value as Meant};
ghost use Rattle.machine_core.specs.FrameRows.{expand};
ghost use Rattle.machine_core.specs.InstructionRows.{back};
ghost use Rattle.machine_core.specs.Moves.{go};
ghost use Rattle.instruction_forms.specs.Forms.{text_of};
ghost use Rattle.instruction_forms.specs.declared.form.Form.TheVariants.{Jump};
ghost use Rattle.move_laws.specs.Memory.{InOrder, IsSafe, Leads, StandsAt, Steps};
ghost use Rattle.machine_moves.specs.Ending.{ending_of};
ghost use Rattle.machine_loops.specs.Loops.{MayGoBack};

use lua_heap::World;
use machine_arms_numbers::{distance_of, leads_back};
use machine_moves::{Ending, go_to, pay};

/// The frame goes on so far behind the next instruction, or in front of it. A jump back costs a unit.
pub fn jump(world: &mut World, budget: &mut u64, pc: usize, by: i32) -> Ending
    requires at { StandsAt world.old pc }
    requires room { pc < 2 ^ 63 }
    requires order { InOrder world.old }
    requires safe { (p : Prototype) → IsSafe (expand (text_of p pc (Jump by))) [] world.old }
    ensures steps { (p : Prototype) → Steps (expand (text_of p pc (Jump by))) [] world.old budget.old world.new budget.new (ending_of result) }
    ensures order { InOrder world.new }
{
    let distance = distance_of(by);
    if !leads_back(by) {
        go_to(world, pc + (distance + 1));
        return Ending::Go;
    }
    if !pay(budget) {
        return Ending::Spent;
    }
    go_back(world, pc, distance);
    Ending::Go
}

/// The frame goes on so far in front of the next instruction.
pub(crate) fn go_back(world: &mut World, pc: usize, by: usize)
    requires at { StandsAt world.old pc }
    requires room { pc < 2 ^ 63 }
    requires order { InOrder world.old }
    requires safe { MayGoBack world.old by }
    ensures leads { (env : List Meant) → Leads (expand (back by)) env world.old world.new go }
    ensures order { InOrder world.new }
{
    go_to(world, pc + 1 - by);
}
