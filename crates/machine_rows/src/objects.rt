// Instructions that make objects (NEWTABLE of lopcodes.h).
ghost use Rattle.std.specs.Prelude.{◌≡◌, ◌+◌, ◌<◌, ◌^◌, [], Some, OnOk, OnErr};
ghost use Rattle.instruction_forms.specs.Forms.{text_of};
ghost use Rattle.instruction_forms.specs.declared.form.Form.TheVariants.{NewTable};
ghost use Rattle.lua_heap.specs.Plain.{plain};
ghost use Rattle.machine_core.specs.World.{Place, place_of};
ghost use Rattle.machine_core.specs.FrameRows.{expand};
ghost use Rattle.machine_core.specs.Moves.{go};
ghost use Rattle.move_laws.specs.Memory.{InOrder, IsSafe, Leads, StandsAt};

use crate::loads::behind;
use int_core::Allocated;
use lua_heap::World;
use machine_moves::{go_to, make_table, write_register};
use table_core::Value;

/// A new table goes to a register. A refusal changes nothing.
pub fn new_table(world: &mut World, pc: usize, to: usize) -> Allocated<()>
    requires at { StandsAt world.old pc }
    requires room { pc + 2 < 2 ^ 64 }
    requires order { InOrder world.old }
    requires safe { (place : Place) → place_of (plain world.old 0) ≡ Some place → IsSafe (expand (text_of place.function.code pc (NewTable to))) [] world.old }
    ensures leads { OnOk result ((place : Place) → place_of (plain world.old 0) ≡ Some place → Leads (expand (text_of place.function.code pc (NewTable to))) [] world.old world.new go) }
    ensures order { InOrder world.new }
    ensures err { OnErr result (world.new ≡ world.old) }
{
    let table = make_table(world)?;
    write_register(world, to, Value::Table(table));
    go_to(world, behind(pc, true));
    Ok(())
}
