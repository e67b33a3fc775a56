// Tests and truths of registers (NOT, TEST and TESTSET of lopcodes.h).
ghost use Rattle.std.specs.Prelude.{[]};
ghost use Rattle.code_core.specs.Prototype.{Prototype};
ghost use Rattle.machine_core.specs.FrameRows.{expand};
ghost use Rattle.machine_core.specs.Moves.{go};
ghost use Rattle.instruction_forms.specs.Forms.{text_of};
ghost use Rattle.instruction_forms.specs.declared.form.Form.TheVariants.{Negate, Test, TestSet};
ghost use Rattle.move_laws.specs.Memory.{InOrder, Leads};
ghost use Rattle.machine_rows.specs.Rows.{MayDo};

use crate::following::{is_truthy, keep_value, test_value};
use crate::loads::behind;
use lua_heap::World;
use machine_moves::{go_to, read_register, write_register};
use table_core::Value;

/// The truth of a register decides whether the next instruction is passed over.
pub fn test(world: &mut World, pc: usize, register: usize, wanted: bool)
    requires { MayDo world.old pc (Test register wanted) }
    ensures leads { (p : Prototype) → Leads (expand (text_of p pc (Test register wanted))) [] world.old world.new go }
    ensures order { InOrder world.new }
{
    let v = read_register(world, register);
    test_value(world, pc, v, wanted);
}

/// A register's value goes to another one where its truth is the wanted one; else the next instruction is passed over.
pub fn test_set(world: &mut World, pc: usize, from: usize, to: usize, wanted: bool)
    requires { MayDo world.old pc (TestSet from to wanted) }
    ensures leads { (p : Prototype) → Leads (expand (text_of p pc (TestSet from to wanted))) [] world.old world.new go }
    ensures order { InOrder world.new }
{
    let v = read_register(world, from);
    if is_truthy(v) == wanted {
        keep_value(world, pc, to, v);
    } else {
        go_to(world, behind(pc, true));
    }
}

/// The other truth goes to a register.
pub fn negate(world: &mut World, pc: usize, from: usize, to: usize)
    requires { MayDo world.old pc (Negate from to) }
    ensures leads { (p : Prototype) → Leads (expand (text_of p pc (Negate from to))) [] world.old world.new go }
    ensures order { InOrder world.new }
{
    let truth = is_truthy(read_register(world, from));
    write_register(world, to, Value::Bool(!truth));
    go_to(world, behind(pc, false));
}
