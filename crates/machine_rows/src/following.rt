// What becomes of the value of an operation (luaV_finishOp of lvm.c).
ghost use Rattle.std.specs.Prelude.{◌≡◌, ◌+◌, ◌<◌, ◌^◌, ℕ, [], ◌∷◌, List, cond};
ghost use Rattle.int_core.specs.Value.{Value as Meant, holds, shape};
ghost use Rattle.lua_heap.specs.Reading.{value as meant};
ghost use Rattle.machine_core.specs.FrameRows.{expand};
ghost use Rattle.machine_core.specs.Moves.{go};
ghost use Rattle.machine_core.specs.InstructionRows.{tested, to_register, next};
ghost use Rattle.machine_core.specs.Text.{read};
ghost use Rattle.move_laws.specs.Memory.{InOrder, IsSafe, Leads, StandsAt};

use crate::loads::behind;
use lua_heap::World;
use machine_moves::{go_to, write_register};
use table_core::Value;

/// The value goes to a register.
pub fn keep_value(world: &mut World, pc: usize, to: usize, v: Value)
    requires at { StandsAt world.old pc }
    requires room { pc + 2 < 2 ^ 64 }
    requires order { InOrder world.old }
    requires safe { IsSafe (expand (to_register to (read 0))) (meant world.old.strings v ∷ []) world.old }
    ensures leads { Leads (expand (to_register to (read 0))) (meant world.old.strings v ∷ []) world.old world.new go }
    ensures order { InOrder world.new }
{
    write_register(world, to, v);
    go_to(world, behind(pc, false));
}

/// There is no value, and the frame goes on.
pub fn go_on(world: &mut World, pc: usize)
    requires at { StandsAt world.old pc }
    requires room { pc + 2 < 2 ^ 64 }
    requires order { InOrder world.old }
    requires safe { IsSafe (expand next) [] world.old }
    ensures leads { Leads (expand next) [] world.old world.new go }
    ensures order { InOrder world.new }
{
    go_to(world, behind(pc, false));
}

/// The truth of the value decides whether the next instruction is passed over.
pub fn test_value(world: &mut World, pc: usize, v: Value, wanted: bool)
    requires at { StandsAt world.old pc }
    requires room { pc + 2 < 2 ^ 64 }
    requires order { InOrder world.old }
    requires safe { IsSafe (expand (tested (holds (shape (meant world.old.strings v))) wanted)) (meant world.old.strings v ∷ []) world.old }
    ensures leads { Leads (expand (tested (holds (shape (meant world.old.strings v))) wanted)) (meant world.old.strings v ∷ []) world.old world.new go }
    ensures order { InOrder world.new }
{
    let skips = is_truthy(v) != wanted;
    go_to(world, behind(pc, skips));
}

/// Whether a value counts as true (Lua 5.4 manual, 3.3.4).
pub fn is_truthy(v: Value) -> bool
    ensures { (texts : List (List ℕ)) → result ≡ holds (shape (meant texts v)) }
{
    match v {
        Value::Nil => false,
        Value::Bool(truth) => truth,
        _ => true,
    }
}
