// Loops over what an iterator gives (TFORLOOP of lopcodes.h).
ghost use Rattle.std.specs.Prelude.{◌≡◌, ◌+◌, ◌<◌, ◌^◌, [], ◌∷◌};
ghost use Rattle.code_core.specs.Prototype.{Prototype};
ghost use Rattle.lua_heap.specs.Reading.{value as meant};
ghost use Rattle.machine_core.specs.FrameRows.{expand};
ghost use Rattle.machine_core.specs.Text.{read, write_register};
ghost use Rattle.machine_core.specs.InstructionRows.{back, then};
ghost use Rattle.machine_core.specs.Moves.{go};
ghost use Rattle.instruction_forms.specs.Forms.{text_of};
ghost use Rattle.instruction_forms.specs.declared.form.Form.TheVariants.{LoopOver};
ghost use Rattle.move_laws.specs.Memory.{InOrder, IsSafe, Leads, StandsAt, Steps};
ghost use Rattle.machine_moves.specs.Ending.{ending_of};
ghost use Rattle.table_core.specs.Value.{is_nil};

use crate::jumps::go_back;
use lua_heap::World;
use machine_moves::{Ending, pay, read_register, write_register};
use machine_rows::go_on;
use table_core::Value;

/// A further round with the value that the iterator gave, which costs a unit, or the end of the loop where that is nil.
pub fn loop_over(world: &mut World, budget: &mut u64, pc: usize, base: usize, by: usize) -> Ending
    requires at { StandsAt world.old pc }
    requires room { pc < 2 ^ 63 }
    requires near { base + 4 < 2 ^ 64 }
    requires order { InOrder world.old }
    requires safe { (p : Prototype) → IsSafe (expand (text_of p pc (LoopOver base by))) [] world.old }
    ensures steps { (p : Prototype) → Steps (expand (text_of p pc (LoopOver base by))) [] world.old budget.old world.new budget.new (ending_of result) }
    ensures order { InOrder world.new }
{
    let v = read_register(world, base + 4);
    if is_nil(v) {
        go_on(world, pc);
        return Ending::Go;
    }
    if !pay(budget) {
        return Ending::Spent;
    }
    go_over(world, pc, base + 2, by, v);
    Ending::Go
}

/// The value is kept for the next call of the iterator.
fn go_over(world: &mut World, pc: usize, to: usize, by: usize, v: Value)
    requires at { StandsAt world.old pc }
    requires room { pc < 2 ^ 63 }
    requires order { InOrder world.old }
    requires safe { IsSafe (expand (then (write_register to (read 0)) (back by))) (meant world.old.strings v ∷ []) world.old }
    ensures leads { Leads (expand (then (write_register to (read 0)) (back by))) (meant world.old.strings v ∷ []) world.old world.new go }
    ensures order { InOrder world.new }
{
    write_register(world, to, v);
    go_back(world, pc, by);
}

/// Whether a value is nil.
fn is_nil(v: Value) -> bool
    ensures { result ≡ is_nil v }
{
    matches!(v, Value::Nil)
}
