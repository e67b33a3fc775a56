// Instructions that put values into registers and upvalues (MOVE to LOADNIL, GETUPVAL and SETUPVAL, of lopcodes.h).
ghost use Rattle.std.specs.Prelude.{◌≡◌, ◌+◌, ◌<◌, ◌^◌, [], Some, cond};
ghost use Rattle.code_core.specs.Prototype.{Prototype};
ghost use Rattle.machine_core.specs.World.{Place, place_of};
ghost use Rattle.machine_core.specs.FrameRows.{expand};
ghost use Rattle.machine_core.specs.Moves.{go};
ghost use Rattle.instruction_forms.specs.Forms.{text_of};
ghost use Rattle.instruction_forms.specs.declared.form.Form.TheVariants.{Load, LoadFar, Clear, StoreUpvalue};
ghost use Rattle.lua_heap.specs.Plain.{plain};
ghost use Rattle.move_laws.specs.Memory.{InOrder, IsSafe, IsSound, Leads, StandsSound};
ghost use Rattle.machine_rows.specs.Rows.{HasExtra, IsExtra, MayDo};

use crate::operands::read_operand;
use instruction_forms::Operand;
use lua_heap::World;
use machine_moves::{
    clear_registers, code_on_top, go_to, read_constant, read_register, write_register,
    write_upvalue,
};

/// A value goes to a register, at the place `pc`, and the next instruction may be passed over.
pub fn load(world: &mut World, pc: usize, from: Operand, to: usize, skips: bool)
    requires stands { StandsSound world.old pc 2 }
    requires safe { (p : Prototype) → IsSafe (expand (text_of p pc (Load from to skips))) [] world.old }
    ensures leads { (p : Prototype) → Leads (expand (text_of p pc (Load from to skips))) [] world.old world.new go }
    ensures order { InOrder world.new }
{
    let v = read_operand(world, from);
    write_register(world, to, v);
    go_to(world, behind(pc, skips));
}

/// The constant that the next word names goes to a register.
pub fn load_far(world: &mut World, pc: usize, to: usize)
    requires stands { StandsSound world.old pc 2 }
    requires safe { (place : Place) → place_of (plain world.old 0) ≡ Some place → IsSafe (expand (text_of place.function.code pc (LoadFar to))) [] world.old }
    ensures leads { (place : Place) → place_of (plain world.old 0) ≡ Some place → Leads (expand (text_of place.function.code pc (LoadFar to))) [] world.old world.new go }
    ensures order { InOrder world.new }
{
    let n = extra_argument(world, pc);
    let v = read_constant(world, n);
    write_register(world, to, v);
    go_to(world, behind(pc, true));
}

/// The number that the word behind an instruction carries for it (EXTRAARG of lopcodes.h).
pub fn extra_argument(world: &World, pc: usize) -> usize
    requires sound { IsSound world.now }
    requires room { pc + 1 < 2 ^ 64 }
    requires there { HasExtra world.now pc }
    ensures { IsExtra world.now pc result }
{
    code_on_top(world).words[pc + 1].ax() as usize
}

/// So many registers become nil.
pub fn clear(world: &mut World, pc: usize, from: usize, count: usize)
    requires { MayDo world.old pc (Clear from count) }
    ensures leads { (p : Prototype) → Leads (expand (text_of p pc (Clear from count))) [] world.old world.new go }
    ensures order { InOrder world.new }
{
    clear_registers(world, from, count);
    go_to(world, behind(pc, false));
}

/// A register's value goes to an upvalue.
pub fn store_upvalue(world: &mut World, pc: usize, from: usize, upvalue: usize)
    requires { MayDo world.old pc (StoreUpvalue from upvalue) }
    ensures leads { (p : Prototype) → Leads (expand (text_of p pc (StoreUpvalue from upvalue))) [] world.old world.new go }
    ensures order { InOrder world.new }
{
    let v = read_register(world, from);
    write_upvalue(world, upvalue, v);
    go_to(world, behind(pc, false));
}

/// The place behind an instruction, or behind the next one.
pub(crate) fn behind(pc: usize, skips: bool) -> usize
    requires { pc + 2 < 2 ^ 64 }
    ensures { result ≡ pc + cond skips 2 1 }
{
    if skips { pc + 2 } else { pc + 1 }
}
