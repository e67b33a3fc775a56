// Instructions that make functions (OP_CLOSURE and pushclosure of lvm.c, luaF_findupval of lfunc.c).
ghost use Rattle.std.specs.Prelude.{◌≡◌, ◌+◌, ◌<◌, ◌^◌, [], Some, length, IfOk, OnErr, OnOk, drop};
ghost use Rattle.instruction_forms.specs.Forms.{text_of};
ghost use Rattle.instruction_forms.specs.declared.form.Form.TheVariants.{NewFunction};
ghost use Rattle.lua_heap.specs.Cells.{CellsAreListed};
ghost use Rattle.lua_heap.specs.Codes.{functions};
ghost use Rattle.lua_heap.specs.Plain.{plain};
ghost use Rattle.machine_core.specs.World.{Place, place_of};
ghost use Rattle.machine_core.specs.FrameRows.{expand};
ghost use Rattle.move_laws.specs.Memory.{InOrder, IsSafe, Leads, StandsSound};
ghost use Rattle.machine_moves.specs.Ending.{ending_of};
ghost use Rattle.machine_objects.specs.Opening.{MayOpen, Opens, upvalues_at};

use crate::functions::{inner_code, make_function, upvalue, upvalue_count};
use int_core::Allocated;
use lua_heap::World;
use machine_moves::{Ending, go_to, open_register, write_register};
use table_core::{ProtoId, Value};

/// A function of an inner prototype goes to a register; the registers that it captures get cells first, where they have none. A refusal may leave some of
/// these cells open.
pub fn new_function(world: &mut World, pc: usize, inner: usize, to: usize) -> Allocated<Ending>
    requires stands { StandsSound world.old pc 2 }
    requires small { inner < 2 ^ 32 }
    requires safe { (place : Place) → place_of (plain world.old 0) ≡ Some place → IsSafe (expand (text_of place.function.code pc (NewFunction inner to))) [] world.old }
    ensures leads { IfOk result (λ ending. (place : Place) → place_of (plain world.old 0) ≡ Some place → Leads (expand (text_of place.function.code pc (NewFunction inner to))) [] world.old world.new (ending_of ending)) }
    ensures order { InOrder world.new }
    ensures err { OnErr result (world.new.printed ≡ world.old.printed) }
{
    let code = inner_code(world, inner as u32);
    open_captured(world, code)?;
    let made = make_function(world, inner as u32)?;
    write_register(world, to, Value::Func(made));
    go_to(world, pc + 1);
    Ok(Ending::Go)
}

/// Each register that a function of this code captures gets a cell, where it has none. A refusal may leave some of them open.
fn open_captured(world: &mut World, code: ProtoId) -> Allocated<()>
    requires order { InOrder world.old }
    requires within { code.0 < length (functions world.old.codes) }
    requires safe { MayOpen world.old (upvalues_at world.old code) }
    ensures opens { OnOk result (Opens world.old world.new (upvalues_at world.old code) []) }
    ensures listed { CellsAreListed world.new }
    ensures rest { world.new ≡ record world.old { cells = world.new.cells; coros = world.new.coros } }
{
    let count = upvalue_count(world, code);
    for at in 0..count {
        open_upvalue(world, code, at)?;
    }
    Ok(())
}

/// So does the register of one of its upvalues, where that is one.
fn open_upvalue(world: &mut World, code: ProtoId, at: usize) -> Allocated<()>
    requires order { InOrder world.old }
    requires within { code.0 < length (functions world.old.codes) }
    requires there { at < length (upvalues_at world.old code) }
    requires safe { MayOpen world.old (drop at (upvalues_at world.old code)) }
    ensures opens { OnOk result (Opens world.old world.new (drop at (upvalues_at world.old code)) (drop (at + 1) (upvalues_at world.old code))) }
    ensures listed { CellsAreListed world.new }
    ensures rest { world.new ≡ record world.old { cells = world.new.cells; coros = world.new.coros } }
{
    let up = upvalue(world, code, at);
    if up.in_stack {
        open_register(world, u32::from(up.index))?;
    }
    Ok(())
}
