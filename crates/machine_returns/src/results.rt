// Results that come to registers (luaD_poscall and moveresults of ldo.c; OP_TFORCALL and OP_VARARG of lvm.c).
ghost use Rattle.std.specs.Prelude.{◌≡◌, ◌+◌, ◌<◌, ◌^◌, ℕ, [], List, drop, map, OnErr, IfOk, OnOk};
ghost use Rattle.int_core.specs.Value.{Value as Meant, known, nil, is_known, range, write_all};
ghost use Rattle.lua_heap.specs.Cells.{CellsAreListed};
ghost use Rattle.lua_heap.specs.Reading.{value as meant};
ghost use Rattle.lua_stack.specs.Frames.{TopBecomes, with_registers};
ghost use Rattle.machine_core.specs.Text.{write_registers as writes};
ghost use Rattle.machine_core.specs.InstructionRows.{write_values as writes_values};
ghost use Rattle.machine_core.specs.FrameRows.{When, expand_by};
ghost use Rattle.machine_core.specs.Moves.{on_own};
ghost use Rattle.move_laws.specs.Memory.{CanDo, InOrder, Leads, Makes, StandsAt, StaysOnTop};
ghost use Rattle.machine_moves.specs.Ending.{ending_of};
ghost use Rattle.machine_returns.specs.Results.{MayTake, writing};
ghost use Rattle.machine_calls.specs.Preparing.{HasTop};

use int_core::Allocated;
use lua_heap::World;
use lua_stack::Stack;
use machine_moves::{Ending, go_to, running_stack_mut, write_list};
use table_core::Value;

/// Values go to so many registers from one on, at the place `pc`: to one fewer than `count`, or for 0 all of them as an open list. The frame goes on
/// behind the instruction. A refusal changes nothing.
#[inline(always)]
pub fn take_results(
    world: &mut World,
    pc: usize,
    to: usize,
    count: usize,
    values: &[Value],
) -> Allocated<Ending>
    requires order { InOrder world.old }
    requires at { StandsAt world.old pc }
    requires room { pc + 2 < 2 ^ 64 }
    requires safe { MayTake world.old to count values.now }
    ensures leads { IfOk result (λ ending. (when : When) (env : List Meant) (slot : ℕ) → drop slot env ≡ map (meant world.old.strings) values.now → Leads (expand_by when (writes_values to count slot)) env world.old world.new (ending_of ending)) }
    ensures order { InOrder world.new }
    ensures err { OnErr result (world.new ≡ world.old) }
{
    write_values(world, to, count, values)?;
    go_to(world, pc + 1);
    Ok(Ending::Go)
}

/// Writes them. A refusal changes nothing.
#[inline(always)]
fn write_values(world: &mut World, to: usize, count: usize, values: &[Value]) -> Allocated<()>
    requires { CanDo world.old (writing to count 0) }
    ensures makes { OnOk result ((env : List Meant) (slot : ℕ) → drop slot env ≡ map (meant world.old.strings) values.now → Makes world.old world.new (on_own (writing to count slot)) env [] (is_known nil)) }
    ensures at { OnOk result ((pc : ℕ) → StandsAt world.old pc → StandsAt world.new pc) }
    ensures listed { OnOk result (CellsAreListed world.old → CellsAreListed world.new) }
    ensures rest { world.new ≡ record world.old { coros = world.new.coros } }
    ensures err { OnErr result (world.new ≡ world.old) }
{
    if count == 0 {
        return write_list(world, to, values);
    }
    write_registers(world, to, count - 1, values);
    Ok(())
}

/// Writes values to so many registers from one on: where there are fewer the others become nil, and further ones are dropped.
#[inline(always)]
pub fn write_registers(world: &mut World, at: usize, count: usize, values: &[Value])
    requires { CanDo world.old (writes at count 0) }
    ensures makes { (env : List Meant) (slot : ℕ) → drop slot env ≡ map (meant world.old.strings) values.now → Makes world.old world.new (on_own (writes at count slot)) env [] (is_known nil) }
    ensures stays { StaysOnTop world.old world.new }
{
    if count == 0 {
        return;
    }
    write_padded(running_stack_mut(world), at, count, values);
}

/// Writes values to so many registers of the frame on top, from one on.
#[inline(always)]
fn write_padded(stack: &mut Stack, at: usize, count: usize, values: &[Value])
    requires { HasTop stack.old (at + count) }
    ensures { TopBecomes stack.old stack.new (λ f t. with_registers (write_all at (range 0 count (map f values.now)) t.own.registers) t) }
{
    if values.len() >= count {
        stack.write_registers(at, &values[..count]);
        return;
    }
    stack.write_nils(at, count);
    stack.write_registers(at, values);
}
