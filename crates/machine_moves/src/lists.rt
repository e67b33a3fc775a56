// Open lists: values in registers, as many as there are, up to where the next instruction takes them.
ghost use Rattle.std.specs.Prelude.{◌≡◌, ℕ, [], List, drop, length, map, pos, OnErr, OnOk};
ghost use Rattle.int_core.specs.Value.{Value as Meant, integer, nil, is_known};
ghost use Rattle.lua_heap.specs.Cells.{CellsAreListed};
ghost use Rattle.lua_heap.specs.Reading.{value as meant};
ghost use Rattle.machine_core.specs.Text.{end_list as ends, read_list as reads_open, read_varargs as reads, write_list as writes};
ghost use Rattle.machine_core.specs.Moves.{on_own};
ghost use Rattle.move_laws.specs.Memory.{CanDo, HasFrame, IsSound, Makes, StandsAt};
ghost use Rattle.machine_moves.specs.Moves.{CanCut, DoesOwn, IsInFront};

use crate::chain::{running_stack, running_stack_mut};
use crate::code::code_on_top;
use crate::registers::span;
use code_core::Instruction;
use int_core::Allocated;
use lua_heap::World;
use table_core::Value;

/// The arguments beyond the parameters.
pub fn read_varargs(world: &World) -> &[Value]
    requires { HasFrame world.now }
    ensures { (env : List Meant) → Makes world.now world.now (on_own reads) env (map (meant world.now.strings) result.now) (is_known nil) }
{
    running_stack(world).varargs()
}

/// The values from a register on to the end of the open list in front of the frame's place.
pub fn read_list(world: &World, from: usize) -> &[Value]
    requires sound { IsSound world.now }
    requires there { CanDo world.now (reads_open from) }
    ensures { (env : List Meant) → Makes world.now world.now (on_own (reads_open from)) env (map (meant world.now.strings) result.now) (is_known (integer (pos (length result.now)))) }
{
    let front = word_in_front(world);
    let stack = running_stack(world);
    let registers = stack.registers();
    let end = usize::from(front.a()) + stack.opened();
    if end <= from {
        return &registers[0..0];
    }
    span(registers, from, end - from)
}

/// The instruction that leaves the open list.
fn word_in_front(world: &World) -> Instruction
    requires sound { IsSound world.now }
    requires there { CanDo world.now (reads_open 0) }
    ensures { IsInFront world.now result }
{
    let pc = running_stack(world).pc();
    code_on_top(world).words[pc - 1]
}

/// Writes values from a register on as an open list. A refusal changes nothing.
pub fn write_list(world: &mut World, at: usize, values: &[Value]) -> Allocated<()>
    requires { CanDo world.old (writes at 0) }
    ensures makes { OnOk result ((env : List Meant) (slot : ℕ) → drop slot env ≡ map (meant world.old.strings) values.now → Makes world.old world.new (on_own (writes at slot)) env [] (is_known nil)) }
    ensures at { OnOk result ((pc : ℕ) → StandsAt world.old pc → StandsAt world.new pc) }
    ensures listed { OnOk result (CellsAreListed world.old → CellsAreListed world.new) }
    ensures rest { world.new ≡ record world.old { coros = world.new.coros } }
    ensures err { OnErr result (world.new ≡ world.old) }
{
    running_stack_mut(world).write_list(at, values)
}

/// Ends an open list: as many registers are left as the code has.
pub fn end_list(world: &mut World, stack_size: usize)
    requires { CanCut world.old stack_size }
    ensures { DoesOwn world.old world.new ends }
{
    running_stack_mut(world).end_list(stack_size);
}
