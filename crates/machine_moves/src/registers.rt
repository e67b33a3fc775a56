// The registers of the Lua frame on top, and its place in the code.
ghost use Rattle.std.specs.Prelude.{◌≡◌, ◌+◌, ◌≤◌, [], ◌∷◌, List, drop, length, map, take};
ghost use Rattle.int_core.specs.Value.{Value as Meant, nil, shape, is_known};
ghost use Rattle.lua_heap.specs.Cells.{CellsAreListed};
ghost use Rattle.lua_heap.specs.Reading.{value as meant};
ghost use Rattle.machine_core.specs.Text.{Arg, arg, written, read_register as reads, read_registers as reads_all, write_register as writes, write_nils};
ghost use Rattle.machine_core.specs.Moves.{on_own};
ghost use Rattle.move_laws.specs.Memory.{CanDo, Makes, StaysOnTop};
ghost use Rattle.machine_moves.specs.Moves.{CanGo, DoesOwn, Goes};

use crate::chain::{running_stack, running_stack_mut};
use lua_heap::World;
use table_core::Value;

/// The value of a register.
pub fn read_register(world: &World, register: usize) -> Value
    requires { CanDo world.now (reads register) }
    ensures { (env : List Meant) → Makes world.now world.now (on_own (reads register)) env (meant world.now.strings result ∷ []) (shape (meant world.now.strings result)) }
{
    running_stack(world).get(register)
}

/// The values of registers in a row. Of none the first one may be missing.
pub fn read_registers(world: &World, from: usize, count: usize) -> &[Value]
    requires { CanDo world.now (reads_all from count) }
    ensures { (env : List Meant) → Makes world.now world.now (on_own (reads_all from count)) env (map (meant world.now.strings) result.now) (is_known nil) }
{
    let registers = running_stack(world).registers();
    if count == 0 {
        return &registers[0..0];
    }
    span(registers, from, count)
}

/// Values in a row.
pub(crate) fn span(values: &[Value], from: usize, count: usize) -> &[Value]
    requires { from + count ≤ length values.now }
    ensures { result.now ≡ take count (drop from values.now) }
{
    &values[from..from + count]
}

/// Writes a register.
pub fn write_register(world: &mut World, register: usize, v: Value)
    requires { CanDo world.old (writes register (written nil)) }
    ensures makes { (env : List Meant) (x : Arg) → arg env x ≡ meant world.old.strings v → Makes world.old world.new (on_own (writes register x)) env [] (is_known nil) }
    ensures stays { StaysOnTop world.old world.new }
{
    running_stack_mut(world).set(register, v);
}

/// Sets registers in a row to nil.
pub fn clear_registers(world: &mut World, from: usize, count: usize)
    requires { CanDo world.old (write_nils from count) }
    ensures { DoesOwn world.old world.new (write_nils from count) }
{
    running_stack_mut(world).write_nils(from, count);
}

/// Lets the frame go on at another place of its code.
pub fn go_to(world: &mut World, pc: usize)
    requires { CanGo world.old pc }
    ensures makes { Goes world.old world.new pc }
    ensures listed { CellsAreListed world.old → CellsAreListed world.new }
    ensures rest { world.new ≡ record world.old { coros = world.new.coros } }
{
    running_stack_mut(world).set_pc(pc);
}
