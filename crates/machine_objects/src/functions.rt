// Functions that are made of an inner prototype (pushclosure of lvm.c and luaF_findupval of lfunc.c).
ghost use Rattle.std.specs.Prelude.{◌≡◌, ◌<◌, ℕ, [], ◌∷◌, List, Some, length, slice_get, true, IfOk, OnErr};
ghost use Rattle.lua_heap.specs.Codes.{functions, AreCodes};
ghost use Rattle.int_core.specs.Value.{Value as Meant, object, a_function};
ghost use Rattle.machine_core.specs.Text.{make_function as makes_one};
ghost use Rattle.machine_core.specs.Moves.{outside};
ghost use Rattle.move_laws.specs.Memory.{InOrder, Makes, StandsAt};
ghost use Rattle.machine_objects.specs.Opening.{upvalues_at};
ghost use Rattle.machine_objects.specs.Objects.{CanMake, CanCapture, HasCell, HasInner, HasOpen, IsCell, IsInner, IsOpen, AreCaptured};

use code_core::UpDesc;
use int_core::Allocated;
use lua_heap::{Func, World, law};
use machine_moves::{cell_of, function_on_top, running_stack};
use table_core::{CellId, FuncId, ProtoId};

/// A function of an inner prototype of the function on top, with the cells that it captures, which are open. A refusal changes nothing.
pub fn make_function(world: &mut World, inner: u32) -> Allocated<FuncId>
    requires order { InOrder world.old }
    requires there { CanMake world.old inner }
    ensures makes { IfOk result (λ id. (env : List Meant) → Makes world.old world.new (outside (makes_one inner)) env (object a_function id.0 ∷ []) true) }
    ensures at { (pc : ℕ) → StandsAt world.old pc → StandsAt world.new pc }
    ensures rest { world.new ≡ record world.old { funcs = world.new.funcs } }
    ensures err { OnErr result (world.new ≡ world.old) }
{
    let code = inner_code(world, inner);
    let cells = captured_cells(world, code)?;
    let id = world.add_func(Func { code, cells })?;
    Ok(id)
}

/// The number of the inner prototype.
pub(crate) fn inner_code(world: &World, inner: u32) -> ProtoId
    requires order { InOrder world.now }
    requires there { HasInner world.now inner }
    ensures { IsInner world.now inner result }
{
    law::checked_code_is_there();
    world.inner(function_on_top(world).code, inner)
}

/// The cells that a function of this code captures.
fn captured_cells(world: &World, code: ProtoId) -> Allocated<Vec<CellId>>
    requires order { InOrder world.now }
    requires there { CanCapture world.now code }
    ensures { IfOk result (λ cells. AreCaptured world.now code cells.items) }
{
    let count = upvalue_count(world, code);
    let mut cells = Vec::with_capacity(world.alloc, count)?;
    for at in 0..count {
        let up = upvalue(world, code, at);
        let cell = captured_cell(world, up);
        cells.push(cell)?;
    }
    Ok(cells)
}

/// How many upvalues a function of this code has.
pub(crate) fn upvalue_count(world: &World, code: ProtoId) -> usize
    requires codes { AreCodes world.now.strings world.now.codes }
    requires within { code.0 < length (functions world.now.codes) }
    ensures { result ≡ length (upvalues_at world.now code) }
{
    world.code(code).upvalues.len()
}

/// Where it finds one of them.
pub(crate) fn upvalue(world: &World, code: ProtoId, at: usize) -> UpDesc
    requires codes { AreCodes world.now.strings world.now.codes }
    requires within { code.0 < length (functions world.now.codes) }
    requires there { at < length (upvalues_at world.now code) }
    ensures { slice_get (upvalues_at world.now code) at ≡ Some result }
{
    world.code(code).upvalues[at]
}

/// The cell of one upvalue: that of a register of the function on top, or one of that function's own.
fn captured_cell(world: &World, up: UpDesc) -> CellId
    requires order { InOrder world.now }
    requires there { HasCell world.now up }
    ensures { IsCell world.now up result }
{
    let index = usize::from(up.index);
    if up.in_stack {
        captured_register(world, index)
    } else {
        cell_of(world, index)
    }
}

/// The cell that is open at a register of the function on top.
fn captured_register(world: &World, register: usize) -> CellId
    requires order { InOrder world.now }
    requires there { HasOpen world.now register }
    ensures { IsOpen world.now register result }
{
    running_stack(world).find_cell(register).unwrap()
}
