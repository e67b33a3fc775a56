// Errors that are raised, and the frame that begins to be left with one (luaG_runerror of ldebug.c and luaD_throw of ldo.c).
ghost use Rattle.std.specs.Prelude.{◌≡◌, ◌≤◌, ◌∷◌, [], List, ℕ, length, vec_capacity, IfOk, OnOk, OnErr};
ghost use Rattle.int_core.specs.Value.{Value as Meant};
ghost use Rattle.lua_heap.specs.Cells.{CellsAreListed};
ghost use Rattle.lua_heap.specs.Codes.{AreCodes};
ghost use Rattle.lua_heap.specs.Errors.{AddsTexts};
ghost use Rattle.lua_heap.specs.Reading.{value as meant};
ghost use Rattle.machine_core.specs.FrameRows.{blames, raises};
ghost use Rattle.move_laws.specs.Memory.{HasFrame, InOrder, IsSound, Leads};
ghost use Rattle.machine_moves.specs.Ending.{ending_of};
ghost use Rattle.machine_moves.specs.Moves.{CanCut};
ghost use Rattle.machine_moves.specs.declared.ending.Ending.TheVariants.{Raised};
ghost use Rattle.machine_errors.specs.Raising.{CanLeave, IsBlamed, LeavesWith};

use int_core::Allocated;
use lua_heap::World;
use lua_stack::Wait;
use machine_moves::{Ending, close_cells, code_on_top, give_values, running_stack_mut};
use table_core::Value;

/// Raises an error of the function on top, whose frame begins to be left at once. A refusal changes nothing.
pub fn raise(world: &mut World, text: &[u8]) -> Allocated<Ending>
    requires sound { IsSound world.old }
    requires frame { HasFrame world.old }
    ensures leads { IfOk result (λ ending. (env : List Meant) → Leads (raises text.now) env world.old world.new (ending_of ending)) }
    ensures raised { IfOk result (λ ending. ending ≡ Raised) }
    ensures order { InOrder world.new }
    ensures err { OnErr result (world.new ≡ world.old) }
{
    let error = blamed_text(world, text)?;
    Ok(begin_leaving_with(world, error))
}

/// Raises an error with the place of the function on top, while no frame is left yet. A refusal changes nothing.
pub fn blame(world: &mut World, text: &[u8]) -> Allocated<Ending>
    requires { IsSound world.old }
    ensures leads { IfOk result (λ ending. (env : List Meant) → Leads (blames text.now) env world.old world.new (ending_of ending)) }
    ensures raised { IfOk result (λ ending. ending ≡ Raised) }
    ensures order { InOrder world.new }
    ensures err { OnErr result (world.new ≡ world.old) }
{
    let error = blamed_text(world, text)?;
    give_values(world, error);
    Ok(Ending::Raised)
}

/// An error's text behind the place of the function on top, alone among the values that are to move. A refusal changes nothing.
pub fn blamed_text(world: &mut World, text: &[u8]) -> Allocated<Vec<Value>>
    requires { AreCodes world.old.strings world.old.codes }
    ensures blamed { IfOk result (λ error. IsBlamed world.old world.new text.now error.items) }
    ensures added { OnOk result (AddsTexts world.old world.new) }
    ensures err { OnErr result (world.new ≡ world.old) }
{
    let room = Vec::with_capacity(world.alloc, 1)?;
    let blamed = world.raise_text(text)?;
    Ok(alone(room, blamed))
}

/// One value, in an empty list that has room for it.
pub(crate) fn alone(room: Vec<Value>, v: Value) -> Vec<Value>
    requires empty { room.items ≡ [] }
    requires room { 1 ≤ vec_capacity room }
    ensures { result.items ≡ v ∷ [] }
{
    let mut one = room;
    one.push_reserved(v);
    one
}

/// The Lua frame on top begins to be left with an error, which moves: its cells are closed, and only its pending registers keep their values.
pub fn begin_leaving_with(world: &mut World, error: Vec<Value>) -> Ending
    requires order { InOrder world.old }
    requires frame { CanLeave world.old }
    requires one { length error.items ≡ 1 }
    ensures leads { (text : List ℕ) → IsBlamed world.old world.old text error.items → (env : List Meant) → Leads (raises text) env world.old world.new (ending_of result) }
    ensures raised { result ≡ Raised }
    ensures order { InOrder world.new }
    ensures rest { world.new ≡ record world.old { cells = world.new.cells; coros = world.new.coros; moving = world.new.moving } }
{
    let stack_size = code_on_top(world).stack as usize;
    let thrown = error[0];
    close_cells(world, 0);
    wait_to_leave(world, stack_size, thrown);
    give_values(world, error);
    Ending::Raised
}

/// Keeps the pending registers of the Lua frame on top, and lets it wait until it is left with an error.
fn wait_to_leave(world: &mut World, stack_size: usize, error: Value)
    requires { CanCut world.old stack_size }
    ensures leaves { LeavesWith world.old world.new stack_size (meant world.old.strings error) }
    ensures listed { CellsAreListed world.old → CellsAreListed world.new }
    ensures rest { world.new ≡ record world.old { coros = world.new.coros } }
{
    let stack = running_stack_mut(world);
    stack.keep_pending(stack_size);
    stack.set_wait(Wait::Leaving(error));
}
