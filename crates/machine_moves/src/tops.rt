// The frame on top of the running stack, and frames that are no Lua functions'.
ghost use Rattle.std.specs.Prelude.{◌≡◌, ◌+◌, Bool, List, [], ◌∷◌, ◌++◌, cond, length, nat_le, IfOk, OnErr};
ghost use Rattle.int_core.specs.Limits.{greatest_depth};
ghost use Rattle.int_core.specs.Value.{Value as Meant};
ghost use Rattle.lua_heap.specs.Cells.{CellsAreListed};
ghost use Rattle.lua_heap.specs.Plain.{plain};
ghost use Rattle.lua_heap.specs.Reading.{value as meant};
ghost use Rattle.machine_core.specs.Moves.{Over as OverWhat, frame_over, pop_frame as pops, push_frame as pushes, runs_main, see_top as sees, stop};
ghost use Rattle.machine_core.specs.FrameRows.{hand_over as hands_over, handed};
ghost use Rattle.move_laws.specs.Memory.{HasStack, Leads, Makes};
ghost use Rattle.machine_moves.specs.Ending.{ending_of};
ghost use Rattle.machine_moves.specs.declared.ending.Ending.TheVariants.{Spent};
ghost use Rattle.machine_moves.specs.Tops.{HasOther, TopIs, frame_pushed, kept_over, shape_of};

use crate::chain::{running_stack, running_stack_mut};
use crate::ending::Ending;
use int_core::Allocated;
use lua_heap::World;
use lua_stack::{GREATEST_DEPTH, Stack, Top};
use table_core::Value;

/// A frame over which a value is called.
#[derive(Debug, Clone, Copy)]
pub enum Over {
    Pcall,
    /// With its message handler.
    Xpcall(Value),
    /// Over which a message handler is called.
    Handler,
}

/// What is on top of the running stack.
pub fn see_top(world: &World) -> Top
    requires { HasStack world.now }
    ensures makes { (env : List Meant) → Makes world.now world.now sees env [] (shape_of (runs_main (plain world.now 0)) result) }
    ensures top { TopIs world.now result }
{
    running_stack(world).top()
}

/// What moves is for the frame on top.
pub fn hand_over(world: &World) -> Ending
    requires { HasStack world.now }
    ensures { (env : List Meant) → Leads hands_over env world.now world.now (ending_of result) }
{
    handed(see_top(world))
}

/// How a step ends with results for what is on top.
pub fn handed(top: Top) -> Ending
    ensures ends { (in_main : Bool) → handed (shape_of in_main top) ≡ stop (ending_of result) }
    ensures paid { result ≡ Spent → ⊥ }
{
    match top {
        Top::Lua => Ending::Go,
        Top::Missing => Ending::Returned,
        Top::Pcall => Ending::Returned,
        Top::Xpcall(_) => Ending::Returned,
        Top::Handler => Ending::Returned,
        Top::Closing => Ending::Returned,
    }
}

/// Takes a frame away that is no Lua function's.
pub fn pop_frame(world: &mut World)
    requires { HasOther world.old }
    ensures makes { (env : List Meant) → Makes world.old world.new pops env [] tt }
    ensures running { HasStack world.new }
    ensures listed { CellsAreListed world.old → CellsAreListed world.new }
    ensures rest { world.new ≡ record world.old { coros = world.new.coros } }
{
    running_stack_mut(world).pop();
}

/// Puts a frame on top, over which a value is to be called, and says whether there was room. Where there is none, and where memory is wanting, all
/// is as before.
pub fn push_frame(world: &mut World, over: Over) -> Allocated<bool>
    requires { HasStack world.old }
    ensures makes { IfOk result (λ room. (env : List Meant) (what : OverWhat) → frame_over what env ≡ frame_pushed (meant world.old.strings) over → Makes world.old world.new (pushes what) env [] room) }
    ensures err { OnErr result (world.new ≡ world.old) }
    ensures listed { CellsAreListed world.old → CellsAreListed world.new }
    ensures rest { world.new ≡ record world.old { coros = world.new.coros } }
{
    push_over(running_stack_mut(world), over)
}

/// Puts a frame on top of a stack that has room for one.
fn push_over(stack: &mut Stack, over: Over) -> Allocated<bool>
    ensures room { IfOk result (λ room. room ≡ nat_le (length stack.old.frames + 1) greatest_depth) }
    ensures pushed { IfOk result (λ room. stack.new.frames ≡ cond room (stack.old.frames ++ kept_over over ∷ []) stack.old.frames) }
    ensures cells { stack.new.open_cells ≡ stack.old.open_cells }
    ensures err { OnErr result (stack.new ≡ stack.old) }
{
    if stack.len() >= GREATEST_DEPTH {
        return Ok(false);
    }
    match over {
        Over::Pcall => stack.push_pcall()?,
        Over::Xpcall(handler) => stack.push_xpcall(handler)?,
        Over::Handler => stack.push_handler()?,
    }
    Ok(true)
}
