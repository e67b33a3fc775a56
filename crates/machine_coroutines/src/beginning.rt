// The closing of a coroutine begins (luaB_close of lcorolib.c and lua_closethread of lstate.c; Lua 5.4 manual, 6.2, `coroutine.close`).
ghost use Rattle.std.specs.Prelude.{◌≡◌, ◌+◌, ◌<◌, ◌∷◌, ◌++◌, [], List, cond, false, length, nat_le, IfOk, OnErr};
ghost use Rattle.int_core.specs.Limits.{greatest_depth};
ghost use Rattle.int_core.specs.Value.{Value as Meant, object, a_coroutine};
ghost use Rattle.machine_core.specs.Text.{Arg, arg};
ghost use Rattle.machine_core.specs.Moves.{begin_closing as begins};
ghost use Rattle.lua_heap.specs.Cells.{CellsAreListed};
ghost use Rattle.lua_stack.specs.Frames.{kept_closing};
ghost use Rattle.lua_stack.specs.declared.frame.Top.TheVariants.{Closing as ClosingTop};
ghost use Rattle.move_laws.specs.Memory.{HasStack, Makes};
ghost use Rattle.machine_moves.specs.Tops.{TopIs};
ghost use Rattle.machine_coroutines.specs.Beginning.{IsLeft, PushesClosing, told_of};
ghost use Rattle.machine_coroutines.specs.declared.beginning.Begun.TheVariants.{Entered};

use crate::burying::bury;
use int_core::Allocated;
use lua_heap::{Coro, World};
use lua_stack::{GREATEST_DEPTH, Stack};
use machine_moves::running_stack_mut;
use std::alloc::Global;
use table_core::{CoroId, Value};

/// What the closing of a coroutine begins with.
#[derive(Debug, Clone, Copy, PartialEq, Eq)]
pub enum Begun {
    /// A frame for it is on top.
    Entered,
    /// The stack has as many frames as it may have.
    NoRoom,
    /// The coroutine runs, and cannot be closed.
    Running,
    /// It has resumed another, and cannot be closed.
    Normal,
}

/// What a coroutine leaves that is closed.
#[derive(Drop)]
enum Left {
    /// An error, and the values that are to be closed.
    Values(Option<Value>, Vec<Value>),
    /// It runs.
    Running,
    /// It has resumed another.
    Normal,
}

/// Puts a frame on top under which the variables of a coroutine are closed. The coroutine is dead, and its cells are closed. Where it cannot be closed or
/// there is no room, and where memory is wanting, all is as before.
pub fn begin_closing(world: &mut World, co: CoroId) -> Allocated<Begun>
    requires running { HasStack world.old }
    requires listed { CellsAreListed world.old }
    requires there { co.0 < length world.old.coros.objects }
    ensures makes { IfOk result (λ begun. (env : List Meant) (x : Arg) → arg env x ≡ object a_coroutine co.0 → Makes world.old world.new (begins x) env [] (told_of begun)) }
    ensures top { IfOk result (λ begun. begun ≡ Entered → TopIs world.new ClosingTop) }
    ensures same { IfOk result (λ begun. (begun ≡ Entered → ⊥) → world.new ≡ world.old) }
    ensures listed { CellsAreListed world.new }
    ensures rest { world.new ≡ record world.old { cells = world.new.cells; coros = world.new.coros } }
    ensures err { OnErr result (world.new ≡ world.old) }
{
    match left_by(world.coros.get(co.0), world.alloc)? {
        Left::Running => Ok(Begun::Running),
        Left::Normal => Ok(Begun::Normal),
        Left::Values(error, values) => {
            if !push_closing(world, error, &values)? {
                return Ok(Begun::NoRoom);
            }
            bury(world, co, Coro::Dead);
            Ok(Begun::Entered)
        }
    }
}

/// What a coroutine leaves that is closed.
fn left_by(coro: &Coro, alloc: Global) -> Allocated<Left>
    ensures { IfOk result (λ left. IsLeft coro.now left) }
{
    match coro {
        Coro::Running(_) => Ok(Left::Running),
        Coro::Normal(_) => Ok(Left::Normal),
        Coro::Suspended(stack) => Ok(Left::Values(None, stack.pending_values(alloc)?)),
        Coro::Failed { error, pending } => Ok(Left::Values(Some(*error), pending.to_vec(alloc)?)),
        Coro::Fresh(_) => Ok(Left::Values(None, Vec::new(alloc))),
        Coro::Dead => Ok(Left::Values(None, Vec::new(alloc))),
    }
}

/// Puts a frame of `coroutine.close` on top, and says whether there was room. Where there is none, and where memory is wanting, all is as before.
fn push_closing(world: &mut World, error: Option<Value>, values: &[Value]) -> Allocated<bool>
    requires { HasStack world.old }
    ensures pushes { IfOk result (λ room. PushesClosing world.old world.new error values.now room) }
    ensures same { IfOk result (λ room. room ≡ false → world.new ≡ world.old) }
    ensures listed { CellsAreListed world.old → CellsAreListed world.new }
    ensures rest { world.new ≡ record world.old { coros = world.new.coros } }
    ensures err { OnErr result (world.new ≡ world.old) }
{
    push_on(running_stack_mut(world), error, values)
}

/// Puts such a frame on top of a stack that has room for one.
fn push_on(stack: &mut Stack, error: Option<Value>, values: &[Value]) -> Allocated<bool>
    ensures room { IfOk result (λ room. room ≡ nat_le (length stack.old.frames + 1) greatest_depth) }
    ensures pushed { IfOk result (λ room. stack.new.frames ≡ cond room (stack.old.frames ++ kept_closing error values.now ∷ []) stack.old.frames) }
    ensures same { IfOk result (λ room. room ≡ false → stack.new ≡ stack.old) }
    ensures cells { stack.new.open_cells ≡ stack.old.open_cells }
    ensures err { OnErr result (stack.new ≡ stack.old) }
{
    if stack.len() >= GREATEST_DEPTH {
        return Ok(false);
    }
    stack.push_closing(error, values)?;
    Ok(true)
}
