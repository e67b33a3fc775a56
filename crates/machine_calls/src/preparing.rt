// What a Lua frame does to itself once a call is paid, for which it then waits (luaD_precall of ldo.c, luaF_close of lfunc.c).
ghost use Rattle.std.specs.Prelude.{◌≡◌, ◌≤◌, max};
ghost use Rattle.lua_heap.specs.Cells.{CellsAreListed};
ghost use Rattle.lua_stack.specs.Frames.{NoneFrom, TopBecomes, given_up, wait_of, with_wait};
ghost use Rattle.machine_core.specs.Text.{behind};
ghost use Rattle.move_laws.specs.Memory.{HasFrame, InOrder};
ghost use Rattle.machine_errors.specs.Raising.{CanLeave};
ghost use Rattle.machine_calls.specs.Preparing.{CanChange, CanPrepare, ClosesFor, HasTop, NoneIsLeft, ReadyFor, changed, left_as, returned_as};

use lua_heap::World;
use lua_stack::{Stack, Wait};
use machine_moves::{close_cells, code_on_top, running_stack_mut};
use table_core::Value;

/// What a Lua frame does to itself before it waits.
#[derive(Debug, Clone, Copy)]
pub enum Prepared {
    Nothing,
    /// A register gets a value: the object of SELF.
    Copied { register: usize, value: Value },
    /// The registers from one on are given up: those of a call.
    GivenUp { register: usize },
    /// The frame is left by an error: its cells are closed, and it keeps what is pending.
    LeftSo,
    /// It returns: its cells are closed, and it keeps what is pending and the results.
    ReturnedSo { from: usize, count: usize },
    /// Variables from a register on are closed, and the last of them is no longer pending.
    Closed { register: u32 },
}

/// Makes the Lua frame on top ready for a call: it does this to itself, and waits. Most callers know what it does, so the choice is made where they are built.
#[inline(always)]
pub fn make_ready(world: &mut World, wait: Wait, prepared: Prepared)
    requires order { InOrder world.old }
    requires ready { CanPrepare world.old prepared }
    ensures ready { ReadyFor world.old world.new wait prepared }
    ensures whole { CanLeave world.new }
    ensures order { InOrder world.new }
    ensures rest { world.new ≡ record world.old { cells = world.new.cells; coros = world.new.coros } }
{
    let stack_size = code_on_top(world).stack as usize;
    close_for(world, prepared);
    change_top(running_stack_mut(world), wait, prepared, stack_size);
}

/// Closes the cells that are to be closed.
#[inline(always)]
fn close_for(world: &mut World, prepared: Prepared)
    requires listed { CellsAreListed world.old }
    requires frame { HasFrame world.old }
    ensures closes { ClosesFor world.old world.new prepared }
    ensures none { NoneIsLeft world.old world.new prepared }
    ensures listed { CellsAreListed world.new }
    ensures rest { world.new ≡ record world.old { cells = world.new.cells; coros = world.new.coros } }
{
    match prepared {
        Prepared::LeftSo => close_cells(world, 0),
        Prepared::ReturnedSo { .. } => close_cells(world, 0),
        Prepared::Closed { register } => close_cells(world, register),
        Prepared::Nothing => {}
        Prepared::Copied { .. } => {}
        Prepared::GivenUp { .. } => {}
    }
}

/// Changes the frame on top, whose cells are closed, and lets it wait.
#[inline(always)]
fn change_top(stack: &mut Stack, wait: Wait, prepared: Prepared, stack_size: usize)
    requires { CanChange stack.old prepared stack_size }
    ensures { TopBecomes stack.old stack.new (λ f t. with_wait (wait_of f wait) (changed f prepared stack_size t)) }
{
    change(stack, prepared, stack_size);
    stack.set_wait(wait);
}

/// Changes the frame on top, whose cells are closed.
#[inline(always)]
fn change(stack: &mut Stack, prepared: Prepared, stack_size: usize)
    requires { CanChange stack.old prepared stack_size }
    ensures { TopBecomes stack.old stack.new (λ f t. changed f prepared stack_size t) }
{
    match prepared {
        Prepared::Nothing => {}
        Prepared::Copied { register, value } => stack.set(register, value),
        Prepared::GivenUp { register } => give_up(stack, register, stack_size),
        Prepared::LeftSo => leave_so(stack, stack_size),
        Prepared::ReturnedSo { from, count } => return_so(stack, from, count, stack_size),
        Prepared::Closed { register } => stack.take_pending(register as usize),
    }
}

/// Gives up the registers from one on, and what is pending among them.
#[inline(always)]
fn give_up(stack: &mut Stack, register: usize, stack_size: usize)
    requires top { HasTop stack.old stack_size }
    requires within { register ≤ stack_size }
    requires closed { NoneFrom stack.old stack_size }
    ensures { TopBecomes stack.old stack.new (λ f t. given_up register stack_size t) }
{
    stack.drop_pending(register);
    stack.cut_from(register, stack_size);
}

/// Takes the last pending register away, and keeps the others.
fn leave_so(stack: &mut Stack, stack_size: usize)
    requires top { HasTop stack.old stack_size }
    requires closed { NoneFrom stack.old stack_size }
    ensures { TopBecomes stack.old stack.new (λ f t. left_as stack_size t) }
{
    stack.take_pending(0);
    stack.keep_pending(stack_size);
}

/// Takes the last pending register away, and keeps the others and the results.
fn return_so(stack: &mut Stack, from: usize, count: usize, stack_size: usize)
    requires top { HasTop stack.old (max stack_size (behind from count)) }
    requires closed { NoneFrom stack.old (max stack_size (behind from count)) }
    ensures { TopBecomes stack.old stack.new (λ f t. returned_as from count stack_size t) }
{
    stack.take_pending(0);
    stack.keep_results(from, count, stack_size);
}
