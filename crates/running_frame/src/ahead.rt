// The Lua frame on top of the coroutine that runs.
ghost use Rattle.std.specs.Prelude.{◌≡◌, ℕ, [], IfSome, length};
ghost use Rattle.lua_heap.specs.Plain.{plain};
ghost use Rattle.library_rows.specs.Library.{all_entries};
ghost use Rattle.machine_core.specs.Moves.{Row, go};
ghost use Rattle.machine_focus.specs.Focus.{Reaches};
ghost use Rattle.machine_loop.specs.Running.{Running};
ghost use Rattle.machine_sound.specs.Laws.{PrimitivesSafe};
ghost use Rattle.move_laws.specs.Memory.{InOrder};
ghost use Rattle.step_laws.specs.Steps.{IsReady};
ghost use Rattle.running_frame.specs.Crossing.{Ground, Grounds};
ghost use Rattle.running_frame.specs.Here.{IsHere};
ghost use Rattle.running_frame.specs.Apart.{IsApart};

use crate::crossing::cross_stack;
use crate::frames::run_frame_on_top;
use crate::place::{Here, find_here};
use crate::surroundings::{Function, Surroundings};
use crate::taking::is_taken;
use code_core::Opcode;
use frame_calls::Functions;
use lua_heap::law::checked_code_is_there;
use lua_heap::{Coro, World};
use machine_moves::running;

/// What the frames of a coroutine's stack share. It is written in place, since the stack is lent of the same world while that is read.
macro_rules! surroundings {
    ($world:ident, $co:ident) => {
        Surroundings {
            functions: Functions {
                funcs: &$world.funcs,
                codes: &$world.codes,
            },
            strings: &$world.strings,
            co: $co,
            string_meta: $world.string_meta,
        }
    };
}

/// Runs the Lua frame on top as long as it goes on by itself, and the functions that it calls: some steps of the machine, none where the frame waits. The world
/// is ready for the next step, of whatever kind, which is at the place that is answered.
pub fn run_ahead(world: &mut World, budget: &mut u64) -> Here
    ghost rows: { ℕ → Row }
    requires safe { PrimitivesSafe (length all_entries) rows }
    requires ready { IsReady (length all_entries) go world.old }
    ensures reaches { Reaches rows (plain world.old budget.old) (plain world.new budget.new) }
    ensures ready { IsReady (length all_entries) go world.new }
    ensures here { IsHere world.new result }
{
    let still = is_taken(world);
    if !still {
        return find_here(world);
    }
    run_frames(world, budget)
}

/// Runs the frames of a world in which nothing moves.
fn run_frames(world: &mut World, budget: &mut u64) -> Here
    ghost rows: { ℕ → Row }
    requires safe { PrimitivesSafe (length all_entries) rows }
    requires ready { IsReady (length all_entries) go world.old }
    requires still { world.old.moving.items ≡ [] }
    ensures reaches { Reaches rows (plain world.old budget.old) (plain world.new budget.new) }
    ensures ready { IsReady (length all_entries) go world.new }
    ensures here { IsHere world.new result }
{
    for _ in 0..u64::MAX {
        cross_frames(world, budget);
        let found = find_here(world);
        let left = is_left(found);
        if left {
            return found;
        }
        if let Some(here) = run_frame(world, budget) {
            return here;
        }
    }
    find_here(world)
}

/// Whether nothing more is done here with a frame that has gone from frame to frame as far as it could: it waits, or does not stand at one of the two instructions
/// that `run_frame` alone does.
fn is_left(here: Here) -> bool {
    if !here.runs {
        return true;
    }
    match here.word.opcode() {
        Some(Opcode::GetUpval) => false,
        Some(Opcode::Close) => false,
        _ => true,
    }
}

/// Goes from frame to frame of the stack that runs, which is found once for all of them, as long as each stops at a call or a return that takes no more than the stack.
#[inline(always)]
fn cross_frames(world: &mut World, budget: &mut u64)
    ghost outside: { Ground }
    requires { Grounds outside world.old }
    ensures reaches { Reaches outside.rows (plain world.old budget.old) (plain world.new budget.new) }
    ensures ready { IsReady (length all_entries) go world.new }
    ensures still { world.new.moving ≡ world.old.moving }
{
    let co = running(world);
    match world.coros.get_mut(co.0) {
        Coro::Running(stack) => {
            let around = surroundings!(world, co);
            cross_stack(stack, &around, &mut world.tables, &mut world.cells, budget)
        }
        _ => unreachable!(),
    }
}

/// Runs the frame on top of a world in which nothing moves, held apart from that world. `None` where another frame is on top then.
#[inline(never)]
fn run_frame(world: &mut World, budget: &mut u64) -> Option<Here>
    ghost g: { Running }
    requires { IsApart g world.old }
    ensures reaches { Reaches g.around.rows (plain world.old budget.old) (plain world.new budget.new) }
    ensures here { IfSome result (λ here. IsHere world.new here) }
    ensures order { InOrder world.new }
    ensures still { world.new.moving ≡ world.old.moving }
{
    checked_code_is_there();
    world.strings.len();
    let co = running(world);
    match world.coros.get_mut(co.0) {
        Coro::Running(stack) => {
            let function = world.funcs.get(stack.function().0);
            let code = world.codes.get(function.code);
            let around = surroundings!(world, co);
            run_frame_on_top(
                stack,
                Function {
                    object: function,
                    proto: code,
                },
                around,
                &mut world.tables,
                &mut world.cells,
                budget,
            )
        }
        _ => unreachable!(),
    }
}
