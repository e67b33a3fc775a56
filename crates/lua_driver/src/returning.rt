// Returns of a value or of none to a Lua frame that waits for what comes: what is left of that frame's instruction is done at once (luaD_poscall of ldo.c).
ghost use Rattle.std.specs.Prelude.{◌≡◌, ℕ, [], IfOk, length};
ghost use Rattle.library_rows.specs.Library.{all_entries};
ghost use Rattle.machine_core.specs.Moves.{Row, go};
ghost use Rattle.machine_moves.specs.Ending.{ending_of};
ghost use Rattle.move_laws.specs.Memory.{InOrder};
ghost use Rattle.running_frame.specs.Here.{IsHere};
ghost use Rattle.step_laws.specs.Steps.{IsReady};
ghost use Rattle.loaded_code.specs.Laws.{library};
ghost use Rattle.source_builds.specs.Readings.{AsRead};
ghost use Rattle.lua_driver.specs.Returning.{AreTold, Returns, ReturnsFew};
ghost use Rattle.lua_driver.specs.Turns.{GoesFurther};

use crate::calling::call_here;
use crate::tail_calling::tail_call_here;
use crate::words::{Quick, quick_at};
use int_core::Allocated;
use lua_heap::World;
use lua_stack::{Top, Wait};
use machine_calls::drop_frame;
use machine_moves::{Ending, handed, read_registers, see_pending, see_top};
use machine_objects::new_function;
use machine_operations::concatenate;
use machine_returns::{set_wait, wait_on_top};
use machine_step::{go_on_with, step_from};
use running_frame::{Here, find_here};
use table_core::Value;

/// What a frame returns.
#[derive(Clone, Copy)]
pub(crate) enum Returned {
    Nothing,
    One(Value),
    More,
}

/// Does the step after `Ending::Go` at this word of the Lua frame on top, and that of the Lua frame below where it comes to it by a return of a value or of
/// none.
pub(crate) fn step_on(world: &mut World, budget: &mut u64, here: Here) -> Allocated<Ending>
    requires ready { IsReady (length all_entries) go world.old }
    requires here { IsHere world.old here }
    ensures goes { IfOk result (λ next. AsRead (λ builds. GoesFurther (library builds) go world.old budget.old world.new budget.new (ending_of next))) }
    ensures order { InOrder world.new }
{
    match quick_at(here) {
        Quick::Calls(at) => call_here(world, budget, here, at),
        Quick::TailCalls { function, count } => {
            tail_call_here(world, budget, here, function, count)
        }
        Quick::Returns { count } => return_few(world, budget, here, count),
        Quick::Makes { inner, to } => new_function(world, here.pc, inner, to),
        Quick::Concats { first, count } => concatenate(world, budget, here.pc, first, count),
        Quick::Other => step_from(world, budget, here),
    }
}

/// The frame on top returns so many values. Where one of its variables is to be closed first, that is a step as any other.
fn return_few(world: &mut World, budget: &mut u64, here: Here, count: usize) -> Allocated<Ending>
    requires ready { IsReady (length all_entries) go world.old }
    requires here { IsHere world.old here }
    requires few { ReturnsFew here count }
    ensures goes { IfOk result (λ next. AsRead (λ builds. GoesFurther (library builds) go world.old budget.old world.new budget.new (ending_of next))) }
    ensures order { InOrder world.new }
{
    if !world.moving.is_empty() {
        return step_from(world, budget, here);
    }
    if let Some(_) = see_pending(world, 0) {
        return step_from(world, budget, here);
    }
    match told(read_registers(world, usize::from(here.word.a()), count)) {
        Returned::Nothing => leave_with(world, &[]),
        Returned::One(value) => leave_with(world, &[value]),
        Returned::More => step_from(world, budget, here),
    }
}

/// What these values are.
fn told(values: &[Value]) -> Returned
    ensures { AreTold values.now result }
{
    match values.split_first() {
        None => Returned::Nothing,
        Some((value, rest)) => {
            if rest.is_empty() {
                return Returned::One(*value);
            }
            Returned::More
        }
    }
}

/// The frame on top is left with these values. A Lua frame below that waits for them goes on.
fn leave_with(world: &mut World, values: &[Value]) -> Allocated<Ending>
    requires ready { IsReady (length all_entries) go world.old }
    requires still { world.old.moving.items ≡ [] }
    requires returns { Returns world.old values.now }
    ensures goes { IfOk result (λ next. (rows : ℕ → Row) (fuel : ℕ) → GoesFurther rows go world.old fuel world.new fuel (ending_of next)) }
    ensures order { InOrder world.new }
{
    drop_frame(world);
    let top = see_top(world);
    if let Top::Lua = top {
        let here = find_here(world);
        if !here.runs {
            let wait = wait_on_top(world);
            set_wait(world, Wait::Running);
            return go_on_with(world, here.pc, here.word, wait, values);
        }
    }
    world.moving = values.to_vec(world.alloc)?;
    Ok(handed(top))
}
