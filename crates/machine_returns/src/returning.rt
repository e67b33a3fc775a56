// Functions that return (OP_RETURN of lvm.c, luaF_close of lfunc.c).
ghost use Rattle.std.specs.Prelude.{◌≡◌, ℕ, [], IfOk, List, OnErr};
ghost use Rattle.code_core.specs.Prototype.{Prototype};
ghost use Rattle.int_core.specs.Value.{Value as Meant};
ghost use Rattle.instruction_forms.specs.Forms.{text_of};
ghost use Rattle.instruction_forms.specs.declared.form.Form.TheVariants.{Return};
ghost use Rattle.machine_core.specs.Text.{read_registers as reads};
ghost use Rattle.machine_core.specs.InstructionRows.{returns};
ghost use Rattle.machine_core.specs.FrameRows.{expand, goes_on_by};
ghost use Rattle.move_laws.specs.Memory.{CanDo, InOrder, IsSafe, IsSound, Leads, Steps};
ghost use Rattle.machine_moves.specs.Ending.{ending_of};
ghost use Rattle.machine_returns.specs.Waking.{IsSolid};
ghost use Rattle.machine_returns.specs.Returning.{Gives, MayReturnSome};

use crate::closables::{ask_to_close, call_to_close};
use crate::leaving::leave_with_results;
use int_core::Allocated;
use lua_heap::World;
use lua_stack::Wait;
use machine_calls::Prepared;
use machine_moves::{Ending, read_list, see_pending};
use table_core::Value;

/// The frame on top returns the values of one register fewer than `count` from one on, or for 0 those up to the end of the open list. A refusal may leave
/// it changed, but in order.
pub fn return_values(
    world: &mut World,
    budget: &mut u64,
    from: usize,
    count: usize,
) -> Allocated<Ending>
    requires sound { IsSound world.old }
    requires safe { (p : Prototype) (pc : ℕ) → IsSafe (expand (text_of p pc (Return from count))) [] world.old }
    ensures steps { IfOk result (λ ending. (p : Prototype) (pc : ℕ) → Steps (expand (text_of p pc (Return from count))) [] world.old budget.old world.new budget.new (ending_of ending)) }
    ensures order { InOrder world.new }
    ensures err { OnErr result ((world.new.printed ≡ world.old.printed) × (budget.new ≡ budget.old)) }
{
    let given = count_given(world, from, count);
    return_some(world, budget, from, given)
}

/// How many values that are.
fn count_given(world: &World, from: usize, count: usize) -> usize
    requires sound { IsSound world.now }
    requires safe { (p : Prototype) (pc : ℕ) → IsSafe (expand (text_of p pc (Return from count))) [] world.now }
    ensures { Gives world.now from count result }
{
    if count == 0 {
        return read_list(world, from).len();
    }
    count - 1
}

/// The frame on top returns the values of so many registers from one on. The last of its variables that is still to be closed is closed first (Lua 5.4
/// manual, 3.3.8). A refusal may leave it changed, but in order.
pub fn return_some(
    world: &mut World,
    budget: &mut u64,
    from: usize,
    count: usize,
) -> Allocated<Ending>
    requires { MayReturnSome world.old from count }
    ensures steps { IfOk result (λ ending. (env : List Meant) → Steps (expand (returns from count)) env world.old budget.old world.new budget.new (ending_of ending)) }
    ensures order { InOrder world.new }
    ensures err { OnErr result ((world.new.printed ≡ world.old.printed) × (budget.new ≡ budget.old)) }
{
    let Some(v) = see_pending(world, 0) else {
        return leave_with_results(world, from, count);
    };
    call_to_close(
        world,
        budget,
        v,
        Wait::Returning(count),
        Prepared::ReturnedSo { from, count },
    )
}

/// The frame on top goes on returning the values of so many registers from one on. The last of its variables that is still to be closed is closed
/// first, by its method in a step of its own. A refusal changes nothing.
pub fn go_on_returning(world: &mut World, from: usize, count: usize) -> Allocated<Ending>
    requires solid { IsSolid world.old }
    requires there { CanDo world.old (reads from count) }
    ensures leads { IfOk result (λ ending. (env : List Meant) → Leads (goes_on_by (returns from count)) env world.old world.new (ending_of ending)) }
    ensures order { InOrder world.new }
    ensures err { OnErr result (world.new ≡ world.old) }
{
    let Some(v) = see_pending(world, 0) else {
        return leave_with_results(world, from, count);
    };
    ask_to_close(
        world,
        v,
        Value::Nil,
        Wait::Returning(count),
        Prepared::ReturnedSo { from, count },
    )
}
