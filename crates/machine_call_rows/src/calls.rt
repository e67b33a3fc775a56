// Calls (OP_CALL, OP_TFORCALL and OP_TAILCALL of lvm.c).
ghost use Rattle.std.specs.Prelude.{◌≡◌, ◌+◌, ◌<◌, ◌^◌, ℕ, [], true, false, IfOk, OnErr};
ghost use Rattle.code_core.specs.Prototype.{Prototype};
ghost use Rattle.instruction_forms.specs.Forms.{text_of};
ghost use Rattle.instruction_forms.specs.declared.form.Form.TheVariants.{TailCall};
ghost use Rattle.machine_core.specs.FrameRows.{expand};
ghost use Rattle.machine_core.specs.Moves.{go};
ghost use Rattle.move_laws.specs.Memory.{InOrder, IsSafe, IsSound, Steps};
ghost use Rattle.machine_moves.specs.Ending.{ending_of};
ghost use Rattle.machine_call_rows.specs.Rows.{CallSteps, IsWaitOfCall, MayDoCall, MayReadValues, ReadsValues};

use int_core::Allocated;
use lua_heap::World;
use lua_stack::Wait;
use machine_calls::{Prepared, call_in_place, call_over, call_registers};
use machine_moves::{Ending, read_list, read_register, read_registers};
use table_core::Value;

/// A call, as its instruction tells it: the register of what is called, one more than the number of the arguments after it or 0 for those up to the end of
/// the open list, the register from which on the frame gives its registers up, and whether an iterator is called.
#[derive(Clone, Copy, Debug)]
pub struct CallAt {
    pub function: usize,
    pub count: usize,
    pub keeps: usize,
    pub iterates: bool,
}

/// The value of a register is called for a unit of the budget, with the values of the registers behind it. The frame on top waits for what comes of it (Lua
/// 5.4 manual, 3.4.10; for an iterator 3.3.5). A value that cannot be called, and a full stack, are errors of that frame. A refusal may leave it changed,
/// but in order.
pub fn call(world: &mut World, budget: &mut u64, at: CallAt) -> Allocated<Ending>
    requires { MayDoCall world.old at }
    ensures steps { IfOk result (λ ending. CallSteps at world.old budget.old world.new budget.new (ending_of ending)) }
    ensures order { InOrder world.new }
    ensures err { OnErr result ((world.new.printed ≡ world.old.printed) × (budget.new ≡ budget.old)) }
{
    if call_function(world, budget, at)? {
        return Ok(Ending::Go);
    }
    call_apart(world, budget, at)
}

/// Does so where the value is a Lua function that is given its arguments in registers, and these are given up with it: they become the function's first
/// registers where they stand. `false`, with all as before, where that is not so, where the budget is spent or the stack is full. A refusal changes nothing.
fn call_function(world: &mut World, budget: &mut u64, at: CallAt) -> Allocated<bool>
    requires { MayDoCall world.old at }
    ensures steps { IfOk result (λ entered. entered ≡ true → CallSteps at world.old budget.old world.new budget.new go) }
    ensures kept { IfOk result (λ entered. entered ≡ false → (world.new ≡ world.old) × (budget.new ≡ budget.old)) }
    ensures order { InOrder world.new }
    ensures err { OnErr result ((world.new ≡ world.old) × (budget.new ≡ budget.old)) }
{
    let called = read_register(world, at.function);
    let Value::Func(id) = called else {
        return Ok(false);
    };
    if at.count == 0 {
        return Ok(false);
    }
    if at.keeps != at.function {
        return Ok(false);
    }
    let given = at.count - 1;
    let _arguments = read_registers(world, at.function + 1, given);
    call_registers(
        world,
        budget,
        id,
        at.function,
        given,
        wait_of_call(at.iterates),
    )
}

/// Does so with the arguments apart.
fn call_apart(world: &mut World, budget: &mut u64, at: CallAt) -> Allocated<Ending>
    requires { MayDoCall world.old at }
    ensures steps { IfOk result (λ ending. CallSteps at world.old budget.old world.new budget.new (ending_of ending)) }
    ensures order { InOrder world.new }
    ensures err { OnErr result ((world.new.printed ≡ world.old.printed) × (budget.new ≡ budget.old)) }
{
    let called = read_register(world, at.function);
    let arguments = read_values(world, at.function + 1, at.count).to_vec(world.alloc)?;
    call_over(
        world,
        budget,
        called,
        arguments,
        wait_of_call(at.iterates),
        Prepared::GivenUp { register: at.keeps },
    )
}

/// The value of a register is called in the same way in place of the frame on top, whose cells are closed (Lua 5.4 manual, 3.4.10). Where it cannot be
/// called, that is an error of the frame, which is still there. A refusal may take the frame away, but leaves all in order.
pub fn tail_call(
    world: &mut World,
    budget: &mut u64,
    function: usize,
    count: usize,
) -> Allocated<Ending>
    requires sound { IsSound world.old }
    requires near { function + 1 < 2 ^ 64 }
    requires safe { (p : Prototype) (pc : ℕ) → IsSafe (expand (text_of p pc (TailCall function count))) [] world.old }
    ensures steps { IfOk result (λ ending. (p : Prototype) (pc : ℕ) → Steps (expand (text_of p pc (TailCall function count))) [] world.old budget.old world.new budget.new (ending_of ending)) }
    ensures order { InOrder world.new }
    ensures err { OnErr result ((world.new.printed ≡ world.old.printed) × (budget.new ≡ budget.old)) }
{
    let called = read_register(world, function);
    let arguments = read_values(world, function + 1, count).to_vec(world.alloc)?;
    call_in_place(world, budget, called, arguments)
}

/// The values of one register fewer than `count` from one on, or for 0 those up to the end of the open list.
#[inline(always)]
pub(crate) fn read_values(world: &World, from: usize, count: usize) -> &[Value]
    requires sound { IsSound world.now }
    requires safe { MayReadValues world.now from count }
    ensures { ReadsValues world.now from count result.now }
{
    if count == 0 {
        return read_list(world, from);
    }
    read_registers(world, from, count - 1)
}

/// For what a frame waits that calls.
pub(crate) fn wait_of_call(iterates: bool) -> Wait
    ensures { IsWaitOfCall iterates result }
{
    if iterates {
        Wait::ForIterator
    } else {
        Wait::ForCall
    }
}
