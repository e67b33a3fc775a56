// Calls of primitives with few arguments, which take no memory (precallC of ldo.c).
ghost use Rattle.std.specs.Prelude.{◌≡◌, ◌+◌, ◌-◌, ◌<◌, ◌^◌, ℕ, List, IfNone, IfSome};
ghost use Rattle.move_laws.specs.Memory.{InOrder, IsSound};
ghost use Rattle.table_core.specs.declared.value.Value.{Value as Kept};
ghost use Rattle.machine_call_rows.specs.Primitives.{CallsPrimitive, MayCallPrimitive};
ghost use Rattle.machine_call_rows.specs.Rows.{MayDoCall, MayKeep, MayReadCall, MayReadValues, ReadsValues};

use crate::calls::{CallAt, read_values, wait_of_call};
use crate::few::Few;
use lua_heap::World;
use machine_calls::{Prepared, make_ready};
use machine_moves::read_register;
use table_core::Value;

/// A primitive that was called: its number, and its arguments.
#[derive(Debug, Drop)]
pub struct PrimitiveCall {
    pub number: u16,
    pub arguments: Few,
}

impl PrimitiveCall {
    /// A call that is yet to be told.
    #[inline(always)]
    pub fn new() -> PrimitiveCall {
        PrimitiveCall {
            number: 0,
            arguments: Few::new(),
        }
    }

    /// Tells the primitive that stands in a register, and its arguments behind it. `None` where another value stands there, where there are more than six
    /// arguments, and where the budget is spent.
    #[inline(always)]
    pub(crate) fn see(
        &mut self,
        world: &World,
        budget: u64,
        function: usize,
        count: usize,
    ) -> Option<()>
        requires sound { IsSound world.now }
        requires near { function + 1 < 2 ^ 64 }
        requires safe { MayReadCall world.now function count }
        ensures { IfSome result (λ _. MayCallPrimitive world.now budget function count self.new.number self.new.arguments) }
    {
        let called = read_register(world, function);
        let Value::Prim(number) = called else {
            return None;
        };
        if budget == 0 {
            return None;
        }
        self.arguments
            .hold(read_values(world, function + 1, count))?;
        self.number = number;
        Some(())
    }
}

/// Does the call of `call` where the value is a primitive that is given at most six arguments: the frame on top waits, and the call is paid. The arguments
/// do not move yet. `None`, with all as before, where it is another value, where there are more arguments, and where the budget is spent.
pub fn call_primitive(
    world: &mut World,
    budget: &mut u64,
    at: CallAt,
    told: &mut PrimitiveCall,
) -> Option<()>
    requires { MayDoCall world.old at }
    ensures calls { IfSome result (λ _. CallsPrimitive world.old world.new budget.old at told.new.number told.new.arguments) }
    ensures paid { IfSome result (λ _. budget.new ≡ budget.old - 1) }
    ensures kept { IfNone result ((world.new ≡ world.old) × (budget.new ≡ budget.old)) }
    ensures order { InOrder world.new }
    ensures rest { world.new ≡ record world.old { cells = world.new.cells; coros = world.new.coros } }
{
    told.see(world, *budget, at.function, at.count)?;
    wait_for_primitive(world, at);
    *budget -= 1;
    Some(())
}

/// The arguments of such a call where they stand.
#[inline(always)]
pub fn arguments_of_call(world: &World, function: usize, count: usize) -> &[Value]
    requires sound { IsSound world.now }
    requires near { function + 1 < 2 ^ 64 }
    requires safe { MayReadValues world.now (function + 1) count }
    ensures { ReadsValues world.now (function + 1) count result.now }
{
    read_values(world, function + 1, count)
}

/// What `call_primitive` does to the frame on top where the call was seen before: the frame waits, and gives registers up.
#[inline(always)]
pub fn wait_for_primitive(world: &mut World, at: CallAt)
    requires sound { IsSound world.old }
    requires keeps { MayKeep world.old at.keeps }
    ensures calls { (fuel number : ℕ) (arguments : List Kept) → MayCallPrimitive world.old fuel at.function at.count number arguments → CallsPrimitive world.old world.new fuel at number arguments }
    ensures order { InOrder world.new }
    ensures rest { world.new ≡ record world.old { cells = world.new.cells; coros = world.new.coros } }
{
    make_ready(
        world,
        wait_of_call(at.iterates),
        Prepared::GivenUp { register: at.keeps },
    );
}
