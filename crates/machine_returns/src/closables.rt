// Variables that are to be closed (luaF_newtbcupval and callclosemethod of lfunc.c).
ghost use Rattle.std.specs.Prelude.{◌≡◌, [], IfOk, List, OnErr};
ghost use Rattle.int_core.specs.Value.{Value as Meant};
ghost use Rattle.lua_heap.specs.Reading.{value as meant};
ghost use Rattle.machine_core.specs.Text.{Arg, arg};
ghost use Rattle.machine_core.specs.Moves.{is_closable as tells_closable};
ghost use Rattle.move_laws.specs.Memory.{InOrder, IsSound, Makes};
ghost use Rattle.table_core.specs.declared.value.Value.TheVariants.{Nil};
ghost use Rattle.machine_calls.specs.Preparing.{CanPrepare};
ghost use Rattle.machine_moves.specs.Ending.{ending_of};
ghost use Rattle.machine_returns.specs.Closing.{AsksToClose, CallsToClose, Finds, MayCallToClose};

use int_core::Allocated;
use lua_heap::World;
use lua_stack::Wait;
use machine_calls::{Prepared, ask_over, call_over};
use machine_moves::{Ending, put_in_front};
use meta_ops::{Event, Heap, handler_in};
use table_core::Value;

/// The frame on top waits, and its value is closed: its method is called for a unit of the budget (callclosemethod of lfunc.c). A refusal may leave the frame
/// changed, but in order.
pub(crate) fn call_to_close(
    world: &mut World,
    budget: &mut u64,
    v: Value,
    wait: Wait,
    prepared: Prepared,
) -> Allocated<Ending>
    requires sound { IsSound world.old }
    requires ready { CanPrepare world.old prepared }
    requires safe { MayCallToClose world.old v Nil wait prepared }
    ensures steps { IfOk result (λ ending. CallsToClose world.old world.new budget.old budget.new v Nil wait prepared (ending_of ending)) }
    ensures order { InOrder world.new }
    ensures err { OnErr result ((world.new.printed ≡ world.old.printed) × (budget.new ≡ budget.old)) }
{
    let arguments = put_in_front(world.alloc, &[v], &[Value::Nil])?;
    let method = find_close(world, v);
    call_over(world, budget, method, arguments, wait, prepared)
}

/// The frame on top waits, and asks for the method of a value to be called, with the error with which the frame is left or nil. A refusal changes nothing.
pub(crate) fn ask_to_close(
    world: &mut World,
    v: Value,
    error: Value,
    wait: Wait,
    prepared: Prepared,
) -> Allocated<Ending>
    requires order { InOrder world.old }
    requires ready { CanPrepare world.old prepared }
    ensures leads { IfOk result (λ ending. AsksToClose world.old world.new v error wait prepared (ending_of ending)) }
    ensures order { InOrder world.new }
    ensures err { OnErr result (world.new ≡ world.old) }
{
    let arguments = put_in_front(world.alloc, &[v], &[error])?;
    let method = find_close(world, v);
    ask_over(world, method, arguments, wait, prepared)
}

/// The closing method of a value, or nil (Lua 5.4 manual, 2.4, `__close`).
pub fn find_close(world: &World, v: Value) -> Value
    ensures finds { Finds world.now v result }
{
    let heap = Heap {
        tables: &world.tables,
        strings: &world.strings,
        string_meta: world.string_meta,
    };
    handler_in(heap, Event::Close, v)
}

/// Whether a value has one.
pub fn is_closable(world: &World, v: Value) -> bool
    ensures { (env : List Meant) (x : Arg) → arg env x ≡ meant world.now.strings v → Makes world.now world.now (tells_closable x) env [] result }
{
    let heap = Heap {
        tables: &world.tables,
        strings: &world.strings,
        string_meta: world.string_meta,
    };
    match handler_in(heap, Event::Close, v) {
        Value::Nil => false,
        _ => true,
    }
}
