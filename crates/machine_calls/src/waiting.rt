// Calls for which a Lua frame waits (luaD_call of ldo.c, luaV_finishOp of lvm.c).
ghost use Rattle.std.specs.Prelude.{◌≡◌, map, IfOk, OnErr};
ghost use Rattle.lua_heap.specs.Reading.{value as meant};
ghost use Rattle.move_laws.specs.Memory.{InOrder, IsSound};
ghost use Rattle.machine_moves.specs.Ending.{ending_of};
ghost use Rattle.machine_moves.specs.declared.ending.Ending.TheVariants.{Raised};
ghost use Rattle.machine_calls.specs.Calling.{CanEnter};
ghost use Rattle.machine_calls.specs.Preparing.{CanPrepare};
ghost use Rattle.machine_calls.specs.Waiting.{AsksSo, CallsSo, EntersOver, IsHeld, IsHeldWait, MayCall, RaisesOver};

use crate::calling::with_links;
use crate::entering::{enter_function, is_full};
use crate::preparing::{Prepared, make_ready};
use int_core::Allocated;
use lua_heap::World;
use lua_stack::Wait;
use machine_errors::{begin_leaving_with, blamed_text};
use machine_moves::Ending;
use meta_ops::{Callee, Heap, callee_of};
use table_core::Value;

/// The Lua frame on top waits, and asks for a value to be called with these arguments. A refusal changes nothing.
pub fn ask_over(
    world: &mut World,
    called: Value,
    arguments: Vec<Value>,
    wait: Wait,
    prepared: Prepared,
) -> Allocated<Ending>
    requires order { InOrder world.old }
    requires ready { CanPrepare world.old prepared }
    ensures leads { IfOk result (λ ending. AsksSo world.old world.new called arguments.items wait prepared (ending_of ending)) }
    ensures order { InOrder world.new }
    ensures rest { world.new ≡ record world.old { cells = world.new.cells; coros = world.new.coros; moving = world.new.moving } }
    ensures err { OnErr result (world.new ≡ world.old) }
{
    let mut moving = arguments;
    moving.insert(0, called)?;
    make_ready(world, wait, prepared);
    world.moving = moving;
    Ok(Ending::Asks)
}

/// Calls a value with these arguments for a unit of the budget, and the Lua frame on top waits for what comes (Lua 5.4 manual, 2.4, `__call`). A value
/// that cannot be called, and a full stack, are errors of that frame. A refusal may leave it changed, but in order.
pub fn call_over(
    world: &mut World,
    budget: &mut u64,
    called: Value,
    arguments: Vec<Value>,
    wait: Wait,
    prepared: Prepared,
) -> Allocated<Ending>
    requires sound { IsSound world.old }
    requires ready { CanPrepare world.old prepared }
    requires safe { MayCall world.old called arguments.items wait prepared }
    ensures steps { IfOk result (λ ending. CallsSo world.old world.new budget.old budget.new called arguments.items wait prepared (ending_of ending)) }
    ensures order { InOrder world.new }
    ensures err { OnErr result ((world.new.printed ≡ world.old.printed) × (budget.new ≡ budget.old)) }
{
    let heap = Heap {
        tables: &world.tables,
        strings: &world.strings,
        string_meta: world.string_meta,
    };
    match callee_of(heap, called) {
        Callee::Fault(fault) => {
            let text = fault.text(world.alloc)?;
            raise_over(world, &text, wait, prepared)
        }
        Callee::Function { .. } if *budget == 0 => Ok(Ending::Spent),
        Callee::Function { function, links } => {
            let all = with_links(heap, called, links, arguments)?;
            let ending = enter_over(world, function, all, wait, prepared)?;
            *budget -= 1;
            Ok(ending)
        }
    }
}

/// Enters a function or a primitive over the Lua frame on top, which makes itself ready and waits.
fn enter_over(
    world: &mut World,
    function: Value,
    arguments: Vec<Value>,
    wait: Wait,
    prepared: Prepared,
) -> Allocated<Ending>
    requires sound { IsSound world.old }
    requires ready { CanPrepare world.old prepared }
    requires function { CanEnter world.old (meant world.old.strings function) }
    requires held_wait { IsHeldWait world.old.strings wait }
    requires held { IsHeld world.old.strings prepared }
    ensures enters { IfOk result (λ ending. EntersOver world.old world.new wait prepared (meant world.old.strings function) (map (meant world.old.strings) arguments.items) (ending_of ending)) }
    ensures order { InOrder world.new }
    ensures err { OnErr result (world.new.printed ≡ world.old.printed) }
{
    match function {
        Value::Func(id) => {
            if is_full(world) {
                return raise_over(world, b"stack overflow", wait, prepared);
            }
            make_ready(world, wait, prepared);
            if !enter_function(world, id, &arguments)? {
                unreachable!();
            }
            Ok(Ending::Go)
        }
        Value::Prim(n) => {
            make_ready(world, wait, prepared);
            world.moving = arguments;
            Ok(Ending::CallsPrimitive(n))
        }
        _ => unreachable!(),
    }
}

/// Raises an error of the Lua frame on top, which has made itself ready for a call. A refusal changes nothing.
fn raise_over(world: &mut World, text: &[u8], wait: Wait, prepared: Prepared) -> Allocated<Ending>
    requires sound { IsSound world.old }
    requires ready { CanPrepare world.old prepared }
    requires held_wait { IsHeldWait world.old.strings wait }
    requires held { IsHeld world.old.strings prepared }
    ensures raises { IfOk result (λ ending. RaisesOver world.old world.new wait prepared text.now) }
    ensures raised { IfOk result (λ ending. ending ≡ Raised) }
    ensures order { InOrder world.new }
    ensures err { OnErr result (world.new ≡ world.old) }
{
    let error = blamed_text(world, text)?;
    make_ready(world, wait, prepared);
    Ok(begin_leaving_with(world, error))
}
