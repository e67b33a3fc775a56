// Calls in place of the Lua frame on top (luaD_pretailcall of ldo.c, OP_TAILCALL of lvm.c).
ghost use Rattle.std.specs.Prelude.{◌≡◌, map, IfOk, OnErr};
ghost use Rattle.lua_heap.specs.Reading.{value as meant};
ghost use Rattle.move_laws.specs.Memory.{HasFrame, InOrder, IsSound};
ghost use Rattle.machine_moves.specs.Ending.{ending_of};
ghost use Rattle.machine_calls.specs.Calling.{CanEnter};
ghost use Rattle.machine_calls.specs.Tails.{MayCallInPlace, CallsInPlace, EntersInPlace};

use crate::calling::with_links;
use crate::entering::enter_function;
use crate::leaving::drop_frame;
use int_core::Allocated;
use lua_heap::World;
use machine_errors::raise;
use machine_moves::Ending;
use meta_ops::{Callee, Heap, callee_of};
use table_core::Value;

/// Calls a value with these arguments for a unit of the budget, in place of the Lua frame on top, whose cells are closed (Lua 5.4 manual, 3.4.10). Where it
/// cannot be called, that is an error of the frame, which is still there. A refusal may take the frame away, but leaves all in order.
pub fn call_in_place(
    world: &mut World,
    budget: &mut u64,
    called: Value,
    arguments: Vec<Value>,
) -> Allocated<Ending>
    requires sound { IsSound world.old }
    requires frame { HasFrame world.old }
    requires safe { MayCallInPlace world.old called arguments.items }
    ensures steps { IfOk result (λ ending. CallsInPlace world.old world.new budget.old budget.new called arguments.items (ending_of ending)) }
    ensures order { InOrder world.new }
    ensures err { OnErr result ((world.new.printed ≡ world.old.printed) × (budget.new ≡ budget.old)) }
{
    let heap = Heap {
        tables: &world.tables,
        strings: &world.strings,
        string_meta: world.string_meta,
    };
    match callee_of(heap, called) {
        Callee::Fault(fault) => {
            let text = fault.text(world.alloc)?;
            raise(world, &text)
        }
        Callee::Function { .. } if *budget == 0 => Ok(Ending::Spent),
        Callee::Function { function, links } => {
            let all = with_links(heap, called, links, arguments)?;
            let ending = enter_in_place(world, function, all)?;
            *budget -= 1;
            Ok(ending)
        }
    }
}

/// Enters a function or a primitive in place of the Lua frame on top.
fn enter_in_place(world: &mut World, function: Value, arguments: Vec<Value>) -> Allocated<Ending>
    requires sound { IsSound world.old }
    requires frame { HasFrame world.old }
    requires function { CanEnter world.old (meant world.old.strings function) }
    ensures enters { IfOk result (λ ending. EntersInPlace world.old world.new (meant world.old.strings function) (map (meant world.old.strings) arguments.items) (ending_of ending)) }
    ensures order { InOrder world.new }
    ensures printed { world.new.printed ≡ world.old.printed }
{
    drop_frame(world);
    match function {
        Value::Func(id) => {
            if !enter_function(world, id, &arguments)? {
                unreachable!();
            }
            Ok(Ending::Go)
        }
        Value::Prim(n) => {
            world.moving = arguments;
            Ok(Ending::CallsPrimitive(n))
        }
        _ => unreachable!(),
    }
}
