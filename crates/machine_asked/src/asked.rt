// Values that were asked for, and are called now (luaD_call of ldo.c).
ghost use Rattle.std.specs.Prelude.{◌≡◌, List, [], drop, map, IfOk, OnErr};
ghost use Rattle.int_core.specs.Operations.{callee_of, greatest_chain};
ghost use Rattle.int_core.specs.Value.{Value as Meant, a_function, object};
ghost use Rattle.lua_heap.specs.Plain.{plain};
ghost use Rattle.lua_heap.specs.Reading.{value as meant};
ghost use Rattle.machine_core.specs.FrameRows.{asked_row};
ghost use Rattle.meta_ops.specs.Chains.{called_as, through};
ghost use Rattle.move_laws.specs.Memory.{HasStack, InOrder, IsSafe, IsSound, Steps};
ghost use Rattle.machine_moves.specs.Ending.{ending_of};
ghost use Rattle.machine_errors.specs.Protected.{first_of};
ghost use Rattle.machine_asked.specs.Asked.{EntersAsked, RefusesAsked};
ghost use Rattle.machine_calls.specs.Calling.{CanEnter};
ghost use Rattle.machine_calls.specs.Entering.{HasFunction};

use int_core::Allocated;
use lua_heap::World;
use lua_stack::Top;
use machine_calls::{enter_function, is_full, with_links};
use machine_errors::{blame, give_up, raise};
use machine_moves::{Ending, see_top, take_moving};
use meta_ops::{Callee, Heap, callee_of};
use table_core::{FuncId, Value};

/// Calls the value that moves with the arguments behind it, for a unit of the budget. Where it cannot be called, that is an error of the frame on top.
/// A refusal changes nothing.
pub fn call_asked(world: &mut World, budget: &mut u64) -> Allocated<Ending>
    requires sound { IsSound world.old }
    requires running { HasStack world.old }
    requires safe { IsSafe asked_row [] world.old }
    ensures steps { IfOk result (λ ending. Steps asked_row [] world.old budget.old world.new budget.new (ending_of ending)) }
    ensures order { InOrder world.new }
    ensures err { OnErr result ((world.new ≡ world.old) × (budget.new ≡ budget.old)) }
{
    match asked_callee(world) {
        Callee::Fault(fault) => {
            let text = fault.text(world.alloc)?;
            refuse_asked(world, &text)
        }
        Callee::Function { .. } if *budget == 0 => Ok(Ending::Spent),
        Callee::Function { function, links } => {
            let all = asked_arguments(world, links)?;
            let ending = enter_asked(world, function, all)?;
            *budget -= 1;
            Ok(ending)
        }
    }
}

/// What the call of the value that moves comes to.
fn asked_callee(world: &World) -> Callee
    ensures { (arguments : List Meant) → callee_of greatest_chain (plain world.now 0).heap (meant world.now.strings (first_of world.now.moving.items)) arguments ≡ called_as world.now.strings (plain world.now 0).heap (meant world.now.strings (first_of world.now.moving.items)) arguments result }
{
    let heap = Heap {
        tables: &world.tables,
        strings: &world.strings,
        string_meta: world.string_meta,
    };
    callee_of(heap, split_asked(&world.moving).0)
}

/// Its arguments, with what the links of `__call` put in front of them.
fn asked_arguments(world: &World, links: usize) -> Allocated<Vec<Value>>
    ensures { IfOk result (λ all. map (meant world.now.strings) all.items ≡ through links (plain world.now 0).heap (meant world.now.strings (first_of world.now.moving.items)) (map (meant world.now.strings) (drop 1 world.now.moving.items))) }
{
    let heap = Heap {
        tables: &world.tables,
        strings: &world.strings,
        string_meta: world.string_meta,
    };
    let (called, given) = split_asked(&world.moving);
    with_links(heap, called, links, given.to_vec(world.alloc)?)
}

/// The value that is asked for, and its arguments.
fn split_asked(moving: &[Value]) -> (Value, &[Value])
    ensures called { result.0 ≡ first_of moving.now }
    ensures arguments { result.1.now ≡ drop 1 moving.now }
{
    match moving.split_first() {
        Some((called, arguments)) => (*called, arguments),
        None => (Value::Nil, moving),
    }
}

/// Enters a function or a primitive that was asked for.
fn enter_asked(world: &mut World, function: Value, arguments: Vec<Value>) -> Allocated<Ending>
    requires sound { IsSound world.old }
    requires running { HasStack world.old }
    requires function { CanEnter world.old (meant world.old.strings function) }
    ensures enters { IfOk result (λ ending. EntersAsked world.old world.new (meant world.old.strings function) (map (meant world.old.strings) arguments.items) (ending_of ending)) }
    ensures order { InOrder world.new }
    ensures err { OnErr result (world.new ≡ world.old) }
{
    match function {
        Value::Func(id) => enter_asked_function(world, id, &arguments),
        Value::Prim(n) => {
            world.moving = arguments;
            Ok(Ending::CallsPrimitive(n))
        }
        _ => unreachable!(),
    }
}

/// Enters a Lua function that was asked for, where there is room for its frame.
fn enter_asked_function(
    world: &mut World,
    function: FuncId,
    arguments: &[Value],
) -> Allocated<Ending>
    requires sound { IsSound world.old }
    requires running { HasStack world.old }
    requires function { HasFunction world.old function.0 }
    ensures enters { IfOk result (λ ending. EntersAsked world.old world.new (object a_function function.0) (map (meant world.old.strings) arguments.now) (ending_of ending)) }
    ensures order { InOrder world.new }
    ensures err { OnErr result (world.new ≡ world.old) }
{
    if is_full(world) {
        return refuse_asked(world, b"stack overflow");
    }
    if !enter_function(world, function, arguments)? {
        unreachable!();
    }
    take_moving(world);
    Ok(Ending::Go)
}

/// What was asked for cannot be called: that is an error of the frame on top. Over which a message handler is called, another error is given in its place.
fn refuse_asked(world: &mut World, text: &[u8]) -> Allocated<Ending>
    requires sound { IsSound world.old }
    requires running { HasStack world.old }
    ensures refuses { IfOk result (λ ending. RefusesAsked world.old world.new text.now (ending_of ending)) }
    ensures order { InOrder world.new }
    ensures err { OnErr result (world.new ≡ world.old) }
{
    match see_top(world) {
        Top::Lua => raise(world, text),
        Top::Handler => give_up(world),
        Top::Missing => blame(world, text),
        Top::Pcall => blame(world, text),
        Top::Xpcall(_) => blame(world, text),
        Top::Closing => blame(world, text),
    }
}
