// Values that are called (luaD_precall and luaD_tryfuncTM of ldo.c).
ghost use Rattle.std.specs.Prelude.{◌≡◌, ◌+◌, ℕ, [], List, drop, map, IfOk, OnErr};
ghost use Rattle.int_core.specs.Value.{Value as Meant};
ghost use Rattle.lua_heap.specs.Cells.{CellsAreListed};
ghost use Rattle.lua_heap.specs.Codes.{AreCodes};
ghost use Rattle.lua_heap.specs.Plain.{plain};
ghost use Rattle.lua_heap.specs.Reading.{value as meant};
ghost use Rattle.machine_core.specs.Text.{Arg, arg};
ghost use Rattle.machine_core.specs.Moves.{made, move as makes_move, call_value as calls};
ghost use Rattle.meta_ops.specs.Chains.{through};
ghost use Rattle.meta_ops.specs.Heap.{heap_of};
ghost use Rattle.move_laws.specs.Memory.{HasStack};
ghost use Rattle.machine_calls.specs.Calling.{CanCall, CanEnter, told_of};
ghost use Rattle.machine_calls.specs.Entering.{EntersSo};

use crate::entering::enter_function;
use int_core::Allocated;
use lua_heap::World;
use meta_ops::{Callee, Event, Fault, Heap, callee_of, handler_in};
use table_core::Value;

/// What a call came to.
#[derive(Debug, Clone, Copy, PartialEq, Eq)]
pub enum Called {
    /// The frame of a Lua function is on top.
    Function,
    /// A primitive's arguments move.
    Primitive(u16),
    /// The budget is spent.
    NotPaid,
    /// The value is no function, and its handlers lead to none.
    Fault(Fault),
    /// The stack has as many frames as it may have.
    NoRoom,
}

/// Calls a value with these arguments for a unit of the budget (Lua 5.4 manual, 2.4, `__call`). Want of memory leaves all as before.
pub fn call_value(
    world: &mut World,
    budget: &mut u64,
    called: Value,
    arguments: Vec<Value>,
) -> Allocated<Called>
    requires running { HasStack world.old }
    requires codes { AreCodes world.old.strings world.old.codes }
    requires callable { CanCall world.old (meant world.old.strings called) }
    ensures makes { IfOk result (λ told. (env : List Meant) (x : Arg) (slot : ℕ) → arg env x ≡ meant world.old.strings called → drop slot env ≡ map (meant world.old.strings) arguments.items → makes_move (calls x slot) env (plain world.old budget.old) ≡ made (plain world.new budget.new) [] (told_of world.old.strings told)) }
    ensures running { HasStack world.new }
    ensures listed { CellsAreListed world.old → CellsAreListed world.new }
    ensures rest { world.new ≡ record world.old { coros = world.new.coros; moving = world.new.moving } }
    ensures err { OnErr result ((world.new ≡ world.old) × (budget.new ≡ budget.old)) }
{
    let heap = Heap {
        tables: &world.tables,
        strings: &world.strings,
        string_meta: world.string_meta,
    };
    match callee_of(heap, called) {
        Callee::Fault(fault) => Ok(Called::Fault(fault)),
        Callee::Function { .. } if *budget == 0 => Ok(Called::NotPaid),
        Callee::Function { function, links } => {
            let all = with_links(heap, called, links, arguments)?;
            let came = enter_callee(world, function, all)?;
            *budget -= 1;
            Ok(came)
        }
    }
}

/// Arguments with what the links of `__call` put in front of them.
pub fn with_links(
    heap: Heap,
    called: Value,
    links: usize,
    arguments: Vec<Value>,
) -> Allocated<Vec<Value>>
    ensures { IfOk result (λ all. map (meant heap.entry.strings.now) all.items ≡ through links (heap_of heap.entry) (meant heap.entry.strings.now called) (map (meant heap.entry.strings.now) arguments.items)) }
{
    let mut at = called;
    let mut all = arguments;
    for link in 0..links {
        all.insert(0, at)?;
        at = handler_in(heap, Event::Call, at);
    }
    Ok(all)
}

/// Enters a function or a primitive. Want of memory leaves all as before.
pub fn enter_callee(world: &mut World, function: Value, arguments: Vec<Value>) -> Allocated<Called>
    requires running { HasStack world.old }
    requires codes { AreCodes world.old.strings world.old.codes }
    requires function { CanEnter world.old (meant world.old.strings function) }
    ensures enters { IfOk result (λ told. EntersSo world.old world.new (meant world.old.strings function) (map (meant world.old.strings) arguments.items) (told_of world.old.strings told)) }
    ensures running { HasStack world.new }
    ensures listed { CellsAreListed world.old → CellsAreListed world.new }
    ensures rest { world.new ≡ record world.old { coros = world.new.coros; moving = world.new.moving } }
    ensures err { OnErr result (world.new ≡ world.old) }
{
    match function {
        Value::Func(id) => {
            if enter_function(world, id, &arguments)? {
                Ok(Called::Function)
            } else {
                Ok(Called::NoRoom)
            }
        }
        Value::Prim(n) => {
            world.moving = arguments;
            Ok(Called::Primitive(n))
        }
        _ => unreachable!(),
    }
}
