// The frame on top of a stack, and the one that is on top after a call or a return.
ghost use Rattle.std.specs.Prelude.{◌≡◌, IfNone, IfSome, None};
ghost use Rattle.machine_arms_tables.specs.Frame.{code};
ghost use Rattle.machine_loop.specs.Running.{Running};
ghost use Rattle.running_frame.specs.Functions.{code_in};
ghost use Rattle.frame_calls.specs.Calling.{MayLeave};
ghost use Rattle.frame_calls.specs.Standing.{MayRun};
ghost use Rattle.running_frame.specs.Apart.{IsHereIn};
ghost use Rattle.running_frame.specs.Asking.{ReachesOut, ReadSame};
ghost use Rattle.running_frame.specs.Advancing.{Advances};
ghost use Rattle.running_frame.specs.Crossing.{IsAround};
ghost use Rattle.running_frame.specs.Filling.{WritesOn};
ghost use Rattle.running_frame.specs.Inheriting.{metatable_number};
ghost use Rattle.running_frame.specs.Upvalues.{ListsOpen};

use crate::asking::ask_over;
use crate::filling::fill_one;
use crate::place::Here;
use crate::stack::run_stack;
use crate::storing::store_open;
use crate::surroundings::{Function, Surroundings, closure_of};
use frame_calls::{Stop, cross};
use lua_heap::Cell;
use lua_stack::Stack;
use machine_arms_tables::Closure;
use meta_ops::Heap;
use object_pool::Pool;
use table_core::Table;

/// Runs the frame on top, and tells where it stops. `None` where another frame is on top now, of a function that it called or to which it returned.
pub(crate) fn run_frame_on_top(
    stack: &mut Stack,
    function: Function,
    around: Surroundings,
    tables: &mut Pool<Table>,
    cells: &mut Pool<Cell>,
    budget: &mut u64,
) -> Option<Here>
    ghost g: { Running }
    requires may { MayRun g (code_in function.object.now function.proto.now around.strings.now) stack.old tables.old.objects cells.old.objects budget.old }
    requires around { IsAround g around function.proto.now.stack }
    ensures goes { Advances g stack.old stack.new tables.old.objects tables.new.objects cells.old.objects cells.new.objects budget.old budget.new }
    ensures here { IfSome result (λ here. IsHereIn g (code_in function.entry.object.now function.entry.proto.now around.entry.strings.now) stack.new here) }
{
    let halt = run_stack(stack, function, around, tables, cells, budget);
    if !halt.here.runs {
        return Some(halt.here);
    }
    let closure = closure_of(function);
    let stop = Stop {
        functions: around.functions,
        words: closure.words,
        size: function.proto.stack as usize,
        pc: halt.here.pc,
        word: halt.here.word,
        closed: halt.closed,
    };
    match cross(stack, stop, budget) {
        Some(()) => None,
        None => {
            let done = write(stack, &stop, closure, &around, tables, cells, budget);
            stays_unless(done, halt.here)
        }
    }
}

/// Where a frame stays, at which nothing was done.
fn stays_unless(done: Option<()>, here: Here) -> Option<Here>
    ensures { IfSome result (λ at. (at ≡ here) × (done ≡ None)) }
{
    match done {
        Some(()) => None,
        None => Some(here),
    }
}

/// Puts a value into a table of a constructor, or does what changes no table, where the frame on top is at such an instruction. `None` where all reads as before.
#[inline(never)]
pub(crate) fn write(
    stack: &mut Stack,
    stop: &Stop,
    closure: Closure,
    around: &Surroundings,
    tables: &mut Pool<Table>,
    cells: &Pool<Cell>,
    budget: &mut u64,
) -> Option<()>
    requires may { MayLeave stack.old stop.now }
    requires cells { ListsOpen around.now.co.0 stack.old cells.now.objects }
    ensures writes { IfSome result (λ _. WritesOn around.now.co.0 (code closure.entry around.now.strings.now) stack.old stack.new tables.old.objects tables.new.objects (metatable_number around.now.string_meta) cells.now.objects stop.now budget.old budget.new) }
    ensures kept { IfNone result (ReadSame stack.old stack.new × (budget.new ≡ budget.old) × (tables.new.objects ≡ tables.old.objects)) }
    ensures listed { stack.new.open_cells ≡ stack.old.open_cells }
{
    match fill_one(stack, *stop, tables) {
        Some(()) => Some(()),
        None => reach_out(stack, stop, closure, around, tables, cells, budget),
    }
}

/// Stores to a variable of a frame below, or calls the handler of a read or an operator.
#[inline(never)]
fn reach_out(
    stack: &mut Stack,
    stop: &Stop,
    closure: Closure,
    around: &Surroundings,
    tables: &Pool<Table>,
    cells: &Pool<Cell>,
    budget: &mut u64,
) -> Option<()>
    requires may { MayLeave stack.old stop.now }
    requires cells { ListsOpen around.now.co.0 stack.old cells.now.objects }
    ensures reaches { IfSome result (λ _. ReachesOut around.now.co.0 (code closure.entry around.now.strings.now) stack.old stack.new tables.now.objects (metatable_number around.now.string_meta) cells.now.objects stop.now budget.old budget.new) }
    ensures kept { IfNone result (ReadSame stack.old stack.new × (budget.new ≡ budget.old)) }
    ensures listed { stack.new.open_cells ≡ stack.old.open_cells }
{
    let heap = Heap {
        tables,
        strings: around.strings,
        string_meta: around.string_meta,
    };
    match store_open(stack, *stop, closure.upvalues, cells, around.co) {
        Some(()) => Some(()),
        None => ask_over(stack, *stop, closure.constants, heap, budget),
    }
}
