// Calls of Lua functions and returns from them, which most frames stop at (OP_CALL, OP_TAILCALL, OP_RETURN, OP_RETURN0 and OP_RETURN1 of lvm.c).
ghost use Rattle.std.specs.Prelude.{◌≡◌, IfNone, IfSome};
ghost use Rattle.lua_heap.specs.Plain.{plain};
ghost use Rattle.machine_arms_tables.specs.Frame.{code};
ghost use Rattle.machine_focus.specs.Focus.{Reaches};
ghost use Rattle.machine_loop.specs.Running.{Running};
ghost use Rattle.running_frame.specs.Functions.{code_in};
ghost use Rattle.frame_calls.specs.Calling.{MayLeave};
ghost use Rattle.frame_calls.specs.Standing.{MayRun, RunsAt};
ghost use Rattle.running_frame.specs.Advancing.{Advances};
ghost use Rattle.running_frame.specs.Crossing.{Ground, IsAround, LeavesFrame, MayCross, runs_on, world_around};
ghost use Rattle.running_frame.specs.Remembering.{KnowsNothing};
ghost use Rattle.running_frame.specs.Upvalues.{ListsOpen};

use crate::frames::write;
use crate::inherited::read_inherited;
use crate::place::is_none;
use crate::stack::run_round;
use crate::storing::store_open;
use crate::surroundings::{Body, Function, Surroundings, body_of, closure_of};
use code_core::{Instruction, Opcode, fetch};
use frame_calls::{Stop, closed_from, cross_over_at};
use lua_heap::Cell;
use lua_heap::law::checked_code_is_there;
use lua_stack::Stack;
use machine_loop::Memo;
use meta_ops::Heap;
use object_pool::Pool;
use table_core::{CellId, CoroId, Table};

/// Goes from frame to frame of a stack, as long as each stops at a call or a return that takes no more than the stack. A function of its own, so that what frames
/// want over and over stays at hand. That nothing is known of variables in frames below is said once for all frames.
#[inline(never)]
pub(crate) fn cross_stack(
    stack: &mut Stack,
    around: &Surroundings,
    tables: &mut Pool<Table>,
    cells: &mut Pool<Cell>,
    budget: &mut u64,
)
    ghost outside: { Ground }
    requires may { MayCross outside (world_around outside stack.old around.now tables.old cells.old) stack.old }
    requires own { around.now.co ≡ runs_on outside }
    requires meta { around.now.string_meta ≡ outside.world.string_meta }
    ensures reaches { Reaches outside.rows (plain (world_around outside stack.old around.now tables.old cells.old) budget.old) (plain (world_around outside stack.new around.now tables.new cells.new) budget.new) }
    ensures may { MayCross outside (world_around outside stack.new around.now tables.new cells.new) stack.new }
{
    let memo = Memo {
        first: None,
        second: None,
        third: None,
    };
    cross_all(stack, *around, tables, cells, &memo, budget);
}

/// Does so over what is known of those.
#[inline(always)]
fn cross_all(
    stack: &mut Stack,
    around: Surroundings,
    tables: &mut Pool<Table>,
    cells: &mut Pool<Cell>,
    memo: &Memo,
    budget: &mut u64,
)
    ghost outside: { Ground }
    requires may { MayCross outside (world_around outside stack.old around tables.old cells.old) stack.old }
    requires own { around.co ≡ runs_on outside }
    requires nothing { KnowsNothing memo.now }
    requires meta { around.string_meta ≡ outside.world.string_meta }
    ensures reaches { Reaches outside.rows (plain (world_around outside stack.old around.entry tables.old cells.old) budget.old) (plain (world_around outside stack.new around.entry tables.new cells.new) budget.new) }
    ensures may { MayCross outside (world_around outside stack.new around.entry tables.new cells.new) stack.new }
{
    for _ in 0..u64::MAX {
        let Some(()) = cross_next(stack, around, tables, cells, memo, budget) else {
            return;
        };
    }
}

/// Runs the frame on top as far as it needs nothing but its own registers and a few variables of frames below, and does the call, the return or the store that stands
/// there. `None` where the frame waits, or something else stands there.
#[inline(always)]
fn cross_next(
    stack: &mut Stack,
    around: Surroundings,
    tables: &mut Pool<Table>,
    cells: &mut Pool<Cell>,
    memo: &Memo,
    budget: &mut u64,
) -> Option<()>
    ghost outside: { Ground }
    requires may { MayCross outside (world_around outside stack.old around tables.old cells.old) stack.old }
    requires own { around.co ≡ runs_on outside }
    requires nothing { KnowsNothing memo.now }
    requires meta { around.string_meta ≡ outside.world.string_meta }
    ensures reaches { Reaches outside.rows (plain (world_around outside stack.old around.entry tables.old cells.old) budget.old) (plain (world_around outside stack.new around.entry tables.new cells.new) budget.new) }
    ensures may { MayCross outside (world_around outside stack.new around.entry tables.new cells.new) stack.new }
{
    checked_code_is_there();
    around.strings.len();
    let function = around.functions.funcs.get(stack.function().0);
    let code = around.functions.codes.get(function.code);
    cross_frame(
        stack,
        Function {
            object: function,
            proto: code,
        },
        around,
        tables,
        cells,
        memo,
        budget,
    )
}

/// Does so over its function's code.
#[inline(always)]
fn cross_frame(
    stack: &mut Stack,
    function: Function,
    around: Surroundings,
    tables: &mut Pool<Table>,
    cells: &mut Pool<Cell>,
    memo: &Memo,
    budget: &mut u64,
) -> Option<()>
    ghost g: { Running }
    requires may { MayRun g (code_in function.object.now function.proto.now around.strings.now) stack.old tables.old.objects cells.old.objects budget.old }
    requires around { IsAround g around function.proto.now.stack }
    requires nothing { KnowsNothing memo.now }
    ensures { Advances g stack.old stack.new tables.old.objects tables.new.objects cells.old.objects cells.new.objects budget.old budget.new }
{
    let start = stack.pc();
    let runs = is_none(stack.wait());
    if !runs {
        return None;
    }
    run_and_cross(stack, function, around, tables, cells, memo, budget, start)
}

/// Does so where it runs, from its place on.
#[inline(always)]
fn run_and_cross(
    stack: &mut Stack,
    function: Function,
    around: Surroundings,
    tables: &mut Pool<Table>,
    cells: &mut Pool<Cell>,
    memo: &Memo,
    budget: &mut u64,
    start: usize,
) -> Option<()>
    ghost g: { Running }
    requires runs { RunsAt g (code_in function.object.now function.proto.now around.strings.now) stack.old tables.old.objects cells.old.objects budget.old start }
    requires around { IsAround g around function.proto.now.stack }
    requires nothing { KnowsNothing memo.now }
    ensures { Advances g stack.old stack.new tables.old.objects tables.new.objects cells.old.objects cells.new.objects budget.old budget.new }
{
    let pc = run_round(stack, function, around, tables, cells, memo, budget, start);
    leave_or_go_on(stack, function, around, tables, cells, budget, pc)
}

/// Leaves the frame, which is what most frames stop for, or does what it can without.
#[inline(always)]
fn leave_or_go_on(
    stack: &mut Stack,
    function: Function,
    around: Surroundings,
    tables: &mut Pool<Table>,
    cells: &Pool<Cell>,
    budget: &mut u64,
    pc: usize,
) -> Option<()>
    ghost g: { Running }
    requires runs { RunsAt g (code_in function.object.now function.proto.now around.strings.now) stack.old tables.old.objects cells.now.objects budget.old pc }
    requires around { IsAround g around function.proto.now.stack }
    ensures { Advances g stack.old stack.new tables.old.objects tables.new.objects cells.now.objects cells.now.objects budget.old budget.new }
{
    let closure = closure_of(function);
    let word = fetch(closure.words, pc);
    let stop = Stop {
        functions: around.functions,
        words: closure.words,
        size: function.proto.stack as usize,
        pc,
        word,
        closed: None,
    };
    match leave_frame(stack, stop, closure.upvalues, cells, around.co, budget) {
        Some(()) => Some(()),
        None => {
            let body = body_of(function);
            read_or_ask(stack, body, around, tables, cells, budget, pc)
        }
    }
}

/// Reads a field that handlers of `__index` lead to without a call, as a method of a string, or puts a value of a constructor into its table, or calls a handler.
#[inline(always)]
fn read_or_ask(
    stack: &mut Stack,
    body: Body,
    around: Surroundings,
    tables: &mut Pool<Table>,
    cells: &Pool<Cell>,
    budget: &mut u64,
    pc: usize,
) -> Option<()>
    ghost g: { Running }
    requires runs { RunsAt g (code body.closure around.strings.now) stack.old tables.old.objects cells.now.objects budget.old pc }
    requires around { IsAround g around body.size }
    ensures { Advances g stack.old stack.new tables.old.objects tables.new.objects cells.now.objects cells.now.objects budget.old budget.new }
{
    let heap = Heap {
        tables,
        strings: around.strings,
        string_meta: around.string_meta,
    };
    match read_inherited(stack, body.closure, heap, pc) {
        Some(_) => Some(()),
        None => ask_next(stack, body, around, tables, cells, budget, pc),
    }
}

/// Puts a value of a constructor into its table, or calls the handler of a read or an operator. The opcode is looked at here, so that at all other instructions
/// nothing is called.
#[inline(always)]
fn ask_next(
    stack: &mut Stack,
    body: Body,
    around: Surroundings,
    tables: &mut Pool<Table>,
    cells: &Pool<Cell>,
    budget: &mut u64,
    pc: usize,
) -> Option<()>
    ghost g: { Running }
    requires runs { RunsAt g (code body.closure around.strings.now) stack.old tables.old.objects cells.now.objects budget.old pc }
    requires around { IsAround g around body.size }
    ensures { Advances g stack.old stack.new tables.old.objects tables.new.objects cells.now.objects cells.now.objects budget.old budget.new }
{
    let word = fetch(body.closure.words, pc);
    if !may_ask(word) {
        return None;
    }
    let closed = closed_from(stack);
    let stop = Stop {
        functions: around.functions,
        words: body.closure.words,
        size: body.size,
        pc,
        word,
        closed,
    };
    // A copy, so that only here it stands in memory.
    let shared = around;
    write(stack, &stop, body.closure, &shared, tables, cells, budget)
}

/// Whether an instruction may call a handler that is a function, or puts one value of a constructor into its table.
#[inline(always)]
fn may_ask(i: Instruction) -> bool {
    match i.opcode() {
        Some(Opcode::GetTable) => true,
        Some(Opcode::GetField) => true,
        Some(Opcode::MmBin) => true,
        Some(Opcode::SetList) => i.b() == 1,
        _ => false,
    }
}

/// A call, a return, a VARARG or a store to a variable of a frame below, at which the frame on top stands. `None`, with all as before, at any other instruction, and where
/// it takes more than the stack.
#[inline(always)]
fn leave_frame(
    stack: &mut Stack,
    stop: Stop,
    upvalues: &[CellId],
    cells: &Pool<Cell>,
    co: CoroId,
    budget: &mut u64,
) -> Option<()>
    requires may { MayLeave stack.old stop }
    requires cells { ListsOpen co.0 stack.old cells.now.objects }
    ensures leaves { IfSome result (λ _. LeavesFrame co.0 upvalues.now stack.old stack.new cells.now.objects stop.entry budget.old budget.new) }
    ensures kept { IfNone result ((stack.new ≡ stack.old) × (budget.new ≡ budget.old)) }
    ensures listed { stack.new.open_cells ≡ stack.old.open_cells }
{
    match store_open(stack, stop, upvalues, cells, co) {
        Some(()) => Some(()),
        None => cross_over_at(stack, stop, budget),
    }
}
