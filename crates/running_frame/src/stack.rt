// The frame on top of a stack, over the function that it runs.
ghost use Rattle.std.specs.Prelude.{◌≡◌, IfNone, IfSome, true};
ghost use Rattle.machine_arms_tables.specs.Frame.{code};
ghost use Rattle.machine_loop.specs.Knowing.{AllHold};
ghost use Rattle.machine_loop.specs.Running.{ClosesNothing, Running};
ghost use Rattle.running_frame.specs.Functions.{code_in};
ghost use Rattle.running_frame.specs.Advancing.{Advances};
ghost use Rattle.running_frame.specs.Inheriting.{metatable_number};
ghost use Rattle.running_frame.specs.Between.{GoesWith, RunsWith};
ghost use Rattle.frame_calls.specs.Standing.{IsClosedFrom, MayRun, RunsAt};
ghost use Rattle.running_frame.specs.Apart.{IsHereIn};

use crate::closing::pass_close;
use crate::inherited::read_inherited;
use crate::place::{Here, here_at, is_none};
use crate::remembering::remember;
use crate::surroundings::{Function, Surroundings, closure_of};
use crate::upvalues::read_open;
use frame_calls::closed_from;
use lua_heap::{Cell, Strings};
use lua_stack::Stack;
use machine_arms_tables::Closure;
use machine_loop::{Memo, run_frame};
use meta_ops::Heap;
use object_pool::Pool;
use table_core::Table;

/// How many rounds of the loop over instructions a frame makes, with a variable of a frame below read between two, before the values of such are remembered. Many:
/// to go on where they are costs as much as a dozen reads, and most frames come to a call before it pays.
const ROUNDS: u64 = 128;

/// Where the frame on top stops, and from which register on nothing of it is open or to be closed, where that is known.
#[derive(Clone, Copy, Debug)]
pub(crate) struct Halt {
    pub(crate) here: Here,
    pub(crate) closed: Option<usize>,
}

/// Runs the frame on top, where it does not wait, up to an instruction that takes more than the frame and the variables of those below.
pub(crate) fn run_stack(
    stack: &mut Stack,
    function: Function,
    around: Surroundings,
    tables: &mut Pool<Table>,
    cells: &mut Pool<Cell>,
    budget: &mut u64,
) -> Halt
    ghost g: { Running }
    requires may { MayRun g (code_in function.object.now function.proto.now around.strings.now) stack.old tables.old.objects cells.old.objects budget.old }
    requires own { around.co.0 ≡ g.around.context.coroutine }
    requires meta { metatable_number around.string_meta ≡ g.string_metatable }
    ensures goes { Advances g stack.old stack.new tables.old.objects tables.new.objects cells.old.objects cells.new.objects budget.old budget.new }
    ensures here { IsHereIn g (code_in function.entry.object.now function.entry.proto.now around.entry.strings.now) stack.new result.here }
    ensures runs { result.here.runs ≡ true → RunsAt g (code_in function.entry.object.now function.entry.proto.now around.entry.strings.now) stack.new tables.new.objects cells.new.objects budget.new result.here.pc }
    ensures closed { IfSome result.closed (λ register. IsClosedFrom stack.new register) }
{
    let start = stack.pc();
    let runs = is_none(stack.wait());
    if !runs {
        let here = here_at(&function.proto.words, start, false);
        return Halt { here, closed: None };
    }
    let closed = closed_from(stack);
    let pc = run_rounds(
        stack, function, around, tables, cells, budget, closed, start,
    );
    Halt {
        here: here_at(&function.proto.words, pc, true),
        closed,
    }
}

/// Runs the frame on top, which does not wait, from the place `start` on, where the loop over instructions stopped before, and tells where it stops. That loop has the frame's own registers alone,
/// follows handlers from tables to tables and closes nothing, so what stands in a register of a frame below, and what other handlers lead to, is read between
/// two rounds of it, and a CLOSE is passed there. Nothing that is done here changes a frame below, so values that stand there are remembered.
fn run_rounds(
    stack: &mut Stack,
    function: Function,
    around: Surroundings,
    tables: &mut Pool<Table>,
    cells: &mut Pool<Cell>,
    budget: &mut u64,
    closed: Option<usize>,
    start: usize,
) -> usize
    ghost g: { Running }
    requires runs { RunsAt g (code_in function.object.now function.proto.now around.strings.now) stack.old tables.old.objects cells.old.objects budget.old start }
    requires closed { IfSome closed (λ register. ClosesNothing g.around cells.old.objects register) }
    requires own { around.co.0 ≡ g.around.context.coroutine }
    requires meta { metatable_number around.string_meta ≡ g.string_metatable }
    ensures goes { Advances g stack.old stack.new tables.old.objects tables.new.objects cells.old.objects cells.new.objects budget.old budget.new }
    ensures runs { RunsAt g (code_in function.entry.object.now function.entry.proto.now around.entry.strings.now) stack.new tables.new.objects cells.new.objects budget.new result }
{
    let closure = closure_of(function);
    let mut pc = start;
    let mut again = false;
    let mut memo = Memo {
        first: None,
        second: None,
        third: None,
    };
    for _ in 0..u64::MAX {
        let Some(next) = go_between(
            stack, closure, around, tables, cells, closed, &mut memo, again, pc,
        ) else {
            return pc;
        };
        let at = run_once(
            stack,
            function,
            around.strings,
            tables,
            cells,
            &memo,
            budget,
            next,
        );
        pc = at;
        again = true;
    }
    pc
}

/// Remembers the value that the next instruction reads of a frame below, or does an instruction that the loop does not, and tells where the frame goes on.
/// `None`, with all as before, at any other instruction.
#[inline(always)]
fn go_between(
    stack: &mut Stack,
    closure: Closure,
    around: Surroundings,
    tables: &Pool<Table>,
    cells: &Pool<Cell>,
    closed: Option<usize>,
    memo: &mut Memo,
    again: bool,
    pc: usize,
) -> Option<usize>
    ghost g: { Running }
    requires runs { RunsWith g (code closure around.strings.now) stack.old tables.now.objects cells.now.objects pc }
    requires closed { IfSome closed (λ register. ClosesNothing g.around cells.now.objects register) }
    requires own { around.co.0 ≡ g.around.context.coroutine }
    requires meta { metatable_number around.string_meta ≡ g.string_metatable }
    requires known { AllHold g.around closure.upvalues.now cells.now.objects memo.old }
    ensures goes { IfSome result (λ to. GoesWith g (code closure.entry around.entry.strings.now) stack.old stack.new tables.now.objects cells.now.objects pc to) }
    ensures kept { IfNone result (stack.new ≡ stack.old) }
    ensures known { AllHold g.around closure.entry.upvalues.now cells.now.objects memo.new }
{
    match remember(stack, closure, cells, around.co, *memo, again, pc) {
        Some(more) => {
            *memo = more;
            Some(pc)
        }
        None => pass_between(stack, closure, around, tables, cells, closed, pc),
    }
}

/// Does an instruction that reads what the loop does not, or a CLOSE that has nothing to do, and tells where the frame goes on. `None`, with all as before, at any
/// other instruction.
#[inline(always)]
fn pass_between(
    stack: &mut Stack,
    closure: Closure,
    around: Surroundings,
    tables: &Pool<Table>,
    cells: &Pool<Cell>,
    closed: Option<usize>,
    pc: usize,
) -> Option<usize>
    ghost g: { Running }
    requires runs { RunsWith g (code closure around.strings.now) stack.old tables.now.objects cells.now.objects pc }
    requires closed { IfSome closed (λ register. ClosesNothing g.around cells.now.objects register) }
    requires own { around.co.0 ≡ g.around.context.coroutine }
    requires meta { metatable_number around.string_meta ≡ g.string_metatable }
    ensures goes { IfSome result (λ to. GoesWith g (code closure.entry around.entry.strings.now) stack.old stack.new tables.now.objects cells.now.objects pc to) }
    ensures kept { IfNone result (stack.new ≡ stack.old) }
{
    match read_between(stack, closure, around, tables, cells, pc) {
        Some(to) => Some(to),
        None => pass_close(stack, closure, cells, closed, pc),
    }
}

/// Does an instruction that reads what the loop does not, and tells where the frame goes on. `None`, with all as before, at any other instruction.
#[inline(always)]
fn read_between(
    stack: &mut Stack,
    closure: Closure,
    around: Surroundings,
    tables: &Pool<Table>,
    cells: &Pool<Cell>,
    pc: usize,
) -> Option<usize>
    ghost g: { Running }
    requires runs { RunsWith g (code closure around.strings.now) stack.old tables.now.objects cells.now.objects pc }
    requires own { around.co.0 ≡ g.around.context.coroutine }
    requires meta { metatable_number around.string_meta ≡ g.string_metatable }
    ensures goes { IfSome result (λ to. GoesWith g (code closure.entry around.entry.strings.now) stack.old stack.new tables.now.objects cells.now.objects pc to) }
    ensures kept { IfNone result (stack.new ≡ stack.old) }
{
    let heap = Heap {
        tables,
        strings: around.strings,
        string_meta: around.string_meta,
    };
    match read_open(stack, closure, cells, around.co, pc) {
        Some(to) => Some(to),
        None => read_inherited(stack, closure, heap, pc),
    }
}

/// Some rounds of the loop over instructions: after a GETUPVAL of a variable of a frame below, which is read between two of them, the frame goes on. One that reads very many, as a loop
/// may, goes on where their values are remembered.
#[inline(always)]
pub(crate) fn run_round(
    stack: &mut Stack,
    function: Function,
    around: Surroundings,
    tables: &mut Pool<Table>,
    cells: &mut Pool<Cell>,
    memo: &Memo,
    budget: &mut u64,
    start: usize,
) -> usize
    ghost g: { Running }
    requires runs { RunsAt g (code_in function.object.now function.proto.now around.strings.now) stack.old tables.old.objects cells.old.objects budget.old start }
    requires known { AllHold g.around function.object.now.cells.items cells.old.objects memo.now }
    requires own { around.co.0 ≡ g.around.context.coroutine }
    ensures goes { Advances g stack.old stack.new tables.old.objects tables.new.objects cells.old.objects cells.new.objects budget.old budget.new }
    ensures runs { RunsAt g (code_in function.entry.object.now function.entry.proto.now around.entry.strings.now) stack.new tables.new.objects cells.new.objects budget.new result }
{
    let mut pc = start;
    for round in 0..ROUNDS {
        let at = run_once(
            stack,
            function,
            around.strings,
            tables,
            cells,
            memo,
            budget,
            pc,
        );
        let is_last = round == ROUNDS - 1;
        if is_last {
            return at;
        }
        let closure = closure_of(function);
        let Some(to) = read_open(stack, closure, cells, around.co, at) else {
            return at;
        };
        pc = to;
    }
    pc
}

/// One round of that loop. It needs no limit: between two units of the budget a frame goes ahead in its code.
#[inline(always)]
fn run_once(
    stack: &mut Stack,
    function: Function,
    strings: &Strings,
    tables: &mut Pool<Table>,
    cells: &mut Pool<Cell>,
    memo: &Memo,
    budget: &mut u64,
    start: usize,
) -> usize
    ghost g: { Running }
    requires runs { RunsAt g (code_in function.object.now function.proto.now strings.now) stack.old tables.old.objects cells.old.objects budget.old start }
    requires known { AllHold g.around function.object.now.cells.items cells.old.objects memo.now }
    ensures goes { Advances g stack.old stack.new tables.old.objects tables.new.objects cells.old.objects cells.new.objects budget.old budget.new }
    ensures runs { RunsAt g (code_in function.entry.object.now function.entry.proto.now strings.now) stack.new tables.new.objects cells.new.objects budget.new result }
{
    let closure = closure_of(function);
    let registers = stack.registers_mut();
    let pc = run_frame(
        closure, strings, tables, cells, registers, memo, start, budget,
    );
    stack.set_pc(pc);
    pc
}
