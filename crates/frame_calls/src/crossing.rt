// Calls of Lua functions, returns from them and extra arguments, which most frames stop at (OP_CALL, OP_TAILCALL, OP_TFORCALL, OP_RETURN, OP_RETURN0, OP_RETURN1 and
// OP_VARARG of lvm.c).
ghost use Rattle.std.specs.Prelude.{◌≡◌, IfNone, IfSome};
ghost use Rattle.code_core.specs.Instruction.{b_of, opcode_of};
ghost use Rattle.lua_stack.specs.Frames.{HasLuaTop};
ghost use Rattle.frame_calls.specs.Calling.{EntersIn, MayLeave, program_of};
ghost use Rattle.frame_calls.specs.Crossing.{CrossesAt, EntersAt, LeavesAt};
ghost use Rattle.frame_calls.specs.Listing.{WritesVarargs};
ghost use Rattle.frame_calls.specs.Returning.{ReturnsIn, said_of};

use crate::calling::{call_function, callee, enter, one_less};
use crate::closing::{closed_from, is_bare};
use crate::iterating::iterate;
use crate::listing::write_varargs;
use crate::opening::return_list;
use crate::returning::{count_returned, is_closed, return_counted, return_single};
use crate::spreading::{enter_with_list, is_list_return, return_open};
use crate::stop::Stop;
use crate::tail_calling::replace;
use code_core::{Instruction, Opcode};
use lua_stack::Stack;

/// A call of a Lua function, over the frame on top or in its place, for a unit of the budget, a return to a Lua frame below, or a VARARG, at which the frame on top
/// stops. `None`, with all as before, at any other instruction, and where it takes more than the stack. What is open or to be closed is looked at here, where that
/// has to be known.
#[inline(always)]
pub fn cross_over_at(stack: &mut Stack, stop: Stop, budget: &mut u64) -> Option<()>
    requires { MayLeave stack.old stop }
    ensures crosses { IfSome result (λ _. CrossesAt stack.old stack.new stop.entry budget.old budget.new) }
    ensures kept { IfNone result ((stack.new ≡ stack.old) × (budget.new ≡ budget.old)) }
    ensures listed { stack.new.open_cells ≡ stack.old.open_cells }
{
    match call_function(stack, stop, budget) {
        Some(()) => Some(()),
        None => return_at(stack, stop, budget),
    }
}

/// What is no CALL with counted arguments: most often a return of values that are counted.
#[inline(always)]
fn return_at(stack: &mut Stack, stop: Stop, budget: &mut u64) -> Option<()>
    requires { MayLeave stack.old stop }
    ensures crosses { IfSome result (λ _. CrossesAt stack.old stack.new stop.entry budget.old budget.new) }
    ensures kept { IfNone result ((stack.new ≡ stack.old) × (budget.new ≡ budget.old)) }
    ensures listed { stack.new.open_cells ≡ stack.old.open_cells }
{
    match return_one(stack, stop) {
        Some(()) => Some(()),
        None => cross_otherwise(stack, stop, budget),
    }
}

/// One of the rest. The opcode is looked at here, so that at all other instructions nothing is called.
#[inline(always)]
fn cross_otherwise(stack: &mut Stack, stop: Stop, budget: &mut u64) -> Option<()>
    requires { MayLeave stack.old stop }
    ensures crosses { IfSome result (λ _. CrossesAt stack.old stack.new stop.entry budget.old budget.new) }
    ensures kept { IfNone result ((stack.new ≡ stack.old) × (budget.new ≡ budget.old)) }
    ensures listed { stack.new.open_cells ≡ stack.old.open_cells }
{
    if is_vararg(stop.word) {
        return write_there(stack, stop.words, stop.pc, stop.word);
    }
    if !may_cross(stack, stop.word) {
        return None;
    }
    // A copy, so that only here it stands in memory.
    let there = stop;
    cross_there(stack, &there, budget)
}

/// A VARARG, for which nothing has to be known of what is open.
#[inline(never)]
fn write_there(stack: &mut Stack, words: &[Instruction], pc: usize, i: Instruction) -> Option<()>
    requires { HasLuaTop stack.old }
    ensures writes { IfSome result (λ _. WritesVarargs stack.old stack.new words.now pc i) }
    ensures kept { IfNone result (stack.new ≡ stack.old) }
    ensures listed { stack.new.open_cells ≡ stack.old.open_cells }
{
    write_varargs(stack, words, pc, i)
}

/// Does so, with what is open found first.
#[inline(never)]
fn cross_there(stack: &mut Stack, stop: &Stop, budget: &mut u64) -> Option<()>
    requires { MayLeave stack.old stop.now }
    ensures crosses { IfSome result (λ _. CrossesAt stack.old stack.new stop.now budget.old budget.new) }
    ensures kept { IfNone result ((stack.new ≡ stack.old) × (budget.new ≡ budget.old)) }
    ensures listed { stack.new.open_cells ≡ stack.old.open_cells }
{
    let closed = closed_from(stack);
    cross(stack, Stop { closed, ..*stop }, budget)
}

/// The same where it is known what is open: a call of a Lua function, over the frame on top or in its place, for a unit of the budget, a return to a Lua frame below, or
/// a VARARG. `None`, with all as before, at any other instruction, and where it takes more than the stack.
#[inline(always)]
pub fn cross(stack: &mut Stack, stop: Stop, budget: &mut u64) -> Option<()>
    requires { MayLeave stack.old stop }
    ensures crosses { IfSome result (λ _. CrossesAt stack.old stack.new stop.entry budget.old budget.new) }
    ensures kept { IfNone result ((stack.new ≡ stack.old) × (budget.new ≡ budget.old)) }
    ensures listed { stack.new.open_cells ≡ stack.old.open_cells }
{
    match stop.word.opcode() {
        Some(Opcode::Call) => call_paid(stack, stop, budget),
        Some(Opcode::TailCall) => call_paid(stack, stop, budget),
        Some(Opcode::TForCall) => call_paid(stack, stop, budget),
        Some(Opcode::VarArg) => write_varargs(stack, stop.words, stop.pc, stop.word),
        _ => return_back(stack, stop),
    }
}

/// A call, for a unit of the budget.
fn call_paid(stack: &mut Stack, stop: Stop, budget: &mut u64) -> Option<()>
    requires { MayLeave stack.old stop }
    ensures crosses { IfSome result (λ _. CrossesAt stack.old stack.new stop.entry budget.old budget.new) }
    ensures kept { IfNone result ((stack.new ≡ stack.old) × (budget.new ≡ budget.old)) }
    ensures listed { stack.new.open_cells ≡ stack.old.open_cells }
{
    let left = budget.checked_sub(1)?;
    enter_called(stack, stop)?;
    *budget = left;
    Some(())
}

/// Enters the function that is called.
fn enter_called(stack: &mut Stack, stop: Stop) -> Option<()>
    requires { MayLeave stack.old stop }
    ensures enters { IfSome result (λ _. EntersAt stack.old stack.new stop.entry) }
    ensures kept { IfNone result (stack.new ≡ stack.old) }
    ensures listed { stack.new.open_cells ≡ stack.old.open_cells }
{
    match stop.word.opcode() {
        Some(Opcode::Call) => enter_over(stack, stop),
        Some(Opcode::TailCall) => replace(stack, stop),
        Some(Opcode::TForCall) => iterate(stack, stop),
        _ => None,
    }
}

/// Enters it over the frame on top, with the values of an open list or with so many as the instruction says.
fn enter_over(stack: &mut Stack, stop: Stop) -> Option<()>
    requires { MayLeave stack.old stop }
    ensures enters { IfSome result (λ _. EntersIn stack.old stack.new stop.entry.size (program_of stop.entry.functions) stop.entry.words.now stop.entry.pc stop.entry.word) }
    ensures kept { IfNone result (stack.new ≡ stack.old) }
    ensures listed { stack.new.open_cells ≡ stack.old.open_cells }
{
    if stop.word.b() == 0 {
        return enter_with_list(stack, stop);
    }
    enter(stack, stop)
}

/// A return from a frame of which nothing is open or to be closed: of all values of an open list, or of so many as the instruction says.
fn return_back(stack: &mut Stack, stop: Stop) -> Option<()>
    requires { MayLeave stack.old stop }
    ensures returns { IfSome result (λ _. LeavesAt stack.old stack.new stop.entry) }
    ensures kept { IfNone result (stack.new ≡ stack.old) }
    ensures listed { stack.new.open_cells ≡ stack.old.open_cells }
{
    if !is_closed(stack, stop.closed) {
        return None;
    }
    if is_list_return(stop.word) {
        return return_open(stack, stop);
    }
    let count = count_returned(stop.word)?;
    match return_counted(stack, stop, count) {
        Some(()) => Some(()),
        None => return_list(stack, stop, count),
    }
}

/// Whether an instruction may be a call of a Lua function, over the frame or in its place, or of an iterator, or a return, which may open a list or give one.
#[inline(always)]
fn may_cross(stack: &Stack, i: Instruction) -> bool
    requires { HasLuaTop stack.now }
{
    match i.opcode() {
        Some(Opcode::Call) => names_function(stack, i),
        Some(Opcode::TailCall) => names_function(stack, i),
        Some(Opcode::TForCall) => names_function(stack, i),
        _ => may_return(stack, i),
    }
}

/// Whether it is a VARARG.
#[inline(always)]
fn is_vararg(i: Instruction) -> bool {
    match i.opcode() {
        Some(Opcode::VarArg) => true,
        _ => false,
    }
}

/// Whether what a call names is a Lua function: most often it is one of the libraries where it comes to this.
#[inline(always)]
fn names_function(stack: &Stack, i: Instruction) -> bool
    requires { HasLuaTop stack.now }
{
    match callee(stack.registers(), i.a() as usize, 0) {
        Some(_) => true,
        None => false,
    }
}

/// A RETURN from a frame of which nothing is open: of one value to a frame that wants one, or of none or two.
#[inline(always)]
fn return_one(stack: &mut Stack, stop: Stop) -> Option<()>
    requires { MayLeave stack.old stop }
    ensures returns { IfSome result (λ _. ReturnsIn stack.old stack.new (program_of stop.entry.functions) stop.entry.word) }
    ensures kept { IfNone result (stack.new ≡ stack.old) }
    ensures listed { stack.new.open_cells ≡ stack.old.open_cells }
{
    let count = count_said(stop.word)?;
    if !is_bare(stack) {
        return None;
    }
    if count == 1 {
        return return_single(stack, stop);
    }
    return_counted(stack, stop, count)
}

/// How many values a RETURN returns, where it says so. The compiler writes no other opcode for returns.
#[inline(always)]
fn count_said(i: Instruction) -> Option<usize>
    ensures { result ≡ said_of (opcode_of i) (b_of i) }
{
    match i.opcode() {
        Some(Opcode::Return) => one_less(i.b()),
        _ => None,
    }
}

/// Whether it is a return from a frame of which nothing is open or to be closed: any other return takes more than the stack.
#[inline(always)]
fn may_return(stack: &Stack, i: Instruction) -> bool
    requires { HasLuaTop stack.now }
{
    if !is_return(i) {
        return false;
    }
    is_bare(stack)
}

/// Whether it is a return.
#[inline(always)]
fn is_return(i: Instruction) -> bool {
    match i.opcode() {
        Some(Opcode::Return) => true,
        Some(Opcode::Return0) => true,
        Some(Opcode::Return1) => true,
        _ => false,
    }
}
