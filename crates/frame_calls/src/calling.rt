// Calls of Lua functions with arguments in registers, which change nothing but the stack (luaD_precall of ldo.c, OP_CALL of lvm.c).
ghost use Rattle.std.specs.Prelude.{◌≡◌, ◌≤◌, IfNone, IfSome, slice_get, true};
ghost use Rattle.code_core.specs.Instruction.{opcode_of};
ghost use Rattle.lua_stack.specs.Frames.{HasLuaTop, HasRegisters, NoneFrom};
ghost use Rattle.frame_calls.specs.Calling.{CallsIn, EntersIn, HasCode, HasShapeIn, HaveCode, HoldsCallee, IsCallee, MayEnter, MayLeave, is_call, one_less, program_of};
ghost use Rattle.frame_calls.specs.Standing.{IsClosedFrom};

use crate::closing::closed_from;
use crate::stop::{Functions, Stop};
use code_core::{Instruction, Opcode};
use lua_heap::Code;
use lua_stack::{GREATEST_DEPTH, Shape, Stack, Wait};
use table_core::{FuncId, Value};

/// A Lua function that is called, and what a call needs to know of its code.
#[derive(Clone, Copy)]
pub(crate) struct LuaFunction {
    pub(crate) id: FuncId,
    pub(crate) shape: Shape,
}

/// A CALL that gives a Lua function its arguments in registers, for a unit of the budget: the function's frame is on top. `None`, with all as before, at any
/// other instruction, and where the call takes more than the stack. What is open or to be closed is looked at here.
#[inline(always)]
pub(crate) fn call_function(stack: &mut Stack, stop: Stop, budget: &mut u64) -> Option<()>
    requires { MayLeave stack.old stop }
    ensures calls { IfSome result (λ _. CallsIn stack.old stack.new stop.entry.size (program_of stop.entry.functions) stop.entry.words.now stop.entry.pc stop.entry.word budget.old budget.new) }
    ensures kept { IfNone result ((stack.new ≡ stack.old) × (budget.new ≡ budget.old)) }
    ensures listed { stack.new.open_cells ≡ stack.old.open_cells }
{
    if !is_call(stop.word) {
        return None;
    }
    let left = budget.checked_sub(1)?;
    let closed = closed_from(stack);
    enter(stack, Stop { closed, ..stop })?;
    *budget = left;
    Some(())
}

/// Enters it, where no cell is open at a register that the frame gives up.
#[inline(always)]
pub(crate) fn enter(stack: &mut Stack, stop: Stop) -> Option<()>
    requires { MayLeave stack.old stop }
    ensures enters { IfSome result (λ _. EntersIn stack.old stack.new stop.entry.size (program_of stop.entry.functions) stop.entry.words.now stop.entry.pc stop.entry.word) }
    ensures kept { IfNone result (stack.new ≡ stack.old) }
    ensures listed { stack.new.open_cells ≡ stack.old.open_cells }
{
    let register = stop.word.a() as usize;
    let given = one_less(stop.word.b())?;
    let callee = enterable(stack, stop, register, given, register, register)?;
    match stack.call_in_place(
        register,
        given,
        Wait::ForCall,
        stop.size,
        callee.id,
        callee.shape,
    ) {
        Ok(()) => Some(()),
        Err(_) => None,
    }
}

/// The Lua function in a register, where it may be entered with the values of so many registers after it over the frame on top, which keeps the registers in front of
/// one: nothing of that frame is open from the register `free` on.
#[inline(always)]
pub(crate) fn enterable(
    stack: &Stack,
    stop: Stop,
    register: usize,
    given: usize,
    keeps: usize,
    free: usize,
) -> Option<LuaFunction>
    requires { MayLeave stack.now stop }
    ensures { IfSome result (λ callee. MayEnter stack.now (program_of stop.entry.functions) stop.entry.size register given keeps free callee) }
{
    // First, while it is at hand whether anything is open.
    if !may_give_up(stack, keeps, stop.size, free, stop.closed) {
        return None;
    }
    if stack.len() >= GREATEST_DEPTH {
        return None;
    }
    let callee = function_in(stack, stop.functions, register, given)?;
    Some(callee)
}

/// The Lua function in a register of the frame on top, where so many registers are after it, with what a call needs to know of its code.
#[inline(always)]
pub(crate) fn function_in(
    stack: &Stack,
    functions: Functions,
    register: usize,
    given: usize,
) -> Option<LuaFunction>
    requires top { HasLuaTop stack.now }
    requires codes { HaveCode (program_of functions) }
    ensures { IfSome result (λ callee. IsCallee stack.now (program_of functions.entry) register given callee) }
{
    let id = callee(stack.registers(), register, given)?;
    let shape = shape_of(functions, id)?;
    Some(LuaFunction { id, shape })
}

/// The Lua function in a register, where so many registers are after it.
#[inline(always)]
pub(crate) fn callee(registers: &[Value], register: usize, given: usize) -> Option<FuncId>
    ensures { IfSome result (λ id. HoldsCallee registers.now register given id) }
{
    let end = register.checked_add(1)?.checked_add(given)?;
    if end > registers.len() {
        return None;
    }
    match register_of(registers, register)? {
        Value::Func(id) => Some(id),
        _ => None,
    }
}

/// The value of a register, where it is there.
#[inline(always)]
pub fn register_of(registers: &[Value], register: usize) -> Option<Value>
    ensures { result ≡ slice_get registers.now register }
{
    registers.get(register).copied()
}

/// What a call needs to know of a function's code.
#[inline(always)]
pub fn shape_of(functions: Functions, id: FuncId) -> Option<Shape>
    requires { HaveCode (program_of functions) }
    ensures { IfSome result (λ shape. HasShapeIn (program_of functions.entry) id shape) }
{
    let code = code_of(functions, id)?;
    if code.params > code.stack {
        return None;
    }
    Some(Shape {
        params: code.params as usize,
        vararg: code.vararg,
        stack: code.stack as usize,
    })
}

/// The code of a function.
#[inline(always)]
pub(crate) fn code_of<'a>(functions: Functions<'a>, id: FuncId) -> Option<&'a Code>
    requires { HaveCode (program_of functions) }
    ensures { IfSome result (λ code. HasCode (program_of functions.entry) id code.now) }
{
    if id.0 >= functions.funcs.len() {
        return None;
    }
    let func = functions.funcs.get(id.0);
    let code = functions.codes.get(func.code);
    Some(code)
}

/// Whether the frame on top may give its registers from one on up: it has all those of its code, and nothing is open from the register `free` on.
#[inline(always)]
pub fn may_give_up(
    stack: &Stack,
    register: usize,
    size: usize,
    free: usize,
    closed: Option<usize>,
) -> bool
    requires top { HasLuaTop stack.now }
    requires closed { IfSome closed (λ register. IsClosedFrom stack.now register) }
    ensures within { result ≡ true → register ≤ size }
    ensures there { result ≡ true → HasRegisters stack.now size }
    ensures closed { result ≡ true → NoneFrom stack.now free }
{
    let Some(first) = closed else {
        return false;
    };
    if first > free {
        return false;
    }
    if register > size {
        return false;
    }
    size <= stack.registers().len()
}

/// One less than a number of values that is counted from one, as instructions count them.
#[inline(always)]
pub(crate) fn one_less(n: u8) -> Option<usize>
    ensures { result ≡ one_less n }
{
    if n == 0 {
        return None;
    }
    Some(n as usize - 1)
}

/// Whether an instruction is a CALL.
#[inline(always)]
pub(crate) fn is_call(i: Instruction) -> bool
    ensures { result ≡ is_call (opcode_of i) }
{
    match i.opcode() {
        Some(Opcode::Call) => true,
        _ => false,
    }
}
