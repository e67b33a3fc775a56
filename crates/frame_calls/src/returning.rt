// Returns to a Lua frame below that waits for a call or a handler and takes at most two values, which change nothing but the stack (luaD_poscall of ldo.c,
// luaV_finishOp of lvm.c).
ghost use Rattle.std.specs.Prelude.{◌≡◌, ◌+◌, ◌<◌, ◌≤◌, length, map, [], ◌∷◌, IfNone, IfSome, Some, slice_get, true};
ghost use Rattle.code_core.specs.Instruction.{b_of, opcode_of};
ghost use Rattle.int_core.specs.Value.{range, write_all};
ghost use Rattle.lua_stack.specs.Frames.{HasLuaTop, HasRegisters, NoneFrom, TopBecomes, with_registers};
ghost use Rattle.table_core.specs.declared.value.Value.TheVariants.{Nil};
ghost use Rattle.lua_stack.specs.declared.frame.Wait.TheVariants.{Dropped, ForCall, ForIterator, ForValue};
ghost use Rattle.frame_calls.specs.Arguments.{IsInFront};
ghost use Rattle.frame_calls.specs.Calling.{HaveCode, MayLeave, program_of};
ghost use Rattle.frame_calls.specs.Returning.{AreFirst, GivesBack, HandsBack, HasBelow, HasKept, IsCaller, IsGiven, IsTaker, IsTakerBelow, ReadsAt, TakesIn, Wants, WantsAnywhere, count_of, is_operator, taken};
ghost use Rattle.frame_calls.specs.Standing.{IsClosedFrom};

use crate::calling::{code_of, is_call, one_less, register_of};
use crate::stop::{Functions, Stop};
use code_core::{Instruction, Opcode, fetch};
use lua_stack::{LuaState, Stack, Wait};
use table_core::Value;

/// What the instruction wants at which a frame waits: at most two values, in registers, and where it goes on.
#[derive(Clone, Copy, Debug)]
pub struct Taker {
    pub register: usize,
    pub count: usize,
    pub to: usize,
}

/// The first two values that come to it, nil where there are fewer.
#[derive(Clone, Copy, Debug)]
pub struct Given {
    pub first: Value,
    pub second: Value,
}

/// The return of so many values, from the register that the instruction names, to a Lua frame whose CALL or TFORCALL wants at most two, or that waits for a handler of
/// a value, an operator or a store: that frame runs again, after its instruction. `None`, with all as before, where more are wanted, and where the return takes more
/// than the stack.
#[inline(always)]
pub(crate) fn return_counted(stack: &mut Stack, stop: Stop, count: usize) -> Option<()>
    requires may { MayLeave stack.old stop }
    requires closed { IsClosedFrom stack.old 0 }
    ensures gives { IfSome result (λ _. GivesBack stack.old stack.new (program_of stop.entry.functions) stop.entry.word count) }
    ensures kept { IfNone result (stack.new ≡ stack.old) }
    ensures listed { stack.new.open_cells ≡ stack.old.open_cells }
{
    let taker = taker_below(stack, stop.functions)?;
    hand_back(stack, stop.word.a() as usize, count, taker)
}

/// The return of one value to a frame that wants one, as most returns are: the value is read and written as it stands.
#[inline(always)]
pub(crate) fn return_single(stack: &mut Stack, stop: Stop) -> Option<()>
    requires may { MayLeave stack.old stop }
    requires closed { IsClosedFrom stack.old 0 }
    ensures gives { IfSome result (λ _. GivesBack stack.old stack.new (program_of stop.entry.functions) stop.entry.word 1) }
    ensures kept { IfNone result (stack.new ≡ stack.old) }
    ensures listed { stack.new.open_cells ≡ stack.old.open_cells }
{
    let register = stop.word.a() as usize;
    let registers = stack.registers();
    if register >= registers.len() {
        return None;
    }
    let value = value_in(registers, register);
    let taker = taker_below(stack, stop.functions)?;
    let one = wants_one(taker);
    if !one {
        return None;
    }
    stack.pop();
    give(stack, taker, value);
    Some(())
}

/// The frame on top is gone, and the one below gets what it wants of so many of its values, from a register on.
#[inline(always)]
pub(crate) fn hand_back(
    stack: &mut Stack,
    register: usize,
    count: usize,
    taker: Taker,
) -> Option<()>
    requires top { HasLuaTop stack.old }
    requires closed { NoneFrom stack.old 0 }
    requires few { taker.count ≤ 2 }
    requires below { HasBelow stack.old (taker.register + taker.count) }
    ensures back { IfSome result (λ _. HandsBack stack.old stack.new register count taker) }
    ensures kept { IfNone result (stack.new ≡ stack.old) }
    ensures listed { stack.new.open_cells ≡ stack.old.open_cells }
{
    let given = returned_from(stack.registers(), register, count)?;
    stack.pop();
    hand(stack, taker, given);
    Some(())
}

/// The value of a register that is there.
#[inline(always)]
fn value_in(registers: &[Value], register: usize) -> Value
    requires { register < length registers.now }
    ensures { slice_get registers.now register ≡ Some result }
{
    registers[register]
}

/// Whether one value is wanted.
#[inline(always)]
fn wants_one(taker: Taker) -> bool
    ensures { result ≡ true → taker.count ≡ 1 }
{
    taker.count == 1
}

/// The Lua frame on top gets the one value that it wants, and runs on.
#[inline(always)]
fn give(stack: &mut Stack, wants: Taker, value: Value)
    requires one { wants.count ≡ 1 }
    requires room { HasKept stack.old (wants.register + wants.count) }
    ensures { TopBecomes stack.old stack.new (λ f t. taken wants (f value) (f Nil) t) }
{
    stack.set(wants.register, value);
    stack.set_wait(Wait::Running);
    stack.set_pc(wants.to);
}

/// How many values an instruction returns, where it says so.
#[inline(always)]
pub(crate) fn count_returned(i: Instruction) -> Option<usize>
    ensures { result ≡ count_of (opcode_of i) (b_of i) }
{
    match i.opcode() {
        Some(Opcode::Return) => one_less(i.b()),
        Some(Opcode::Return0) => Some(0),
        Some(Opcode::Return1) => Some(1),
        _ => None,
    }
}

/// Whether nothing of the frame on top is open or to be closed, by what is known of it.
#[inline(always)]
pub(crate) fn is_closed(stack: &Stack, closed: Option<usize>) -> bool
    requires { IfSome closed (λ register. IsClosedFrom stack.now register) }
    ensures { result ≡ true → IsClosedFrom stack.now 0 }
{
    match closed {
        Some(register) => register == 0,
        None => false,
    }
}

/// The first two of the values of `count` registers.
#[inline(always)]
pub(crate) fn returned_from(registers: &[Value], register: usize, count: usize) -> Option<Given>
    ensures { IfSome result (λ g. IsGiven registers.now register count g) }
{
    if count == 0 {
        return Some(Given {
            first: Value::Nil,
            second: Value::Nil,
        });
    }
    let end = register.checked_add(count)?;
    if end > registers.len() {
        return None;
    }
    let first = register_of(registers, register)?;
    if count == 1 {
        return Some(Given {
            first,
            second: Value::Nil,
        });
    }
    let second = second_of(registers, register)?;
    Some(Given { first, second })
}

/// The value of the register after one.
pub fn second_of(registers: &[Value], register: usize) -> Option<Value>
    ensures { IfSome result (λ v. slice_get registers.now (register + 1) ≡ Some v) }
{
    let next = register.checked_add(1)?;
    register_of(registers, next)
}

/// What the frame below wants, where it is a Lua frame that takes at most two values.
#[inline(always)]
fn taker_below(stack: &Stack, functions: Functions) -> Option<Taker>
    requires { HaveCode (program_of functions) }
    ensures { IfSome result (λ t. IsTakerBelow stack.now (λ c. TakesIn (program_of functions.entry) c t)) }
{
    let caller = caller_of(stack)?;
    let taker = taker_of(functions, caller)?;
    Some(taker)
}

/// The frame below, where it is a Lua frame.
#[inline(always)]
pub(crate) fn caller_of(stack: &Stack) -> Option<LuaState>
    ensures { IfSome result (λ c. IsCaller stack.now c) }
{
    stack.below_top()
}

/// What a frame that waits wants.
#[inline(always)]
pub fn taker_of(functions: Functions, caller: LuaState) -> Option<Taker>
    requires { HaveCode (program_of functions) }
    ensures { IfSome result (λ t. TakesIn (program_of functions.entry) caller t) }
{
    let code = code_of(functions, caller.function)?;
    taker_in(&code.words, caller)
}

/// What the instruction at its place in these instructions wants.
#[inline(always)]
fn taker_in(words: &[Instruction], caller: LuaState) -> Option<Taker>
    ensures { IfSome result (λ t. IsTaker words.now caller t) }
{
    let to = caller.pc.checked_add(1)?;
    if to >= words.len() {
        return None;
    }
    let taker = wanted(words, caller.pc, fetch(words, caller.pc), caller.wait, to)?;
    if taker.count > 2 {
        return None;
    }
    let end = taker.register.checked_add(taker.count)?;
    if end > caller.size {
        return None;
    }
    Some(taker)
}

/// What the instruction at a place wants at which a frame waits so.
#[inline(always)]
fn wanted(words: &[Instruction], pc: usize, i: Instruction, wait: Wait, to: usize) -> Option<Taker>
    requires { pc < length words.now }
    ensures { IfSome result (λ t. Wants words.now pc i t wait × (t.to ≡ to)) }
{
    match wait {
        Wait::ForCall => wanted_by_call(i, to),
        _ => wanted_otherwise(words, pc, i, wait, to),
    }
}

/// What it wants where the frame waits for no call. Only what is called here is out of line: else the wait would be put into memory for each return.
#[inline(always)]
fn wanted_otherwise(
    words: &[Instruction],
    pc: usize,
    i: Instruction,
    wait: Wait,
    to: usize,
) -> Option<Taker>
    requires { pc < length words.now }
    ensures { IfSome result (λ t. Wants words.now pc i t wait × (t.to ≡ to)) }
{
    match wait {
        Wait::ForIterator => wanted_by_iterator(i, to),
        Wait::ForValue => wanted_by_handler(words, pc, i, to),
        Wait::Dropped => wanted_by_store(i, to),
        _ => None,
    }
}

/// What a CALL wants.
#[inline(always)]
fn wanted_by_call(i: Instruction, to: usize) -> Option<Taker>
    ensures { IfSome result (λ t. WantsAnywhere i t ForCall × (t.to ≡ to)) }
{
    if !is_call(i) {
        return None;
    }
    let count = one_less(i.c())?;
    Some(Taker {
        register: i.a() as usize,
        count,
        to,
    })
}

/// What a TFORCALL wants.
#[inline(never)]
fn wanted_by_iterator(i: Instruction, to: usize) -> Option<Taker>
    ensures { IfSome result (λ t. WantsAnywhere i t ForIterator × (t.to ≡ to)) }
{
    match i.opcode() {
        Some(Opcode::TForCall) => Some(Taker {
            register: i.a() as usize + 4,
            count: i.c() as usize,
            to,
        }),
        _ => None,
    }
}

/// What an instruction wants to which a handler gives its value.
#[inline(never)]
fn wanted_by_handler(words: &[Instruction], pc: usize, i: Instruction, to: usize) -> Option<Taker>
    requires { pc < length words.now }
    ensures { IfSome result (λ t. Wants words.now pc i t ForValue × (t.to ≡ to)) }
{
    let opcode = i.opcode()?;
    if is_operator(opcode) {
        return wanted_by_operator(words, pc, i, opcode, to);
    }
    Some(Taker {
        register: i.a() as usize,
        count: 1,
        to,
    })
}

/// What an operator wants.
fn wanted_by_operator(
    words: &[Instruction],
    pc: usize,
    i: Instruction,
    opcode: Opcode,
    to: usize,
) -> Option<Taker>
    requires near { pc < length words.now }
    requires opcode { opcode_of i ≡ Some opcode }
    requires operator { is_operator opcode ≡ true }
    ensures { IfSome result (λ t. Wants words.now pc i t ForValue × (t.to ≡ to)) }
{
    let before = in_front(words, pc)?;
    Some(Taker {
        register: before.a() as usize,
        count: 1,
        to,
    })
}

/// What a store wants whose handler was called.
#[inline(never)]
fn wanted_by_store(i: Instruction, to: usize) -> Option<Taker>
    ensures { IfSome result (λ t. WantsAnywhere i t Dropped × (t.to ≡ to)) }
{
    let opcode = i.opcode()?;
    if !is_store(opcode) {
        return None;
    }
    Some(Taker {
        register: 0,
        count: 0,
        to,
    })
}

/// Whether it writes a field.
fn is_store(opcode: Opcode) -> bool {
    match opcode {
        Opcode::SetTabUp | Opcode::SetTable | Opcode::SetI | Opcode::SetField => true,
        _ => false,
    }
}

/// Whether it is an operator whose operands are no integers.
fn is_operator(opcode: Opcode) -> bool
    ensures { result ≡ is_operator opcode }
{
    match opcode {
        Opcode::MmBin | Opcode::MmBinI | Opcode::MmBinK => true,
        _ => false,
    }
}

/// The instruction before a place.
pub(crate) fn in_front(words: &[Instruction], pc: usize) -> Option<Instruction>
    requires { pc < length words.now }
    ensures { IfSome result (λ before. IsInFront words.now pc before) }
{
    if pc == 0 {
        return None;
    }
    Some(fetch(words, pc - 1))
}

/// The Lua frame on top gets what it wants, and runs on.
#[inline(always)]
pub fn hand(stack: &mut Stack, taker: Taker, given: Given)
    requires few { taker.count ≤ 2 }
    requires room { HasKept stack.old (taker.register + taker.count) }
    ensures { TopBecomes stack.old stack.new (λ f t. taken taker (f given.first) (f given.second) t) }
{
    put(stack, taker, given);
    stack.set_wait(Wait::Running);
    stack.set_pc(taker.to);
}

/// Puts the values where they are wanted.
fn put(stack: &mut Stack, taker: Taker, given: Given)
    requires few { taker.count ≤ 2 }
    requires room { HasRegisters stack.old (taker.register + taker.count) }
    ensures { TopBecomes stack.old stack.new (λ f t. with_registers (write_all taker.register (range 0 taker.count (f given.first ∷ f given.second ∷ [])) t.own.registers) t) }
{
    if taker.count == 0 {
        return;
    }
    if taker.count == 1 {
        stack.set(taker.register, given.first);
        return;
    }
    stack.write_registers(taker.register, &[given.first, given.second]);
}

/// The first two of some values, nil where there are fewer.
pub fn first_two(values: &[Value]) -> Given
    ensures { AreFirst (λ f. map f values.now) result }
{
    let first = value_or_nil(values, 0);
    let second = value_or_nil(values, 1);
    Given { first, second }
}

/// The value at a place, or nil.
fn value_or_nil(values: &[Value], at: usize) -> Value
    ensures { ReadsAt values.now at result }
{
    match register_of(values, at) {
        Some(value) => value,
        None => Value::Nil,
    }
}
