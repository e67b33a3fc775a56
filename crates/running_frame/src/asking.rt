// Reads and operators whose handler is a Lua function, which is called over the frame that asks for it (luaT_callTMres of ltm.c; Lua 5.4 manual, 2.4).
ghost use Rattle.std.specs.Prelude.{◌≡◌, ◌≤◌, ◌-◌, IfNone, IfSome, Some, [], ◌∷◌, option_map, slice_get, suc, true};
ghost use Rattle.code_core.specs.Instruction.{a_of, b_of, c_of, opcode_of};
ghost use Rattle.int_core.specs.Operations.{arithmetic as computes, does};
ghost use Rattle.lua_heap.specs.Reading.{value};
ghost use Rattle.lua_stack.specs.Frames.{HasLuaTop};
ghost use Rattle.table_core.specs.declared.value.Value.TheVariants.{Func as a_func};
ghost use Rattle.machine_core.specs.InstructionRows.{event_numbered};
ghost use Rattle.meta_ops.specs.Events.{event_of};
ghost use Rattle.meta_ops.specs.Heap.{IsThere, heap_of};
ghost use Rattle.meta_ops.specs.Outcome.{settled};
ghost use Rattle.running_frame.specs.Asking.{AsksFor, AsksOver, EntersOver, IsAsked, Names, ReadSame, handled_events, operation_at, operation_of};
ghost use Rattle.frame_calls.specs.Calling.{MayLeave, program_of};
ghost use Rattle.running_frame.specs.Inheriting.{metatable_number};

use code_core::{Instruction, Opcode};
use frame_calls::{Stop, register_of, shape_of};
use lua_stack::{GREATEST_DEPTH, Shape, Stack, Wait};
use meta_ops::{Event, Heap, Outcome, arithmetic, index_of};
use table_core::{FuncId, Value};

/// The operators whose handlers MMBIN asks for, from the number of `__add` on, each where its number is (ltm.h of Lua 5.4). Two are of floats, and stand for none.
const EVENTS: [Event; 12] = [
    Event::Add,
    Event::Sub,
    Event::Mul,
    Event::Mod,
    Event::Add,
    Event::Add,
    Event::IDiv,
    Event::BAnd,
    Event::BOr,
    Event::BXor,
    Event::Shl,
    Event::Shr,
];

/// What a handler may be asked for: the field of an object at a key, or what an operator gives.
#[derive(Clone, Copy, Debug)]
pub(crate) enum Kind {
    Read,
    Operator(Event),
}

/// An object and a key, or the two operands of an operator.
#[derive(Clone, Copy, Debug)]
pub(crate) struct Field {
    object: Value,
    key: Value,
}

/// A function that is a handler, and the object for which it is called.
#[derive(Clone, Copy, Debug)]
pub(crate) struct Handler {
    id: FuncId,
    first: Value,
}

/// What is called: a function with these two arguments.
#[derive(Clone, Copy)]
pub(crate) struct Asked {
    id: FuncId,
    shape: Shape,
    first: Value,
    key: Value,
}

/// GETTABLE, GETFIELD or MMBIN, where a Lua function is asked for the value: for a unit of the budget the function's frame is on top, and the frame that asks waits
/// for its value. `None` at any other instruction, and where the call takes more than the stack: all reads as before.
pub(crate) fn ask_over(
    stack: &mut Stack,
    stop: Stop,
    constants: &[Value],
    heap: Heap,
    budget: &mut u64,
) -> Option<()>
    requires { MayLeave stack.old stop }
    ensures asks { IfSome result (λ _. AsksOver stack.old stack.new heap.entry.strings.now constants.now heap.entry.tables.now.objects (metatable_number heap.entry.string_meta) (program_of stop.entry.functions) stop.entry.word budget.old budget.new) }
    ensures kept { IfNone result (ReadSame stack.old stack.new × (budget.new ≡ budget.old)) }
    ensures listed { stack.new.open_cells ≡ stack.old.open_cells }
{
    match call_asked(stack, stop, constants, heap) {
        Some(call) => pay_for(stack, budget, call),
        None => None,
    }
}

/// What is called for a read or an operator.
fn call_asked(stack: &Stack, stop: Stop, constants: &[Value], heap: Heap) -> Option<Asked>
    requires { MayLeave stack.now stop }
    ensures { IfSome result (λ call. IsAsked stack.now heap.entry.strings.now constants.now heap.entry.tables.now.objects (metatable_number heap.entry.string_meta) (program_of stop.entry.functions) stop.entry.word call) }
{
    if stack.len() >= GREATEST_DEPTH {
        return None;
    }
    let field = field_named(stack.registers(), constants, stop.word)?;
    let kind = kind_of(stop.word)?;
    let handler = handler_asked(heap, kind, field.object, field.key)?;
    let shape = shape_of(stop.functions, handler.id)?;
    Some(Asked {
        id: handler.id,
        shape,
        first: handler.first,
        key: field.key,
    })
}

/// The two values that an instruction names.
fn field_named(registers: &[Value], constants: &[Value], i: Instruction) -> Option<Field>
    ensures { IfSome result (λ field. Names registers.now constants.now i field.object field.key (opcode_of i)) }
{
    match i.opcode() {
        Some(Opcode::GetTable) => field_by_register(registers, i),
        Some(Opcode::GetField) => field_by(registers, constants, i),
        Some(Opcode::MmBin) => operands_of(registers, i),
        _ => None,
    }
}

/// R[A] and R[B].
fn operands_of(registers: &[Value], i: Instruction) -> Option<Field>
    ensures object { IfSome result (λ field. slice_get registers.now (a_of i) ≡ Some field.object) }
    ensures key { IfSome result (λ field. slice_get registers.now (b_of i) ≡ Some field.key) }
{
    let object = register_of(registers, i.a() as usize)?;
    let key = register_of(registers, i.b() as usize)?;
    Some(Field { object, key })
}

/// What an instruction asks for.
fn kind_of(i: Instruction) -> Option<Kind>
    ensures { IfSome result (λ kind. operation_at (opcode_of i) (c_of i) ≡ Some (operation_of kind)) }
{
    match i.opcode() {
        Some(Opcode::GetTable) => Some(Kind::Read),
        Some(Opcode::GetField) => Some(Kind::Read),
        Some(Opcode::MmBin) => operator_of(i),
        _ => None,
    }
}

/// The operator that an MMBIN tells.
fn operator_of(i: Instruction) -> Option<Kind>
    ensures { IfSome result (λ kind. option_map computes (event_numbered (c_of i)) ≡ Some (operation_of kind)) }
{
    let number = usize::from(i.c());
    let event = event_at(number)?;
    Some(Kind::Operator(event))
}

/// The event of a number.
fn event_at(number: usize) -> Option<Event>
    ensures { result ≡ slice_get handled_events (number - 6) }
{
    EVENTS.get(number.saturating_sub(6)).copied()
}

/// The field R[B] at the key R[C].
fn field_by_register(registers: &[Value], i: Instruction) -> Option<Field>
    ensures object { IfSome result (λ field. slice_get registers.now (b_of i) ≡ Some field.object) }
    ensures key { IfSome result (λ field. slice_get registers.now (c_of i) ≡ Some field.key) }
{
    field_by(registers, registers, i)
}

/// The field R[B] at the key that stands at place C of a list.
fn field_by(registers: &[Value], keys: &[Value], i: Instruction) -> Option<Field>
    ensures object { IfSome result (λ field. slice_get registers.now (b_of i) ≡ Some field.object) }
    ensures key { IfSome result (λ field. slice_get keys.now (c_of i) ≡ Some field.key) }
{
    let object = register_of(registers, i.b() as usize)?;
    let key = register_of(keys, i.c() as usize)?;
    Some(Field { object, key })
}

/// The Lua function that is asked for a field or for what an operator gives.
fn handler_asked(heap: Heap, kind: Kind, object: Value, key: Value) -> Option<Handler>
    ensures { IfSome result (λ handler. AsksFor heap.entry.strings.now heap.entry.tables.now.objects (metatable_number heap.entry.string_meta) (operation_of kind) object key handler.id handler.first) }
{
    let outcome = settled_by(heap, kind, object, key)?;
    match outcome {
        Outcome::Ask { handler, first } => handler_by(handler, first),
        _ => None,
    }
}

/// What the operation comes to. None is said of an operator on other values than integers and tables.
fn settled_by(heap: Heap, kind: Kind, left: Value, right: Value) -> Option<Outcome>
    ensures { IfSome result (λ o. does (operation_of kind) (value heap.entry.strings.now left ∷ value heap.entry.strings.now right ∷ []) (heap_of heap.entry) ≡ settled heap.entry.strings.now (heap_of heap.entry) (value heap.entry.strings.now right ∷ []) o) }
{
    match kind {
        Kind::Read => Some(index_of(heap, left, right)),
        Kind::Operator(event) => operated(heap, event, left, right),
    }
}

/// What an operator comes to.
fn operated(heap: Heap, event: Event, left: Value, right: Value) -> Option<Outcome>
    ensures { IfSome result (λ o. does (computes (event_of event)) (value heap.entry.strings.now left ∷ value heap.entry.strings.now right ∷ []) (heap_of heap.entry) ≡ settled heap.entry.strings.now (heap_of heap.entry) (value heap.entry.strings.now right ∷ []) o) }
{
    if !is_there(heap, left) {
        return None;
    }
    if !is_there(heap, right) {
        return None;
    }
    Some(arithmetic(heap, event, left, right))
}

/// Whether it is an integer or a table.
fn is_there(heap: Heap, v: Value) -> bool
    ensures { result ≡ true → IsThere heap.entry v }
{
    match v {
        Value::Int(_) => true,
        Value::Table(id) => id.0 < heap.tables.len(),
        _ => false,
    }
}

/// A handler that is a Lua function.
fn handler_by(handler: Value, first: Value) -> Option<Handler>
    ensures id { IfSome result (λ found. handler ≡ a_func found.id) }
    ensures object { IfSome result (λ found. found.first ≡ first) }
{
    match handler {
        Value::Func(id) => Some(Handler { id, first }),
        _ => None,
    }
}

/// Enters the function, where the budget is not spent.
fn pay_for(stack: &mut Stack, budget: &mut u64, call: Asked) -> Option<()>
    requires top { HasLuaTop stack.old }
    requires params { call.shape.params ≤ call.shape.stack }
    ensures pays { IfSome result (λ _. budget.old ≡ suc budget.new) }
    ensures enters { IfSome result (λ _. EntersOver stack.old stack.new call) }
    ensures kept { IfNone result (ReadSame stack.old stack.new × (budget.new ≡ budget.old)) }
    ensures listed { stack.new.open_cells ≡ stack.old.open_cells }
{
    let was = *budget;
    if was == 0 {
        return None;
    }
    match enter_over(stack, call) {
        Some(()) => {
            *budget = was - 1;
            Some(())
        }
        None => None,
    }
}

/// Enters the function over the frame on top, which waits for its value.
fn enter_over(stack: &mut Stack, call: Asked) -> Option<()>
    requires top { HasLuaTop stack.old }
    requires params { call.shape.params ≤ call.shape.stack }
    ensures enters { IfSome result (λ _. EntersOver stack.old stack.new call) }
    ensures kept { IfNone result (ReadSame stack.old stack.new) }
    ensures listed { stack.new.open_cells ≡ stack.old.open_cells }
{
    stack.set_wait(Wait::ForValue);
    match stack.enter(call.id, call.shape, &[call.first, call.key]) {
        Ok(()) => Some(()),
        Err(_) => {
            stack.set_wait(Wait::Running);
            None
        }
    }
}
