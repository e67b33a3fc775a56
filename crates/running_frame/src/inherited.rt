// Fields that handlers of `__index` lead to without a call, where the loop over instructions does not follow them: methods of strings (luaV_finishget of lvm.c;
// Lua 5.4 manual, 2.4).
ghost use Rattle.std.specs.Prelude.{◌≡◌, ◌+◌, ◌<◌, IfNone, IfSome, Some, length, slice_get, true};
ghost use Rattle.machine_arms_tables.specs.Frame.{code};
ghost use Rattle.machine_loop.specs.Running.{Running};
ghost use Rattle.running_frame.specs.Inheriting.{Finds, GetsField, metatable_number, with_found};
ghost use Rattle.running_frame.specs.Between.{GoesAmid, RunsAmid};

use crate::upvalues::{next, put};
use code_core::{Instruction, Opcode, fetch};
use frame_calls::register_of;
use lua_stack::Stack;
use machine_arms_tables::Closure;
use meta_ops::{Heap, Outcome, index_of};
use table_core::Value;

/// GETFIELD, or SELF with a constant, of a field that handlers of `__index` lead to without a call. Told is where the frame goes on. `None`, with all as before,
/// at any other instruction, where a function is to be called, and where the field is an error.
#[inline(always)]
pub(crate) fn read_inherited(
    stack: &mut Stack,
    closure: Closure,
    heap: Heap,
    pc: usize,
) -> Option<usize>
    ghost g: { Running }
    requires runs { RunsAmid g (code closure heap.strings.now) stack.old heap.tables.now.objects pc }
    requires meta { metatable_number heap.string_meta ≡ g.string_metatable }
    ensures goes { IfSome result (λ to. GoesAmid g (code closure.entry heap.entry.strings.now) stack.old stack.new heap.entry.tables.now.objects pc to) }
    ensures kept { IfNone result (stack.new ≡ stack.old) }
{
    let i = fetch(closure.words, pc);
    let receives = takes_receiver(i)?;
    get_inherited(stack, closure, heap, pc, i, receives)
}

/// Whether an instruction that reads a field by a constant takes the object to a register too, as SELF does and GETFIELD does not. `None` at any other instruction.
/// The key of a method is a constant wherever the field C has room for it.
#[inline(always)]
fn takes_receiver(i: Instruction) -> Option<bool>
    ensures { IfSome result (λ receives. GetsField receives i) }
{
    match i.opcode() {
        Some(Opcode::GetField) => Some(false),
        Some(Opcode::OpSelf) => { if i.k() { Some(true) } else { None } }
        _ => None,
    }
}

/// GETFIELD: R[A] := R[B][K[C]]. SELF: R[A + 1] := R[B]; R[A] := R[B][K[C]].
#[inline(never)]
fn get_inherited(
    stack: &mut Stack,
    closure: Closure,
    heap: Heap,
    pc: usize,
    i: Instruction,
    receives: bool,
) -> Option<usize>
    ghost g: { Running }
    requires runs { RunsAmid g (code closure heap.strings.now) stack.old heap.tables.now.objects pc }
    requires meta { metatable_number heap.string_meta ≡ g.string_metatable }
    requires word { slice_get closure.words.now pc ≡ Some i }
    requires gets { GetsField receives i }
    ensures goes { IfSome result (λ to. GoesAmid g (code closure.entry heap.entry.strings.now) stack.old stack.new heap.entry.tables.now.objects pc to) }
    ensures kept { IfNone result (stack.new ≡ stack.old) }
{
    let object = register_of(stack.registers(), i.b() as usize)?;
    let key = register_of(closure.constants, i.c() as usize)?;
    let v = inherited(heap, object, key)?;
    let registers = stack.registers_mut();
    put_field(registers, i.a() as usize, receives, object, v);
    let to = next(closure.words, pc);
    stack.set_pc(to);
    Some(to)
}

/// R[n] := v, and before that R[n + 1] := object for an instruction that takes it.
fn put_field(registers: &mut [Value], n: usize, receives: bool, object: Value, v: Value)
    requires own { n < length registers.old }
    requires behind { receives ≡ true → n + 1 < length registers.old }
    ensures { registers.new ≡ with_found receives n object v registers.old }
{
    if receives {
        put(registers, n + 1, object);
    }
    put(registers, n, v);
}

/// The field of an object at a key, where no function is to be called for it.
fn inherited(heap: Heap, object: Value, key: Value) -> Option<Value>
    ensures { IfSome result (λ v. Finds heap.entry.strings.now heap.entry.tables.now.objects (metatable_number heap.entry.string_meta) object key v) }
{
    match index_of(heap, object, key) {
        Outcome::Found(v) => Some(v),
        _ => None,
    }
}
