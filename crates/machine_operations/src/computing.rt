// Operators on two integers (OP_ADD to OP_SHR of lvm.c, with their forms for constants).
ghost use Rattle.std.specs.Prelude.{◌≡◌, ◌+◌, ◌<◌, ◌^◌, [], ℕ, List, Some, IfOk, OnErr};
ghost use Rattle.code_core.specs.Prototype.{Prototype};
ghost use Rattle.int_core.specs.Value.{Value as Meant, shape};
ghost use Rattle.instruction_forms.specs.Forms.{text_of};
ghost use Rattle.instruction_forms.specs.declared.form.Form.TheVariants.{Arithmetic};
ghost use Rattle.lua_heap.specs.Reading.{value};
ghost use Rattle.meta_ops.specs.Events.{event_of as event_meant};
ghost use Rattle.machine_core.specs.FrameRows.{expand};
ghost use Rattle.machine_core.specs.InstructionRows.{fast, integer_of_shape};
ghost use Rattle.machine_core.specs.Moves.{go};
ghost use Rattle.move_laws.specs.Memory.{InOrder, IsSafe, Leads, StandsAt, StandsSound};
ghost use Rattle.machine_moves.specs.Ending.{ending_of};
ghost use Rattle.machine_rows.specs.Rows.{HasFunction};
ghost use Rattle.machine_operations.specs.Computing.{IsReadAsInteger, MayCompute, MayPut, ReadsInteger, puts};

use crate::following::advance;
use crate::operands::event_of;
use instruction_forms::{Operand, Operator};
use int_core::Allocated;
use lua_heap::World;
use machine_errors::raise;
use machine_moves::{Ending, go_to, read_constant, read_register, read_upvalue, write_register};
use meta_ops::{Event, by_zero, computed};
use table_core::Value;

/// An operator on two integers: the result goes to a register, and the instruction behind is passed over; that one does what is not on integers
/// (Lua 5.4 manual, 3.4.1 and 3.4.2). A division by zero is an error. A refusal changes nothing.
pub fn arithmetic(
    world: &mut World,
    pc: usize,
    operator: Operator,
    left: Operand,
    right: Operand,
    to: usize,
) -> Allocated<Ending>
    requires stands { StandsSound world.old pc 2 }
    requires safe { (p : Prototype) → IsSafe (expand (text_of p pc (Arithmetic operator left right to))) [] world.old }
    ensures leads { IfOk result (λ ending. (p : Prototype) → Leads (expand (text_of p pc (Arithmetic operator left right to))) [] world.old world.new (ending_of ending)) }
    ensures order { InOrder world.new }
    ensures err { OnErr result (world.new ≡ world.old) }
{
    let m = read_integer(world, left);
    let n = read_integer(world, right);
    compute(world, pc, event_of(operator), m, n, to)
}

/// The integer that an operand is, if it is one.
fn read_integer(world: &World, from: Operand) -> Option<i64>
    requires function { HasFunction world.now }
    requires there { IsReadAsInteger world.now from }
    ensures { ReadsInteger world.now from result }
{
    match from {
        Operand::Register(register) => integer_in(read_register(world, register)),
        Operand::Constant(n) => integer_in(read_constant(world, n)),
        Operand::Upvalue(upvalue) => {
            // The row reads it and is not told what it is.
            let _other = read_upvalue(world, upvalue);
            None
        }
        Operand::Integer(n) => Some(n),
        Operand::Truth(_) => None,
    }
}

/// The integer that a value is, if it is one.
fn integer_in(v: Value) -> Option<i64>
    ensures { (texts : List (List ℕ)) → result ≡ integer_of_shape (shape (value texts v)) }
{
    match v {
        Value::Int(n) => Some(n),
        _ => None,
    }
}

/// The operator on what are integers of its operands.
fn compute(
    world: &mut World,
    pc: usize,
    event: Event,
    m: Option<i64>,
    n: Option<i64>,
    to: usize,
) -> Allocated<Ending>
    requires stands { StandsSound world.old pc 2 }
    requires safe { MayCompute world.old (event_meant event) m n to }
    ensures leads { IfOk result (λ ending. (env : List Meant) → Leads (expand (fast (event_meant event) to m n)) env world.old world.new (ending_of ending)) }
    ensures order { InOrder world.new }
    ensures err { OnErr result (world.new ≡ world.old) }
{
    match (m, n) {
        (Some(m), Some(n)) => compute_integers(world, pc, event, m, n, to),
        _ => {
            advance(world, pc, 1);
            Ok(Ending::Go)
        }
    }
}

/// The operator on two integers.
fn compute_integers(
    world: &mut World,
    pc: usize,
    event: Event,
    m: i64,
    n: i64,
    to: usize,
) -> Allocated<Ending>
    requires stands { StandsSound world.old pc 2 }
    requires safe { MayCompute world.old (event_meant event) (Some m) (Some n) to }
    ensures leads { IfOk result (λ ending. (env : List Meant) → Leads (expand (fast (event_meant event) to (Some m) (Some n))) env world.old world.new (ending_of ending)) }
    ensures order { InOrder world.new }
    ensures err { OnErr result (world.new ≡ world.old) }
{
    match computed(event, m, n) {
        Some(k) => {
            put_integer(world, pc, to, k);
            Ok(Ending::Go)
        }
        None => {
            let text = by_zero(event).text(world.alloc)?;
            raise(world, &text)
        }
    }
}

/// An integer goes to a register, and the next instruction is passed over.
fn put_integer(world: &mut World, pc: usize, to: usize, n: i64)
    requires order { InOrder world.old }
    requires at { StandsAt world.old pc }
    requires room { pc + 2 < 2 ^ 64 }
    requires safe { MayPut world.old to n }
    ensures leads { (env : List Meant) → Leads (expand (puts to n)) env world.old world.new go }
    ensures order { InOrder world.new }
{
    write_register(world, to, Value::Int(n));
    go_to(world, pc + 2);
}
