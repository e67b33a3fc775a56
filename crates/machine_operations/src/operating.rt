// Operations for which a handler may be called (luaV_finishget, luaV_finishset and luaV_equalobj of lvm.c, luaT_trybinTM of ltm.c).
ghost use Rattle.std.specs.Prelude.{◌≡◌, [], ◌∷◌, ℕ, List, Some, map, IfOk, OnErr};
ghost use Rattle.instruction_forms.specs.Forms.{text_of};
ghost use Rattle.instruction_forms.specs.declared.form.Form.TheVariants.{Operate};
ghost use Rattle.lua_heap.specs.Plain.{plain};
ghost use Rattle.lua_heap.specs.Reading.{value};
ghost use Rattle.machine_core.specs.FrameRows.{expand};
ghost use Rattle.machine_core.specs.World.{Place, place_of};
ghost use Rattle.meta_ops.specs.Operation.{more_of};
ghost use Rattle.move_laws.specs.Memory.{InOrder, IsSafe, StandsSound, Steps};
ghost use Rattle.machine_moves.specs.Ending.{ending_of};
ghost use Rattle.machine_moves.specs.declared.ending.Ending.TheVariants.{Go, Raised};
ghost use Rattle.machine_operations.specs.Copying.{CanCopy};
ghost use Rattle.machine_operations.specs.Operands.{first_value};
ghost use Rattle.machine_operations.specs.Operating.{CanEnd, CanFail, EndsSo, FailsSo, wait_kept};

use crate::copying::{copy_first, prepared};
use crate::following::follow;
use crate::operands::{Values, operation_on, read_operands};
use instruction_forms::{After, Operands, Operation as Named};
use int_core::Allocated;
use lua_heap::World;
use lua_stack::Wait;
use machine_calls::call_over;
use machine_errors::{begin_leaving_with, blamed_text};
use machine_moves::{Ending, settle};
use meta_ops::{Fault, Operation, Outcome, law};
use std::alloc::Global;
use table_core::Value;

/// An operation on operands, the first of which may go to a register as well: what is found at once goes on its way, else a handler is called for a unit of
/// the budget, or the frame is at fault (Lua 5.4 manual, 2.4). After a refusal the world is in order, and no more has been printed.
pub fn operate(
    world: &mut World,
    budget: &mut u64,
    pc: usize,
    operation: Named,
    operands: Operands,
    also: Option<usize>,
    after: After,
) -> Allocated<Ending>
    requires stands { StandsSound world.old pc 2 }
    requires copy { CanCopy world.old also }
    requires safe { (place : Place) → place_of (plain world.old 0) ≡ Some place → IsSafe (expand (text_of place.function.code pc (Operate operation operands also after))) [] world.old }
    ensures steps { IfOk result (λ ending. (place : Place) → place_of (plain world.old 0) ≡ Some place → Steps (expand (text_of place.function.code pc (Operate operation operands also after))) [] world.old budget.old world.new budget.new (ending_of ending)) }
    ensures order { InOrder world.new }
    ensures err { OnErr result ((world.new.printed ≡ world.old.printed) × (budget.new ≡ budget.old)) }
{
    law::operands_are_there();
    let values = read_operands(world, operands);
    let asked = operation_on(operation, values);
    let first = first_of(values);
    let came = settle(world, asked)?;
    match came {
        Outcome::Found(v) => Ok(end_with(world, pc, also, first, after, v)),
        Outcome::Done => Ok(end_with(world, pc, also, first, after, Value::Nil)),
        Outcome::Ask {
            handler,
            first: object,
        } => {
            let arguments = arguments(world.alloc, asked, object)?;
            call_over(
                world,
                budget,
                handler,
                arguments,
                wait_for(after),
                prepared(also, first),
            )
        }
        Outcome::Fault(fault) => fail(world, also, first, fault),
    }
}

/// The first of some values.
fn first_of(values: Values) -> Value
    ensures { result ≡ first_value values }
{
    match values {
        Values::One(v) => v,
        Values::Two(v, _) => v,
        Values::Three(v, _, _) => v,
    }
}

/// The arguments of a handler: an object in place of the first operand, and the others.
fn arguments(alloc: Global, operation: Operation, object: Value) -> Allocated<Vec<Value>>
    ensures { IfOk result (λ all. (texts : List (List ℕ)) → map (value texts) all.items ≡ value texts object ∷ more_of texts operation) }
{
    match operation {
        Operation::Index { key, .. } => [object, key].to_vec(alloc),
        Operation::Store { key, value, .. } => [object, key, value].to_vec(alloc),
        Operation::Arithmetic { right, .. } => [object, right].to_vec(alloc),
        Operation::Concat { right, .. } => [object, right].to_vec(alloc),
        Operation::Length(v) => [object, v].to_vec(alloc),
        Operation::Equal { right, .. } => [object, right].to_vec(alloc),
        Operation::Less { right, .. } => [object, right].to_vec(alloc),
        Operation::LessEqual { right, .. } => [object, right].to_vec(alloc),
    }
}

/// For what a frame waits while a handler is called.
fn wait_for(after: After) -> Wait
    ensures { result ≡ wait_kept after }
{
    match after {
        After::ToRegister(_) => Wait::ForValue,
        After::ToRegisterBefore => Wait::ForValue,
        After::Next => Wait::Dropped,
        After::Tests(_) => Wait::ForTruth,
    }
}

/// The first operand is copied, and the value of the operation goes on its way.
fn end_with(
    world: &mut World,
    pc: usize,
    also: Option<usize>,
    first: Value,
    after: After,
    v: Value,
) -> Ending
    requires { CanEnd world.old pc also first after v }
    ensures ends { EndsSo world.old world.new pc also first after v (ending_of result) }
    ensures went { result ≡ Go }
    ensures order { InOrder world.new }
{
    copy_first(world, also, first);
    follow(world, pc, after, v);
    Ending::Go
}

/// The first operand is copied, and the frame begins to be left with an error. A refusal changes nothing that the world stands for.
fn fail(world: &mut World, also: Option<usize>, first: Value, fault: Fault) -> Allocated<Ending>
    requires { CanFail world.old also first }
    ensures fails { IfOk result (λ ending. FailsSo world.old world.new also first fault (ending_of ending)) }
    ensures raised { IfOk result (λ ending. ending ≡ Raised) }
    ensures order { InOrder world.new }
    ensures err { OnErr result (world.new ≡ world.old) }
{
    let text = fault.text(world.alloc)?;
    let error = blamed_text(world, &text)?;
    copy_first(world, also, first);
    Ok(begin_leaving_with(world, error))
}
