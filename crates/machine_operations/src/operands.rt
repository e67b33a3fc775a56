// The operands of an operation, and the operation on their values.
ghost use Rattle.std.specs.Prelude.{◌≡◌, ℕ, List, map, true, false};
ghost use Rattle.lua_heap.specs.Reading.{value};
ghost use Rattle.instruction_forms.specs.Forms.{event_of as event_named, operation_of};
ghost use Rattle.meta_ops.specs.Events.{event_of as event_meant};
ghost use Rattle.meta_ops.specs.Operation.{kind_of, operands_of};
ghost use Rattle.machine_moves.specs.Operations.{joins};
ghost use Rattle.machine_rows.specs.Rows.{HasFunction};
ghost use Rattle.machine_operations.specs.Operands.{AreRead, ReadsAll, list_of, ordered, takes};

use instruction_forms::{Operands, Operation as Named, Operator};
use lua_heap::World;
use machine_rows::read_operand;
use meta_ops::{Event, Operation};
use table_core::Value;

/// The values of an operation's operands, from the left.
#[derive(Debug, Clone, Copy, PartialEq, Eq)]
pub enum Values {
    One(Value),
    Two(Value, Value),
    Three(Value, Value, Value),
}

/// The values of operands.
pub fn read_operands(world: &World, operands: Operands) -> Values
    requires function { HasFunction world.now }
    requires there { AreRead world.now operands }
    ensures { ReadsAll world.now operands result }
{
    match operands {
        Operands::One(from) => Values::One(read_operand(world, from)),
        Operands::Twice(from) => {
            let v = read_operand(world, from);
            Values::Two(v, v)
        }
        Operands::Two {
            first,
            second,
            swapped,
        } => {
            let left = read_operand(world, first);
            let right = read_operand(world, second);
            in_order(swapped, left, right)
        }
        Operands::Three(object, key, given) => {
            let o = read_operand(world, object);
            let k = read_operand(world, key);
            let v = read_operand(world, given);
            Values::Three(o, k, v)
        }
    }
}

/// Two values, or the second one first.
fn in_order(swapped: bool, first: Value, second: Value) -> Values
    ensures { result ≡ ordered swapped first second }
{
    if swapped {
        Values::Two(second, first)
    } else {
        Values::Two(first, second)
    }
}

/// The operation on the values of its operands.
pub fn operation_on(operation: Named, values: Values) -> Operation
    requires { takes operation values ≡ true }
    ensures kind { kind_of result ≡ operation_of operation }
    ensures operands { (texts : List (List ℕ)) → operands_of texts result ≡ map (value texts) (list_of values) }
    ensures joins { joins result ≡ false }
{
    match (operation, values) {
        (Named::Index, Values::Two(object, key)) => Operation::Index { object, key },
        (Named::Store, Values::Three(object, key, given)) => Operation::Store {
            object,
            key,
            value: given,
        },
        (Named::Arithmetic(operator), Values::Two(left, right)) => Operation::Arithmetic {
            event: event_of(operator),
            left,
            right,
        },
        (Named::Length, Values::One(v)) => Operation::Length(v),
        (Named::Equal, Values::Two(left, right)) => Operation::Equal { left, right },
        (Named::Less, Values::Two(left, right)) => Operation::Less { left, right },
        (Named::LessEqual, Values::Two(left, right)) => Operation::LessEqual { left, right },
        _ => unreachable!(),
    }
}

/// The event of an operator (ltm.h).
pub(crate) fn event_of(operator: Operator) -> Event
    ensures { event_meant result ≡ event_named operator }
{
    match operator {
        Operator::Add => Event::Add,
        Operator::Sub => Event::Sub,
        Operator::Mul => Event::Mul,
        Operator::Mod => Event::Mod,
        Operator::IDiv => Event::IDiv,
        Operator::BAnd => Event::BAnd,
        Operator::BOr => Event::BOr,
        Operator::BXor => Event::BXor,
        Operator::Shl => Event::Shl,
        Operator::Shr => Event::Shr,
        Operator::Unm => Event::Unm,
        Operator::BNot => Event::BNot,
    }
}
