// The operands of instructions.
ghost use Rattle.std.specs.Prelude.{◌≡◌};
ghost use Rattle.table_core.specs.declared.value.Value.TheVariants.{Int};
ghost use Rattle.machine_rows.specs.Rows.{HasFunction, IsRead, Reads};

use instruction_forms::Operand;
use lua_heap::World;
use machine_moves::{read_constant, read_register, read_upvalue};
use table_core::Value;

/// The value of an operand.
pub fn read_operand(world: &World, from: Operand) -> Value
    requires function { HasFunction world.now }
    requires there { IsRead world.now from }
    ensures { Reads world.now from result }
{
    match from {
        Operand::Register(register) => read_register(world, register),
        Operand::Constant(n) => read_constant(world, n),
        Operand::Upvalue(upvalue) => read_upvalue(world, upvalue),
        Operand::Integer(n) => integer(n),
        Operand::Truth(truth) => Value::Bool(truth),
    }
}

/// An integer as a value.
fn integer(n: i64) -> Value
    ensures { result ≡ Int n }
{
    Value::Int(n)
}
