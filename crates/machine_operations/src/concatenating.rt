// Concatenations of registers, and what goes on with the value of a handler (OP_CONCAT and luaV_finishOp of lvm.c).
ghost use Rattle.std.specs.Prelude.{◌≡◌, ◌+◌, ◌<◌, ◌^◌, [], map, IfOk, OnErr};
ghost use Rattle.code_core.specs.Prototype.{Prototype};
ghost use Rattle.instruction_forms.specs.Forms.{text_of};
ghost use Rattle.instruction_forms.specs.declared.form.Form.TheVariants.{Concatenate};
ghost use Rattle.lua_heap.specs.Reading.{value};
ghost use Rattle.machine_core.specs.FrameRows.{expand};
ghost use Rattle.move_laws.specs.Memory.{InOrder, IsSafe, Leads, ReadsSame, StandsSound, Steps};
ghost use Rattle.machine_moves.specs.Ending.{ending_of};
ghost use Rattle.machine_operations.specs.Joining.{AreValid, rest_row, told_for};

use crate::following::{advance, first_or_nil, keep};
use crate::joining::{Joined, join};
use int_core::Allocated;
use lua_heap::World;
use lua_stack::Wait;
use machine_calls::{Prepared, ask_over, call_over};
use machine_errors::raise;
use machine_moves::{Ending, put_in_front, read_register};
use meta_ops::law;
use table_core::Value;

/// The values of so many registers are joined, from the last one on (Lua 5.4 manual, 3.4.6). A handler is called for a unit of the budget. After a
/// refusal the world is in order, and no more has been printed.
pub fn concatenate(
    world: &mut World,
    budget: &mut u64,
    pc: usize,
    first: usize,
    count: usize,
) -> Allocated<Ending>
    requires stands { StandsSound world.old pc 2 }
    requires size { first + count < 2 ^ 64 }
    requires safe { (p : Prototype) → IsSafe (expand (text_of p pc (Concatenate first count))) [] world.old }
    ensures steps { IfOk result (λ ending. (p : Prototype) → Steps (expand (text_of p pc (Concatenate first count))) [] world.old budget.old world.new budget.new (ending_of ending)) }
    ensures order { InOrder world.new }
    ensures err { OnErr result ((world.new.printed ≡ world.old.printed) × (budget.new ≡ budget.old)) }
{
    law::operands_are_there();
    if count == 0 {
        advance(world, pc, 1);
        return Ok(Ending::Go);
    }
    let last = read_register(world, first + (count - 1));
    match join(world, first, count - 1, last)? {
        Joined::Whole(v) => {
            keep(world, pc, first, v);
            Ok(Ending::Go)
        }
        Joined::Asks(asked) => {
            let operands = put_in_front(world.alloc, &[asked.left], &[asked.right])?;
            call_over(
                world,
                budget,
                asked.handler,
                operands,
                Wait::ForConcat(asked.below),
                Prepared::Nothing,
            )
        }
        Joined::Fails(fault) => {
            let text = fault.text(world.alloc)?;
            raise(world, &text)
        }
    }
}

/// The operands that are left of a concatenation are joined with the first value that came for the others, or with nil where none did. A handler is asked
/// for in a step of its own. A refusal changes nothing that the world stands for.
pub fn join_on(
    world: &mut World,
    pc: usize,
    first: usize,
    left: usize,
    came: &[Value],
) -> Allocated<Ending>
    requires stands { StandsSound world.old pc 2 }
    requires size { first + left < 2 ^ 64 }
    requires came { AreValid world.old came.now }
    requires safe { IsSafe (rest_row first left) (told_for left (map (value world.old.strings) came.now)) world.old }
    ensures leads { IfOk result (λ ending. Leads (rest_row first left) (told_for left (map (value world.old.strings) came.now)) world.old world.new (ending_of ending)) }
    ensures order { InOrder world.new }
    ensures err { OnErr result (ReadsSame world.old world.new) }
{
    law::operands_are_there();
    let last = first_or_nil(came);
    match join(world, first, left, last)? {
        Joined::Whole(v) => {
            keep(world, pc, first, v);
            Ok(Ending::Go)
        }
        Joined::Asks(asked) => {
            let operands = put_in_front(world.alloc, &[asked.left], &[asked.right])?;
            let wait = Wait::ForConcat(asked.below);
            ask_over(world, asked.handler, operands, wait, Prepared::Nothing)
        }
        Joined::Fails(fault) => {
            let text = fault.text(world.alloc)?;
            raise(world, &text)
        }
    }
}
