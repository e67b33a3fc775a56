// A Lua frame that waits, and goes on with what moves (luaV_finishOp of lvm.c of Lua 5.4).
ghost use Rattle.std.specs.Prelude.{◌≡◌, true, IfOk, OnErr};
ghost use Rattle.code_core.specs.Instruction.{opcode_of};
ghost use Rattle.lua_stack.specs.declared.frame.Wait.TheVariants.{ForConcat, ForValue};
ghost use Rattle.machine_core.specs.Moves.{go};
ghost use Rattle.machine_moves.specs.Ending.{ending_of};
ghost use Rattle.machine_returns.specs.Waking.{IsSolid};
ghost use Rattle.move_laws.specs.Memory.{InOrder, IsSound};
ghost use Rattle.machine_step.specs.Places.{Becomes, GoesOnSo, IsAwake, WaitsHere, is_handled, takes_value};
ghost use Rattle.machine_step.specs.Step.{Passes};

use code_core::{Instruction, Opcode};
use instruction_forms::After;
use int_core::Allocated;
use lua_heap::World;
use lua_stack::Wait;
use machine_moves::Ending;
use machine_operations::{join_on, take_value};
use machine_returns::{go_on_called, wake};
use table_core::Value;

/// The Lua frame on top, which waits at this word, gets what moves and does what is left of the instruction. After a refusal the world is in order, and no
/// more has been printed.
pub(crate) fn go_on(world: &mut World, pc: usize, word: Instruction) -> Allocated<Ending>
    requires sound { IsSound world.old }
    requires waits { WaitsHere world.old pc word }
    ensures does { IfOk result (λ next. Passes go world.old world.new (ending_of next)) }
    ensures order { InOrder world.new }
    ensures err { OnErr result (world.new.printed.items ≡ world.old.printed.items) }
{
    let (wait, came) = wake(world);
    go_on_with(world, pc, word, wait, &came)
}

/// What is left of the instruction is done with what came.
pub fn go_on_with(
    world: &mut World,
    pc: usize,
    word: Instruction,
    wait: Wait,
    came: &[Value],
) -> Allocated<Ending>
    requires solid { IsSolid world.old }
    requires awake { IsAwake world.old pc word wait came.now }
    ensures goes { IfOk result (λ next. GoesOnSo world.old world.new word wait came.now (ending_of next)) }
    ensures order { InOrder world.new }
    ensures err { OnErr result (world.new.printed.items ≡ world.old.printed.items) }
{
    match wait {
        Wait::Running => unreachable!(),
        Wait::ForValue => Ok(take_after(world, pc, word, wait, came)),
        Wait::ForTruth => Ok(take_after(world, pc, word, wait, came)),
        Wait::Dropped => Ok(take_after(world, pc, word, wait, came)),
        Wait::ForConcat(left) => join_with(world, pc, word, left, came),
        _ => go_on_called(world, pc, word, wait, came),
    }
}

/// The value of an operation goes where the instruction wants it.
fn take_after(world: &mut World, pc: usize, word: Instruction, wait: Wait, came: &[Value]) -> Ending
    requires order { InOrder world.old }
    requires awake { IsAwake world.old pc word wait came.now }
    requires takes { takes_value wait ≡ true }
    ensures goes { GoesOnSo world.old world.new word wait came.now (ending_of result) }
    ensures order { InOrder world.new }
{
    take_value(world, pc, after_wait(wait, word), came);
    Ending::Go
}

/// What becomes of the value for which a frame waits so at this word.
fn after_wait(wait: Wait, word: Instruction) -> After
    requires { takes_value wait ≡ true }
    ensures { Becomes wait word result }
{
    match wait {
        Wait::ForValue => after_operation(word),
        Wait::ForTruth => After::Tests(word.k()),
        Wait::Dropped => After::Next,
        _ => unreachable!(),
    }
}

/// It goes to a register.
fn after_operation(word: Instruction) -> After
    ensures { Becomes ForValue word result }
{
    if is_handled(word) {
        return After::ToRegisterBefore;
    }
    After::ToRegister(usize::from(word.a()))
}

/// The operands that are left are joined with the value that came.
fn join_with(
    world: &mut World,
    pc: usize,
    word: Instruction,
    left: usize,
    came: &[Value],
) -> Allocated<Ending>
    requires awake { IsAwake world.old pc word (ForConcat left) came.now }
    ensures goes { IfOk result (λ next. GoesOnSo world.old world.new word (ForConcat left) came.now (ending_of next)) }
    ensures order { InOrder world.new }
    ensures err { OnErr result (world.new.printed.items ≡ world.old.printed.items) }
{
    join_on(world, pc, usize::from(word.a()), left, came)
}

/// Whether it is an MMBIN or its kin.
fn is_handled(word: Instruction) -> bool
    ensures { result ≡ is_handled (opcode_of word) }
{
    match word.opcode() {
        Some(Opcode::MmBin) => true,
        Some(Opcode::MmBinI) => true,
        Some(Opcode::MmBinK) => true,
        _ => false,
    }
}
