// What is left of an instruction when results or an error come for which its frame waits (luaV_finishOp of lvm.c, luaD_poscall of ldo.c).
ghost use Rattle.std.specs.Prelude.{◌≡◌, ◌+◌, ◌<◌, ◌^◌, ℕ, true, IfOk, OnErr};
ghost use Rattle.code_core.specs.Instruction.{a_of};
ghost use Rattle.lua_stack.specs.declared.frame.Wait.TheVariants.{Returning};
ghost use Rattle.machine_core.specs.Text.{read_registers as reads};
ghost use Rattle.move_laws.specs.Memory.{CanDo, InOrder, StandsAt};
ghost use Rattle.machine_moves.specs.Ending.{ending_of};
ghost use Rattle.machine_returns.specs.Waking.{IsSolid};
ghost use Rattle.machine_returns.specs.GoingOn.{GoesOn, MayGoOn, waits_for_call};

use crate::closing::go_on_closing;
use crate::failing::fail_with;
use crate::results::take_results;
use crate::returning::go_on_returning;
use code_core::Instruction;
use int_core::Allocated;
use lua_heap::World;
use lua_stack::Wait;
use machine_moves::Ending;
use table_core::Value;

/// The Lua frame on top was woken at the instruction `word`, at the place `pc`, and goes on with the values that came: results of a call or of an iterator,
/// those of a closing method, or none as it is left by an error. A refusal changes nothing.
pub fn go_on_called(
    world: &mut World,
    pc: usize,
    word: Instruction,
    wait: Wait,
    values: &[Value],
) -> Allocated<Ending>
    requires solid { IsSolid world.old }
    requires at { StandsAt world.old pc }
    requires room { pc + 2 < 2 ^ 64 }
    requires called { waits_for_call wait ≡ true }
    requires there { (count : ℕ) → wait ≡ Returning count → CanDo world.old (reads (a_of word) count) }
    requires safe { MayGoOn world.old word wait values.now }
    ensures leads { IfOk result (λ ending. GoesOn world.old world.new word wait values.now (ending_of ending)) }
    ensures order { InOrder world.new }
    ensures err { OnErr result (world.new ≡ world.old) }
{
    let a = usize::from(word.a());
    let c = usize::from(word.c());
    match wait {
        Wait::ForCall => take_results(world, pc, a, c, values),
        Wait::ForIterator => take_results(world, pc, a + 4, c + 1, values),
        Wait::ForClose => go_on_closing(world, pc, u32::from(word.a())),
        Wait::Returning(count) => go_on_returning(world, a, count),
        Wait::Leaving(error) => fail_with(world, &[error]),
        _ => unreachable!(),
    }
}
