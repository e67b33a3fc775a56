// The place of the Lua frame on top.
ghost use Rattle.std.specs.Prelude.{◌≡◌, ◌<◌, ℕ, List, Some, length, slice_get};
ghost use Rattle.lua_heap.specs.Codes.{AreCodes};
ghost use Rattle.lua_heap.specs.Reading.{value};
ghost use Rattle.library_rows.specs.Library.{all_entries};
ghost use Rattle.lua_stack.specs.Frames.{HasLuaTop, wait_of};
ghost use Rattle.machine_core.specs.Moves.{go};
ghost use Rattle.machine_moves.specs.Moves.{RunsOn};
ghost use Rattle.move_laws.specs.Memory.{HasFrame, StandsAt};
ghost use Rattle.step_laws.specs.Steps.{IsReady};
ghost use Rattle.running_frame.specs.Here.{HasWord, IsAtWord, IsHere, RunsIf, is_none};

use code_core::Instruction;
use lua_heap::World;
use lua_stack::{Stack, Wait};
use machine_moves::{code_on_top, running_stack};

/// Where a Lua frame is in its code, the word there, and whether it runs or waits.
#[derive(Clone, Copy, Debug)]
pub struct Here {
    pub pc: usize,
    pub word: Instruction,
    pub runs: bool,
}

/// Where the Lua frame on top is.
pub fn find_here(world: &World) -> Here
    requires ready { IsReady (length all_entries) go world.now }
    ensures { IsHere world.now result }
{
    let pc = place_on_top(world);
    Here {
        pc,
        word: word_at(world, pc),
        runs: is_running(world),
    }
}

/// A place of some code.
pub(crate) fn here_at(words: &[Instruction], pc: usize, runs: bool) -> Here
    requires { pc < length words.now }
    ensures place { result.pc ≡ pc }
    ensures word { slice_get words.now result.pc ≡ Some result.word }
    ensures runs { result.runs ≡ runs }
{
    Here {
        pc,
        word: words[pc],
        runs,
    }
}

/// Its place in its code.
fn place_on_top(world: &World) -> usize
    requires { HasFrame world.now }
    ensures { StandsAt world.now result }
{
    stack_of_frame(world).pc()
}

/// The stack on which it is.
#[inline(always)]
fn stack_of_frame(world: &World) -> &Stack
    requires { HasFrame world.now }
    ensures runs { RunsOn world.now result.now }
    ensures top { HasLuaTop result.now }
{
    running_stack(world)
}

/// The word at that place.
fn word_at(world: &World, pc: usize) -> Instruction
    requires codes { AreCodes world.now.strings world.now.codes }
    requires there { HasWord world.now pc }
    ensures { IsAtWord world.now pc result }
{
    code_on_top(world).words[pc]
}

/// Whether it runs.
#[inline(always)]
pub(crate) fn is_running(world: &World) -> bool
    requires { HasFrame world.now }
    ensures { RunsIf world.now result }
{
    is_none(stack_of_frame(world).wait())
}

/// Whether a wait is for nothing.
pub(crate) fn is_none(wait: Wait) -> bool
    ensures { (texts : List (List ℕ)) → result ≡ is_none (wait_of (value texts) wait) }
{
    match wait {
        Wait::Running => true,
        Wait::ForCall => false,
        Wait::ForIterator => false,
        Wait::ForValue => false,
        Wait::ForTruth => false,
        Wait::Dropped => false,
        Wait::ForConcat(_) => false,
        Wait::ForClose => false,
        Wait::Returning(_) => false,
        Wait::Leaving(_) => false,
    }
}
