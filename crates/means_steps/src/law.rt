// The laws, each with what it speaks of in `specs/`.
ghost use Rattle.means_steps.specs.Steps.{LibrariesAreSame, LoadJoined, PrimitivesJoined, RunningSteps, StepsLead};

/// In a sound world in which a function of code runs, one step of the machine, which is an instruction whatever its opcode, is some ticks
/// of the world in which activations talk: both stand alike again, whether the function goes on, calls, asks for a call, returns, fails,
/// writes a cell that is open in another coroutine, or has nothing left to pay with.
pub fn code_steps_keep_worlds_joined()
    ensures { RunningSteps }
{}

/// So is one step of the machine from any sound world, whatever the last step ended with and whichever coroutine runs, where the rows of
/// the primitives do as the primitives of the other world; at the end of a turn both have printed the same and end alike, and where the
/// main coroutine yields, both wait alike for the next turn.
pub fn steps_keep_worlds_joined()
    ensures { StepsLead }
{}

/// Each function of the libraries that is no Lua text does in the machine what it does in the other world, and both have it by the same
/// number, where that which loads sources does so. And it does where both make their functions of the same code, which has a source's name.
pub fn primitives_keep_worlds_joined()
    ensures each { PrimitivesJoined }
    ensures numbered { LibrariesAreSame }
    ensures loads { LoadJoined }
{}
