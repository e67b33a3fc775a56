// The laws, each with what it speaks of in `specs/`.
ghost use Rattle.machine_core.specs.MachineStep.{close_row, create_row, error_row, pcall_row, print_row, resume_row, running_row, status_row, xpcall_row, yield_row, yieldable_row};
ghost use Rattle.machine_sound.specs.Laws.{GoesFromSound, LibrarySafe, LoadRowSafe, LookRowsSafe, PrimitiveSafe, RunningTextsGood, RunsGood, SafeIsGood, SomeWorldSound, StepsGood, WaitingTextsGood};
ghost use Rattle.machine_sound.specs.Safe.{MovesGood, RowsGood};

/// A move that is ready in a sound world does not trap, and neither does a row that is safe; both leave a sound world.
pub fn rows_do_not_trap()
    ensures moves { MovesGood }
    ensures rows { RowsGood }
{}

/// From a sound world, whose code is checked, no step traps, and the world is sound after it, as its ending says, also where the
/// budget is spent: whatever the instruction, the wait and the frame on top, where the rows of the primitives are safe. Neither does
/// any number of steps. A sound world with a Lua frame on top can do a step, whatever the last one ended with.
pub fn steps_do_not_trap()
    ensures step { StepsGood }
    ensures runs { RunsGood }
    ensures from_sound { GoesFromSound }
{}

/// In a sound world the text of the instruction at which the top frame runs does not trap, and neither does what is left of the one
/// at which it waits: what a function that does one instruction may rest on.
pub fn texts_do_not_trap()
    ensures running { RunningTextsGood }
    ensures waiting { WaitingTextsGood }
{}

/// The rows of the primitives that move frames and coroutines, make or look at a coroutine, or print are safe.
pub fn primitives_do_not_trap()
    ensures pcall { PrimitiveSafe pcall_row }
    ensures xpcall { PrimitiveSafe xpcall_row }
    ensures error { PrimitiveSafe error_row }
    ensures resume { PrimitiveSafe resume_row }
    ensures yields { PrimitiveSafe yield_row }
    ensures close { PrimitiveSafe close_row }
    ensures creates { PrimitiveSafe create_row }
    ensures status { PrimitiveSafe status_row }
    ensures running { PrimitiveSafe running_row }
    ensures yieldable { PrimitiveSafe yieldable_row }
    ensures prints { PrimitiveSafe print_row }
{}

/// A library row that looks at values and tables alone is safe where what it writes out is right, and that of `build` where sources are built to
/// checked code with one outer variable. So all primitives are where this holds of each such row, by their numbers.
pub fn library_rows_do_not_trap()
    ensures rows { LookRowsSafe }
    ensures loads { LoadRowSafe }
    ensures good { SafeIsGood }
    ensures all { LibrarySafe }
{}

/// There is a sound world in which a function runs, so the laws above speak of something.
pub fn some_world_is_sound()
    ensures { SomeWorldSound }
{}
