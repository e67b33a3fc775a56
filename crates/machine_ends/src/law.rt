// The laws that turns of code end.
ghost use Rattle.machine_ends.specs.Laws.{EveryCodeRuns, LoadFalls, PrimitivesFall, StepsEnd, StepsFall, TurnsEnd};

/// A row that makes a measure of the world smaller comes to so much less, and so does the row of `build`, where no source is built to more
/// instructions than are counted for.
pub fn primitives_fall()
    ensures rows { PrimitivesFall }
    ensures loads { LoadFalls }
{}

/// Each step makes a measure of the world smaller, or ends the turn, where `build` does.
pub fn steps_fall()
    ensures { StepsFall }
{}

/// From a sound world some number of steps leads to the end of the turn, whatever the budget.
pub fn turns_of_code_end()
    ensures steps { StepsEnd }
    ensures turns { TurnsEnd }
{}

/// Code runs on any lines: some number of steps a turn suffices.
pub fn every_code_runs()
    ensures { EveryCodeRuns }
{}
