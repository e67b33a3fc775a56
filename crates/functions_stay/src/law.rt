// The law of functions that stay.
ghost use Rattle.functions_stay.specs.Laws.{MovesKeep, OnwardKeeps, RowsKeep, RunsKeep, StepsKeep};

/// Each move leaves all functions as they are, and so do rows, steps, and runs of code on any lines: new functions come last.
pub fn functions_stay()
    ensures moves { MovesKeep }
    ensures rows { RowsKeep }
    ensures steps { StepsKeep }
    ensures runs { RunsKeep }
    ensures onward { OnwardKeeps }
{}
