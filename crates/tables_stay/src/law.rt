// The law of tables that stay tables.
ghost use Rattle.tables_stay.specs.Laws.{BegunKeeps, LibraryKeeps, LoadsKeep, OnwardKeeps, OpeningHasTables, RowsKeep, RunsKeep, ScriptsHaveTables, StepsKeep, TurnsKeep};

/// Tables stay tables in each row, step, turn and run, and those of the libraries are tables; so they are in the last world of every run of a script.
pub fn tables_stay()
    ensures rows { RowsKeep }
    ensures library { LibraryKeeps }
    ensures loads { LoadsKeep }
    ensures steps { StepsKeep }
    ensures turns { TurnsKeep }
    ensures runs { RunsKeep }
    ensures onward { OnwardKeeps }
    ensures opening { OpeningHasTables }
    ensures begun { BegunKeeps }
    ensures scripts { ScriptsHaveTables }
{}
