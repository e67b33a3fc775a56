// The laws of tables in sessions that are loaded and saved.
ghost use Rattle.tables_load.specs.Laws.{AcceptedHasTables, OnwardHasTables, OnwardIsSaved, RunIsSaved, SessionsHaveTables};

use tables_stay::tables_stay;

/// Whatever bytes are accepted as an image, what is loaded from it has tables: no key of one stands twice, and nil is none. So has each session that is loaded.
pub fn loaded_sessions_have_tables()
    ensures accepted { AcceptedHasTables }
    ensures sessions { SessionsHaveTables }
{}

/// A session that was loaded has tables however it goes on. So where it waits for a line, as where a run of code does, it is saved as what is written of it, if the
/// integers in that have 64 bits: nothing is asked about its tables.
pub fn sessions_are_saved()
    ensures run { RunIsSaved }
    ensures tables { OnwardHasTables }
    ensures onward { OnwardIsSaved }
{
    tables_stay();
    loaded_sessions_have_tables();
}
