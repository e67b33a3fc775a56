// The laws of sessions.
ghost use Rattle.machine_runs.specs.Laws.{BegunIsSound, BegunMayTurn, CutsDoNotShow, EndedStays, HandedIsSound, HandedMayTurn, LoadsNeverYield, OnwardCutsDoNotShow, OpeningIsIdle, OpeningIsSound, RunIsOne, TurnsGood, WakesSoundly, YieldsLeaveMainWaiting};

/// The world of the libraries is sound, where the prelude's code is checked. It stays so where a script with checked code begins in
/// it, and where a line of input is handed over; then main is to be resumed.
pub fn sessions_are_sound()
    ensures opening { OpeningIsSound }
    ensures idle { OpeningIsIdle }
    ensures begun { BegunIsSound }
    ensures begins { BegunMayTurn }
    ensures handed { HandedIsSound }
    ensures goes_on { HandedMayTurn }
{}

/// A turn does not trap, and leaves a sound world, whatever its budget and however many steps of it are done.
pub fn turns_do_not_trap()
    ensures wakes { WakesSoundly }
    ensures turns { TurnsGood }
{}

/// `load` ends no turn with a yield, whatever it is given.
pub fn loads_never_yield()
    ensures { LoadsNeverYield }
{}

/// A turn that ends with a yield leaves main waiting for a line, in a sound world, where `load` ends no turn by itself.
pub fn yields_leave_main_waiting()
    ensures { YieldsLeaveMainWaiting }
{}

/// Code does one thing alone on the same lines and budget: more steps give the same turn.
pub fn runs_are_one()
    ensures turns { EndedStays }
    ensures runs { RunIsOne }
{}

/// A run that is cut at a yield and goes on in the world that it left is the run on all lines.
pub fn cuts_do_not_show()
    ensures runs { CutsDoNotShow }
    ensures onward { OnwardCutsDoNotShow }
{}
