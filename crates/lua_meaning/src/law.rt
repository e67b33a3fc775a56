// The laws of what a script means.
ghost use Rattle.lua_meaning.specs.Laws.{CutsDoNotShow, EndedStays, KeepsLimits, MeaningIsOne};

/// A turn that has ended stays as it is: more steps change nothing.
pub fn ended_stays()
    ensures { EndedStays }
{}

/// A script has at most one meaning on its lines and budget: what it prints and how it ends are
/// determined.
pub fn meaning_is_one()
    ensures { MeaningIsOne }
{}

/// A script that is suspended, and goes on from there on further lines, prints and ends as it does
/// on all the lines at once.
pub fn cuts_do_not_show()
    ensures { CutsDoNotShow }
{}

/// Steps of a world keep each coroutine within the limit on frames, and spend at most what is left
/// of the budget.
pub fn keeps_limits()
    ensures { KeepsLimits }
{}
