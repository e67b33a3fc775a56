// The laws of the prelude's environment that stays.
ghost use Rattle.prelude_stays.specs.Laws.{BegunStays, GuardedCode, OnwardStays, OpeningStays, RunsHavePrelude, RunsStay, StepsStay};

use functions_stay::functions_stay;
use session_images::worlds_have_the_prelude;

/// No value that a script reaches is the environment of the prelude, and its table is as it was made: so it is in the world before a
/// script, where the prelude's code passes a test, and in one in which a script begins, whatever its code; and it stays so in
/// each step, and in each run of code on lines.
pub fn prelude_stays()
    ensures opening { OpeningStays }
    ensures begun { BegunStays }
    ensures steps { StepsStay }
    ensures runs { RunsStay }
    ensures onward { OnwardStays }
{}

/// After each run of a script the prelude is there as it was made, so no run is refused to be saved for having changed it; the test of the
/// prelude's code tells that of its functions by their names.
pub fn runs_have_the_prelude()
    ensures runs { RunsHavePrelude }
    ensures code { GuardedCode }
{
    functions_stay();
    worlds_have_the_prelude();
}
