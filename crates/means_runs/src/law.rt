// The law, with what it speaks of in `specs/`.
ghost use Rattle.means_runs.specs.Runs.{OpensAlike, ScriptsMean, ScriptsRun};

/// From worlds before a script that are alike, the machine prints and ends on any lines of input and every budget as the script's code means
/// it in the world that answers the asks of its activations, and the other way round: what is printed is the same, byte for byte, and both
/// return, fail, have spent a turn's budget, or wait alike for the next line. So it is for any number of coroutines and over any number of
/// turns. Nothing that the code means is broken.
pub fn scripts_run_as_they_mean()
    ensures runs { ScriptsRun }
    ensures means { ScriptsMean }
{}

/// The machine's world of the libraries and the one in which the code of a script is given its meaning are
/// alike, with whatever prelude whose code has no lines and names.
pub fn opening_worlds_are_alike()
    ensures { OpensAlike }
{}
