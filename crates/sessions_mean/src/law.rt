// The law of a script's sessions.
ghost use Rattle.sessions_mean.specs.Law.{SessionsMean, SessionsMeanOne};

use loaded_code::loading_is_safe;
use machine_runs::runs_are_one;
use scripts_mean::scripts_do_as_they_mean;
use sessions_join::sessions_are_one_run;

/// For each source that the grammar reads as a tree without violations of the static rules, all lines of input, every budget and every cutting of the lines
/// into sessions, each but the first loaded from the bytes that the one before saved: what the sessions print, joined, is what the tree prints on all lines
/// by the letter of the manual, and the last session ends as the tree does. What scripts load is built in both as one function of sources says.
pub fn sessions_do_as_they_mean()
    ensures means { SessionsMean }
    ensures one { SessionsMeanOne }
{
    loading_is_safe();
    runs_are_one();
    scripts_do_as_they_mean();
    sessions_are_one_run();
}
