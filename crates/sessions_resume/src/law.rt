// The laws of sessions in worlds that agree.
ghost use Rattle.sessions_resume.specs.Laws.{OnwardAlike, RunsAlike, SavedSessionsGoOn, TurnsAlike};

use image_load::sessions_go_on;

/// Turns from worlds that agree end alike, in worlds that agree again. So code prints the same there on the same lines and budget, and
/// ends in the same way.
pub fn runs_go_alike()
    ensures turns { TurnsAlike }
    ensures runs { RunsAlike }
    ensures onward { OnwardAlike }
{}

/// A session that was saved and loaded prints what it would have printed, on any further lines and with any budget, and ends in the
/// same way, in a world that agrees with the one that it would have left.
pub fn saved_sessions_go_on()
    ensures { SavedSessionsGoOn }
{
    sessions_go_on();
}
