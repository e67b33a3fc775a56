// The laws of sessions that are loaded again.
ghost use Rattle.sessions_load.specs.Law.{LoadedGoesOn, OnwardIsLoadable, OnwardKeepsPrelude, PreludesAreKnown, RunIsLoadable, RunKeepsPrelude};

use image_load::sessions_go_on;
use image_saved::names_are_read;
use images_joined::the_reader_knows;
use images_stand::sessions_stand;
use prelude_loads::loaded_sessions_stay;
use prelude_stays::prelude_stays;
use session_images::sessions_can_resume;

/// The loading of sessions has the code of each function of the prelude under its key.
pub fn preludes_are_known()
    ensures { PreludesAreKnown }
{
    names_are_read();
}

/// Where code runs until it waits for a line, or a loaded session goes on until it does, and is saved then, the bytes are accepted as an image: there is a
/// session of them, which is sound and waits for a line. It goes on, on any lines that strings can hold and with any budget.
pub fn saved_sessions_load()
    ensures run { RunIsLoadable }
    ensures onward { OnwardIsLoadable }
    ensures goes_on { LoadedGoesOn }
{
    preludes_are_known();
    sessions_go_on();
    the_reader_knows();
    sessions_stand();
    sessions_can_resume();
}

/// Where the prelude's code passes the test, and a run of code waits for a line, or a session does that was loaded from what such a one was saved as, no value that a
/// script reaches is the prelude's environment: so the prelude is as it was made, however often a script is saved and loaded.
pub fn sessions_keep_the_prelude()
    ensures run { RunKeepsPrelude }
    ensures onward { OnwardKeepsPrelude }
{
    prelude_stays();
    loaded_sessions_stay();
    preludes_are_known();
    the_reader_knows();
    sessions_stand();
}
