// The law of the prelude's environment in sessions that are loaded.
ghost use Rattle.prelude_loads.specs.Law.{LoadedStays};

use image_load::sessions_go_on;
use prelude_stays::prelude_stays;
use session_images::{sessions_can_resume, worlds_have_the_prelude};

/// Where no value that a script reaches is the environment of the prelude in a session that waits for a line, none is in the session that is loaded from its
/// image, where the prelude's code passes the test. So what a loaded session does is no further danger to the environment than what the saved one would have done.
pub fn loaded_sessions_stay()
    ensures { LoadedStays }
{
    prelude_stays();
    sessions_can_resume();
    sessions_go_on();
    worlds_have_the_prelude();
}
