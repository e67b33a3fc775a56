// The laws of calls of the program on one script, and of images of scripts that wait for a line.
ghost use Rattle.calls_mean.specs.Law.{CallsMean, CallsMeanOne};
ghost use Rattle.calls_mean.specs.Resumes.{ResumesAsMeant, SavedGoesOn, SavedIsNotRefused, SavedIsUnchanged};
ghost use Rattle.calls_mean.specs.SavedImages.{SavedImagesStand};
ghost use Rattle.calls_mean.specs.Stands.{SavedCallsStand};

use image_bytes::images_are_read_back;
use images_joined::the_reader_knows;
use images_stand::sessions_stand;
use library_sound::law::library_is_safe;
use loaded_code::loading_is_safe;
use prelude_stays::runs_have_the_prelude;
use scripts_mean::prelude_is_alike;
use session_images::sessions_can_resume;
use sessions_load::{saved_sessions_load, sessions_keep_the_prelude};
use sessions_mean::sessions_do_as_they_mean;
use sessions_resume::saved_sessions_go_on;
use source_laws::code_of_sources_is_checked;

/// For each script in a file, every budget, and calls of the program one after another, of which the first runs the script and each further one resumes the
/// session that the one before saved: what the calls write, joined, is what the script means on the lines of all inputs by the letter of the manual, and the
/// status of the last call is that of how the script ends by its meaning. Sources that the script loads are read there as in the calls.
pub fn calls_do_as_they_mean()
    ensures means { CallsMean }
    ensures one { CallsMeanOne }
{
    the_reader_knows();
    prelude_is_alike();
    sessions_do_as_they_mean();
}

/// What a call of `run` or `resume` saved, no call of `resume` answers with 8: its session does something on any lines that strings can hold and with any
/// budget, which by the clauses of `resume` is what is written and answered. After calls on a script or a chunk, each of which resumed what the one before saved,
/// none answers 12 either: no code changes what saving looks at of the libraries. So after calls on a script a call whose arguments, files and devices are right and
/// which keeps within the limits and its memory writes exactly what is left of what the script means on all lines, and its status is that of how the script ends
/// by its meaning.
pub fn saved_calls_resume()
    ensures taken { SavedIsNotRefused }
    ensures goes_on { SavedGoesOn }
    ensures unchanged { SavedIsUnchanged }
    ensures meant { ResumesAsMeant }
{
    calls_do_as_they_mean();
    prelude_is_alike();
    code_of_sources_is_checked();
    loading_is_safe();
    runs_have_the_prelude();
    saved_sessions_load();
    sessions_keep_the_prelude();
}

/// Where the run of a script's code waits for a line at the end of some lines, and is saved, the script's meaning on these lines waits as well, and the bytes
/// stand for it: they are read as a session that goes on, on all further lines and with every budget, as the manual says that the script does. Both print the
/// same and end alike, and neither does anything else. The script need not be looked at again: its image is enough.
pub fn saved_images_stand()
    ensures { SavedImagesStand }
{
    images_are_read_back();
    the_reader_knows();
    sessions_stand();
    library_is_safe();
    loading_is_safe();
    sessions_can_resume();
    saved_sessions_load();
    saved_sessions_go_on();
}

/// Where a call of `run` on a script answers 3 and has saved the session, what the script means on the lines of the input is suspended, and the bytes in the
/// file stand for that: they are read as a session that goes on, on all further lines and with every budget, as the script does by the letter of the manual.
pub fn saved_calls_stand()
    ensures { SavedCallsStand }
{
    prelude_is_alike();
    saved_images_stand();
}
