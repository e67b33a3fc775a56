// The laws of sessions' images.
ghost use Rattle.session_images.specs.Laws.{BegunHasPrelude, FunctionsAreKept, OpeningHasPrelude, SavedCanResume, SessionHasPrelude};

use image_saved::saved_images_can_be_loaded;

/// The world before a script has the prelude, and so have one in which a script begins, and the session that is loaded from an image. Whatever code does, the
/// prelude's functions are still there.
pub fn worlds_have_the_prelude()
    ensures opening { OpeningHasPrelude }
    ensures begun { BegunHasPrelude }
    ensures kept { FunctionsAreKept }
    ensures loaded { SessionHasPrelude }
{}

/// What a sound world saves that waits for a line, and has the prelude, can be loaded into the world before a script; so the laws of sessions that were
/// saved and loaded speak of it.
pub fn sessions_can_resume()
    ensures { SavedCanResume }
{
    saved_images_can_be_loaded();
}
