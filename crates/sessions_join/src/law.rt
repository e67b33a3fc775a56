// The law of sessions one after another.
ghost use Rattle.sessions_join.specs.Laws.{SessionsAreOneRun};

use image_bytes::images_are_read_back;
use images_stand::sessions_stand;
use session_images::sessions_can_resume;
use sessions_resume::saved_sessions_go_on;

/// Over any cutting of some lines into sessions, each but the first loaded from the bytes that the one before saved: what they print, joined, is what one run
/// prints on all lines, and the last one closes as that run does.
pub fn sessions_are_one_run()
    ensures { SessionsAreOneRun }
{
    images_are_read_back();
    sessions_stand();
    sessions_can_resume();
    saved_sessions_go_on();
}
