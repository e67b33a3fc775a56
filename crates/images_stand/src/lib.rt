//! The laws that what is written as an image is read back. The definitions stand in `specs/`, and the public functions state what is proved of them.
#![tactic(auto)]

ghost use Rattle.images_stand.specs.Readers.{ReadersKnow};
ghost use Rattle.images_stand.specs.Sessions.{SessionsAccepted, SessionsStand};
ghost use Rattle.images_stand.specs.Standing.{WrittenImagesAccepted, WrittenImagesStand};

use image_bytes::images_are_read_back;
use image_same::images_are_in_order;

/// The image of what a sound world holds, of at most 2,147,483,647 bytes, may stand in its format. So it is read back by any reader that knows its permanents,
/// and accepted where that has their code, too.
pub fn written_images_stand()
    ensures stands { WrittenImagesStand }
    ensures accepted { WrittenImagesAccepted }
{
    images_are_in_order();
    images_are_read_back();
}

/// A reader knows the permanents where it goes by the objects that their keys stand for, and takes checked code for checked.
pub fn readers_know()
    ensures { ReadersKnow }
{}

/// The image of a session that waits for a line may stand in its format, so it is read back by any reader that knows the libraries, and it is accepted where that
/// has the prelude's code, too.
pub fn sessions_stand()
    ensures stands { SessionsStand }
    ensures accepted { SessionsAccepted }
{
    images_are_in_order();
    images_are_read_back();
}
