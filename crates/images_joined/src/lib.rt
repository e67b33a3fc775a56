//! The laws that join the writing and the reading of images: the reader knows the permanents that it was handed, and what was written is read back.
#![tactic(auto)]

ghost use Rattle.images_joined.specs.Law.{InverseCanLoad, ReaderKnows, SessionReaderKnows, WrittenIsHeld, WrittenIsRead, WrittenIsReadByInverse};

use eris_write::law::written_worlds_are_savable;
use images_stand::{readers_know, written_images_stand};

/// The reader by which images are read knows its permanents, and for sessions the libraries.
pub fn the_reader_knows()
    ensures knows { ReaderKnows }
    ensures libraries { SessionReaderKnows }
{
    readers_know();
}

/// What a world in memory was written as is read back with the same permanents: no kind of refusal comes. All that it names is held, in 64 bits where it is an
/// integer.
pub fn what_is_written_is_read()
    ensures held { WrittenIsHeld }
    ensures read { WrittenIsRead }
{
    written_worlds_are_savable();
    readers_know();
    written_images_stand();
}

/// What was written with some permanents is read back with permanents that are their inverse, as `graph_core::inverse` tells. Such permanents are what the laws on
/// loading suppose, also of another world in which each permanent object has the same number.
pub fn what_is_written_is_read_by_the_inverse()
    ensures read { WrittenIsReadByInverse }
    ensures loads { InverseCanLoad }
{
    what_is_written_is_read();
}
