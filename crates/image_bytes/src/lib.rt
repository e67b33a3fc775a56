//! The bytes of an image as formats, each of which says how a value is spelled, how it is read, and where it may stand.
#![tactic(auto)]

ghost use Rattle.image_bytes.specs.ReadBack.{ImagesReadBack};

/// An image that may stand is read back from the bytes that spell it, and nothing is left over.
pub fn images_are_read_back()
    ensures { ImagesReadBack }
{}
