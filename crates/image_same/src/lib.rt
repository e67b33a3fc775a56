//! The laws that worlds that agree have the same image, and that an image names its records in the order in which they are first met.
#![tactic(auto)]

ghost use Rattle.image_same.specs.Same.{ImagesInOrder, ImagesSame};

/// Worlds that agree have the same images: renaming objects, and objects that are not reached, do not show.
pub fn same_images()
    ensures { ImagesSame }
{}

/// The image of a world names its records in the order in which a reader wants them: each number is one that was named before or the next one,
/// each record is named before its place, and all are named.
pub fn images_are_in_order()
    ensures { ImagesInOrder }
{}
