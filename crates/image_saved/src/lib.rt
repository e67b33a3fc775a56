//! The laws that what a sound world saves without a refusal can be loaded wherever its permanents are known.
#![tactic(auto)]

ghost use Rattle.image_saved.specs.Permanents.{NamesAreRead};
ghost use Rattle.image_saved.specs.Saved.{SavedCanLoad};

/// A permanent that is written by its key is read as the object that stands for it, and the prelude's environment as the other prelude's.
pub fn names_are_read()
    ensures { NamesAreRead }
{}

/// What a sound world saves without a refusal can be loaded into a sound world whose permanents are the inverse ones, so `loaded_worlds_agree` speaks of it.
pub fn saved_images_can_be_loaded()
    ensures { SavedCanLoad }
{}
