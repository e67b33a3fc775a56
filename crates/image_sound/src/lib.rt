//! The laws that a world that is loaded from an image is sound, whatever bytes the image was read from, and that what a sound world reaches can be written.
#![tactic(auto)]

ghost use Rattle.image_sound.specs.Fitting.{AcceptedIsSound};
ghost use Rattle.image_sound.specs.Reads.{NumbersNameRecords, ReadImagesRight};
ghost use Rattle.image_sound.specs.Savable.{OpenCellsThere, SavableIsWritten};
ghost use Rattle.image_sound.specs.SoundImage.{LoadedSound};

/// A sound world with the objects of a sound image after its own is sound.
pub fn loaded_worlds_are_sound()
    ensures { LoadedSound }
{}

/// What a sound world reaches can be written, where no coroutine of it runs or resumed another; and open cells name registers that are there.
pub fn sound_worlds_can_be_written()
    ensures written { SavableIsWritten }
    ensures there { OpenCellsThere }
{}

/// What is read of an image is right in all that soundness wants but that each frame fits its wait, and each number is that of a record.
pub fn read_images_are_right()
    ensures right { ReadImagesRight }
    ensures numbers { NumbersNameRecords }
{}

/// What a reader accepts, whatever bytes came, is an image that leaves a sound world sound.
pub fn accepted_images_are_sound()
    ensures { AcceptedIsSound }
{}
