// Why bytes are not read as an image.
use image_records::Key;
use std::alloc::{AllocError, AllocFailed};
use thiserror::Error;

/// Why an image was not read.
#[derive(Debug, Clone, Copy, Error)]
pub enum ReadFault<'a> {
    /// The bytes are no image that may be read here.
    #[error("image refused: {0}")]
    Refused(Refusal<'a>),
    /// Memory ran out.
    #[error("out of memory")]
    Memory,
}

/// The first fault in the order of an image's bytes, in the order of its kinds, which count from 1.
#[derive(Debug, Clone, Copy, Error)]
pub enum Refusal<'a> {
    /// The first four bytes are not those of an image.
    #[error("its first bytes are no image's")]
    Signature,
    #[error("it is of another version")]
    Version,
    /// The bytes end too early.
    #[error("its bytes end too early")]
    CutOff,
    /// A number is out of its range: a length, a count, or the number of a record.
    #[error("a number is out of range")]
    OutOfRange,
    /// An unknown tag, a value of a sort that may not stand there, or a key of a row that is nil or stands twice.
    #[error("a value may not stand in its place")]
    OutOfPlace,
    /// Code that is no function, or breaks a rule on code.
    #[error("its code may not run")]
    Code,
    /// The key of a permanent that is not known here.
    #[error("a permanent is missing")]
    Missing(Key<'a>),
    /// The key of a permanent that is of another sort here.
    #[error("a permanent is of another sort")]
    OtherSort(Key<'a>),
    /// A frame does not fit the instruction at which it waits, or an open cell names no register of its own.
    #[error("a frame does not fit its code")]
    Unfit,
    /// Bytes are left over.
    #[error("bytes are left over")]
    LeftOver,
}

impl Refusal<'_> {
    ghost use Rattle.std.specs.Prelude.{◌≡◌};
    ghost use Rattle.image_reading.specs.Faults.{fault};

    /// The number of its kind, from 1 to 10.
    pub fn kind(&self) -> u8
        ensures { result ≡ (fault self.now).kind }
    {
        match self {
            Refusal::Signature => 1,
            Refusal::Version => 2,
            Refusal::CutOff => 3,
            Refusal::OutOfRange => 4,
            Refusal::OutOfPlace => 5,
            Refusal::Code => 6,
            Refusal::Missing(_) => 7,
            Refusal::OtherSort(_) => 8,
            Refusal::Unfit => 9,
            Refusal::LeftOver => 10,
        }
    }
}

impl<'a> From<AllocError> for ReadFault<'a> {
    ghost use Rattle.std.specs.Prelude.{◌≡◌};
    ghost use Rattle.image_reading.specs.declared.fault.ReadFault.TheVariants.{Memory};

    ghost from_gives = { λ _ fault. fault ≡ Memory };

    fn from(_: AllocError) -> ReadFault<'a> {
        ReadFault::Memory
    }
}

impl<'a, T: Drop> From<AllocFailed<T>> for ReadFault<'a> {
    ghost use Rattle.std.specs.Prelude.{◌≡◌};
    ghost use Rattle.image_reading.specs.declared.fault.ReadFault.TheVariants.{Memory};

    ghost from_gives = { λ _ fault. fault ≡ Memory };

    fn from(_: AllocFailed<T>) -> ReadFault<'a> {
        ReadFault::Memory
    }
}
