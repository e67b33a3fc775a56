// Why no image was written.
ghost use Rattle.std.specs.Prelude.{◌≡◌};
ghost use Rattle.eris_write.specs.declared.fault.PersistFault.TheVariants.{Memory};
ghost use Rattle.eris_write.specs.Refusals.{kind_of};

use std::alloc::AllocError;
use thiserror::Error;

/// What an image cannot hold (Eris's manual, `eris.persist`).
#[derive(Debug, Clone, Copy, PartialEq, Eq, Error)]
pub enum Refusal {
    /// A primitive function, or a function of the prelude, that is no permanent.
    #[error("a library function without a permanent")]
    LibraryFunction,
    /// A coroutine that runs, or that resumed another.
    #[error("a coroutine that has not yielded")]
    ActiveCoroutine,
    /// Two permanents with one key.
    #[error("two permanents with one key")]
    EqualKeys,
}

/// Why no image was written.
#[derive(Debug, Clone, Copy, PartialEq, Eq, Error)]
pub enum PersistFault {
    /// What the roots reach, or the permanents, cannot be written.
    #[error("refused: {0}")]
    Refused(Refusal),
    /// The image would have over 2,147,483,647 bytes.
    #[error("an image of over 2,147,483,647 bytes")]
    TooLarge,
    /// Memory ran out.
    #[error("out of memory")]
    Memory,
}

impl Refusal {
    /// The kind of the refusal as a number.
    pub fn kind(self) -> u8
        ensures { result ≡ kind_of self }
    {
        match self {
            Refusal::LibraryFunction => 1,
            Refusal::ActiveCoroutine => 2,
            Refusal::EqualKeys => 5,
        }
    }
}

impl From<AllocError> for PersistFault {
    ghost from_gives = { λ _ fault. fault ≡ Memory };

    fn from(_: AllocError) -> PersistFault {
        PersistFault::Memory
    }
}
