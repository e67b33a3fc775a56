// Why a text is not made.
ghost use Rattle.std.specs.Prelude.{◌≡◌};
ghost use Rattle.text_functions.specs.declared.fault.StringFault.TheVariants.{Memory};

use std::alloc::AllocError;
use thiserror::Error;

/// Why a text is not made.
#[derive(Clone, Copy, Debug, PartialEq, Eq, Error)]
pub enum StringFault {
    /// It would have more than 16,777,216 bytes.
    #[error("resulting string too large")]
    TooLarge,
    /// Memory ran out.
    #[error("out of memory")]
    Memory,
}

/// What is made within the limit on strings, or why it is not.
pub type Bounded<T> = Result<T, StringFault>;

impl From<AllocError> for StringFault {
    ghost from_gives = { λ _ made. made ≡ Memory };

    fn from(_: AllocError) -> StringFault {
        StringFault::Memory
    }
}
