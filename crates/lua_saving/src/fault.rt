// Why a session is not saved.
ghost use Rattle.std.specs.Prelude.{◌≡◌};
ghost use Rattle.lua_saving.specs.declared.fault.SaveFault.TheVariants.{Memory};

use std::alloc::AllocError;
use thiserror::Error;

/// Why a session is not saved.
#[derive(Debug, Clone, Copy, PartialEq, Eq, Error)]
pub enum SaveFault {
    /// The functions of the prelude or their variables are not as they were made.
    #[error("prelude refused")]
    Prelude,
    /// The image would have over 2,147,483,647 bytes.
    #[error("image too large")]
    TooLarge,
    /// Memory ran out.
    #[error("out of memory")]
    Memory,
}

impl From<AllocError> for SaveFault {
    ghost from_gives = { λ _ made. made ≡ Memory };

    fn from(_: AllocError) -> SaveFault {
        SaveFault::Memory
    }
}
