// Why the prelude is not compiled.
ghost use Rattle.std.specs.Prelude.{◌≡◌};

use compile_text::TextFault;
use std::alloc::AllocError;
use thiserror::Error;

/// Why there is no code of the prelude.
#[derive(Debug, Drop, Error)]
pub enum PreludeFault {
    /// Its text is no source, has not a function for each of the names, or has one that does not keep its environment to itself; a test shows that it is one, and
    /// that all do.
    #[error("prelude refused")]
    Refused,
    /// Memory ran out.
    #[error("out of memory")]
    Memory,
}

impl From<TextFault> for PreludeFault {
    ghost use Rattle.prelude_code.specs.Prelude.{fault_of};

    ghost from_gives = { λ fault made. made ≡ fault_of fault };

    fn from(fault: TextFault) -> PreludeFault {
        match fault {
            TextFault::Source { .. } => PreludeFault::Refused,
            TextFault::Rule { .. } => PreludeFault::Refused,
            TextFault::Memory => PreludeFault::Memory,
        }
    }
}
