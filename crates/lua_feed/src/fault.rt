// Why a script is not fed to its end.
ghost use Rattle.std.specs.Prelude.{◌≡◌};
ghost use Rattle.lua_feed.specs.Faults.{fault_of_line};

use io_edge::{Failed, LineFault};
use std::alloc::AllocError;
use thiserror::Error;

/// Why it is not known how the run on an input's lines closes.
#[derive(Debug, Clone, Copy, PartialEq, Eq, Error)]
pub enum FeedFault {
    /// Reading failed, and was counted.
    #[error("reading the input failed")]
    Input,
    /// Writing failed, and was counted.
    #[error("writing the output failed")]
    Output,
    /// A line of the input, or the input up to its end, is too long.
    #[error("a line of the input is too long")]
    Limit,
    /// Memory ran out.
    #[error("out of memory")]
    Memory,
}

impl From<Failed> for FeedFault {
    ghost use Rattle.lua_feed.specs.declared.fault.FeedFault.TheVariants.{Output};

    ghost from_gives = { λ _ made. made ≡ Output };

    fn from(_: Failed) -> FeedFault {
        FeedFault::Output
    }
}

impl From<LineFault> for FeedFault {
    ghost from_gives = { λ fault made. made ≡ fault_of_line fault };

    fn from(fault: LineFault) -> FeedFault {
        match fault {
            LineFault::Failed => FeedFault::Input,
            LineFault::Limit => FeedFault::Limit,
            LineFault::Memory => FeedFault::Memory,
        }
    }
}

impl From<AllocError> for FeedFault {
    ghost use Rattle.lua_feed.specs.declared.fault.FeedFault.TheVariants.{Memory};

    ghost from_gives = { λ _ made. made ≡ Memory };

    fn from(_: AllocError) -> FeedFault {
        FeedFault::Memory
    }
}
