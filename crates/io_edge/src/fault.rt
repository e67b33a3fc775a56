// What a device answers where it doesn't do what was asked, and the count of its faults.
ghost use Rattle.std.specs.Prelude.{◌≡◌, true};
ghost use Rattle.io_edge.specs.Causes.{HasCause};
ghost use Rattle.io_edge.specs.declared.fault.FileFault.TheVariants.{Failed as failed, Memory as memory};

use std::alloc::AllocError;
use std::marker::Model;

/// The device failed, and counted it.
#[derive(Clone, Copy, Debug, PartialEq, Eq)]
pub struct Failed;

/// Why a file wasn't read.
#[derive(Clone, Copy, Debug, PartialEq, Eq)]
pub enum FileFault {
    /// The device failed, and counted it.
    Failed,
    /// There is no file of that name.
    Absent,
    /// There is no memory for the file's bytes.
    Memory,
}

/// How many times a device failed, which stops at 2^64 - 1.
#[derive(Debug, Drop)]
pub(crate) struct FaultCount {
    count: u64,
}

impl Model for FaultCount {
    ghost use Rattle.std.specs.Prelude.{ℕ};

    ghost Value = { ℕ };

    ghost view = { λ faults. faults.count };
}

impl FaultCount {
    /// The device has not failed yet.
    pub(crate) fn new() -> FaultCount
        ensures { result ≡ 0 }
    {
        FaultCount { count: 0 }
    }

    /// Counts a fault.
    pub(crate) fn fail(&mut self) -> Failed
        ensures { HasCause self.old self.new true }
    {
        self.count = self.count.saturating_add(1);
        Failed
    }
}

impl From<Failed> for FileFault {
    ghost from_gives = { λ _ fault. fault ≡ failed };

    fn from(_: Failed) -> FileFault {
        FileFault::Failed
    }
}

impl From<AllocError> for FileFault {
    ghost from_gives = { λ _ fault. fault ≡ memory };

    fn from(_: AllocError) -> FileFault {
        FileFault::Memory
    }
}
