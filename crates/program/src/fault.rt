// Why a call has a line on standard error.
ghost use Rattle.std.specs.Prelude.{◌≡◌};
ghost use Rattle.program.specs.Faults.{fault_of_check, fault_of_chunk, fault_of_feeding, fault_of_file, fault_of_prelude, fault_of_saving, fault_of_text};
ghost use Rattle.program.specs.Report.{status_of_fault};

use chunk_check::CheckFault;
use chunk_format::ChunkFault;
use compile_text::TextFault;
use graph_core::PermanentKey;
use io_edge::{Failed, FileFault};
use lua_feed::FeedFault;
use lua_saving::SaveFault;
use prelude_code::PreludeFault;
use std::alloc::{AllocError, AllocFailed};
use thiserror::Error;

/// Why a call has a line on standard error.
#[derive(Debug, Drop, Error)]
pub enum Fault {
    /// The arguments are no command.
    #[error("wrong words")]
    Words,
    /// There is no file of that name.
    #[error("no such file")]
    Absent,
    /// The text of the prelude is no source; a test shows that it is one. Or a session is to be saved whose script changed the prelude.
    #[error("prelude refused")]
    Prelude,
    /// A place of the source begins no token, or a token cannot stand where it does.
    #[error("source refused at line {line}")]
    Refused { line: u32 },
    /// The source breaks a static rule, or the limit on its bytes, which is rule 13.
    #[error("source refused by rule {rule} at line {line}")]
    Rule { rule: u8, line: u32 },
    /// The bytes are no chunk: the kind of their first fault.
    #[error("chunk refused: kind {kind}")]
    NoChunk { kind: u8 },
    /// The chunk's code may not run: the first function, place and rule that is broken.
    #[error("chunk refused: rule {rule} at function {function} pc {pc}")]
    BrokenRule { function: u32, pc: u32, rule: u8 },
    /// A turn of the script spent its budget.
    #[error("budget spent")]
    Spent,
    /// A device failed, which its count tells.
    #[error("device fault")]
    Device,
    /// A line of the input, or the input up to its end, is too long.
    #[error("input limit")]
    InputLimit,
    /// The image of the session that waits has too many bytes.
    #[error("image too large")]
    TooLarge,
    /// The bytes are no session's image: the kind of their first fault.
    #[error("image refused: kind {kind}")]
    NoImage { kind: u8 },
    /// The image names a permanent by this key that is not there, or is of another kind.
    #[error("image refused: kind {kind}")]
    NoPermanent { kind: u8, key: PermanentKey },
    /// Memory ran out.
    #[error("out of memory")]
    Memory,
}

impl Fault {
    /// The status that the program ends with.
    pub fn status(&self) -> u8
        ensures { result ≡ status_of_fault self.now }
    {
        match self {
            Fault::Words => 2,
            Fault::Spent => 4,
            Fault::Refused { line: _ } | Fault::Rule { rule: _, line: _ } => 5,
            Fault::Device => 6,
            Fault::InputLimit | Fault::TooLarge => 7,
            Fault::NoChunk { kind: _ } | Fault::NoImage { kind: _ } => 8,
            Fault::NoPermanent { kind: _, key: _ } => 8,
            Fault::BrokenRule {
                function: _,
                pc: _,
                rule: _,
            } => 8,
            Fault::Memory => 9,
            Fault::Absent => 11,
            Fault::Prelude => 12,
        }
    }
}

impl<T: Drop> From<AllocFailed<T>> for Fault {
    ghost use Rattle.program.specs.declared.fault.Fault.TheVariants.{Memory};

    ghost from_gives = { λ _ made. made ≡ Memory };

    fn from(_: AllocFailed<T>) -> Fault {
        Fault::Memory
    }
}

impl From<AllocError> for Fault {
    ghost use Rattle.program.specs.declared.fault.Fault.TheVariants.{Memory};

    ghost from_gives = { λ _ made. made ≡ Memory };

    fn from(_: AllocError) -> Fault {
        Fault::Memory
    }
}

impl From<Failed> for Fault {
    ghost use Rattle.program.specs.declared.fault.Fault.TheVariants.{Device};

    ghost from_gives = { λ _ made. made ≡ Device };

    fn from(_: Failed) -> Fault {
        Fault::Device
    }
}

impl From<FileFault> for Fault {
    ghost from_gives = { λ fault made. made ≡ fault_of_file fault };

    fn from(fault: FileFault) -> Fault {
        match fault {
            FileFault::Failed => Fault::Device,
            FileFault::Absent => Fault::Absent,
            FileFault::Memory => Fault::Memory,
        }
    }
}

impl From<PreludeFault> for Fault {
    ghost from_gives = { λ fault made. made ≡ fault_of_prelude fault };

    fn from(fault: PreludeFault) -> Fault {
        match fault {
            PreludeFault::Refused => Fault::Prelude,
            PreludeFault::Memory => Fault::Memory,
        }
    }
}

impl From<TextFault> for Fault {
    ghost from_gives = { λ fault made. made ≡ fault_of_text fault };

    fn from(fault: TextFault) -> Fault {
        match fault {
            TextFault::Source { line } => Fault::Refused { line },
            TextFault::Rule { rule, line } => Fault::Rule { rule, line },
            TextFault::Memory => Fault::Memory,
        }
    }
}

impl From<ChunkFault> for Fault {
    ghost from_gives = { λ fault made. made ≡ fault_of_chunk fault };

    fn from(fault: ChunkFault) -> Fault {
        match fault {
            ChunkFault::Refused { kind } => Fault::NoChunk { kind },
            ChunkFault::Memory => Fault::Memory,
        }
    }
}

impl From<CheckFault> for Fault {
    ghost from_gives = { λ fault made. made ≡ fault_of_check fault };

    fn from(fault: CheckFault) -> Fault {
        match fault {
            CheckFault::Refused { function, pc, rule } => Fault::BrokenRule { function, pc, rule },
            CheckFault::Memory => Fault::Memory,
        }
    }
}

impl From<FeedFault> for Fault {
    ghost from_gives = { λ fault made. made ≡ fault_of_feeding fault };

    fn from(fault: FeedFault) -> Fault {
        match fault {
            FeedFault::Input | FeedFault::Output => Fault::Device,
            FeedFault::Limit => Fault::InputLimit,
            FeedFault::Memory => Fault::Memory,
        }
    }
}

impl From<SaveFault> for Fault {
    ghost from_gives = { λ fault made. made ≡ fault_of_saving fault };

    fn from(fault: SaveFault) -> Fault {
        match fault {
            SaveFault::TooLarge => Fault::TooLarge,
            SaveFault::Prelude => Fault::Prelude,
            SaveFault::Memory => Fault::Memory,
        }
    }
}
