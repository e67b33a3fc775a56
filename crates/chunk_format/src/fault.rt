// Why bytes are no chunk.
use std::alloc::{AllocError, AllocFailed};

/// Why a chunk was not read.
#[derive(Clone, Copy, Debug, PartialEq, Eq)]
pub enum ChunkFault {
    /// The bytes are no chunk. The kinds: 1 signature, 2 version, 3 format or data bytes, 4 sizes and test numbers,
    /// 5 a float, 6 the bytes end too early, 7 a number out of range, 8 an unknown byte.
    Refused { kind: u8 },
    /// Memory was wanting.
    Memory,
}

impl From<AllocError> for ChunkFault {
    ghost use Rattle.std.specs.Prelude.{◌≡◌};
    ghost use Rattle.chunk_format.specs.declared.fault.ChunkFault.TheVariants.{Memory};

    ghost from_gives = { λ _ fault. fault ≡ Memory };

    fn from(_: AllocError) -> ChunkFault {
        ChunkFault::Memory
    }
}

impl<T: Drop> From<AllocFailed<T>> for ChunkFault {
    ghost use Rattle.std.specs.Prelude.{◌≡◌};
    ghost use Rattle.chunk_format.specs.declared.fault.ChunkFault.TheVariants.{Memory};

    ghost from_gives = { λ _ fault. fault ≡ Memory };

    fn from(_: AllocFailed<T>) -> ChunkFault {
        ChunkFault::Memory
    }
}
