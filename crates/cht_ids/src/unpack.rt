ghost use Rattle.std.specs.Prelude.{◌≡◌};
ghost use Rattle.cht_ids.specs.declared.unpack.Unpack.TheVariants.{Memory as OutOfMemory};

use crate::Memory;
use std::alloc::AllocError;
use thiserror::Error;

/// Why bytes gave no chunk.
#[derive(Clone, Copy, Debug, PartialEq, Eq, Error)]
pub enum Unpack {
    /// No chunk has these bytes.
    #[error("no chunk has these bytes")]
    NotChunk,
    /// An allocation was refused.
    #[error("out of memory")]
    Memory,
}

impl From<Memory> for Unpack {
    ghost from_gives = { λ _ unpack. unpack ≡ OutOfMemory };

    fn from(_: Memory) -> Unpack {
        Unpack::Memory
    }
}

impl From<AllocError> for Unpack {
    ghost from_gives = { λ _ unpack. unpack ≡ OutOfMemory };

    fn from(_: AllocError) -> Unpack {
        Unpack::Memory
    }
}
