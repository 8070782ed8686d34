//! Why a version isn't read, or the words of a body aren't read or written.
ghost use Rattle.std.specs.Prelude.{◌≡◌};

use blockdisk::NoMemory;
use std::alloc::AllocError;
use thiserror::Error;

/// Why a version wasn't read.
#[derive(Clone, Copy, Debug, PartialEq, Eq, Error)]
pub enum RetrievalError {
    /// This block, the prime block or an extension, is damaged or invalid.
    #[error("bad retrieval block {0}")]
    BadRetrieval(u32),
    /// The device failed.
    #[error("device fault")]
    Device,
    /// A growth was refused.
    #[error("out of memory")]
    NoMemory,
}

impl From<AllocError> for RetrievalError {
    ghost use Rattle.retrieval.specs.declared.error.RetrievalError.TheVariants.{NoMemory};

    ghost from_gives = { λ refused error. error ≡ NoMemory };

    fn from(_refused: AllocError) -> RetrievalError {
        RetrievalError::NoMemory
    }
}

impl From<NoMemory> for RetrievalError {
    ghost use Rattle.retrieval.specs.declared.error.RetrievalError.TheVariants.{NoMemory};

    ghost from_gives = { λ refused error. error ≡ NoMemory };

    fn from(_refused: NoMemory) -> RetrievalError {
        RetrievalError::NoMemory
    }
}

/// Why the words of a body weren't read or written.
#[derive(Clone, Copy, Debug, PartialEq, Eq, Error)]
pub enum BodyError {
    /// This data block is damaged.
    #[error("bad data block {0}")]
    BadData(u32),
    /// The device failed.
    #[error("device fault")]
    Device,
    /// A growth was refused.
    #[error("out of memory")]
    NoMemory,
}

impl From<AllocError> for BodyError {
    ghost use Rattle.retrieval.specs.declared.error.BodyError.TheVariants.{NoMemory};

    ghost from_gives = { λ refused error. error ≡ NoMemory };

    fn from(_refused: AllocError) -> BodyError {
        BodyError::NoMemory
    }
}

impl From<NoMemory> for BodyError {
    ghost use Rattle.retrieval.specs.declared.error.BodyError.TheVariants.{NoMemory};

    ghost from_gives = { λ refused error. error ≡ NoMemory };

    fn from(_refused: NoMemory) -> BodyError {
        BodyError::NoMemory
    }
}
