//! Why a chain isn't read or changed.
ghost use Rattle.std.specs.Prelude.{◌≡◌};

use blockdisk::NoMemory;
use std::alloc::AllocError;
use thiserror::Error;

/// Why a chain wasn't read or changed.
#[derive(Clone, Copy, Debug, PartialEq, Eq, Error)]
pub enum DirectoryError {
    /// This block of the chain is damaged or invalid.
    #[error("bad directory block {0}")]
    BadDirectory(u32),
    /// This block was reached a second time while the chain was walked.
    #[error("block {0} reached twice")]
    BlockTwice(u32),
    /// The device failed.
    #[error("device fault")]
    Device,
    /// A growth was refused.
    #[error("out of memory")]
    NoMemory,
}

impl From<AllocError> for DirectoryError {
    ghost use Rattle.directory.specs.declared.error.DirectoryError.TheVariants.{NoMemory};

    ghost from_gives = { λ refused error. error ≡ NoMemory };

    fn from(_refused: AllocError) -> DirectoryError {
        DirectoryError::NoMemory
    }
}

impl From<NoMemory> for DirectoryError {
    ghost use Rattle.directory.specs.declared.error.DirectoryError.TheVariants.{NoMemory};

    ghost from_gives = { λ refused error. error ≡ NoMemory };

    fn from(_refused: NoMemory) -> DirectoryError {
        DirectoryError::NoMemory
    }
}
