//! The error of loading a table.
ghost use Rattle.std.specs.Prelude.{◌≡◌};

use std::alloc::AllocError;
use thiserror::Error;

/// Why a table can't be loaded.
#[derive(Clone, Copy, Debug, PartialEq, Eq, Error)]
pub enum TableError {
    /// This block of the table is damaged, or has a bit set for a block past the end of the disk.
    #[error("wrong block {0} of the allocation table")]
    TableWrong(u32),
    /// An allocation was refused.
    #[error("no memory")]
    NoMemory,
    /// The device failed.
    #[error("device fault")]
    Device,
}

impl From<AllocError> for TableError {
    ghost use Rattle.alloctab.specs.declared.error.TableError.TheVariants.{NoMemory};

    ghost from_gives = { λ refused error. error ≡ NoMemory };

    fn from(_refused: AllocError) -> TableError {
        TableError::NoMemory
    }
}
