//! Why a disk isn't surveyed, or the words of a file aren't read.
ghost use Rattle.std.specs.Prelude.{◌≡◌};

use blockdisk::NoMemory;
use thiserror::Error;

/// Why a disk wasn't surveyed, or the words of a file weren't read.
#[derive(Clone, Copy, Debug, PartialEq, Eq, Error)]
pub enum SalvageError {
    /// The disk has a number of blocks that no volume has.
    #[error("not a volume")]
    NotVolume,
    /// The device failed.
    #[error("device fault")]
    Device,
    /// A growth was refused.
    #[error("out of memory")]
    NoMemory,
}

impl From<NoMemory> for SalvageError {
    ghost use Rattle.salvage.specs.declared.error.SalvageError.TheVariants.{NoMemory};

    ghost from_gives = { λ refused error. error ≡ NoMemory };

    fn from(_refused: NoMemory) -> SalvageError {
        SalvageError::NoMemory
    }
}
