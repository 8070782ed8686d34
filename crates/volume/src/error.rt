//! Why calls of a volume fail.
ghost use Rattle.std.specs.Prelude.{◌≡◌};

use blockdisk::NoMemory;
use directory::DirectoryError;
use spec_image::ErrorCode;
use thiserror::Error;

/// Why a call of a volume failed.
#[derive(Clone, Copy, Debug, PartialEq, Eq, Error)]
pub enum VolumeError {
    /// The disk has a number of blocks that no volume has, or neither home copy has the name.
    #[error("not a volume")]
    NotVolume,
    /// A home copy has the name, but none is valid.
    #[error("bad home blocks")]
    BadHome,
    /// The gate is open, but the log is bad.
    #[error("bad log")]
    BadLog,
    /// This block of a directory is damaged or invalid.
    #[error("bad directory block {0}")]
    BadDirectory(u32),
    /// This prime block or extension is damaged or invalid.
    #[error("bad retrieval block {0}")]
    BadRetrieval(u32),
    /// This block is reached twice.
    #[error("block {0} reached twice")]
    BlockTwice(u32),
    /// This block of the allocation table is damaged, or has a wrong bit.
    #[error("wrong block {0} of the allocation table")]
    TableWrong(u32),
    /// The device failed.
    #[error("device fault")]
    Device,
    /// There was not enough memory.
    #[error("out of memory")]
    NoMemory,
    /// An earlier call met a fault, and the volume has failed.
    #[error("failed before")]
    Failed,
    /// This data block is damaged.
    #[error("bad data block {0}")]
    BadData(u32),
}

impl From<NoMemory> for VolumeError {
    ghost use Rattle.volume.specs.declared.error.VolumeError.TheVariants.{NoMemory};

    ghost from_gives = { λ refused error. error ≡ NoMemory };

    fn from(_refused: NoMemory) -> VolumeError {
        VolumeError::NoMemory
    }
}

impl From<DirectoryError> for VolumeError {
    ghost use Rattle.volume.specs.Common.{error_of_chain};

    ghost from_gives = { λ refused error. error ≡ error_of_chain refused };

    fn from(refused: DirectoryError) -> VolumeError {
        match refused {
            DirectoryError::BadDirectory(n) => VolumeError::BadDirectory(n),
            DirectoryError::BlockTwice(n) => VolumeError::BlockTwice(n),
            DirectoryError::Device => VolumeError::Device,
            DirectoryError::NoMemory => VolumeError::NoMemory,
        }
    }
}

/// Why a call of an opened volume was refused.
#[derive(Clone, Copy, Debug, PartialEq, Eq, Error)]
pub enum CallError {
    /// The call's own answer: nothing was changed.
    #[error("refused")]
    Refused(ErrorCode),
    /// The device failed, and the volume with it: each later call that reads or changes files is answered `Failed`.
    #[error("device fault")]
    Device,
    /// There was not enough memory: nothing was changed.
    #[error("out of memory")]
    NoMemory,
    /// The volume failed before, or the disk broke an earlier promise.
    #[error("failed before")]
    Failed,
}

/// Why an image wasn't copied.
#[derive(Clone, Copy, Debug, PartialEq, Eq, Error)]
pub enum CopyError {
    /// The source is refused, or its device failed.
    #[error("source: {0}")]
    Source(VolumeError),
    /// The device of the copy failed.
    #[error("device fault of the copy")]
    Target,
}
