//! What a survey finds wrong with a disk.
use thiserror::Error;
use volume::VolumeError;
use words36::{FileName, Ppn};

/// What is wrong.
#[derive(Clone, Copy, Debug, PartialEq, Eq, Error)]
pub enum Defect {
    /// A fault with its block, as a start would name it.
    #[error("{0}")]
    Start(VolumeError),
    /// A block of a file, which is free by the allocation table.
    #[error("block {0} is free")]
    FreeBlock(u32),
    /// An extension that continues two files.
    #[error("block {0} reached twice")]
    TwoOwners(u32),
    /// A block that is claimed five times, by files that are read before this one and by it.
    #[error("block {0} reached five times")]
    Crowded(u32),
    /// How many blocks of the volume the image doesn't have: it was cut.
    #[error("blocks missing at the end: {0}")]
    Missing(u32),
    /// How many blocks the image has after the end of the volume.
    #[error("blocks after the end: {0}")]
    Surplus(u32),
    /// How many bytes the image has after its last block.
    #[error("bytes after the last block: {0}")]
    Tail(u32),
}

/// What a fault costs.
#[derive(Clone, Copy, Debug, PartialEq, Eq)]
pub enum Cost {
    /// A file that its directory names isn't in its place.
    File(Ppn, FileName),
    /// A file that no directory names, by what the prime block with this number says.
    Unnamed(Ppn, FileName, u32),
    /// The names in a directory. Its files are searched for by their prime blocks.
    Directory(Ppn),
    /// The names of all directories.
    Directories,
    /// No file that is known: the allocation table isn't valid, or isn't that of the files.
    Nothing,
}

/// A fault, and what it costs.
#[derive(Clone, Copy, Debug, PartialEq, Eq)]
pub struct Finding {
    /// What is wrong.
    pub fault: Defect,
    /// What it costs.
    pub costs: Cost,
}
