//! The faults of a disk, and the error for a refused allocation.
use std::alloc::AllocError;
use thiserror::Error;

/// Why a call of a disk failed.
#[derive(Clone, Copy, Debug, PartialEq, Eq, Error)]
pub enum Fault {
    /// The device failed.
    #[error("device fault")]
    Device,
    /// The block holds no words.
    #[error("damaged block")]
    Damaged,
}

/// An allocation was refused.
#[derive(Clone, Copy, Debug, PartialEq, Eq, Error)]
#[error("no memory")]
pub struct NoMemory;

impl From<AllocError> for NoMemory {
    fn from(_error: AllocError) -> NoMemory {
        NoMemory
    }
}
