//! What a rename changes of a file.
use words36::{FileName, Ppn};

/// A move of a file to a place, its own or another one, with its new protection.
#[derive(Clone, Copy)]
pub(crate) struct Move {
    /// The directory that has the file.
    pub ppn: Ppn,
    /// Its name there.
    pub name: FileName,
    /// The directory that it moves to, the same or another one.
    pub to_ppn: Ppn,
    /// Its new name there.
    pub to: FileName,
    /// Its new protection.
    pub protection: u16,
}
