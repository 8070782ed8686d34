//! The output side of a channel.
use volume::Pending;

/// How an output side began.
#[derive(Clone, Copy, Debug, PartialEq, Eq)]
pub enum OutputKind {
    /// Its name was absent.
    Create,
    /// It will take the place of a file.
    Supersede,
    /// It began with the words of a file, and writes over any of them.
    Update,
    /// It began with the words of a file of this many blocks, and writes only after them.
    Append(u32),
}

/// The output side of a channel. Place, protection, mode and moment of what is written, and its words, are those of
/// the version that the volume writes for it.
#[derive(Clone, Copy, Debug, PartialEq, Eq)]
pub struct Output {
    /// The version.
    pub pending: Pending,
    /// How it began.
    pub kind: OutputKind,
    /// The block that is written next, counted from 1.
    pub next: u32,
}
