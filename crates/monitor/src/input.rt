//! The input side of a channel.
use volume::Pin;
use words36::{FileName, Ppn};

/// The input side of a channel: the version that LOOKUP found, or the one that the channel updates or has published
/// since; the volume has it pinned for this side.
#[derive(Clone, Copy, Debug, PartialEq, Eq)]
pub struct Input {
    /// The version.
    pub pin: Pin,
    /// Whose directory it was found in.
    pub ppn: Ppn,
    /// Its name there.
    pub file: FileName,
    /// The protection that the file had when it was found; RENAME may have changed the file's since.
    pub protection: u16,
    /// The block that is read next, counted from 1.
    pub next: u32,
}
