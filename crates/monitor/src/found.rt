//! What may be found at a place of a volume.

/// What is at a place of a volume.
#[derive(Clone, Copy, Debug, PartialEq, Eq)]
pub enum Found {
    /// There is no such directory.
    NoDirectory,
    /// The directory, of this protection, has no such file.
    Absent(u16),
    /// There is a file: the protection of the directory, and its own.
    Present(u16, u16),
}
