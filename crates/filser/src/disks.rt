//! What is left of a disk after a run.
use crate::RemovalRight;

/// What is left of the disk of an image, or of its file, after a run. `L` is the leave to open or to make the file, `F`
/// a file, `D` the disk in a file, and `I` the same disk with some of its blocks cached in memory.
#[derive(Drop)]
pub enum Disks<L, F, D, I> {
    /// No file was requested.
    Unasked(L),
    /// A file was requested, and there was none, or it was dropped before a disk was made of it.
    None,
    /// A file that isn't an image.
    NoImage(F),
    /// The disk of an image on which no service was started.
    Unserved(D),
    /// The disk of an image that was served or migrated, or that a start refused.
    Served(I),
    /// The disk of a new image that is complete, and the right to remove its file, which wasn't used.
    Made(D, RemovalRight),
}
