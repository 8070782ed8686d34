//! The identity of a file of the host.

/// Which file a path leads to, by the system's numbers for it.
#[derive(Clone, Copy, Debug, PartialEq, Eq)]
pub struct FileId {
    /// The number of the device that the file is on.
    pub device: u64,
    /// The number of the file on that device.
    pub inode: u64,
}
