//! The handles by which a caller knows versions.

/// A pinned version, as a caller knows it. It is live from `pin` until `unpin`.
#[derive(Clone, Copy, Debug, PartialEq, Eq)]
pub struct Pin {
    /// Its key in memory.
    pub key: usize,
}

/// A version that is being written, as a caller knows it. It is live from `begin` until `discard`.
#[derive(Clone, Copy, Debug, PartialEq, Eq)]
pub struct Pending {
    /// Its key in memory.
    pub key: usize,
}

/// A version whose words can be read.
#[derive(Clone, Copy, Debug, PartialEq, Eq)]
pub enum VersionHandle {
    /// One that is pinned.
    Pinned(Pin),
    /// One that is being written.
    Pending(Pending),
}
