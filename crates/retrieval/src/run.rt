//! A run of blocks.
ghost use Rattle.std.specs.Prelude.{◌≤◌};

/// Neighbouring blocks of a disk, at least one.
#[derive(Clone, Copy)]
pub struct Run {
    /// The first of them.
    pub first: u32,
    /// The last of them.
    pub last: u32,
    pub ghost ordered: { first ≤ last },
}
