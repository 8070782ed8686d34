//! Versions that are being written.
ghost use Rattle.std.specs.Prelude.{◌≡◌};
ghost use Rattle.volume.specs.Common.{is_update, is_create};

use retrieval::{Prime, Version};

/// How a version that is being written began.
#[derive(Clone, Copy, Debug, PartialEq, Eq)]
pub enum PendingKind {
    /// A new file, with no words.
    Create,
    /// With no words, to replace the file that has the name.
    Supersede,
    /// With the words of the file that has the name.
    Update,
    /// With its words, too. Words are put only after its blocks; whoever puts them ensures that.
    Append,
}

impl PendingKind {
    /// Returns whether no file of the name may exist yet.
    pub fn is_create(self) -> bool
        ensures { result ≡ is_create self }
    {
        match self {
            PendingKind::Create => true,
            PendingKind::Supersede | PendingKind::Update | PendingKind::Append => false,
        }
    }

    /// Returns whether such a version begins with the words of the file that has the name.
    pub fn is_update(self) -> bool
        ensures { result ≡ is_update self }
    {
        match self {
            PendingKind::Create | PendingKind::Supersede => false,
            PendingKind::Update | PendingKind::Append => true,
        }
    }
}

/// A version that is being written. Nobody else sees it. Its blocks are held in memory; nobody writes those that it
/// shares with the version that it began with.
#[derive(Drop)]
pub struct PendingVersion {
    /// What its prime block will say of it, besides the length.
    pub prime: Prime,
    /// Its length, and where it lies. It has no retrieval blocks yet.
    pub version: Version,
    /// How it began.
    pub kind: PendingKind,
    /// How many of its first blocks must not be written over: for an append all that it began with, else 0.
    pub kept_blocks: u32,
}
