//! The files that a survey finds.
use volume::LoadedVersion;

/// A file whose retrieval blocks are whole.
#[derive(Drop)]
pub struct SavedFile {
    /// Its prime block.
    pub at: u32,
    /// What its prime block says, and where its words lie.
    pub stored: LoadedVersion,
}
