//! Where a survey looks for files that no directory names.

/// Which blocks are searched for the prime blocks of files that no directory names.
#[derive(Clone, Copy, Debug, PartialEq, Eq)]
pub enum Search {
    /// None.
    Named,
    /// Each block that the allocation table doesn't say is free.
    Used,
    /// Each block: what was deleted is found too, unless another file has its prime block.
    Every,
}
