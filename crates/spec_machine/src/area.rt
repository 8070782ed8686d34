//! An area of words in a core.

/// Consecutive words of a core.
#[derive(Clone, Copy, Debug, PartialEq, Eq)]
pub struct Area {
    /// The address of the first word.
    pub first: usize,
    /// The number of words.
    pub count: usize,
}
