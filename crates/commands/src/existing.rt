//! The two ways to treat a file that has the name of a new one.

/// What happens to a file that has the name of one that is put.
#[derive(Clone, Copy, Debug, PartialEq, Eq)]
pub enum Existing {
    /// It is replaced.
    Replace,
    /// It stays, and nothing is put.
    Refuse,
}
