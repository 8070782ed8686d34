//! A file of the host, as it was read.
use words36::Moment;

/// A file of the host that was read.
#[derive(Drop)]
pub struct Source {
    /// Its bytes. If it has more of them than the most that were requested, these are the first, and one more than
    /// that.
    pub bytes: Vec<u8>,
    /// The moment of its last change, in UTC, if a file of a volume can have its date.
    pub changed: Option<Moment>,
}
