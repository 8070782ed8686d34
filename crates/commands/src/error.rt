//! The errors of a session.
use thiserror::Error;

/// The reason why a session broke off. What was answered before stays done, and the writer has a beginning of its text.
#[derive(Clone, Copy, Debug, PartialEq, Eq, Error)]
pub enum SessionError {
    /// The reader failed.
    #[error("read fault")]
    Read,
    /// The writer failed, or accepted no byte.
    #[error("write fault")]
    Write,
    /// There was no memory for something of the session's own.
    #[error("out of memory")]
    NoMemory,
}
