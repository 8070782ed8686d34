//! The two languages of an input.

/// The language of the lines of an input.
#[derive(Clone, Copy, Debug, PartialEq, Eq)]
pub enum Language {
    /// Commands of one job, which is reset at the end.
    Commands,
    /// Events of a call script, each served as it is.
    Events,
}
