//! The error of this crate.
use thiserror::Error;

/// Why a value isn't a word, text, date or block of the machine.
#[derive(Clone, Copy, Debug, PartialEq, Eq, Error)]
pub enum WordError {
    /// A text has more than six characters, or one outside ASCII 40 to 137 (octal).
    #[error("not SIXBIT")]
    NotSixbit,
    /// A byte is above 127.
    #[error("not ASCII")]
    NotAscii,
    /// A date or a time is outside what the machine can write.
    #[error("date out of range")]
    DateRange,
    /// The word at this place, counted from 0, is the first whose top 28 bits aren't zero.
    #[error("bad word {0}")]
    BadWord(usize),
    /// An allocation was refused.
    #[error("no memory")]
    NoMemory,
}
