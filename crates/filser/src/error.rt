//! The errors of a command line.
ghost use Rattle.std.specs.Prelude.{◌≡◌};
ghost use Rattle.filser.specs.Common.{encoding_flag};

use crate::Escaped;
use clap::Error as ClapError;
use commands::Encoding;
use thiserror::Error;

/// An argument that isn't valid, with its text.
#[derive(Clone, Copy, Debug, PartialEq, Eq, Error)]
pub enum WrongArgument<'a> {
    /// The directory.
    #[error("PPN {}: two octal numbers of 1 to 6 digits, neither of them zero, as 10,20 or [10,20]", Escaped(.0))]
    Owner(&'a str),
    /// The file.
    #[error("NAME {}: 1 to 6 letters and digits, and at most 3 more after a full stop, as FOO.TXT", Escaped(.0))]
    Name(&'a str),
    /// Two flags that choose different encodings of a file's bytes.
    #[error("--{} and --{} exclude each other", flag_of(.0), flag_of(.1))]
    Encodings(Encoding, Encoding),
    /// The two flags that choose which blocks are searched for files that no directory names.
    #[error("--named and --all exclude each other")]
    Searches,
    /// The date.
    #[error("--date {}: a day from 1964-01-01 to 2052-02-01, as 1975-01-04 or 4-Jan-1975, or its number", Escaped(.0))]
    Date(&'a str),
}

/// Returns the flag that chooses an encoding.
fn flag_of(encoding: &Encoding) -> &'static str
    ensures { result.now ≡ encoding_flag encoding.now }
{
    match encoding {
        Encoding::Characters => "text",
        Encoding::Words => "words",
        Encoding::Octets => "bytes",
    }
}

/// Why the words of a command line make no request.
#[derive(Debug, Drop, Error)]
pub enum RequestError<'a> {
    /// They are refused, or ask for help or the version: `clap` has the text and the kind.
    #[error(transparent)]
    Usage(ClapError),
    /// They are accepted, and this argument isn't valid.
    #[error("bad argument")]
    BadArgument(Option<WrongArgument<'a>>),
    /// An allocation was refused.
    #[error("out of memory")]
    NoMemory,
}
