//! The reasons for which a call is refused.
ghost use Rattle.std.specs.Prelude.{◌≡◌};
ghost use Rattle.spec_image.specs.Codes.{number_of};

/// Why a call is refused.
#[derive(Clone, Copy, Debug, PartialEq, Eq)]
pub enum ErrorCode {
    /// No file has that name.
    NotFound,
    /// There is no such directory.
    NoDirectory,
    /// The protection of the file or of the directory doesn't allow it.
    Protection,
    /// The file is being written.
    BeingModified,
    /// The name is already there.
    NameExists,
    /// The channel's sides don't allow the call.
    Sequence,
    /// There is no room.
    NoRoom,
    /// The directory isn't empty.
    NotEmpty,
}

impl ErrorCode {
    /// Returns the number by which the machine names this reason.
    pub fn number(self) -> u32
        ensures { result ≡ number_of self }
    {
        match self {
            ErrorCode::NotFound => 0,
            ErrorCode::NoDirectory => 1,
            ErrorCode::Protection => 2,
            ErrorCode::BeingModified => 3,
            ErrorCode::NameExists => 4,
            ErrorCode::Sequence => 5,
            ErrorCode::NoRoom => 0o14,
            ErrorCode::NotEmpty => 0o22,
        }
    }
}
