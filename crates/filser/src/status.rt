//! The exit statuses of the program.
ghost use Rattle.std.specs.Prelude.{◌≡◌, ◌⊎◌, max};
ghost use Rattle.filser.specs.Common.{status_code};

/// How a run of the program ended.
#[derive(Clone, Copy, Debug, PartialEq, Eq)]
pub enum Status {
    /// Everything was done.
    Done,
    /// A line of the input was refused.
    Refused,
    /// The arguments were wrong.
    BadArguments,
    /// The image was refused.
    BadImage,
    /// The device, the input or the output failed, or memory ran out.
    Fault,
}

impl Status {
    /// Returns the exit status of the program: 0 to 4. Of two, the higher one counts.
    pub fn code(self) -> u8
        ensures { result ≡ status_code self }
    {
        match self {
            Status::Done => 0,
            Status::Refused => 1,
            Status::BadArguments => 2,
            Status::BadImage => 3,
            Status::Fault => 4,
        }
    }

    /// Returns which of two statuses counts: the one with the higher code.
    pub fn worst(self, other: Status) -> Status
        ensures code { status_code result ≡ max (status_code self) (status_code other) }
        ensures either { (result ≡ self) ⊎ (result ≡ other) }
    {
        if self.code() < other.code() {
            other
        } else {
            self
        }
    }
}
