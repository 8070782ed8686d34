//! The data modes of files.
ghost use Rattle.std.specs.Prelude.{◌≡◌, ◌↔◌, IsSome, IfSome};
ghost use Rattle.spec_image.specs.Common.{IsMode};
ghost use Rattle.retrieval.specs.Common.{mode_number};

/// A data mode: how the words of a file were written. (TOPS-10 Monitor Calls Manual.)
#[derive(Clone, Copy, Debug, PartialEq, Eq)]
pub enum Mode {
    /// 0: characters, five to a word.
    Ascii,
    /// 1: the same, line by line.
    AsciiLine,
    /// 10 (octal): words as a device gives them.
    Image,
    /// 13 (octal): binary words as a device gives them.
    ImageBinary,
    /// 14 (octal): binary words.
    Binary,
    /// 17 (octal): words from core, with no buffers.
    Dump,
}

impl Mode {
    /// Returns the mode with this number, or `None` if there is none.
    pub fn from_number(number: u64) -> Option<Mode>
        ensures value { IfSome result (λ mode. mode_number mode ≡ number) }
        ensures fits { IsSome result ↔ IsMode number }
    {
        match number {
            0 => Some(Mode::Ascii),
            1 => Some(Mode::AsciiLine),
            0o10 => Some(Mode::Image),
            0o13 => Some(Mode::ImageBinary),
            0o14 => Some(Mode::Binary),
            0o17 => Some(Mode::Dump),
            _ => None,
        }
    }

    /// Returns the number of the mode, below 20 (octal).
    pub fn number(self) -> u64
        ensures value { result ≡ mode_number self }
        ensures mode { IsMode result }
    {
        match self {
            Mode::Ascii => 0,
            Mode::AsciiLine => 1,
            Mode::Image => 0o10,
            Mode::ImageBinary => 0o13,
            Mode::Binary => 0o14,
            Mode::Dump => 0o17,
        }
    }
}
