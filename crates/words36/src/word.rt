//! Words of 36 bits, their halves, and blocks of words.
ghost use Rattle.std.specs.Prelude.{◌≡◌, ◌<◌, ◌^◌, ◌↔◌, IsSome, IfSome};
ghost use Rattle.words36.specs.Common.{left, right, join};

use std::marker::Model;

/// A block of the disk: 128 words.
pub type Block = [Word; BLOCK_WORDS];

/// The number of words in a block.
pub const BLOCK_WORDS: usize = 128;

/// Half a word: 18 bits, a number below 2^18.
#[derive(Clone, Copy, Debug, PartialEq, Eq, PartialOrd, Ord, Hash)]
pub struct Half {
    bits: u32,
}

impl Model for Half {
    ghost use Rattle.std.specs.Prelude.{ℕ, ◌<◌, ◌^◌};

    ghost Value = { ℕ };

    ghost view = { λ h. h.bits };

    ghost invariant = { λ h. h.bits < 2 ^ 18 };

    ghost inverse = { λ n. record { bits = n } };
}

impl Half {
    /// Returns the half word of this number, or `None` if the number has more than 18 bits.
    pub fn new(bits: u32) -> Option<Half>
        ensures value { IfSome result (λ h. h ≡ bits) }
        ensures fits { IsSome result ↔ (bits < 2 ^ 18) }
    {
        if bits >> 18 == 0 {
            Some(Half { bits })
        } else {
            None
        }
    }

    /// Returns the half word of a number that has at most 18 bits.
    pub fn from_bits(bits: u32) -> Half
        requires { bits < 2 ^ 18 }
        ensures { result ≡ bits }
    {
        Half { bits }
    }

    /// Returns the number that the half word is.
    pub fn bits(self) -> u32
        ensures value { result ≡ self }
        ensures fits { result < 2 ^ 18 }
    {
        self.bits
    }
}

/// A word of 36 bits: a number below 2^36. Bit 0 is the most significant, bit 35 the least.
#[derive(Clone, Copy, Debug, PartialEq, Eq, PartialOrd, Ord, Hash)]
pub struct Word {
    bits: u64,
}

impl Model for Word {
    ghost use Rattle.std.specs.Prelude.{ℕ, ◌<◌, ◌^◌};

    ghost Value = { ℕ };

    ghost view = { λ w. w.bits };

    ghost invariant = { λ w. w.bits < 2 ^ 36 };

    ghost inverse = { λ n. record { bits = n } };
}

impl Word {
    /// The word whose bits are all zero.
    pub const ZERO: Word = Word { bits: 0 };

    /// Returns the word of this number, or `None` if the number has more than 36 bits.
    pub fn new(bits: u64) -> Option<Word>
        ensures value { IfSome result (λ w. w ≡ bits) }
        ensures fits { IsSome result ↔ (bits < 2 ^ 36) }
    {
        if bits >> 36 == 0 {
            Some(Word { bits })
        } else {
            None
        }
    }

    /// Returns the word of a number that has at most 36 bits.
    pub fn from_bits(bits: u64) -> Word
        requires { bits < 2 ^ 36 }
        ensures { result ≡ bits }
    {
        Word { bits }
    }

    /// Returns the number that the word is.
    pub fn bits(self) -> u64
        ensures value { result ≡ self }
        ensures fits { result < 2 ^ 36 }
    {
        self.bits
    }

    /// Returns the left half: bits 0 to 17.
    pub fn left(self) -> Half
        ensures value { result ≡ left self }
        ensures fits { result < 2 ^ 18 }
    {
        Half {
            bits: (self.bits >> 18) as u32,
        }
    }

    /// Returns the right half: bits 18 to 35.
    pub fn right(self) -> Half
        ensures value { result ≡ right self }
        ensures fits { result < 2 ^ 18 }
    {
        Half {
            bits: (self.bits & 0o777777) as u32,
        }
    }

    /// Returns the word with these halves.
    pub fn from_halves(left: Half, right: Half) -> Word
        ensures { result ≡ join left right }
    {
        Word {
            bits: (left.bits as u64) << 18 | right.bits as u64,
        }
    }
}

impl From<Half> for Word {
    ghost from_gives = { λ half word. word ≡ half };

    /// Returns the word with this right half and a left half of zero.
    fn from(half: Half) -> Word {
        Word {
            bits: half.bits as u64,
        }
    }
}
