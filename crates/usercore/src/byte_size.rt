//! The sizes of the bytes in a ring.
ghost use Rattle.std.specs.Prelude.{◌≡◌, ◌<◌, ◌^◌};
ghost use Rattle.spec_machine.specs.Common.{byte_size, bytes_in_word, pointer};
ghost use Rattle.usercore.specs.Common.{bits_of};

use words36::Word;

/// The bytes of a ring, as its byte pointer has them.
#[derive(Clone, Copy, Debug, PartialEq, Eq)]
pub enum ByteSize {
    /// Characters of 7 bits, five to a word: the modes ASCII and ASCII line.
    Ascii,
    /// Whole words of 36 bits: the modes image, image binary and binary.
    Whole,
}

impl ByteSize {
    /// Returns the bytes of a mode with buffers: of 7 bits in modes 0 and 1, else of 36.
    pub fn of_mode(mode: u32) -> ByteSize
        ensures { bits_of result ≡ byte_size mode }
    {
        if mode <= 1 {
            ByteSize::Ascii
        } else {
            ByteSize::Whole
        }
    }

    /// Returns the number of bits in a byte.
    pub fn bits(self) -> u32
        ensures { result ≡ bits_of self }
    {
        match self {
            ByteSize::Ascii => 7,
            ByteSize::Whole => 36,
        }
    }

    /// Returns the number of bytes in a word.
    pub fn count_in_word(self) -> usize
        ensures { result ≡ bytes_in_word (bits_of self) }
    {
        match self {
            ByteSize::Ascii => 5,
            ByteSize::Whole => 1,
        }
    }

    /// Returns the byte pointer to an address: no position, the size of a byte, and the address.
    pub(crate) fn pointer(self, address: usize) -> Word
        requires { address < 2 ^ 24 }
        ensures { result ≡ pointer (bits_of self) address }
    {
        Word::from_bits(u64::from(self.bits()) * (1 << 24) + address as u64)
    }
}
