//! Disk buffers, and the fields of their words.
ghost use Rattle.std.specs.Prelude.{◌≡◌, ◌%◌, ◌^◌};
ghost use Rattle.words36.specs.Common.{left};
ghost use Rattle.spec_machine.specs.Common.{is_marked, marked, unmarked};

use words36::Word;

/// The number of words of data in a disk buffer.
pub const DATA_WORDS: usize = 0o200;

/// The number of all its words.
pub const BUFFER_WORDS: usize = 0o203;

/// The size that a buffer's own word has in bits 1 to 17: the words of data, and one more.
pub const BUFFER_SIZE: u32 = 0o201;

/// Bit 0 of a word: a buffer is in use, or a ring isn't in use yet.
const MARK: u64 = 1 << 35;

/// Returns whether bit 0 of a word is set.
pub fn is_marked(word: Word) -> bool
    ensures { result ≡ is_marked word }
{
    word.bits() >= MARK
}

/// Returns the word with bit 0 set.
pub fn marked(word: Word) -> Word
    ensures { result ≡ marked word }
{
    Word::from_bits(MARK | word.bits() & (MARK - 1))
}

/// Returns the word with bit 0 clear.
pub fn unmarked(word: Word) -> Word
    ensures { result ≡ unmarked word }
{
    Word::from_bits(word.bits() & (MARK - 1))
}

/// Returns bits 1 to 17 of a word.
pub fn size_field(word: Word) -> u32
    ensures { result ≡ left word % 2 ^ 17 }
{
    word.left().bits() & 0o377777
}
