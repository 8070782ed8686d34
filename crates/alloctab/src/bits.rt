//! The bits in the words of one table block.
ghost use Rattle.std.specs.Prelude.{◌≡◌, ◌+◌, ◌*◌, ◌≤◌, ◌<◌, ◌/◌, ℕ, IsTrue, false, length};
ghost use Rattle.spec_image.specs.Common.{bit_of};
ghost use Rattle.alloctab.specs.Common.{digit, CopiesWords, IsSetPast};
ghost use Rattle.spec_image.specs.declared.layout.TheConstants.{LARGEST_VOLUME};

use crate::words::has_bit;
use spec_image::layout::TABLE_BLOCK_BITS;
use words36::{BLOCK_WORDS, Block, Word};

/// Returns whether the bit of a block is set in the words of its table block.
pub fn is_set(words: &Block, n: usize) -> bool
    ensures { digit result ≡ bit_of words.now n }
{
    has_bit(words, n % TABLE_BLOCK_BITS)
}

/// Returns whether table block `i` has a bit set for a block past the end of the disk.
pub fn has_bit_past(words: &Block, i: usize, size: usize) -> bool
    requires low { i < 32 }
    requires few { size ≤ LARGEST_VOLUME }
    ensures found { IsTrue result → (k : ℕ) × IsSetPast words.now i size k }
    ensures none { result ≡ false → (k : ℕ) → k / TABLE_BLOCK_BITS ≡ i → size ≤ k → bit_of words.now k ≡ 0 }
{
    let first = i * TABLE_BLOCK_BITS;
    for n in first.max(size)..first + TABLE_BLOCK_BITS {
        if is_set(words, n) {
            return true;
        }
    }
    false
}

/// Copies the words of table block `i` to their place among those of all table blocks.
pub fn copy_words(words: &Block, i: usize, all: &mut [Word])
    requires low { i < 32 }
    requires inside { BLOCK_WORDS * (i + 1) ≤ length all.old }
    ensures { CopiesWords words.now i all.old all.new }
{
    let first = i * BLOCK_WORDS;
    all[first..first + BLOCK_WORDS].copy_from_slice(words);
}
