//! The words of a block of a chain.
ghost use Rattle.std.specs.Prelude.{◌≡◌, ◌+◌, ◌*◌, ◌≤◌, ◌++◌, map, take, drop, length};
ghost use Rattle.spec_image.specs.Common.{directory_block};

use crate::ChainEntry;
use spec_image::layout::{DIRECTORY_HEAD, ENTRY_WORDS};
use words36::{BLOCK_WORDS, Block, Word};

/// Puts the words of an entry at a place of a block, counted in words.
fn put_words(block: &mut Block, at: usize, words: &[Word; 3])
    requires { at + 3 ≤ BLOCK_WORDS }
    ensures { block.new ≡ take at block.old ++ (words.now ++ drop (at + 3) block.old) }
{
    let place = &mut block[..];
    place[at..at + ENTRY_WORDS].copy_from_slice(words);
}

/// Returns the block of a chain with these entries and the number of the block after it, or 0.
pub fn block_image<E: ChainEntry>(entries: &[E], next: u32) -> Block
    requires { length entries.now ≤ 42 }
    ensures { result ≡ directory_block E.words_of next (map E.view entries.now) }
{
    let mut block = [Word::ZERO; BLOCK_WORDS];
    block[0] = Word::from_bits(u64::from(next));
    block[1] = Word::from_bits(entries.len() as u64);
    for (i, entry) in entries.iter().enumerate() {
        put_words(&mut block, DIRECTORY_HEAD + ENTRY_WORDS * i, &entry.words());
    }
    block
}
