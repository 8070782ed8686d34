//! The puts of table blocks that changed.
ghost use Rattle.std.specs.Prelude.{◌≡◌, ◌<◌, ◌≤◌, ◌+◌, ◌*◌, length};
ghost use Rattle.spec_image.specs.Common.{sum_below};
ghost use Rattle.alloctab.specs.Common.{digit_at, flag_at, word_bit, table_words, with_changed};

use changeset::{ChangeSet, MAX_PUTS};
use words36::{BLOCK_WORDS, Block, Word};

/// Returns the words of table block `i`, out of those of all table blocks.
fn table_block(words: &[Word], i: usize) -> Block
    requires low { i < 32 }
    requires inside { BLOCK_WORDS * (i + 1) ≤ length words.now }
    ensures { result ≡ table_words (word_bit words.now) i }
{
    let mut block = [Word::ZERO; BLOCK_WORDS];
    for place in 0..BLOCK_WORDS {
        block[place] = Word::from_bits(words[i * BLOCK_WORDS + place].bits());
    }
    block
}

/// Puts each changed table block, out of the words of all of them, into a change set. The table begins at block
/// `start`.
pub fn put_changed(words: &[Word], changed: &[bool], start: u32, set: &mut ChangeSet)
    requires low { start ≤ 64 }
    requires short { length changed.now < 32 }
    requires long { length words.now ≡ BLOCK_WORDS * length changed.now }
    requires room { length set.old + sum_below (digit_at changed.now) (length changed.now) ≤ MAX_PUTS }
    ensures { set.new ≡ with_changed start (word_bit words.now) (flag_at changed.now) (length changed.now) set.old }
{
    for (i, is_changed) in changed.iter().enumerate() {
        if *is_changed {
            match set.put(start + i as u32, &table_block(words, i)) {
                Ok(()) => {}
                Err(_) => unreachable!(), // there is room for each of them
            }
        }
    }
}
