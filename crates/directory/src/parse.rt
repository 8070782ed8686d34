//! The test for the words of a directory block.
ghost use Rattle.std.specs.Prelude.{◌≡◌, ◌+◌, ◌*◌, ◌<◌, ◌≤◌, ℕ, List, IsTrue, length, take, drop};
ghost use Rattle.directory.specs.Common.{SpellsBlock, SpellsEntries};

use crate::{ChainEntry, EntryFault};
use spec_image::layout::{BLOCK_ENTRIES, DIRECTORY_HEAD, ENTRY_WORDS, are_zeros};
use words36::{Block, Word};

/// Returns the words of the entry at a place of a block, counted from 0.
pub fn entry_words(block: &Block, i: usize) -> [Word; 3]
    requires { i < 42 }
    ensures { result ≡ take 3 (drop (2 + 3 * i) block.now) }
{
    let at = DIRECTORY_HEAD + ENTRY_WORDS * i;
    [block[at], block[at + 1], block[at + 2]]
}

/// Returns whether three words are those of an entry, whatever block it names.
fn is_entry<E: ChainEntry>(words: [Word; 3]) -> bool
    ensures yes { IsTrue result → (e : E.Key × E.Stored) × E.IsEntry e × (E.words_of e ≡ words) }
    ensures no { (e : E.Key × E.Stored) → E.IsEntry e → E.words_of e ≡ words → IsTrue result }
{
    match E::parse(words) {
        Err(EntryFault::Malformed) => false,
        Err(EntryFault::Outside) => true,
        Ok(_) => true,
    }
}

/// Returns whether a block has `count` entries.
fn are_entries<E: ChainEntry>(block: &Block, count: usize) -> bool
    requires { count ≤ 42 }
    ensures yes { IsTrue result → (es : List (E.Key × E.Stored)) × (length es ≡ count)
        × SpellsEntries E.words_of E.IsEntry (take (3 * count) (drop 2 block.now)) es }
    ensures no { (es : List (E.Key × E.Stored)) → length es ≡ count
        → SpellsEntries E.words_of E.IsEntry (take (3 * count) (drop 2 block.now)) es → IsTrue result }
{
    for i in 0..count {
        if !is_entry::<E>(entry_words(block, i)) {
            return false;
        }
    }
    true
}

/// Returns whether the words of a block are those of a directory block.
pub fn is_directory_block<E: ChainEntry>(block: &Block) -> bool
    ensures yes { IsTrue result → (next : ℕ) × (es : List (E.Key × E.Stored))
        × SpellsBlock E.words_of E.IsEntry block.now next es }
    ensures no { (next : ℕ) (es : List (E.Key × E.Stored)) → SpellsBlock E.words_of E.IsEntry block.now next es
        → IsTrue result }
{
    let count = block[1].bits();
    if count > BLOCK_ENTRIES as u64 {
        return false;
    }
    let words = &block[..];
    let count = count as usize;
    are_entries::<E>(block, count) && are_zeros(&words[DIRECTORY_HEAD + ENTRY_WORDS * count..])
}
