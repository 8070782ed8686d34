//! A put: the new words of one block.
ghost use Rattle.std.specs.Prelude.{◌≡◌, replicate};

use words36::{BLOCK_WORDS, Block, Word};

/// A block of the disk, and its new words.
#[derive(Clone, Copy)]
pub struct Put {
    /// The number of the block.
    pub block: u32,
    /// Its new words.
    pub words: Block,
}

impl Default for Put {
    ghost use Rattle.words36.specs.declared.word.TheConstants.{BLOCK_WORDS};

    ghost is_default = { λ put. (put.block ≡ 0) × (put.words ≡ replicate BLOCK_WORDS 0) };

    /// Returns zeros for block 0, which no change set writes: they fill the unused room of a list.
    fn default() -> Self {
        Put {
            block: 0,
            words: [Word::ZERO; BLOCK_WORDS],
        }
    }
}
