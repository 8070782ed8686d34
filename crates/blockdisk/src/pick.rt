//! The picks of a crash: what it leaves of an open block.
ghost use Rattle.std.specs.Prelude.{◌≡◌, ◌++◌, take, drop};
ghost use Rattle.blockdisk.specs.Common.{picked};

use words36::{BLOCK_WORDS, Block, Word};

/// What a crash leaves of an open block.
#[derive(Clone, Copy)]
pub enum Pick {
    /// What it held at the last sync.
    Old,
    /// What was written.
    New,
    /// No words.
    Damaged,
    /// The first half of what was written, and the second half of what it held; no words if either has none.
    Half,
    /// The word 252525252525 (octal) throughout, as in an open gate.
    Open,
}

/// Each word of a block that is picked as open.
const OPEN_WORD: u64 = 0o252525252525;

/// Half the words of a block.
const HALF: usize = BLOCK_WORDS / 2;

impl Pick {
    /// Returns what is left of an open block.
    pub fn of(self, old: Option<Block>, new: Option<Block>) -> Option<Block>
        ensures { result ≡ picked self old new }
    {
        match self {
            Pick::Old => old,
            Pick::New => new,
            Pick::Damaged => None,
            Pick::Half => Some(halves(&old?, &new?)),
            Pick::Open => Some([Word::from_bits(OPEN_WORD); BLOCK_WORDS]),
        }
    }
}

/// Returns the first half of the new words and the second half of the old ones.
fn halves(old: &Block, new: &Block) -> Block
    ensures { result ≡ take 64 new.now ++ drop 64 old.now }
{
    let mut block = *old;
    block[..HALF].copy_from_slice(&new[..HALF]);
    block
}
