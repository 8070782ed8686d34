//! The words that stay in a block when words are put into a body.
ghost use Rattle.std.specs.Prelude.{◌≡◌, ◌+◌, ◌-◌, ◌*◌, ◌/◌, ◌%◌, ◌<◌, ◌≤◌, ◌++◌, ℕ, List, None, IfOk, IfSome};
ghost use Rattle.std.specs.Prelude.{IfNone, OnOk, IsErrOf, length, min, take, drop, slice_index};
ghost use Rattle.std.specs.List.{AllByRecursion};
ghost use Rattle.blockdisk.specs.Common.{Keeps, SameDisk, one_more};
ghost use Rattle.spec_image.specs.Common.{blocks_of, InSpace, times, HasBody};
ghost use Rattle.retrieval.specs.Common.{AreWhole, unchanged_word, IsEdge, IsEdgeBlock, Stays, IsNewBlock};
ghost use Rattle.retrieval.specs.declared.error.BodyError.TheVariants.{BadData, Device, NoMemory};
ghost use Rattle.spec_image.specs.Common.{most_blocks};

use crate::BodyError;
use crate::block_list::BlockList;
use crate::body::read_data;
use blockdisk::Disk;
use words36::{BLOCK_WORDS, Block, Word};

/// The words of a body that stay in a block that is written: the place of the block, counted from 0, and
/// its words as far as the body goes, with zeros after them. No word of any other block stays.
#[derive(Drop)]
pub(crate) struct UnchangedWords {
    pub(crate) place: usize,
    pub(crate) words: Block,
}

/// Returns the place of the block that is read before `count` words are put from block `at` of a body: the last
/// block, if the words begin after it, or the one in which they end. `None` if no word stays.
fn unchanged_place(total: usize, at: usize, count: usize) -> Option<usize>
    requires { at * BLOCK_WORDS + count ≤ most_blocks * BLOCK_WORDS }
    ensures some { IfSome result (λ place. IsEdge total at count place) }
    ensures put_behind { IfNone result (total < at * BLOCK_WORDS → total % BLOCK_WORDS ≡ 0) }
    ensures put_inside { IfNone result (at * BLOCK_WORDS + count < total
        → (at * BLOCK_WORDS + count) % BLOCK_WORDS ≡ 0) }
{
    let start = at * BLOCK_WORDS;
    let end = start + count;
    if total < start && total % BLOCK_WORDS != 0 {
        return Some(total / BLOCK_WORDS);
    }
    if end < total && end % BLOCK_WORDS != 0 {
        return Some(end / BLOCK_WORDS);
    }
    None
}

/// Returns the first `count` words of a block, with zeros after them.
fn front_of(block: &Block, count: usize) -> Block
    ensures front { (k : ℕ) → k < BLOCK_WORDS → k < count → slice_index result k ≡ slice_index block.now k }
    ensures zeros { (k : ℕ) → k < BLOCK_WORDS → count ≤ k → slice_index result k ≡ 0 }
{
    let mut front = [Word::ZERO; BLOCK_WORDS];
    let count = count.min(BLOCK_WORDS);
    front[..count].copy_from_slice(&block[..count]);
    front
}

/// Reads the words that stay when `count` words are put from block `at` of a body of `total` words.
///
/// # Errors
///
/// `BadData` with a block that is damaged, `Device` if the device failed.
pub(crate) fn read_unchanged<D: Disk>(
    disk: &mut D,
    blocks: &BlockList,
    total: usize,
    at: usize,
    count: usize,
) -> Result<UnchangedWords, BodyError>
    requires inside { AllByRecursion (InSpace (D.state disk.old).size) blocks.now.blocks }
    requires counted { length blocks.now.blocks ≡ blocks_of total }
    requires fits { at * BLOCK_WORDS + count ≤ most_blocks * BLOCK_WORDS }

    ensures kept { (D.state disk.new).honest → (body : List ℕ) → length body ≡ total
        → AreWhole (D.state disk.old).contents blocks.now.blocks
        → HasBody (D.state disk.old).contents blocks.now.blocks body
        → IfOk result (λ kept. Stays body (min at (total / BLOCK_WORDS)) at count kept.place kept.words) }
    // A damaged block is never taken for words; only a block whose words stay is refused.
    ensures whole { (D.state disk.new).honest → OnOk result ((n : ℕ) → IsEdgeBlock blocks.now.blocks total at count n
        → (D.state disk.old).contents n ≡ None → ⊥) }
    ensures edge { (D.state disk.new).honest → (k : ℕ) → IsErrOf result (BadData k)
        → IsEdgeBlock blocks.now.blocks total at count k }
    ensures damaged { (D.state disk.new).honest → (k : ℕ) → IsErrOf result (BadData k)
        → (0 < times k blocks.now.blocks) × ((D.state disk.old).contents k ≡ None) }
    ensures memory { IsErrOf result NoMemory → ⊥ }
    ensures keeps { (D.state disk.new).honest → Keeps (D.state disk.old) (D.state disk.new) }
    ensures same { SameDisk (D.state disk.old) (D.state disk.new) }
    ensures failed { IsErrOf result Device → (D.state disk.new).failures ≡ one_more (D.state disk.old).failures }
    ensures served { (IsErrOf result Device → ⊥) → (D.state disk.new).failures ≡ (D.state disk.old).failures }
{
    let Some(place) = unchanged_place(total, at, count) else {
        let words = [Word::ZERO; BLOCK_WORDS];
        return Ok(UnchangedWords { place: 0, words });
    };
    let block = read_data(disk, blocks.at(place))?;
    let words = front_of(&block, total - place * BLOCK_WORDS);
    Ok(UnchangedWords { place, words })
}

/// Returns the words that stay in the block at a place, with zeros where none stays.
fn unchanged_block(kept: &UnchangedWords, i: usize) -> Block
    ensures { (k : ℕ) → k < BLOCK_WORDS → slice_index result k
        ≡ unchanged_word kept.now.place kept.now.words (i * BLOCK_WORDS + k) }
{
    if i == kept.place {
        kept.words
    } else {
        [Word::ZERO; BLOCK_WORDS]
    }
}

/// Returns a block with words put over its first ones, as many as it has room for.
fn put_over(block: &Block, words: &[Word]) -> Block
    ensures { result ≡ take (min (length words.now) BLOCK_WORDS) words.now
        ++ drop (min (length words.now) BLOCK_WORDS) block.now }
{
    let mut new = *block;
    let count = words.len().min(BLOCK_WORDS);
    new[..count].copy_from_slice(&words[..count]);
    new
}

/// Returns the new words of the block at place `i` when words are put from block `at`. Both are counted from 0.
pub(crate) fn new_block(kept: &UnchangedWords, at: usize, words: &[Word], i: usize) -> Block
    requires fits { (i - at) * BLOCK_WORDS ≤ length words.now }
    requires few { i < most_blocks }
    ensures { IsNewBlock at words.now kept.now.place kept.now.words i result }
{
    let block = unchanged_block(kept, i);
    if i < at {
        return block;
    }
    put_over(&block, &words[(i - at) * BLOCK_WORDS..])
}
