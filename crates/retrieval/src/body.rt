//! The words of a body, read from its data blocks.
ghost use Rattle.std.specs.Prelude.{◌≡◌, ◌+◌, ◌-◌, ◌*◌, ◌<◌, ◌≤◌, ℕ, List, [], Some, None, IfOk, OnOk, IsErrOf, length};
ghost use Rattle.std.specs.Prelude.{min, get_or, slice_index, take, vec_capacity};
ghost use Rattle.std.specs.List.{AllByRecursion};
ghost use Rattle.blockdisk.specs.Common.{Keeps, SameDisk, one_more};
ghost use Rattle.spec_image.specs.Common.{blocks_of, InSpace, times, HasBody, block_start, words_from};
ghost use Rattle.retrieval.specs.Common.{StandsAt};
ghost use Rattle.retrieval.specs.declared.error.BodyError.TheVariants.{BadData, Device, NoMemory};

use crate::{BodyError, Version};
use blockdisk::{Disk, Fault};
use std::alloc::Global;
use words36::{BLOCK_WORDS, Block, Word};

/// The most neighbouring data blocks that one call of the disk reads.
const RUN_BLOCKS: usize = 16;

/// Reads a data block.
pub(crate) fn read_data<D: Disk>(disk: &mut D, n: u32) -> Result<Block, BodyError>
    requires { n < (D.state disk.old).size }
    ensures words { (D.state disk.new).honest → IfOk result (λ block. (D.state disk.old).contents n ≡ Some block) }
    ensures bad { (D.state disk.new).honest → (k : ℕ) → IsErrOf result (BadData k)
        → (k ≡ n) × ((D.state disk.old).contents n ≡ None) }
    ensures memory { IsErrOf result NoMemory → ⊥ }
    ensures keeps { (D.state disk.new).honest → Keeps (D.state disk.old) (D.state disk.new) }
    ensures same { SameDisk (D.state disk.old) (D.state disk.new) }
    ensures failed { IsErrOf result Device → (D.state disk.new).failures ≡ one_more (D.state disk.old).failures }
    ensures served { (IsErrOf result Device → ⊥) → (D.state disk.new).failures ≡ (D.state disk.old).failures }
{
    match disk.read(n) {
        Ok(block) => Ok(block),
        Err(Fault::Damaged) => Err(BodyError::BadData(n)),
        Err(Fault::Device) => Err(BodyError::Device),
    }
}

/// Reads neighbouring data blocks, one into each of these places.
fn read_run<D: Disk>(disk: &mut D, first: u32, run: &mut [Block]) -> Result<(), BodyError>
    requires { first + length run.old ≤ (D.state disk.old).size }
    ensures words { (D.state disk.new).honest → OnOk result ((i : ℕ) → i < length run.new
        → (D.state disk.old).contents (first + i) ≡ Some (get_or run.new i [])) }
    ensures bad { (D.state disk.new).honest → (k : ℕ) → IsErrOf result (BadData k)
        → (first ≤ k) × (k < first + length run.old) × ((D.state disk.old).contents k ≡ None) }
    ensures memory { IsErrOf result NoMemory → ⊥ }
    ensures keeps { (D.state disk.new).honest → Keeps (D.state disk.old) (D.state disk.new) }
    ensures same { SameDisk (D.state disk.old) (D.state disk.new) }
    ensures failed { IsErrOf result Device → (D.state disk.new).failures ≡ one_more (D.state disk.old).failures }
    ensures served { (IsErrOf result Device → ⊥) → (D.state disk.new).failures ≡ (D.state disk.old).failures }
{
    match disk.read_run(first, run) {
        Ok(None) => Ok(()),
        Ok(Some(bad)) => Err(BodyError::BadData(bad)),
        Err(_) => Err(BodyError::Device),
    }
}

/// Returns the first `count` words of a block.
fn first_words(block: &Block, count: usize) -> &[Word]
    requires { count ≤ BLOCK_WORDS }
    ensures words { result.now ≡ take count block.now }
    ensures whole { length block.now ≡ BLOCK_WORDS }
{
    &block[..count]
}

/// Puts the words of blocks after others, up to `wanted` words in all. There is memory for them.
fn push_blocks(blocks: &[Block], wanted: usize, words: &mut Vec<Word>)
    requires few { length words.old.items ≤ wanted }
    requires room { wanted ≤ vec_capacity words.old }
    ensures room { wanted ≤ vec_capacity words.new }
    ensures long { length words.new.items ≡ min (length words.old.items + length blocks.now * BLOCK_WORDS) wanted }
    ensures kept { (p : ℕ) → p < length words.old.items
        → slice_index words.new.items p ≡ slice_index words.old.items p }
    ensures whole { (i : ℕ) → i < length blocks.now → length (get_or blocks.now i []) ≡ BLOCK_WORDS }
    ensures put { (i k : ℕ) → i < length blocks.now → k < BLOCK_WORDS
        → length words.old.items + i * BLOCK_WORDS + k < wanted
        → slice_index words.new.items (length words.old.items + i * BLOCK_WORDS + k)
        ≡ slice_index (get_or blocks.now i []) k }
{
    for place in 0..blocks.len() {
        let here = (wanted - words.len()).min(BLOCK_WORDS);
        match words.extend_from_slice(first_words(&blocks[place], here)) {
            Ok(()) => (),
            Err(_) => unreachable!(), // there is memory for it
        }
    }
}

/// Puts the words of neighbouring data blocks, which are read into these places, after others, up to `wanted` words in
/// all. There is memory for them.
fn get_blocks<D: Disk>(
    disk: &mut D,
    first: u32,
    run: &mut [Block],
    wanted: usize,
    words: &mut Vec<Word>,
) -> Result<(), BodyError>
    requires inside { first + length run.old ≤ (D.state disk.old).size }
    requires few { length words.old.items ≤ wanted }
    requires room { wanted ≤ vec_capacity words.old }
    ensures room { wanted ≤ vec_capacity words.new }
    ensures long { OnOk result (length words.new.items
        ≡ min (length words.old.items + length run.old * BLOCK_WORDS) wanted) }
    ensures kept { OnOk result ((p : ℕ) → p < length words.old.items
        → slice_index words.new.items p ≡ slice_index words.old.items p) }
    ensures words { (D.state disk.new).honest → OnOk result ((i : ℕ) → i < length run.old
        → StandsAt (D.state disk.old).contents (first + i)
        (length words.old.items + i * BLOCK_WORDS) wanted words.new.items) }
    ensures bad { (D.state disk.new).honest → (k : ℕ) → IsErrOf result (BadData k)
        → (first ≤ k) × (k < first + length run.old) × ((D.state disk.old).contents k ≡ None) }
    ensures memory { IsErrOf result NoMemory → ⊥ }
    ensures keeps { (D.state disk.new).honest → Keeps (D.state disk.old) (D.state disk.new) }
    ensures same { SameDisk (D.state disk.old) (D.state disk.new) }
    ensures failed { IsErrOf result Device → (D.state disk.new).failures ≡ one_more (D.state disk.old).failures }
    ensures served { (IsErrOf result Device → ⊥) → (D.state disk.new).failures ≡ (D.state disk.old).failures }
{
    read_run(disk, first, run)?;
    push_blocks(run, wanted, words);
    Ok(())
}

/// Puts the words of `count` neighbouring data blocks after others, up to `wanted` words in all. There is memory for
/// them.
fn get_run<D: Disk>(
    disk: &mut D,
    first: u32,
    count: usize,
    wanted: usize,
    words: &mut Vec<Word>,
) -> Result<(), BodyError>
    requires inside { first + count ≤ (D.state disk.old).size }
    requires short { count ≤ 16 }
    requires few { length words.old.items ≤ wanted }
    requires room { wanted ≤ vec_capacity words.old }
    ensures room { wanted ≤ vec_capacity words.new }
    ensures long { OnOk result (length words.new.items ≡ min (length words.old.items + count * BLOCK_WORDS) wanted) }
    ensures kept { OnOk result ((p : ℕ) → p < length words.old.items
        → slice_index words.new.items p ≡ slice_index words.old.items p) }
    ensures words { (D.state disk.new).honest → OnOk result ((i : ℕ) → i < count
        → StandsAt (D.state disk.old).contents (first + i)
        (length words.old.items + i * BLOCK_WORDS) wanted words.new.items) }
    ensures bad { (D.state disk.new).honest → (k : ℕ) → IsErrOf result (BadData k)
        → (first ≤ k) × (k < first + count) × ((D.state disk.old).contents k ≡ None) }
    ensures memory { IsErrOf result NoMemory → ⊥ }
    ensures keeps { (D.state disk.new).honest → Keeps (D.state disk.old) (D.state disk.new) }
    ensures same { SameDisk (D.state disk.old) (D.state disk.new) }
    ensures failed { IsErrOf result Device → (D.state disk.new).failures ≡ one_more (D.state disk.old).failures }
    ensures served { (IsErrOf result Device → ⊥) → (D.state disk.new).failures ≡ (D.state disk.old).failures }
{
    if count == 1 {
        // most runs of small files: places for more blocks aren't needed
        return get_blocks(disk, first, &mut [[Word::ZERO; BLOCK_WORDS]], wanted, words);
    }
    let mut run = [[Word::ZERO; BLOCK_WORDS]; RUN_BLOCKS];
    get_blocks(disk, first, &mut run[..count], wanted, words)
}

/// Returns how many words a body of `words` words has from block `block`, up to `count`.
fn words_there(words: u32, block: u32, count: u32) -> u32
    requires { 0 < block }
    ensures { result ≡ min count (words - block_start block) }
{
    let start = u64::from(block - 1) * BLOCK_WORDS as u64;
    let there = u64::from(words).saturating_sub(start);
    u64::from(count).min(there) as u32
}

/// Returns the words of a body from block `block`, counted from 1, at most `count` of them; fewer if the
/// body ends before.
///
/// # Errors
///
/// `NoMemory` if there is no memory for the words, with nothing read; `BadData` with a block that is damaged;
/// `Device` if the device failed.
pub fn get_words<D: Disk>(
    alloc: Global,
    disk: &mut D,
    version: &Version,
    block: u32,
    count: u32,
) -> Result<Vec<Word>, BodyError>
    requires inside { AllByRecursion (InSpace (D.state disk.old).size) version.now.blocks }
    requires counted { length version.now.blocks ≡ blocks_of version.now.words }
    requires first { 0 < block }

    ensures words { (D.state disk.new).honest → (body : List ℕ) → length body ≡ version.now.words
        → HasBody (D.state disk.old).contents version.now.blocks body
        → IfOk result (λ words. words.items ≡ take count (words_from body block)) }
    // A damaged block is never returned as words.
    ensures whole { (D.state disk.new).honest → IfOk result (λ words. (i : ℕ) → i * BLOCK_WORDS < length words.items
        → (D.state disk.old).contents (slice_index version.now.blocks (block - 1 + i)) ≡ None → ⊥) }
    ensures few { IfOk result (λ words. length words.items ≡ min count (version.now.words - block_start block)) }
    ensures damaged { (D.state disk.new).honest → (k : ℕ) → IsErrOf result (BadData k)
        → (0 < times k version.now.blocks) × ((D.state disk.old).contents k ≡ None) }
    ensures memory { IsErrOf result NoMemory → disk.new ≡ disk.old }
    // If there are no words, the disk isn't called.
    ensures none { IfOk result (λ words. length words.items ≡ 0 → disk.new ≡ disk.old) }

    // On every disk.
    ensures keeps { (D.state disk.new).honest → Keeps (D.state disk.old) (D.state disk.new) }
    ensures same { SameDisk (D.state disk.old) (D.state disk.new) }
    ensures failed { IsErrOf result Device → (D.state disk.new).failures ≡ one_more (D.state disk.old).failures }
    ensures served { (IsErrOf result Device → ⊥) → (D.state disk.new).failures ≡ (D.state disk.old).failures }
{
    let wanted = words_there(version.length(), block, count) as usize;
    // Memory first, so that a refused growth leaves the disk alone.
    let mut words = Vec::with_capacity(alloc, wanted)?;
    let blocks = wanted.div_ceil(BLOCK_WORDS);
    let mut done = 0;
    while done < blocks {
        let run = version.run_at((block - 1) as usize + done);
        let count = run.count().min(RUN_BLOCKS).min(blocks - done);
        get_run(disk, run.first, count, wanted, &mut words)?;
        done += count;
    }
    Ok(words)
}
