//! Words that are put into a body.
ghost use Rattle.std.specs.Prelude.{◌≡◌, ◌+◌, ◌-◌, ◌*◌, ◌/◌, ◌<◌, ◌≤◌, ◌^◌, ℕ, List, None, IfOk, OnOk, OnErr};
ghost use Rattle.std.specs.Prelude.{IsErrOf, length, min};
ghost use Rattle.std.specs.List.{AllByRecursion};
ghost use Rattle.blockdisk.specs.Common.{Keeps, SameDisk, Modifies, one_more};
ghost use Rattle.spec_image.specs.Common.{blocks_of, InSpace, times, IsVolumeSize, HasBody, most_blocks, splice};
ghost use Rattle.spec_image.specs.Common.{length_after};
ghost use Rattle.alloctab.specs.Common.{IsTable, uses, used_in_space, holds, space};
ghost use Rattle.retrieval.specs.Common.{AreWhole, IsOwn, AddsFree, KeepsOwn, IsEdgeBlock, Stays, IsFixed, GrowsBy};
ghost use Rattle.retrieval.specs.declared.error.BodyError.TheVariants.{BadData, Device, NoMemory};

use crate::block_list::BlockList;
use crate::place::write_places;
use crate::unchanged::{UnchangedWords, read_unchanged};
use crate::{BodyError, Version};
use alloctab::Table;
use blockdisk::Disk;
use words36::{BLOCK_WORDS, Word};

/// Reserves memory for `more` more runs in the list of a body's blocks, and reads the words that stay when `count`
/// words are put from block `at` of the body, of `total` words.
///
/// # Errors
///
/// Those of `put_words`; the list is then unchanged.
fn prepare<D: Disk>(
    disk: &mut D,
    blocks: &mut BlockList,
    total: usize,
    at: usize,
    count: usize,
    more: usize,
) -> Result<UnchangedWords, BodyError>
    // What the caller ensures.
    requires inside { AllByRecursion (InSpace (D.state disk.old).size) blocks.old.blocks }
    requires counted { length blocks.old.blocks ≡ blocks_of total }
    requires fits { at * BLOCK_WORDS + count ≤ most_blocks * BLOCK_WORDS }

    // What is read of the words that stay.
    ensures same_blocks { blocks.new.blocks ≡ blocks.old.blocks }
    ensures spare { OnOk result (more ≤ blocks.new.spare) }
    ensures kept { (D.state disk.new).honest → (body : List ℕ) → length body ≡ total
        → AreWhole (D.state disk.old).contents blocks.old.blocks
        → HasBody (D.state disk.old).contents blocks.old.blocks body
        → IfOk result (λ kept. Stays body (min at (total / BLOCK_WORDS)) at count kept.place kept.words) }
    ensures whole { (D.state disk.new).honest → OnOk result ((n : ℕ) → IsEdgeBlock blocks.old.blocks total at count n
        → (D.state disk.old).contents n ≡ None → ⊥) }
    // Which refusal comes when, and what it leaves.
    ensures edge { (D.state disk.new).honest → (k : ℕ) → IsErrOf result (BadData k)
        → IsEdgeBlock blocks.old.blocks total at count k }
    ensures damaged { (D.state disk.new).honest → (k : ℕ) → IsErrOf result (BadData k)
        → (0 < times k blocks.old.blocks) × ((D.state disk.old).contents k ≡ None) }
    ensures memory { IsErrOf result NoMemory → disk.new ≡ disk.old }
    ensures keeps { (D.state disk.new).honest → Keeps (D.state disk.old) (D.state disk.new) }
    ensures same { SameDisk (D.state disk.old) (D.state disk.new) }
    ensures failed { IsErrOf result Device → (D.state disk.new).failures ≡ one_more (D.state disk.old).failures }
    ensures served { (IsErrOf result Device → ⊥) → (D.state disk.new).failures ≡ (D.state disk.old).failures }
{
    blocks.reserve(more)?;
    read_unchanged(disk, blocks, total, at, count)
}

/// Adds free blocks after those of a list, in memory that was allocated before.
fn take_more(blocks: &mut BlockList, table: &mut Table, more: usize)
    requires sound { IsTable table.old }
    requires fixed { IsFixed table.old }
    requires used { used_in_space table.old + more ≤ table.old.booked }
    requires room { table.old.booked ≤ space table.old.size }
    requires spare { more ≤ blocks.old.spare }
    requires few { length blocks.old.blocks + more < 2 ^ 64 }
    ensures grown { GrowsBy table.old table.new blocks.old.blocks blocks.new.blocks more }
    ensures spare { blocks.old.spare ≤ blocks.new.spare + more }
{
    for _ in 0..more {
        let n = table.take_block();
        match blocks.push(n) {
            Ok(()) => (),
            Err(_) => unreachable!(), // there is memory for it
        }
    }
}

/// Puts words, at least one, at block `block` of a body of `old` words, counted from 1: as `put_words` does, in the
/// list of its blocks.
///
/// # Errors
///
/// Those of `put_words`.
fn put_into<D: Disk>(
    disk: &mut D,
    table: &mut Table,
    blocks: &mut BlockList,
    old: u32,
    block: u32,
    words: &[Word],
) -> Result<(), BodyError>
    // What the caller ensures.
    requires size { table.old.size ≡ (D.state disk.old).size }
    requires fixed { IsFixed table.old }
    requires inside { AllByRecursion (InSpace (D.state disk.old).size) blocks.old.blocks }
    requires counted { length blocks.old.blocks ≡ blocks_of old }
    requires held { (n : ℕ) → times n blocks.old.blocks ≤ holds table.old n }
    requires first { 0 < block }
    requires some { 0 < length words.now }
    requires fits { length_after old block (length words.now) ≤ most_blocks * BLOCK_WORDS }
    requires booked { uses table.old + (blocks_of (length_after old block (length words.now))
        - length blocks.old.blocks) < table.old.booked }
    requires room { table.old.booked ≤ space table.old.size }

    ensures body { (D.state disk.new).honest
        → OnOk result ((body : List ℕ) → length body ≡ old
        → HasBody (D.state disk.old).contents blocks.old.blocks body
        → HasBody (D.state disk.new).contents blocks.new.blocks (splice body block words.now)) }
    ensures counted { OnOk result (length blocks.new.blocks ≡ blocks_of (length_after old block (length words.now))) }
    ensures whole { (D.state disk.new).honest → OnOk result ((n : ℕ)
        → IsEdgeBlock blocks.old.blocks old (block - 1) (length words.now) n
        → (D.state disk.old).contents n ≡ None → ⊥) }

    // Whatever the result.
    ensures inside { AllByRecursion (InSpace (D.state disk.old).size) blocks.new.blocks }
    ensures adds { AddsFree table.old blocks.old.blocks blocks.new.blocks }
    ensures few { length blocks.new.blocks ≤ blocks_of (length_after old block (length words.now)) }
    ensures table { table.new ≡ record table.old { held = table.new.held } }
    ensures held { (n : ℕ) → holds table.new n + times n blocks.old.blocks
        ≡ holds table.old n + times n blocks.new.blocks }
    ensures used { uses table.new + length blocks.old.blocks ≡ uses table.old + length blocks.new.blocks }
    ensures stays { KeepsOwn table.old blocks.old.blocks blocks.new.blocks }
    ensures modified { (D.state disk.new).honest
        → Modifies (IsOwn table.old blocks.old.blocks) (D.state disk.old) (D.state disk.new) }
    ensures memory { IsErrOf result NoMemory → (table.new ≡ table.old) × (blocks.new.blocks ≡ blocks.old.blocks)
        × (disk.new ≡ disk.old) }
    ensures edge { (D.state disk.new).honest → (k : ℕ) → IsErrOf result (BadData k)
        → IsEdgeBlock blocks.old.blocks old (block - 1) (length words.now) k }
    ensures damaged { (D.state disk.new).honest → (k : ℕ) → IsErrOf result (BadData k)
        → (0 < times k blocks.old.blocks) × ((D.state disk.old).contents k ≡ None) }
    ensures undone { (k : ℕ) → IsErrOf result (BadData k) → (table.new ≡ table.old)
        × (blocks.new.blocks ≡ blocks.old.blocks) }

    // On every disk.
    ensures same { SameDisk (D.state disk.old) (D.state disk.new) }
    ensures failed { IsErrOf result Device → (D.state disk.new).failures ≡ one_more (D.state disk.old).failures }
    ensures served { (IsErrOf result Device → ⊥) → (D.state disk.new).failures ≡ (D.state disk.old).failures }
{
    let _booked = table.booked(); // which states that the table is sound
    let at = (block - 1) as usize;
    let first = at.min(old as usize / BLOCK_WORDS);
    let end = at + words.len().div_ceil(BLOCK_WORDS);
    let more = end.saturating_sub(blocks.len());
    // Memory first, so that a refused growth leaves everything unchanged: a block that changes may split a run.
    let runs = more + 2 * (end - first);
    let kept = prepare(disk, blocks, old as usize, at, words.len(), runs)?;
    take_more(blocks, table, more);
    match write_places(disk, table, blocks, &kept, first, at, words) {
        Ok(()) => Ok(()),
        Err(_) => Err(BodyError::Device),
    }
}

/// Puts words at block `block` of a body, counted from 1: over the words there, and after zeros if the body
/// ends before. Only blocks that no other version reaches are written; a free block takes the place of each
/// other block that changes.
///
/// # Errors
///
/// `NoMemory` if there is no memory for the list of blocks, with nothing done; `BadData` with a damaged block,
/// words of which stay; `Device` if the device failed, with some of the words put.
pub fn put_words<D: Disk>(
    disk: &mut D,
    table: &mut Table,
    version: &mut Version,
    block: u32,
    words: &[Word],
) -> Result<(), BodyError>
    // What the caller ensures.
    requires volume { IsVolumeSize (D.state disk.old).size }
    requires size { table.old.size ≡ (D.state disk.old).size }
    requires fixed { IsFixed table.old }
    requires inside { AllByRecursion (InSpace (D.state disk.old).size) version.old.blocks }
    requires counted { length version.old.blocks ≡ blocks_of version.old.words }
    requires held { (n : ℕ) → times n version.old.blocks ≤ holds table.old n }
    requires first { 0 < block }
    requires fits { length_after version.old.words block (length words.now) ≤ most_blocks * BLOCK_WORDS }
    requires booked { uses table.old + (blocks_of (length_after version.old.words block (length words.now))
        - length version.old.blocks) < table.old.booked }
    requires room { table.old.booked ≤ space table.old.size }

    ensures body { (D.state disk.new).honest
        → OnOk result ((body : List ℕ) → length body ≡ version.old.words
        → HasBody (D.state disk.old).contents version.old.blocks body
        → HasBody (D.state disk.new).contents version.new.blocks (splice body block words.now)) }
    ensures length { OnOk result (version.new.words ≡ length_after version.old.words block (length words.now)) }
    ensures counted { OnOk result (length version.new.blocks ≡ blocks_of version.new.words) }
    // A damaged block is never taken for words that stay.
    ensures whole { (D.state disk.new).honest → 0 < length words.now → OnOk result ((n : ℕ)
        → IsEdgeBlock version.old.blocks version.old.words (block - 1) (length words.now) n
        → (D.state disk.old).contents n ≡ None → ⊥) }

    // Whatever the result.
    ensures ribs { version.new.ribs ≡ version.old.ribs }
    ensures inside { AllByRecursion (InSpace (D.state disk.old).size) version.new.blocks }
    ensures adds { AddsFree table.old version.old.blocks version.new.blocks }
    ensures few { length version.new.blocks ≤ blocks_of (length_after version.old.words block (length words.now)) }
    ensures table { table.new ≡ record table.old { held = table.new.held } }
    ensures held { (n : ℕ) → holds table.new n + times n version.old.blocks
        ≡ holds table.old n + times n version.new.blocks }
    ensures used { uses table.new + length version.old.blocks ≡ uses table.old + length version.new.blocks }
    ensures stays { KeepsOwn table.old version.old.blocks version.new.blocks }
    ensures modified { (D.state disk.new).honest
        → Modifies (IsOwn table.old version.old.blocks) (D.state disk.old) (D.state disk.new) }
    ensures memory { IsErrOf result NoMemory → (table.new ≡ table.old) × (version.new ≡ version.old)
        × (disk.new ≡ disk.old) }
    // Only a block whose words stay is refused.
    ensures edge { (D.state disk.new).honest → (k : ℕ) → IsErrOf result (BadData k)
        → IsEdgeBlock version.old.blocks version.old.words (block - 1) (length words.now) k }
    ensures damaged { (D.state disk.new).honest → (k : ℕ) → IsErrOf result (BadData k)
        → (0 < times k version.old.blocks) × ((D.state disk.old).contents k ≡ None) }
    ensures left { OnErr result (version.new.words ≡ version.old.words) }
    ensures undone { (k : ℕ) → IsErrOf result (BadData k) → (table.new ≡ table.old) × (version.new ≡ version.old) }

    // On every disk.
    ensures same { SameDisk (D.state disk.old) (D.state disk.new) }
    ensures failed { IsErrOf result Device → (D.state disk.new).failures ≡ one_more (D.state disk.old).failures }
    ensures served { (IsErrOf result Device → ⊥) → (D.state disk.new).failures ≡ (D.state disk.old).failures }
{
    if words.is_empty() {
        return Ok(());
    }
    let old = version.length();
    let end = (block - 1) as usize * BLOCK_WORDS + words.len();
    put_into(disk, table, &mut version.blocks, old, block, words)?;
    version.set_length(old.max(end as u32));
    Ok(())
}
