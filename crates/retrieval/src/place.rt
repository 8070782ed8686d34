//! The blocks of a body that are written: only blocks that no other version reaches.
ghost use Rattle.std.specs.Prelude.{◌≡◌, ◌⊎◌, ◌+◌, ◌-◌, ◌*◌, ◌<◌, ◌≤◌, ℕ, length, slice_index, slice_set, IfOk, OnOk};
ghost use Rattle.std.specs.Prelude.{IsErrOf};
ghost use Rattle.std.specs.List.{AllByRecursion};
ghost use Rattle.blockdisk.specs.Common.{SameDisk, Modifies, one_more};
ghost use Rattle.blockdisk.specs.declared.fault.Fault.TheVariants.{Device as DeviceFault, Damaged};
ghost use Rattle.spec_image.specs.Common.{blocks_of, InSpace, times};
ghost use Rattle.alloctab.specs.Common.{holds, space, uses, bit};
ghost use Rattle.retrieval.specs.Common.{IsOwn, AddsFree, KeepsOwn, StandAlone, AtPlace, HoldsNew, IsPartlyPlaced};
ghost use Rattle.retrieval.specs.Common.{IsFixed};
ghost use Rattle.spec_image.specs.Common.{most_blocks};

use crate::block_list::BlockList;
use crate::unchanged::{UnchangedWords, new_block};
use alloctab::Table;
use blockdisk::{Disk, Fault};
use words36::{BLOCK_WORDS, Word};

/// Makes the block at a place the version's own, which no other version reaches: the one that is there, or a
/// free one in its place. Returns it.
pub(crate) fn own_place(table: &mut Table, blocks: &mut BlockList, i: usize) -> u32
    // The place is in the version, whose blocks are held, and one more may be taken.
    requires below { i < length blocks.old.blocks }
    requires spare { 2 ≤ blocks.old.spare }
    requires inside { AllByRecursion (InSpace table.old.size) blocks.old.blocks }
    requires held { (n : ℕ) → times n blocks.old.blocks ≤ holds table.old n }
    requires fixed { IsFixed table.old }
    requires used { uses table.old < table.old.booked }
    requires room { table.old.booked ≤ space table.old.size }

    // The block that is written, and the version with it.
    ensures blocks { blocks.new.blocks ≡ slice_set blocks.old.blocks i result }
    ensures spare { blocks.old.spare ≤ blocks.new.spare + 2 }
    ensures inside { InSpace table.old.size result }
    ensures alone { times result blocks.new.blocks ≡ 1 }
    ensures own { IsOwn table.new blocks.new.blocks result }
    // The table: another block is held in place of one that was not its own.
    ensures stays { bit table.old (slice_index blocks.old.blocks i) ≡ 0
        → holds table.old (slice_index blocks.old.blocks i) ≡ 1 → result ≡ slice_index blocks.old.blocks i }

    ensures table { table.new ≡ record table.old { held = table.new.held } }
    ensures held { (n : ℕ) → holds table.new n + times n blocks.old.blocks
        ≡ holds table.old n + times n blocks.new.blocks }
    ensures used { uses table.new ≡ uses table.old }
{
    let _booked = table.booked(); // which states that the table is sound
    let shared = blocks.at(i);
    if table.is_held_alone(shared) {
        return shared;
    }
    let n = table.take_block();
    table.unhold(shared);
    blocks.set(i, n);
    n
}

/// Makes the blocks from place `first` to before place `end` the version's own, as `own_place` does for one.
fn own_places(table: &mut Table, blocks: &mut BlockList, first: usize, end: usize)
    requires order { first ≤ end }
    requires fits { end ≤ length blocks.old.blocks }
    requires spare { 2 * (end - first) ≤ blocks.old.spare }
    requires inside { AllByRecursion (InSpace table.old.size) blocks.old.blocks }
    requires held { (n : ℕ) → times n blocks.old.blocks ≤ holds table.old n }
    requires fixed { IsFixed table.old }
    requires used { uses table.old < table.old.booked }
    requires room { table.old.booked ≤ space table.old.size }

    // The blocks at these places, and those at the others.
    ensures own { (j : ℕ) → first ≤ j → j < end → IsOwn table.old blocks.old.blocks (slice_index blocks.new.blocks j) }
    ensures apart { StandAlone blocks.new.blocks first end }
    ensures others { (j : ℕ) → (j < first) ⊎ (end ≤ j)
        → slice_index blocks.new.blocks j ≡ slice_index blocks.old.blocks j }
    ensures long { length blocks.new.blocks ≡ length blocks.old.blocks }
    ensures inside { AllByRecursion (InSpace table.old.size) blocks.new.blocks }
    ensures adds { AddsFree table.old blocks.old.blocks blocks.new.blocks }
    ensures stays { KeepsOwn table.old blocks.old.blocks blocks.new.blocks }
    // The table.
    ensures table { table.new ≡ record table.old { held = table.new.held } }
    ensures held { (n : ℕ) → holds table.new n + times n blocks.old.blocks
        ≡ holds table.old n + times n blocks.new.blocks }
    ensures used { uses table.new ≡ uses table.old }
{
    for i in first..end {
        let _n = own_place(table, blocks, i);
    }
}

/// Returns how many blocks from place `i` are filled by `count` words that are put from place `at`.
fn filled_from(at: usize, count: usize, i: usize) -> usize
    ensures from { 0 < result → at ≤ i }
    ensures within { 0 < result → (i - at + result) * BLOCK_WORDS ≤ count }
{
    if i < at {
        return 0;
    }
    (count / BLOCK_WORDS).saturating_sub(i - at)
}

/// Writes blocks of a version from place `i`, of which at least one is left: a run of those that the words fill, or
/// one block. Returns how many.
///
/// # Errors
///
/// `Device` if the device failed; some of the places that are left may then be written.
fn write_some<D: Disk>(
    disk: &mut D,
    blocks: &BlockList,
    kept: &UnchangedWords,
    at: usize,
    words: &[Word],
    i: usize,
) -> Result<usize, Fault>
    requires left { i < at + blocks_of (length words.now) }
    requires fits { at + blocks_of (length words.now) ≤ length blocks.now.blocks }
    requires few { length blocks.now.blocks ≤ most_blocks }
    requires inside { AllByRecursion (InSpace (D.state disk.old).size) blocks.now.blocks }
    requires apart { StandAlone blocks.now.blocks i (at + blocks_of (length words.now)) }
    ensures some { IfOk result (λ count. 0 < count) }
    ensures within { IfOk result (λ count. i + count ≤ at + blocks_of (length words.now)) }
    ensures written { (D.state disk.new).honest → IfOk result (λ count. (j : ℕ) → i ≤ j → j < i + count
        → HoldsNew (D.state disk.new).contents at words.now kept.now.place kept.now.words j
        (slice_index blocks.now.blocks j)) }
    ensures modified { (D.state disk.new).honest
        → Modifies (AtPlace blocks.now.blocks i (at + blocks_of (length words.now)))
        (D.state disk.old) (D.state disk.new) }
    ensures same { SameDisk (D.state disk.old) (D.state disk.new) }
    ensures device { IsErrOf result Damaged → ⊥ }
    ensures failed { IsErrOf result DeviceFault → (D.state disk.new).failures ≡ one_more (D.state disk.old).failures }
    ensures served { OnOk result ((D.state disk.new).failures ≡ (D.state disk.old).failures) }
{
    let run = blocks.run_at(i);
    let filled = filled_from(at, words.len(), i);
    if filled == 0 {
        disk.write(run.first, &new_block(kept, at, words, i))?;
        return Ok(1);
    }
    let count = run.count().min(filled);
    let (whole, _rest) = words.as_chunks::<BLOCK_WORDS>();
    disk.write_run(run.first, &whole[i - at..i - at + count])?;
    Ok(count)
}

/// Writes the blocks of a version from place `first`, each of which is its own, with words put from place `at` over
/// those that stay, and with zeros before them where none stays.
///
/// # Errors
///
/// `Device` if the device failed; some of the places are then written.
fn write_all<D: Disk>(
    disk: &mut D,
    blocks: &BlockList,
    kept: &UnchangedWords,
    first: usize,
    at: usize,
    words: &[Word],
) -> Result<(), Fault>
    requires fits { at + blocks_of (length words.now) ≤ length blocks.now.blocks }
    requires few { length blocks.now.blocks ≤ most_blocks }
    requires order { first ≤ at + blocks_of (length words.now) }
    requires inside { AllByRecursion (InSpace (D.state disk.old).size) blocks.now.blocks }
    requires apart { StandAlone blocks.now.blocks first (at + blocks_of (length words.now)) }
    ensures written { (D.state disk.new).honest
        → OnOk result ((j : ℕ) → first ≤ j → j < at + blocks_of (length words.now)
        → HoldsNew (D.state disk.new).contents at words.now kept.now.place kept.now.words j
        (slice_index blocks.now.blocks j)) }
    ensures modified { (D.state disk.new).honest
        → Modifies (AtPlace blocks.now.blocks first (at + blocks_of (length words.now)))
        (D.state disk.old) (D.state disk.new) }
    ensures same { SameDisk (D.state disk.old) (D.state disk.new) }
    ensures device { IsErrOf result Damaged → ⊥ }
    ensures failed { IsErrOf result DeviceFault → (D.state disk.new).failures ≡ one_more (D.state disk.old).failures }
    ensures served { OnOk result ((D.state disk.new).failures ≡ (D.state disk.old).failures) }
{
    let end = at + words.len().div_ceil(BLOCK_WORDS);
    let mut i = first;
    while i < end {
        i += write_some(disk, blocks, kept, at, words, i)?;
    }
    Ok(())
}

/// Writes the blocks of a version from place `first`, with words put from place `at` over those that stay, and
/// with zeros before them where none stays. Each block that another version reaches is left, and a free one takes
/// its place.
///
/// # Errors
///
/// `Device` if the device failed; some of the places are then written.
pub(crate) fn write_places<D: Disk>(
    disk: &mut D,
    table: &mut Table,
    blocks: &mut BlockList,
    kept: &UnchangedWords,
    first: usize,
    at: usize,
    words: &[Word],
) -> Result<(), Fault>
    // The words and the places that they go to.
    requires size { table.old.size ≡ (D.state disk.old).size }
    requires fits { at + blocks_of (length words.now) ≤ length blocks.old.blocks }
    requires few { length blocks.old.blocks ≤ most_blocks }
    requires order { first ≤ at }
    requires spare { 2 * (at + blocks_of (length words.now) - first) ≤ blocks.old.spare }
    // The blocks of the version are held, and enough more may be taken.
    requires inside { AllByRecursion (InSpace (D.state disk.old).size) blocks.old.blocks }
    requires held { (n : ℕ) → times n blocks.old.blocks ≤ holds table.old n }
    requires fixed { IsFixed table.old }
    requires used { uses table.old < table.old.booked }
    requires room { table.old.booked ≤ space table.old.size }

    // The blocks of the version, and what they hold at Ok.
    ensures placed { (D.state disk.new).honest
        → OnOk result (IsPartlyPlaced (D.state disk.old).contents (D.state disk.new).contents blocks.old.blocks
        blocks.new.blocks at words.now kept.now.place kept.now.words first (at + blocks_of (length words.now))) }

    ensures long { length blocks.new.blocks ≡ length blocks.old.blocks }
    ensures inside { AllByRecursion (InSpace (D.state disk.old).size) blocks.new.blocks }
    ensures adds { AddsFree table.old blocks.old.blocks blocks.new.blocks }
    // The table, whatever the result.
    ensures table { table.new ≡ record table.old { held = table.new.held } }
    ensures held { (n : ℕ) → holds table.new n + times n blocks.old.blocks
        ≡ holds table.old n + times n blocks.new.blocks }
    ensures used { uses table.new ≡ uses table.old }
    ensures stays { KeepsOwn table.old blocks.old.blocks blocks.new.blocks }
    // Only blocks of its own are written.
    ensures modified { (D.state disk.new).honest
        → Modifies (IsOwn table.old blocks.old.blocks) (D.state disk.old) (D.state disk.new) }

    ensures same { SameDisk (D.state disk.old) (D.state disk.new) }
    // The device: what failed, and how often.
    ensures device { IsErrOf result Damaged → ⊥ }
    ensures failed { IsErrOf result DeviceFault → (D.state disk.new).failures ≡ one_more (D.state disk.old).failures }
    ensures served { OnOk result ((D.state disk.new).failures ≡ (D.state disk.old).failures) }
{
    own_places(table, blocks, first, at + words.len().div_ceil(BLOCK_WORDS));
    write_all(disk, blocks, kept, first, at, words)
}
