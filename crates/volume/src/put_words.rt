//! The writing of words into a version.
ghost use Rattle.std.specs.Prelude.{◌≡◌, ◌↔◌, ◌⊎◌, ◌+◌, ◌-◌, ◌*◌, ◌<◌, ◌≤◌, ℕ, List, true, false, length, None, Some};
ghost use Rattle.std.specs.Prelude.{IfNone, IfSome, IsSome, OnOk, IsErrOf};
ghost use Rattle.std.specs.List.{AllByRecursion};
ghost use Rattle.blockdisk.specs.Common.{LeavesOnly, Modifies};
ghost use Rattle.spec_image.specs.Common.{StandsOn, pack_of, blocks_of, cost_of_blocks, version_cost, InSpace, File};
ghost use Rattle.spec_image.specs.Common.{Files, times, IsVolumeSize, HasBody, most_blocks, splice, length_after};
ghost use Rattle.spec_image.specs.declared.code.ErrorCode.{ErrorCode};
ghost use Rattle.spec_image.specs.declared.code.ErrorCode.TheVariants.{NoRoom};
ghost use Rattle.alloctab.specs.Common.{holds, space, uses};
ghost use Rattle.retrieval.specs.Common.{IsOwn, IsEdgeBlock, VersionState, IsFixed};
ghost use Rattle.volume.specs.Common.{DiskAnswer, DeviceAnswer, HasHomesFrom, KeepsHomes, pending_at, memory_of};
ghost use Rattle.volume.specs.Common.{HasNoPlace, IsReady, Regrows, Regrown, IsSoundMemory, RestsAt, KeepsRead};
ghost use Rattle.volume.specs.Common.{KeepsWritten};
ghost use Rattle.volume.specs.declared.error.CallError.TheVariants.{Refused, Device, Failed, NoMemory};
ghost use Rattle.volume.specs.declared.pending.PendingVersion.{PendingVersion};
ghost use Rattle.retrieval.specs.declared.error.BodyError.TheVariants as body;

use crate::CallError;
use crate::cost::{cost_of_blocks, version_cost};
use crate::handles::Pending;
use crate::live::LiveMap;
use crate::pending::PendingVersion;
use crate::volume::Volume;
use alloctab::Table;
use blockdisk::Disk;
use retrieval::{BodyError, Version, put_words};
use slab::Slab;
use spec_image::ErrorCode;
use spec_image::layout::MOST_WORDS;
use words36::{BLOCK_WORDS, Word};

/// Returns how many words a body of `words` has after `count` are put at block `block`, counted from 1; `None` if that
/// is more than a file may have.
pub(crate) fn length_with(words: u32, block: u32, count: usize) -> Option<u32>
    requires first { 0 < block }
    requires some { 0 < count }
    requires few { words ≤ most_blocks * BLOCK_WORDS }
    ensures length { IfSome result (λ after. after ≡ length_after words block count) }
    ensures few { IfSome result (λ after. after ≤ most_blocks * BLOCK_WORDS) }
    ensures none { IfNone result (most_blocks * BLOCK_WORDS < length_after words block count) }
{
    let start = u64::from(block - 1) * BLOCK_WORDS as u64;
    let count = count as u64;
    let most = u64::from(MOST_WORDS);
    if start > most || count > most - start {
        return None;
    }
    Some(words.max((start + count) as u32))
}

/// Returns by how many blocks a version costs more after `count` words are put; `None` if no file may have as many
/// words as it has then.
pub(crate) fn growth(version: &Version, block: u32, count: usize) -> Option<u32>
    requires counted { length version.now.blocks ≡ blocks_of version.now.words }
    requires first { 0 < block }
    requires some { 0 < count }
    requires few { version.now.words ≤ most_blocks * BLOCK_WORDS }
    ensures more { IfSome result (λ more. more + cost_of_blocks (length version.now.blocks)
        ≡ version_cost (length_after version.now.words block count)) }
    ensures few { IfSome result (λ more. length_after version.now.words block count ≤ most_blocks * BLOCK_WORDS) }
    ensures none { IfNone result (most_blocks * BLOCK_WORDS < length_after version.now.words block count) }
{
    let after = length_with(version.length(), block, count)?;
    let blocks = after.div_ceil(BLOCK_WORDS as u32);
    Some(cost_of_blocks(blocks) - version_cost(version))
}

/// Books what a version costs more, and puts words into it. If they can't be put, as many blocks stay booked as the
/// version costs.
///
/// # Errors
///
/// As for `retrieval::put_words`. After `Device` the version is as long as its blocks.
fn put_booked<D: Disk>(
    disk: &mut D,
    table: &mut Table,
    version: &mut Version,
    more: u32,
    block: u32,
    words: &[Word],
) -> Result<(), BodyError>
    // The version and its blocks,
    requires volume { IsVolumeSize (D.state disk.old).size }
    requires size { table.old.size ≡ (D.state disk.old).size }
    requires fixed { IsFixed table.old }
    requires inside { AllByRecursion (InSpace (D.state disk.old).size) version.old.blocks }
    requires counted { length version.old.blocks ≡ blocks_of version.old.words }
    requires held { (n : ℕ) → times n version.old.blocks ≤ holds table.old n }
    // what is put,
    requires first { 0 < block }
    requires some { 0 < length words.now }
    requires fits { length_after version.old.words block (length words.now) ≤ most_blocks * BLOCK_WORDS }
    // and what may be booked.
    requires used { uses table.old < table.old.booked }
    requires cost { cost_of_blocks (length version.old.blocks) ≤ table.old.booked }
    requires more { more + cost_of_blocks (length version.old.blocks)
        ≡ version_cost (length_after version.old.words block (length words.now)) }
    requires room { table.old.booked + more ≤ space table.old.size }

    // What is put, at Ok.
    ensures body { (D.state disk.new).honest
        → OnOk result ((body : List ℕ) → length body ≡ version.old.words
        → HasBody (D.state disk.old).contents version.old.blocks body
        → HasBody (D.state disk.new).contents version.new.blocks (splice body block words.now)) }
    ensures length { OnOk result (version.new.words ≡ length_after version.old.words block (length words.now)) }
    // What it does to the table, and which blocks are written.
    ensures grown { Regrows (D.state disk.old).size table.old table.new version.old version.new }
    ensures modified { (D.state disk.new).honest
        → Modifies (IsOwn table.old version.old.blocks) (D.state disk.old) (D.state disk.new) }
    // A damaged block is never taken for words that stay.
    ensures whole { (D.state disk.new).honest → OnOk result ((n : ℕ)
        → IsEdgeBlock version.old.blocks version.old.words (block - 1) (length words.now) n
        → (D.state disk.old).contents n ≡ None → ⊥) }
    // Which refusal comes when, and what it leaves.
    ensures memory { IsErrOf result body.NoMemory → (table.new ≡ table.old) × (version.new ≡ version.old)
        × (disk.new ≡ disk.old) }
    ensures damaged { (D.state disk.new).honest → (k : ℕ) → IsErrOf result (body.BadData k)
        → (0 < times k version.old.blocks) × ((D.state disk.old).contents k ≡ None) }
    ensures edge { (D.state disk.new).honest → (k : ℕ) → IsErrOf result (body.BadData k)
        → IsEdgeBlock version.old.blocks version.old.words (block - 1) (length words.now) k }
    ensures disk { DiskAnswer (D.state disk.old) (D.state disk.new) (IsErrOf result body.Device) }
{
    let cost = version_cost(version) + more;
    table.book(more);
    match put_words(disk, table, version, block, words) {
        Ok(()) => Ok(()),
        Err(BodyError::Device) => {
            version.set_length((version.count() * BLOCK_WORDS) as u32); // some blocks may be new
            table.unbook(cost - version_cost(version));
            Err(BodyError::Device)
        }
        Err(error) => {
            table.unbook(more);
            Err(error)
        }
    }
}

/// Puts words into the version under a key.
///
/// # Errors
///
/// `Refused` with `NoRoom` if it would be longer than a file may be, or cost more than there is room for; `NoMemory` if
/// there is no memory for the list of its blocks. Nothing changes then. `Failed` if one of its blocks is damaged;
/// `Device` if the device failed.
fn put_pending<D: Disk>(
    disk: &mut D,
    table: &mut Table,
    pending: &mut Slab<PendingVersion>,
    key: usize,
    block: u32,
    words: &[Word],
) -> Result<(), CallError>
    // The version and its blocks, and what is put.
    requires volume { IsVolumeSize (D.state disk.old).size }
    requires size { table.old.size ≡ (D.state disk.old).size }
    requires there { IsSome (pending_at pending.old.slots key) }
    requires ready { (p : PendingVersion) → pending_at pending.old.slots key ≡ Some p
        → IsReady (D.state disk.old).size table.old p.version }
    requires first { 0 < block }
    requires some { 0 < length words.now }

    // What is put, at Ok.
    ensures put { OnOk result ((p : PendingVersion) → pending_at pending.old.slots key ≡ Some p
        → (v : VersionState) × (pending_at pending.new.slots key ≡ Some (record p { version = v }))
        × (v.words ≡ length_after p.version.words block (length words.now))
        × ((D.state disk.new).honest → (body : List ℕ) → length body ≡ p.version.words
        → HasBody (D.state disk.old).contents p.version.blocks body
        → HasBody (D.state disk.new).contents v.blocks (splice body block words.now))) }
    // What it does to the table and to others, and which blocks are written.
    ensures grown { (p : PendingVersion) → pending_at pending.old.slots key ≡ Some p → (v : VersionState)
        × Regrown (D.state disk.old).size table.old table.new pending.new.slots key p v }
    ensures others { (k : ℕ) → (k ≡ key → ⊥) → pending_at pending.new.slots k ≡ pending_at pending.old.slots k }
    ensures modified { (D.state disk.new).honest → (p : PendingVersion) → pending_at pending.old.slots key ≡ Some p
        → Modifies (IsOwn table.old p.version.blocks) (D.state disk.old) (D.state disk.new) }
    // A damaged block is never taken for words that stay.
    ensures whole { (D.state disk.new).honest → (p : PendingVersion) → pending_at pending.old.slots key ≡ Some p
        → OnOk result ((n : ℕ) → IsEdgeBlock p.version.blocks p.version.words (block - 1) (length words.now) n
        → (D.state disk.old).contents n ≡ None → ⊥) }

    // Which refusal comes when, and what it leaves.
    ensures room { (p : PendingVersion) → pending_at pending.old.slots key ≡ Some p
        → (IsErrOf result (Refused NoRoom)
        ↔ HasNoPlace table.old.size table.old.booked p.version.words block (length words.now)) }
    ensures codes { (code : ErrorCode) → IsErrOf result (Refused code) → code ≡ NoRoom }
    ensures refused { (code : ErrorCode) → IsErrOf result (Refused code) → (disk.new ≡ disk.old)
        × (table.new ≡ table.old) × (pending.new.slots ≡ pending.old.slots) }
    ensures memory { IsErrOf result NoMemory → (disk.new ≡ disk.old) × (table.new ≡ table.old)
        × (pending.new.slots ≡ pending.old.slots) }
    ensures damaged { (D.state disk.new).honest → (p : PendingVersion) → pending_at pending.old.slots key ≡ Some p
        → IsErrOf result Failed → (k : ℕ) × (0 < times k p.version.blocks) × ((D.state disk.old).contents k ≡ None)
        × IsEdgeBlock p.version.blocks p.version.words (block - 1) (length words.now) k }

    ensures disk { DiskAnswer (D.state disk.old) (D.state disk.new) (IsErrOf result Device) }
{
    let Some(pending) = pending.get_mut(key) else {
        unreachable!() // there is a version
    };
    let version = &mut pending.version;
    let more = match growth(version, block, words.len()) {
        Some(more) if table.can_book(more) => more,
        _ => return Err(CallError::Refused(ErrorCode::NoRoom)),
    };
    match put_booked(disk, table, version, more, block, words) {
        Ok(()) => Ok(()),
        Err(BodyError::NoMemory) => Err(CallError::NoMemory),
        Err(BodyError::Device) => Err(CallError::Device),
        Err(BodyError::BadData(_)) => Err(CallError::Failed),
    }
}

/// Puts words at block `block` of the version under a key, counted from 1, as `Volume::put_words` does. Sets `failed`
/// if the disk fails or a block is damaged.
pub(crate) fn put_in_memory<D: Disk>(
    disk: &mut D,
    map: &mut LiveMap,
    failed: &mut bool,
    key: usize,
    block: u32,
    words: &[Word],
) -> Result<(), CallError>
    requires sound { IsSoundMemory (D.state disk.old) (memory_of map.old) failed.old }
    requires live { IsSome (pending_at (memory_of map.old).pending key) }
    requires first { 0 < block }

    ensures sound { IsSoundMemory (D.state disk.new) (memory_of map.new) failed.new }

    // Its writes are quiet: whatever a crash leaves at any moment stands for the files from before.
    ensures quiet { (D.state disk.new).honest → (f : Files File) → RestsAt (D.state disk.old) f
        → LeavesOnly (D.state disk.old) (D.state disk.new) (λ c. StandsOn (pack_of (D.state disk.old)) c f) }
    ensures rests { (D.state disk.new).honest → (f : Files File) → RestsAt (D.state disk.old) f
        → RestsAt (D.state disk.new) f }
    // At Ok the version has the words put.
    ensures put { OnOk result ((p : PendingVersion) → pending_at (memory_of map.old).pending key ≡ Some p
        → (v : VersionState) × (pending_at (memory_of map.new).pending key ≡ Some (record p { version = v }))
        × (v.words ≡ length_after p.version.words block (length words.now))
        × ((D.state disk.new).honest → (body : List ℕ) → length body ≡ p.version.words
        → HasBody (D.state disk.old).contents p.version.blocks body
        → HasBody (D.state disk.new).contents v.blocks (splice body block words.now))) }
    // Putting no words changes nothing.
    ensures nothing { length words.now ≡ 0 → (disk.new ≡ disk.old) × (memory_of map.new ≡ memory_of map.old) }
    // The version is still there, whatever the answer.
    ensures stays { IsSome (pending_at (memory_of map.new).pending key) }
    // All other versions stay, and so do their blocks.
    ensures others { (k : ℕ) → (k ≡ key → ⊥) → pending_at (memory_of map.new).pending k
        ≡ pending_at (memory_of map.old).pending k }
    ensures live { (memory_of map.new).live ≡ (memory_of map.old).live }
    ensures versions { map.new.versions ≡ map.old.versions }
    ensures keys { (memory_of map.new).keys ≡ (memory_of map.old).keys }
    ensures known { (memory_of map.new).known
        ≡ record (memory_of map.old).known { table = (memory_of map.new).known.table } }
    ensures kept { (D.state disk.new).honest → (p : PendingVersion)
        → pending_at (memory_of map.old).pending key ≡ Some p
        → (n : ℕ) → (IsOwn (memory_of map.old).known.table p.version.blocks n → ⊥)
        → (D.state disk.new).contents n ≡ (D.state disk.old).contents n }
    // So no reader and no other writer sees a block of theirs change.
    ensures readers { (D.state disk.new).honest
        → KeepsRead (D.state disk.old).contents (D.state disk.new).contents (memory_of map.old) }
    ensures writers { (D.state disk.new).honest
        → KeepsWritten (D.state disk.old).contents (D.state disk.new).contents (memory_of map.old) key }
    ensures homes { (D.state disk.new).honest
        → LeavesOnly (D.state disk.old) (D.state disk.new) (HasHomesFrom (D.state disk.old)) }
    ensures home_blocks { (D.state disk.new).honest
        → KeepsHomes (D.state disk.old).contents (D.state disk.new).contents }
    // A damaged block is never taken for words that stay.
    ensures whole { (D.state disk.new).honest → 0 < length words.now → (p : PendingVersion)
        → pending_at (memory_of map.old).pending key ≡ Some p
        → OnOk result ((n : ℕ) → IsEdgeBlock p.version.blocks p.version.words (block - 1) (length words.now) n
        → (D.state disk.old).contents n ≡ None → ⊥) }

    // Which error comes when, and what it leaves.
    ensures failed { failed.old ≡ true → IsErrOf result Failed }
    ensures broken { failed.old ≡ true → (disk.new ≡ disk.old) × (memory_of map.new ≡ memory_of map.old) }
    ensures given_up { IsErrOf result Failed → (failed.old ≡ true) ⊎ ((D.state disk.new).honest → ⊥) }
    ensures room { failed.old ≡ false → (p : PendingVersion) → pending_at (memory_of map.old).pending key ≡ Some p
        → (IsErrOf result (Refused NoRoom)
        ↔ ((0 < length words.now) × HasNoPlace (D.state disk.old).size (memory_of map.old).known.table.booked
        p.version.words block (length words.now))) }
    ensures codes { (code : ErrorCode) → IsErrOf result (Refused code) → code ≡ NoRoom }
    ensures refused { (code : ErrorCode) → IsErrOf result (Refused code) → (disk.new ≡ disk.old)
        × (memory_of map.new ≡ memory_of map.old) }
    ensures memory { IsErrOf result NoMemory → (disk.new ≡ disk.old) × (memory_of map.new ≡ memory_of map.old) }
    ensures answer { DeviceAnswer (D.state disk.old) (D.state disk.new) failed.old failed.new result }
{
    if *failed {
        return Err(CallError::Failed);
    }
    if words.is_empty() {
        return Ok(());
    }
    match put_pending(disk, &mut map.table, &mut map.pending, key, block, words) {
        Ok(()) => Ok(()),
        Err(error @ (CallError::Device | CallError::Failed)) => {
            *failed = true; // nothing of memory is used any more
            Err(error)
        }
        Err(error) => Err(error),
    }
}

impl<D: Disk> Volume<D> {
    /// Puts words at block `block` of a version that is being written, counted from 1: over what is there, and after
    /// zeros if the version ends before. Putting no words changes nothing. A crash finds the files as they were, since
    /// only blocks are written that no file and no reader has.
    ///
    /// # Errors
    ///
    /// `Failed` if the volume failed before. `Refused` with `NoRoom` if the version would have more than 16384 blocks,
    /// or if what it costs more exceeds the room; `NoMemory` if there is no memory for it. Nothing changes then.
    /// `Device` if the device failed, and the volume with it; `Failed`, and the volume with it, if a block of the
    /// version that was written is damaged.
    pub fn put_words(
        &mut self,
        pending: Pending,
        block: u32,
        words: &[Word],
    ) -> Result<(), CallError>
        requires live { IsSome (pending_at self.old.map.pending pending.key) }
        requires first { 0 < block }

        // Its writes are quiet: whatever a crash leaves at any moment stands for the files from before.
        ensures quiet { (D.state self.new.disk).honest → (f : Files File) → RestsAt (D.state self.old.disk) f
            → LeavesOnly (D.state self.old.disk) (D.state self.new.disk)
            (λ c. StandsOn (pack_of (D.state self.old.disk)) c f) }
        ensures rests { (D.state self.new.disk).honest → (f : Files File) → RestsAt (D.state self.old.disk) f
            → RestsAt (D.state self.new.disk) f }
        // At Ok the version has the words put.
        ensures put { OnOk result ((p : PendingVersion) → pending_at self.old.map.pending pending.key ≡ Some p
            → (v : VersionState) × (pending_at self.new.map.pending pending.key ≡ Some (record p { version = v }))
            × (v.words ≡ length_after p.version.words block (length words.now))
            × ((D.state self.new.disk).honest → (body : List ℕ) → length body ≡ p.version.words
            → HasBody (D.state self.old.disk).contents p.version.blocks body
            → HasBody (D.state self.new.disk).contents v.blocks (splice body block words.now))) }
        // Putting no words changes nothing.
        ensures nothing { length words.now ≡ 0 → (self.new.disk ≡ self.old.disk) × (self.new.map ≡ self.old.map) }
        // The version is still there, whatever the answer.
        ensures stays { IsSome (pending_at self.new.map.pending pending.key) }
        // All other versions stay, and so do their blocks.
        ensures others { (k : ℕ) → (k ≡ pending.key → ⊥) → pending_at self.new.map.pending k
            ≡ pending_at self.old.map.pending k }
        ensures live { self.new.map.live ≡ self.old.map.live }
        ensures keys { self.new.map.keys ≡ self.old.map.keys }
        ensures known { self.new.map.known ≡ record self.old.map.known { table = self.new.map.known.table } }
        ensures kept { (D.state self.new.disk).honest → (p : PendingVersion)
            → pending_at self.old.map.pending pending.key ≡ Some p → (n : ℕ)
            → (IsOwn self.old.map.known.table p.version.blocks n → ⊥)
            → (D.state self.new.disk).contents n ≡ (D.state self.old.disk).contents n }
        // So no reader and no other writer sees a block of theirs change.
        ensures readers { (D.state self.new.disk).honest
            → KeepsRead (D.state self.old.disk).contents (D.state self.new.disk).contents self.old.map }
        ensures writers { (D.state self.new.disk).honest
            → KeepsWritten (D.state self.old.disk).contents (D.state self.new.disk).contents self.old.map pending.key }
        // The home copies stay, even if the device failed; a crash at any moment leaves there what one could leave
        // before.
        ensures homes { (D.state self.new.disk).honest
            → LeavesOnly (D.state self.old.disk) (D.state self.new.disk) (HasHomesFrom (D.state self.old.disk)) }
        ensures home_blocks { (D.state self.new.disk).honest
            → KeepsHomes (D.state self.old.disk).contents (D.state self.new.disk).contents }
        // A damaged block is never taken for words that stay.
        ensures whole { (D.state self.new.disk).honest → 0 < length words.now → (p : PendingVersion)
            → pending_at self.old.map.pending pending.key ≡ Some p
            → OnOk result ((n : ℕ) → IsEdgeBlock p.version.blocks p.version.words (block - 1) (length words.now) n
            → (D.state self.old.disk).contents n ≡ None → ⊥) }

        // Which error comes when, and what it leaves.
        ensures failed { self.old.failed ≡ true → IsErrOf result Failed }
        ensures broken { self.old.failed ≡ true → (self.new.disk ≡ self.old.disk) × (self.new.map ≡ self.old.map) }
        ensures given_up { IsErrOf result Failed → (self.old.failed ≡ true) ⊎ ((D.state self.new.disk).honest → ⊥) }
        ensures room { self.old.failed ≡ false → (p : PendingVersion) → pending_at self.old.map.pending pending.key
            ≡ Some p
            → (IsErrOf result (Refused NoRoom)
            ↔ ((0 < length words.now) × HasNoPlace (D.state self.old.disk).size self.old.map.known.table.booked
            p.version.words block (length words.now))) }
        ensures codes { (code : ErrorCode) → IsErrOf result (Refused code) → code ≡ NoRoom }
        ensures refused { (code : ErrorCode) → IsErrOf result (Refused code) → (self.new.disk ≡ self.old.disk)
            × (self.new.map ≡ self.old.map) }
        ensures memory { IsErrOf result NoMemory → (self.new.disk ≡ self.old.disk) × (self.new.map ≡ self.old.map) }
        ensures answer { DeviceAnswer (D.state self.old.disk) (D.state self.new.disk) self.old.failed self.new.failed
            result }
        ensures layout { self.new.layout ≡ self.old.layout }
    {
        put_in_memory(
            &mut self.disk,
            &mut self.map,
            &mut self.failed,
            pending.key,
            block,
            words,
        )
    }
}
