//! The publication of versions.
ghost use Rattle.std.specs.Prelude.{◌≡◌, ◌⊎◌, ◌↔◌, ◌-◌, ◌<◌, ℕ, Bool, List, false, true, length, OnOk, IfOk, IfErr};
ghost use Rattle.std.specs.Prelude.{IsErrOf, IsSome, Some, None};
ghost use Rattle.blockdisk.specs.Common.{LeavesOnly};
ghost use Rattle.spec_image.specs.Common.{pack_of, blocks_of, File, Files, times, HasBody, splice, length_after};
ghost use Rattle.spec_image.specs.declared.code.ErrorCode.{ErrorCode};
ghost use Rattle.spec_image.specs.declared.code.ErrorCode.TheVariants.{NoRoom};
ghost use Rattle.spec_image.specs.declared.put.Put.{Put};
ghost use Rattle.retrieval.specs.Common.{IsEdgeBlock, rib_count};
ghost use Rattle.slab.specs.Slab.{HasRoomFor};
ghost use Rattle.volume.specs.Common.{DeviceAnswer, KeepsHomeCopies, slot, pending_at, IsWholeMemory, memory_of};
ghost use Rattle.volume.specs.Common.{MakesCurrent, IsPlaced, IsPublishedMemory, IsSupplied, file_of, files_published};
ghost use Rattle.volume.specs.Common.{HasNoPlace, IsSoundMemory, RestsAt, StandsForOneOf, KeepsRead, KeepsWritten};
ghost use Rattle.volume.specs.declared.error.CallError.TheVariants.{Refused, Device, Failed, NoMemory};
ghost use Rattle.volume.specs.declared.live.LiveVersion.{LiveVersion};
ghost use Rattle.volume.specs.declared.pending.PendingVersion.{PendingVersion};

use crate::CallError;
use crate::handles::Pending;
use crate::live::LiveMap;
use crate::prealloc::{PublishPrealloc, preallocate_publish};
use crate::publish_in_memory::make_current;
use crate::put_words::{growth, length_with, put_in_memory};
use crate::transaction::commit_edit;
use crate::volume::Volume;
use blockdisk::Disk;
use changeset::ChangeSet;
use retrieval::write_retrieval_blocks;
use spec_image::ErrorCode;
use std::alloc::Global;
use words36::{BLOCK_WORDS, Word};

/// Returns how many data blocks the version under a key has after `count` words are put at a block, counted from 1.
///
/// # Errors
///
/// `Refused(NoRoom)` if they can't be put: no file may have as many, or they cost more than there is room for.
fn last_blocks(map: &LiveMap, key: usize, block: u32, count: usize) -> Result<usize, CallError>
    requires whole { IsWholeMemory map.now.table.size (memory_of map.now) }
    requires there { IsSome (pending_at (memory_of map.now).pending key) }
    requires first { 0 < block }
    ensures blocks { IfOk result (λ blocks. (p : PendingVersion) → pending_at (memory_of map.now).pending key ≡ Some p
        → blocks ≡ blocks_of (length_after p.version.words block count)) }
    ensures room { (p : PendingVersion) → pending_at (memory_of map.now).pending key ≡ Some p
        → (IsErrOf result (Refused NoRoom)
        ↔ ((0 < count) × HasNoPlace map.now.table.size map.now.table.booked p.version.words block count)) }
    ensures only { IfErr result (λ error. error ≡ Refused NoRoom) }
{
    let Some(pending) = map.pending.get(key) else {
        unreachable!() // there is a version
    };
    let version = &pending.version;
    if count == 0 {
        return Ok(version.count());
    }
    match growth(version, block, count) {
        Some(more) if map.table.can_book(more) => {}
        _ => return Err(CallError::Refused(ErrorCode::NoRoom)),
    }
    match length_with(version.length(), block, count) {
        Some(words) => Ok(words.div_ceil(BLOCK_WORDS as u32) as usize),
        None => unreachable!(), // they can be put
    }
}

/// Publishes the version under a key, all of whose words are put: a plan in memory with the puts that it asks
/// for, then its retrieval blocks, then the puts in one change.
///
/// # Errors
///
/// `Device` if the device failed, and the volume with it.
fn publish_written<D: Disk>(
    disk: &mut D,
    map: &mut LiveMap,
    failed: &mut bool,
    key: usize,
    supplies: PublishPrealloc,
) -> Result<(), CallError>
    // What the caller ensures.
    requires sound { IsSoundMemory (D.state disk.old) (memory_of map.old) false }
    requires alive { failed.old ≡ false }
    requires there { IsSome (pending_at (memory_of map.old).pending key) }
    requires placed { (p : PendingVersion) → pending_at (memory_of map.old).pending key ≡ Some p
        → IsPlaced (memory_of map.old) p }
    requires ribs { (p : PendingVersion) → pending_at (memory_of map.old).pending key ≡ Some p
        → length supplies.ribs.items ≡ rib_count (length p.version.blocks) }
    requires supplied { (p : PendingVersion) → pending_at (memory_of map.old).pending key ≡ Some p
        → IsSupplied (memory_of map.old) p supplies.reserve supplies.keys }
    requires slot { HasRoomFor map.old.versions 1 }

    // What it does to memory and disk.
    ensures sound { IsSoundMemory (D.state disk.new) (memory_of map.new) failed.new }
    ensures made_current { (p : PendingVersion) → pending_at (memory_of map.old).pending key ≡ Some p
        → (at : ℕ) × (ribs : List ℕ) × (puts : List Put)
        × MakesCurrent (D.state disk.old).size (memory_of map.old) (memory_of map.new) key p at ribs puts }
    ensures crash { (D.state disk.new).honest → (f : Files File) → RestsAt (D.state disk.old) f → (p : PendingVersion)
        → pending_at (memory_of map.old).pending key ≡ Some p
        → (body : List ℕ) → length body ≡ p.version.words → HasBody (D.state disk.old).contents p.version.blocks body
        → LeavesOnly (D.state disk.old) (D.state disk.new) (StandsForOneOf (pack_of (D.state disk.old)) f
        (files_published f p.prime.ppn p.prime.file (file_of p.prime body))) }
    ensures done { (D.state disk.new).honest → (f : Files File) → RestsAt (D.state disk.old) f → (p : PendingVersion)
        → pending_at (memory_of map.old).pending key ≡ Some p
        → (body : List ℕ) → length body ≡ p.version.words → HasBody (D.state disk.old).contents p.version.blocks body
        → OnOk result (RestsAt (D.state disk.new) (files_published f p.prime.ppn p.prime.file (file_of p.prime body))) }
    // The blocks of other versions stay. If the device failed, they may have been open, and may be anything.
    ensures readers { (D.state disk.new).honest → (IsErrOf result Device → ⊥) → (k : ℕ) (v : LiveVersion)
        → slot (memory_of map.old).live k ≡ Some v → 0 < v.readers
        → (n : ℕ) → 0 < times n v.version.blocks → (D.state disk.new).contents n ≡ (D.state disk.old).contents n }
    ensures writers { (D.state disk.new).honest → (IsErrOf result Device → ⊥) → (k : ℕ) (q : PendingVersion)
        → (k ≡ key → ⊥) → pending_at (memory_of map.old).pending k ≡ Some q
        → (n : ℕ) → 0 < times n q.version.blocks → (D.state disk.new).contents n ≡ (D.state disk.old).contents n }
    ensures homes { KeepsHomeCopies (D.state disk.old) (D.state disk.new) result }

    // Which refusal comes when, and what it leaves.
    ensures only { IfErr result (λ error. error ≡ Device) }
    ensures answer { DeviceAnswer (D.state disk.old) (D.state disk.new) failed.old failed.new result }
{
    let mut set = ChangeSet::new();
    let current = make_current(map, key, supplies, &mut set);
    let Some(version) = map.versions.get(current) else {
        unreachable!() // it was put there
    };
    let written = write_retrieval_blocks(disk, version.at, &version.prime, &version.version);
    if written.is_err() {
        *failed = true; // nothing in memory is used any more
        return Err(CallError::Device);
    }
    commit_edit(disk, failed, &set)
}

impl<D: Disk> Volume<D> {
    /// Publishes a version that is being written, after the words of a last buffer are put at block `block`, counted
    /// from 1. It becomes the file of its name, in place of the one before or as a new one, by one change of the
    /// directory and the allocation table. A crash finds the files from before, or those with this one whole. If the
    /// version before is pinned, it stays for its readers, and takes its blocks until the last of them unpins it.
    ///
    /// # Errors
    ///
    /// `Failed` if the volume failed before. `Refused` with `NoRoom` if the last words find no room, as for
    /// `put_words`; `NoMemory` if there is no memory for it. Nothing changes then. `Device` if the device failed, and
    /// the volume with it: a later start finds the files with the version, or those from before. `Failed`, and the
    /// volume with it, if a block of the version that was written is damaged.
    pub fn publish(
        &mut self,
        alloc: Global,
        pending: Pending,
        block: u32,
        words: &[Word],
    ) -> Result<(), CallError>
        requires live { IsSome (pending_at self.old.map.pending pending.key) }
        requires first { 0 < block }
        // Nobody has made or removed its name meanwhile; claims ensure that.
        requires placed { (p : PendingVersion) → pending_at self.old.map.pending pending.key ≡ Some p
            → IsPlaced self.old.map p }

        // Let all that a crash may leave stand for f, and the version have this body. Then a crash at any moment leaves
        // what stands for f, or for f with the version, its last words put, as the file of its name.
        ensures crash { (D.state self.new.disk).honest → (f : Files File) → RestsAt (D.state self.old.disk) f
            → (p : PendingVersion) → pending_at self.old.map.pending pending.key ≡ Some p
            → (body : List ℕ) → length body ≡ p.version.words
            → HasBody (D.state self.old.disk).contents p.version.blocks body
            → LeavesOnly (D.state self.old.disk) (D.state self.new.disk)
            (StandsForOneOf (pack_of (D.state self.old.disk)) f
            (files_published f p.prime.ppn p.prime.file (file_of p.prime (splice body block words.now)))) }
        // At Ok all that a crash may leave stands for the latter.
        ensures done { (D.state self.new.disk).honest → (f : Files File) → RestsAt (D.state self.old.disk) f
            → (p : PendingVersion) → pending_at self.old.map.pending pending.key ≡ Some p
            → (body : List ℕ) → length body ≡ p.version.words
            → HasBody (D.state self.old.disk).contents p.version.blocks body
            → OnOk result (RestsAt (D.state self.new.disk)
            (files_published f p.prime.ppn p.prime.file (file_of p.prime (splice body block words.now)))) }
        // What it does to memory, after the last words are put.
        ensures published { OnOk result ((p : PendingVersion) → pending_at self.old.map.pending pending.key ≡ Some p
            → IsPublishedMemory (D.state self.old.disk).size self.old.map self.new.map pending.key p
            (length_after p.version.words block (length words.now))) }
        ensures gone { OnOk result (pending_at self.new.map.pending pending.key ≡ None) }
        // All other versions stay, whatever the answer. Their blocks stay too, unless the device failed, since they may
        // have been open then.
        ensures others { (k : ℕ) → (k ≡ pending.key → ⊥) → pending_at self.new.map.pending k
            ≡ pending_at self.old.map.pending k }
        ensures held { (k : ℕ) (v : LiveVersion) → slot self.old.map.live k ≡ Some v → 0 < v.readers
            → (b : Bool) × (slot self.new.map.live k ≡ Some (record v { is_current = b })) }
        ensures readers { (D.state self.new.disk).honest → (IsErrOf result Device → ⊥)
            → KeepsRead (D.state self.old.disk).contents (D.state self.new.disk).contents self.old.map }
        ensures writers { (D.state self.new.disk).honest → (IsErrOf result Device → ⊥)
            → KeepsWritten (D.state self.old.disk).contents (D.state self.new.disk).contents self.old.map pending.key }
        // The home copies stay.
        ensures homes { KeepsHomeCopies (D.state self.old.disk) (D.state self.new.disk) result }
        // A damaged block is never taken for words that stay before the last ones.
        ensures whole { (D.state self.new.disk).honest → 0 < length words.now → (p : PendingVersion)
            → pending_at self.old.map.pending pending.key ≡ Some p
            → OnOk result ((n : ℕ) → IsEdgeBlock p.version.blocks p.version.words (block - 1) (length words.now) n
            → (D.state self.old.disk).contents n ≡ None → ⊥) }

        // Which error comes when, and what it leaves.
        ensures failed { self.old.failed ≡ true → IsErrOf result Failed }
        ensures broken { self.old.failed ≡ true → (self.new.disk ≡ self.old.disk) × (self.new.map ≡ self.old.map) }
        ensures given_up { IsErrOf result Failed → (self.old.failed ≡ true) ⊎ ((D.state self.new.disk).honest → ⊥) }
        ensures room { self.old.failed ≡ false → (p : PendingVersion) → pending_at self.old.map.pending pending.key
            ≡ Some p
            → (IsErrOf result (Refused NoRoom)
            ↔ ((0 < length words.now) × HasNoPlace (D.state self.old.disk).size self.old.map.known.table.booked
            p.version.words block (length words.now))) }
        ensures codes { (code : ErrorCode) → IsErrOf result (Refused code) → code ≡ NoRoom }
        ensures refused { (code : ErrorCode) → IsErrOf result (Refused code) → (self.new.disk ≡ self.old.disk)
            × (self.new.map ≡ self.old.map) }
        ensures memory { IsErrOf result NoMemory → (self.new.disk ≡ self.old.disk) × (self.new.map ≡ self.old.map) }
        ensures answer { DeviceAnswer (D.state self.old.disk) (D.state self.new.disk) self.old.failed self.new.failed
            result }
        ensures layout { self.new.layout ≡ self.old.layout }
    {
        if self.failed {
            return Err(CallError::Failed);
        }
        let blocks = last_blocks(&self.map, pending.key, block, words.len())?;
        let Ok(supplies) = preallocate_publish(&mut self.map, alloc, pending.key, blocks) else {
            return Err(CallError::NoMemory);
        };
        let put = put_in_memory(
            &mut self.disk,
            &mut self.map,
            &mut self.failed,
            pending.key,
            block,
            words,
        );
        match put {
            Ok(()) => publish_written(
                &mut self.disk,
                &mut self.map,
                &mut self.failed,
                pending.key,
                supplies,
            ),
            Err(error) => Err(error),
        }
    }
}
