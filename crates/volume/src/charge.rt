//! What directories are charged for, and what their quotas leave.
ghost use Rattle.std.specs.Prelude.{◌≡◌, ◌↔◌, ◌<◌, ◌≤◌, ◌+◌, ◌^◌, ℕ, false, true, None, Some, IfSome, IsTrue};
ghost use Rattle.std.specs.Prelude.{filter_map, length, slice_get};
ghost use Rattle.std.specs.Ordering.{nat_cmp};
ghost use Rattle.std.specs.FinMap.Entries.{find};
ghost use Rattle.spec_image.specs.Common.{directory_cost, File, Files, get, total, most_blocks, growth};
ghost use Rattle.volume.specs.Common.{begin_cost, entries_with, IsDirectoryOf, charge_answer, quota_in_memory};
ghost use Rattle.volume.specs.Common.{quota_in_files, used_by, writes_in, IsCharged, IsOver, IsTooLong, Outgrows};
ghost use Rattle.volume.specs.Common.{Before, CurrentDirectory, IsNamed, IsWholeVersion, cost_before, cost_of_version};
ghost use Rattle.volume.specs.Common.{as_written, creates, pending_at, pending_cost, AreStanding, AreWaiting};
ghost use Rattle.volume.specs.Common.{IsWholeMemory, memory_of, known_at, RestsAt};
ghost use Rattle.volume.specs.declared.pending.PendingVersion.{PendingVersion};

use crate::begin::{begin_cost, cost_before, creations, find_before, growth_at};
use crate::cost::version_cost;
use crate::handles::Pending;
use crate::live::{LiveMap, LiveVersion};
use crate::pending::{PendingKind, PendingVersion};
use crate::put_words::growth;
use crate::query::directory_place;
use crate::volume::Volume;
use blockdisk::Disk;
use directory::Keys;
use slab::Slab;
use spec_image::layout::BLOCK_ENTRIES;
use words36::{FileName, Ppn};

/// What a directory is charged for, and its quota.
#[derive(Clone, Copy, Debug, PartialEq, Eq)]
pub struct Charge {
    /// The number of blocks that the directory may have; 0 for no limit.
    pub quota: u32,
    /// The number of blocks that it is charged for: its own, with an entry counted for each file that is being created
    /// in it; what its files cost; and what the versions cost that are being written in it. A pinned version that no
    /// file has any more isn't charged to any directory.
    pub used: u64,
}

/// Returns what a directory with this many entries costs.
fn directory_cost(entries: u64) -> u64
    ensures { result ≡ directory_cost entries }
{
    entries.div_ceil(BLOCK_ENTRIES as u64).max(1)
}

/// Returns what the versions under these keys cost.
fn cost_of_files(versions: &Slab<LiveVersion>, keys: &Keys) -> u64
    requires standing { AreStanding versions.now.slots }
    requires fits { total cost_of_version (filter_map (known_at versions.now.slots) keys.now.items) < 2 ^ 63 }
    ensures { result ≡ total cost_of_version (filter_map (known_at versions.now.slots) keys.now.items) }
{
    let mut cost = 0;
    for i in 0..keys.len() {
        cost += u64::from(cost_before(versions, Some(keys.at(i))));
    }
    cost
}

/// Returns what a version that is being written costs if it is in this directory, else 0.
fn cost_within(version: &PendingVersion, ppn: Ppn) -> u64
    requires few { length version.now.version.blocks ≤ most_blocks }
    ensures { result ≡ writes_in ppn (Some version.now) }
{
    if version.prime.ppn != ppn {
        return 0;
    }
    u64::from(version_cost(&version.version))
}

/// Returns what the versions cost that are being written in a directory.
fn cost_of_writing(pending: &Slab<PendingVersion>, ppn: Ppn) -> u64
    requires waiting { (size : ℕ) × AreWaiting size pending.now.slots }
    requires fits { total pending_cost pending.now.slots < 2 ^ 63 }
    ensures { result ≡ total (writes_in ppn) pending.now.slots }
{
    let mut cost = 0;
    for (_, version) in pending.iter() {
        cost += cost_within(version, ppn);
    }
    cost
}

/// Returns what the directory at a place is charged for.
fn used_at(memory: &LiveMap, place: usize, ppn: Ppn) -> u64
    requires whole { IsWholeMemory memory.now.table.size (memory_of memory.now) }
    requires inside { place < length memory.now.directories.items }
    ensures value { (d : CurrentDirectory) → slice_get (memory_of memory.now).known.directories place ≡ Some d
        → result ≡ used_by (memory_of memory.now) d ppn }
    ensures few { result < 2 ^ 63 + 2 ^ 62 }
{
    let directory = &memory.directories[place];
    let entries = directory.chain.len() as u64 + creations(&memory.pending, ppn);
    let files = cost_of_files(&memory.versions, &directory.keys);
    let writing = cost_of_writing(&memory.pending, ppn);
    directory_cost(entries) + files + writing
}

/// What a directory is charged for in memory, and its quota; `None` if there is no such directory.
fn charge_in_memory(memory: &LiveMap, ppn: Ppn) -> Option<Charge>
    requires whole { IsWholeMemory memory.now.table.size (memory_of memory.now) }
    ensures charged { IfSome result (IsCharged (memory_of memory.now) ppn) }
    ensures few { IfSome result (λ charge. charge.used < 2 ^ 63 + 2 ^ 62) }
    ensures none { (result ≡ None) ↔ (find nat_cmp ppn (memory_of memory.now).known.master.entries ≡ None) }
{
    let Ok(place) = directory_place(&memory.master, ppn) else {
        return None;
    };
    let entry = memory.master.entries()[place];
    Some(Charge {
        quota: entry.quota,
        used: used_at(memory, place, ppn),
    })
}

/// Returns the quota of a directory in memory: 0 for no limit, or if there is no such directory.
fn quota_in_memory(memory: &LiveMap, ppn: Ppn) -> u32
    ensures { result ≡ quota_in_memory (memory_of memory.now) ppn }
{
    let Ok(place) = directory_place(&memory.master, ppn) else {
        return 0;
    };
    let entry = memory.master.entries()[place];
    entry.quota
}

/// Returns whether `more` blocks are more than a quota leaves.
fn exceeds(charge: Charge, more: u64) -> bool
    requires few { charge.used < 2 ^ 63 + 2 ^ 62 }
    requires more { more < 2 ^ 62 }
    ensures { IsTrue result ↔ ((0 < charge.quota) × (charge.quota < charge.used + more)) }
{
    if charge.quota == 0 {
        return false;
    }
    u64::from(charge.quota) < charge.used + more
}

/// Returns whether `more` blocks are more than the quota of a directory leaves.
fn is_over(memory: &LiveMap, ppn: Ppn, more: u64) -> bool
    requires whole { IsWholeMemory memory.now.table.size (memory_of memory.now) }
    requires more { more < 2 ^ 62 }
    ensures { IsTrue result ↔ IsOver (memory_of memory.now) ppn more }
{
    let Some(charge) = charge_in_memory(memory, ppn) else {
        return false;
    };
    exceeds(charge, more)
}

/// Returns whether what `begin` books for a version is more than the quota of its directory leaves.
fn begin_is_over(memory: &LiveMap, kind: PendingKind, ppn: Ppn, name: &FileName) -> bool
    requires whole { IsWholeMemory memory.now.table.size (memory_of memory.now) }
    ensures value { (d : CurrentDirectory) → IsDirectoryOf (memory_of memory.now) ppn d → (old : Before)
        → IsNamed d name.now old → (IsTrue result ↔ IsOver (memory_of memory.now) ppn
        (begin_cost kind (entries_with (memory_of memory.now) d ppn) old)) }
    ensures absent { find nat_cmp ppn (memory_of memory.now).known.master.entries ≡ None → result ≡ false }
{
    if quota_in_memory(memory, ppn) == 0 {
        return false;
    }
    let Ok(place) = directory_place(&memory.master, ppn) else {
        return false;
    };
    let Ok(before) = find_before(memory, ppn, name) else {
        return false;
    };
    let cost = begin_cost(memory, place, ppn, kind, before);
    is_over(memory, ppn, u64::from(cost))
}

/// Returns whether a version costs more after `count` words are put at a block, and by more than the quota of its
/// directory leaves.
fn outgrows(memory: &LiveMap, version: &PendingVersion, block: u32, count: usize) -> bool
    requires whole { IsWholeMemory memory.now.table.size (memory_of memory.now) }
    requires version { IsWholeVersion (as_written version.now) }
    requires first { 0 < block }
    ensures { IsTrue result ↔ ((IsTooLong version.now block count → ⊥)
        × Outgrows (memory_of memory.now) version.now block count) }
{
    if count == 0 {
        return false;
    }
    let Some(more) = growth(&version.version, block, count) else {
        return false;
    };
    if more == 0 {
        return false;
    }
    is_over(memory, version.prime.ppn, u64::from(more))
}

/// Returns whether `count` words, put into the version under a key, take more than the quota of its directory leaves.
fn put_is_over(memory: &LiveMap, key: usize, block: u32, count: usize) -> bool
    requires whole { IsWholeMemory memory.now.table.size (memory_of memory.now) }
    requires first { 0 < block }
    ensures { (p : PendingVersion) → pending_at (memory_of memory.now).pending key ≡ Some p
        → (IsTrue result ↔ ((IsTooLong p block count → ⊥) × Outgrows (memory_of memory.now) p block count)) }
{
    let Some(version) = memory.pending.get(key) else {
        return false;
    };
    if quota_in_memory(memory, version.prime.ppn) == 0 {
        return false;
    }
    outgrows(memory, version, block, count)
}

/// Returns whether a file that comes from another directory costs more than the quota of its new one leaves.
fn move_is_over(memory: &LiveMap, ppn: Ppn, name: &FileName, to: Ppn) -> bool
    requires whole { IsWholeMemory memory.now.table.size (memory_of memory.now) }
    ensures { (d t : CurrentDirectory) → IsDirectoryOf (memory_of memory.now) ppn d
        → IsDirectoryOf (memory_of memory.now) to t → (old : Before) → IsNamed d name.now old
        → (IsTrue result ↔ IsOver (memory_of memory.now) to
        (cost_before old + growth (entries_with (memory_of memory.now) t to))) }
{
    if quota_in_memory(memory, to) == 0 {
        return false;
    }
    let Ok(place) = directory_place(&memory.master, to) else {
        return false;
    };
    let Ok(before) = find_before(memory, ppn, name) else {
        return false;
    };
    let cost = u64::from(cost_before(&memory.versions, before));
    is_over(memory, to, cost + u64::from(growth_at(memory, place, to)))
}

impl<D: Disk> Volume<D> {
    /// Returns what a directory is charged for, and its quota; `None` if there is no such directory.
    pub fn charge(&self, ppn: Ppn) -> Option<Charge>
        ensures charged { IfSome result (IsCharged self.now.map ppn) }
        ensures none { (result ≡ None) ↔ (find nat_cmp ppn self.now.map.known.master.entries ≡ None) }
        ensures value { (D.state self.now.disk).honest → self.now.failed ≡ false → (files : Files File)
            → RestsAt (D.state self.now.disk) files
            → result ≡ charge_answer (get files ppn) (total (creates ppn) self.now.map.pending)
            (total (writes_in ppn) self.now.map.pending) }
    {
        charge_in_memory(&self.map, ppn)
    }

    /// Returns the quota of a directory: 0 for no limit, or if there is no such directory.
    pub fn quota(&self, ppn: Ppn) -> u32
        ensures map { result ≡ quota_in_memory self.now.map ppn }
        ensures value { (D.state self.now.disk).honest → self.now.failed ≡ false → (files : Files File)
            → RestsAt (D.state self.now.disk) files → result ≡ quota_in_files (get files ppn) }
    {
        quota_in_memory(&self.map, ppn)
    }

    /// Returns whether the quota of a directory leaves what `begin` books for a version of this kind and name in it.
    /// This is a check besides that of the room, which `begin` makes itself. A directory that doesn't exist allows
    /// everything.
    pub fn quota_allows_begin(&self, kind: PendingKind, ppn: Ppn, file: &FileName) -> bool
        ensures value { (d : CurrentDirectory) → IsDirectoryOf self.now.map ppn d → (old : Before)
            → IsNamed d file.now old → ((result ≡ false)
            ↔ IsOver self.now.map ppn (begin_cost kind (entries_with self.now.map d ppn) old)) }
        ensures absent { find nat_cmp ppn self.now.map.known.master.entries ≡ None → result ≡ true }
    {
        !begin_is_over(&self.map, kind, ppn, file)
    }

    /// Returns whether the quota of a version's directory leaves what the version costs more after `count` words are
    /// put at block `block`, counted from 1. A version that costs no more then, or is too long for any file, is
    /// allowed.
    pub fn quota_allows_put(&self, pending: Pending, block: u32, count: usize) -> bool
        requires first { 0 < block }
        ensures value { (p : PendingVersion) → pending_at self.now.map.pending pending.key ≡ Some p
            → ((result ≡ false) ↔ ((IsTooLong p block count → ⊥) × Outgrows self.now.map p block count)) }
    {
        !put_is_over(&self.map, pending.key, block, count)
    }

    /// Returns whether the quota of a directory leaves what a file from another directory costs, with what the
    /// directory grows by for its entry. Within a directory every file may move.
    pub fn quota_allows_move(&self, ppn: Ppn, name: &FileName, to: Ppn) -> bool
        ensures value { (d t : CurrentDirectory) → IsDirectoryOf self.now.map ppn d
            → IsDirectoryOf self.now.map to t → (old : Before) → IsNamed d name.now old
            → ((result ≡ false) ↔ ((ppn ≡ to → ⊥) × IsOver self.now.map to
            (cost_before old + growth (entries_with self.now.map t to)))) }
        ensures within { ppn ≡ to → result ≡ true }
    {
        if ppn == to {
            return true;
        }
        !move_is_over(&self.map, ppn, name, to)
    }
}
