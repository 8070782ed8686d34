//! The map of a volume in memory: directories with their chains, and versions by their keys.
ghost use Rattle.std.specs.Prelude.{◌≡◌, ◌<◌, ◌≤◌, ◌+◌, ◌-◌, ◌^◌, ◌↔◌, ◌⊎◌, [], ℕ, None, Some, true, false, map};
ghost use Rattle.std.specs.Prelude.{filter_map, length, IfOk, OnOk, IfSome, IsSome, IsTrue};
ghost use Rattle.std.specs.List.{AllByRecursion, AllZip};
ghost use Rattle.spec_image.specs.Common.{cost_of_blocks, times, total, most_blocks};
ghost use Rattle.alloctab.specs.Common.{holds};
ghost use Rattle.slab.specs.Slab.{Updates};
ghost use Rattle.volume.specs.Common.{file_view, known_of, known_version, known_directory, blocks_reached};
ghost use Rattle.volume.specs.Common.{reaches_in_entries, IsWholeVersion, IsWholeMap, IsCurrent, IsKeyed};
ghost use Rattle.volume.specs.Common.{IsFirstRead, IsWholeMemory, slot, current_reaches, entry_reaches, memory_of};
ghost use Rattle.volume.specs.Common.{known_at, live_directory};
ghost use Rattle.volume.specs.declared.live.LiveVersion.{LiveVersion};

use crate::cost::version_cost;
use crate::pending::PendingVersion;
use crate::read_file::LoadedVersion;
use crate::volume::{LoadedDirectory, LoadedMap};
use alloctab::Table;
use blockdisk::NoMemory;
use directory::{Chain, FileEntry, Keys, MasterEntry};
use retrieval::{Prime, Version};
use slab::Slab;
use std::alloc::Global;

/// A version that is stored on the disk and in use: a file of the disk has it, or it is pinned.
#[derive(Drop)]
pub struct LiveVersion {
    /// What its prime block says of it, besides the length.
    pub prime: Prime,
    /// Its length, and where it lies.
    pub version: Version,
    /// Its prime block.
    pub at: u32,
    /// The number of its readers.
    pub readers: u32,
    /// Whether a file of the disk has it.
    pub is_current: bool,
}

/// A directory in memory: its chain, and for each entry, in their order, the key of the version of its file.
#[derive(Drop)]
pub struct LiveDirectory {
    /// The chain with its entries.
    pub chain: Chain<FileEntry>,
    /// The keys of the versions of the entries.
    pub keys: Keys,
}

/// What a volume has in memory.
#[derive(Drop)]
pub struct LiveMap {
    /// The chain of the master directory with its entries.
    pub master: Chain<MasterEntry>,
    /// The directories of the entries, in their order.
    pub directories: Vec<LiveDirectory>,
    /// The versions by their keys.
    pub versions: Slab<LiveVersion>,
    /// The versions that are being written, by keys of their own.
    pub pending: Slab<PendingVersion>,
    /// Which blocks are in use, held and booked.
    pub table: Table,
}

/// Gives a version that was read a key. Its prime block is the one that its entry names.
fn into_live_version(
    entry: &FileEntry,
    version: LoadedVersion,
    versions: &mut Slab<LiveVersion>,
) -> Result<usize, NoMemory>
    ensures vacant { IfOk result (λ key. slot versions.old.slots key ≡ None) }
    ensures kept { IfOk result (λ key. Updates versions.old versions.new key
        (Some (record {
          prime = version.prime;
          version = version.version;
          at = entry.now.prime;
          readers = 0;
          is_current = true;
        }))) }
{
    let LoadedVersion { prime, version } = version;
    let live = LiveVersion {
        prime,
        version,
        at: entry.prime,
        readers: 0,
        is_current: true,
    };
    match versions.insert(live) {
        Ok(key) => Ok(key),
        Err(_) => Err(NoMemory),
    }
}

/// Gives the version of each of these entries of a directory a key.
fn into_live_versions(
    alloc: Global,
    entries: &[FileEntry],
    stored: Vec<LoadedVersion>,
    versions: &mut Slab<LiveVersion>,
) -> Result<Keys, NoMemory>
    requires aligned { length stored.items ≡ length entries.now }
    requires whole { AllByRecursion IsWholeVersion (map known_version stored.items) }
    requires read { (key : ℕ) → IfSome (slot versions.old.slots key) IsFirstRead }
    ensures stay { OnOk result ((key : ℕ) (v : LiveVersion) → slot versions.old.slots key ≡ Some v
        → slot versions.new.slots key ≡ Some v) }
    ensures read { OnOk result ((key : ℕ) → IfSome (slot versions.new.slots key) IsFirstRead) }
    ensures keyed { IfOk result (λ keys. AllZip (λ e key. IsCurrent versions.new.slots key e.1)
        (map file_view entries.now) keys.items) }
    ensures known { IfOk result (λ keys. filter_map (known_at versions.new.slots) keys.items
        ≡ map known_version stored.items) }
    ensures current { OnOk result ((n : ℕ) → total (current_reaches n) versions.new.slots
        ≡ total (current_reaches n) versions.old.slots + reaches_in_entries n (map file_view entries.now)
        (map known_version stored.items)) }
{
    let mut keys = Keys::new(alloc);
    for (entry, version) in entries.iter().zip(stored) {
        let key = into_live_version(entry, version, versions)?;
        keys.push(key)?;
    }
    Ok(keys)
}

/// Gives each version of a directory a key.
fn into_live_directory(
    alloc: Global,
    directory: LoadedDirectory,
    versions: &mut Slab<LiveVersion>,
) -> Result<LiveDirectory, NoMemory>
    requires aligned { length directory.versions.items ≡ length directory.chain.entries }
    requires whole { AllByRecursion IsWholeVersion (map known_version directory.versions.items) }
    requires read { (key : ℕ) → IfSome (slot versions.old.slots key) IsFirstRead }
    ensures stay { OnOk result ((key : ℕ) (v : LiveVersion) → slot versions.old.slots key ≡ Some v
        → slot versions.new.slots key ≡ Some v) }
    ensures read { OnOk result ((key : ℕ) → IfSome (slot versions.new.slots key) IsFirstRead) }
    ensures keyed { IfOk result (λ live. IsKeyed versions.new.slots (known_directory directory) live.keys.items) }
    ensures known { IfOk result (λ live. live_directory versions.new.slots live ≡ known_directory directory) }
    ensures current { OnOk result ((n : ℕ) → total (current_reaches n) versions.new.slots
        ≡ total (current_reaches n) versions.old.slots + reaches_in_entries n (map file_view directory.chain.entries)
        (map known_version directory.versions.items)) }
{
    let LoadedDirectory {
        chain,
        versions: stored,
    } = directory;
    let keys = into_live_versions(alloc, chain.entries(), stored, versions)?;
    Ok(LiveDirectory { chain, keys })
}

/// Gives each version of a map that was read a key. None is pinned yet.
///
/// # Errors
///
/// `NoMemory` if there is no memory for the keys or the versions.
pub fn keep(alloc: Global, map: LoadedMap) -> Result<LiveMap, NoMemory>
    requires whole { (size : ℕ) × IsWholeMap size (known_of map) }
    ensures known { IfOk result (λ live. (memory_of live).known ≡ known_of map) }
    ensures keyed { IfOk result (λ live. AllZip (IsKeyed (memory_of live).live) (memory_of live).known.directories
        (memory_of live).keys) }
    ensures read { IfOk result (λ live. AllByRecursion (λ o. IfSome o IsFirstRead) (memory_of live).live) }
    ensures none { IfOk result (λ live. (memory_of live).pending ≡ []) }
    ensures current { IfOk result (λ live. (n : ℕ) → total (current_reaches n) (memory_of live).live
        ≡ entry_reaches n (memory_of live).known.directories) }
{
    let LoadedMap {
        layout: _,
        master,
        directories: stored,
        table,
    } = map;
    let mut versions = Slab::new(alloc);
    let mut directories = Vec::new(alloc);
    for directory in stored {
        let live = into_live_directory(alloc, directory, &mut versions)?;
        if directories.push(live).is_err() {
            return Err(NoMemory);
        }
    }
    Ok(LiveMap {
        master,
        directories,
        versions,
        pending: Slab::new(alloc),
        table,
    })
}

/// Counts one reader more of the version under a key.
fn add_reader(versions: &mut Slab<LiveVersion>, key: usize)
    requires few { IfSome (slot versions.old.slots key) (λ v. v.readers + 1 < 2 ^ 32) }
    ensures counted { IfSome (slot versions.old.slots key) (λ v. slot versions.new.slots key
        ≡ Some (record v { readers = v.readers + 1 })) }
    ensures others { (k : ℕ) → (k ≡ key → ⊥) → slot versions.new.slots k ≡ slot versions.old.slots k }
{
    if let Some(version) = versions.get_mut(key) {
        version.readers += 1;
    }
}

/// Counts one reader fewer of the version under a key.
fn remove_reader(versions: &mut Slab<LiveVersion>, key: usize)
    requires held { IfSome (slot versions.old.slots key) (λ v. 0 < v.readers) }
    ensures counted { IfSome (slot versions.old.slots key) (λ v. slot versions.new.slots key
        ≡ Some (record v { readers = v.readers - 1 })) }
    ensures others { (k : ℕ) → (k ≡ key → ⊥) → slot versions.new.slots k ≡ slot versions.old.slots k }
{
    if let Some(version) = versions.get_mut(key) {
        version.readers -= 1;
    }
}

/// Returns whether the version under a key is removed with a reader: it isn't current, and this is its last one.
fn goes_with_reader(versions: &Slab<LiveVersion>, key: usize) -> bool
    ensures { IfSome (slot versions.now.slots key) (λ v. IsTrue result ↔ ((v.is_current ≡ false) × (v.readers ≡ 1))) }
{
    match versions.get(key) {
        Some(version) => !version.is_current && version.readers == 1,
        None => false,
    }
}

/// Releases one hold of each of these blocks.
pub(crate) fn unhold_all(table: &mut Table, blocks: &[u32])
    requires held { (n : ℕ) → times n blocks.now ≤ holds table.old n }
    requires inside { (n : ℕ) → 0 < holds table.old n → n < table.old.size }
    ensures held { (n : ℕ) → holds table.new n + times n blocks.now ≡ holds table.old n }
    ensures rest { table.new ≡ record table.old { held = table.new.held } }
{
    for &block in blocks {
        table.unhold(block);
    }
}

/// Releases one hold of each of a version's data blocks.
pub(crate) fn unhold_blocks(table: &mut Table, version: &Version)
    requires held { (n : ℕ) → times n version.now.blocks ≤ holds table.old n }
    requires inside { (n : ℕ) → 0 < holds table.old n → n < table.old.size }
    ensures held { (n : ℕ) → holds table.new n + times n version.now.blocks ≡ holds table.old n }
    ensures rest { table.new ≡ record table.old { held = table.new.held } }
{
    for i in 0..version.count() {
        table.unhold(version.block_at(i));
    }
}

/// Releases one hold of each block of a version, and unbooks what the version cost.
fn release_version(table: &mut Table, version: &LiveVersion)
    requires held { (n : ℕ) → times n (blocks_reached version.now.at version.now.version) ≤ holds table.old n }
    requires inside { (n : ℕ) → 0 < holds table.old n → n < table.old.size }
    requires few { length version.now.version.blocks ≤ most_blocks }
    requires booked { cost_of_blocks (length version.now.version.blocks) ≤ table.old.booked }
    ensures held { (n : ℕ) → holds table.new n + times n (blocks_reached version.now.at version.now.version)
        ≡ holds table.old n }
    ensures booked { table.new.booked + cost_of_blocks (length version.now.version.blocks) ≡ table.old.booked }
    ensures rest { table.new ≡ record table.old { held = table.new.held; booked = table.new.booked } }
{
    table.unhold(version.at);
    unhold_all(table, version.version.ribs());
    unhold_blocks(table, &version.version);
    table.unbook(version_cost(&version.version));
}

/// Counts one reader more of a version.
pub fn pin_version(map: &mut LiveMap, key: usize)
    requires there { IsSome (slot (memory_of map.old).live key) }
    requires few { IfSome (slot (memory_of map.old).live key) (λ v. v.readers + 1 < 2 ^ 32) }
    ensures map { (memory_of map.new) ≡ record (memory_of map.old) { live = (memory_of map.new).live } }
    ensures pinned { (v : LiveVersion) → slot (memory_of map.old).live key ≡ Some v
        → slot (memory_of map.new).live key ≡ Some (record v { readers = v.readers + 1 }) }
    ensures others { (k : ℕ) → (k ≡ key → ⊥) → slot (memory_of map.new).live k ≡ slot (memory_of map.old).live k }
    ensures whole { (size : ℕ) → IsWholeMemory size (memory_of map.old) → IsWholeMemory size (memory_of map.new) }
{
    add_reader(&mut map.versions, key);
}

/// Counts one reader fewer of a version. One that isn't current is removed with its last reader: one hold of each of
/// its blocks is released, and what it cost is unbooked.
pub fn unpin_version(map: &mut LiveMap, key: usize)
    requires whole { (size : ℕ) × IsWholeMemory size (memory_of map.old) }
    requires there { IsSome (slot (memory_of map.old).live key) }
    requires held { IfSome (slot (memory_of map.old).live key) (λ v. 0 < v.readers) }
    ensures known { (memory_of map.new).known
        ≡ record (memory_of map.old).known { table = (memory_of map.new).known.table } }
    ensures keys { (memory_of map.new).keys ≡ (memory_of map.old).keys }
    ensures pending { (memory_of map.new).pending ≡ (memory_of map.old).pending }
    ensures table { (memory_of map.new).known.table
        ≡ record (memory_of map.old).known.table {
          held = (memory_of map.new).known.table.held;
          booked = (memory_of map.new).known.table.booked;
        } }
    ensures stays { (v : LiveVersion) → slot (memory_of map.old).live key ≡ Some v → (v.is_current ≡ true)
        ⊎ (1 < v.readers)
        → (slot (memory_of map.new).live key ≡ Some (record v { readers = v.readers - 1 }))
        × ((memory_of map.new).known.table ≡ (memory_of map.old).known.table) }
    ensures gone { (v : LiveVersion) → slot (memory_of map.old).live key ≡ Some v → v.is_current ≡ false → v.readers ≡ 1
        → (slot (memory_of map.new).live key ≡ None)
        × ((n : ℕ) → holds (memory_of map.new).known.table n + times n (blocks_reached v.at v.version)
        ≡ holds (memory_of map.old).known.table n)
        × ((memory_of map.new).known.table.booked + cost_of_blocks (length v.version.blocks)
        ≡ (memory_of map.old).known.table.booked) }
    ensures others { (k : ℕ) → (k ≡ key → ⊥) → slot (memory_of map.new).live k ≡ slot (memory_of map.old).live k }
    ensures whole { (size : ℕ) → IsWholeMemory size (memory_of map.old) → IsWholeMemory size (memory_of map.new) }
{
    if goes_with_reader(&map.versions, key) {
        if let Some(version) = map.versions.try_remove(key) {
            release_version(&mut map.table, &version);
        }
    } else {
        remove_reader(&mut map.versions, key);
    }
}
