//! The step in memory by which a version that was being written becomes the file of its name.
ghost use Rattle.std.specs.Prelude.{◌≡◌, ◌↔◌, ◌+◌, ◌<◌, ◌≤◌, ◌^◌, ◌++◌, ◌∷◌, [], ℕ, List, if◌then◌else◌, length, map};
ghost use Rattle.std.specs.Prelude.{slice_get, slice_set, option_to_list, Some, None, IsSome, IfSome, IfNone, IsTrue};
ghost use Rattle.std.specs.Ordering.{nat_cmp};
ghost use Rattle.std.specs.FinMap.Entries.{find};
ghost use Rattle.spec_image.specs.Common.{file_words, IsFileEntry, name_cmp, insert, from_entries, times};
ghost use Rattle.alloctab.specs.Common.{IsTable, bit, holds, space, used_in_space};
ghost use Rattle.directory.specs.Common.{IsChain, viewed, StandsAt, TakesBlock, IsReserve, PutsChain, inserted};
ghost use Rattle.directory.specs.Common.{IsSpareFor};
ghost use Rattle.retrieval.specs.Common.{ribs_of, rib_count, Takes, IsFixed};
ghost use Rattle.slab.specs.Slab.{HasRoomFor};
ghost use Rattle.volume.specs.Common.{file_view, master_view, blocks_reached, slot, pending_at, IsWholeMemory};
ghost use Rattle.volume.specs.Common.{memory_of};
ghost use Rattle.volume.specs.Common.{ClearsBits, PutsInUse, MayRetire, Retires, TakesPlaces, live_left};
ghost use Rattle.volume.specs.Common.{MakesCurrent, IsPlaced, IsSupplied};
ghost use Rattle.volume.specs.declared.live.LiveDirectory.{LiveDirectory};
ghost use Rattle.volume.specs.declared.live.LiveVersion.{LiveVersion};
ghost use Rattle.volume.specs.declared.pending.PendingVersion.{PendingVersion};

use crate::blocks::{bring_all, bring_blocks, clear_all, clear_blocks, hold_all, hold_blocks};
use crate::cost::version_cost;
use crate::live::{LiveDirectory, LiveMap, LiveVersion};
use crate::make_dir::use_block;
use crate::pending::PendingVersion;
use crate::prealloc::PublishPrealloc;
use crate::query::directory_place;
use alloctab::Table;
use changeset::ChangeSet;
use directory::{Chain, ChainPrealloc, FileEntry, MasterEntry, Prealloc};
use retrieval::{Version, take_retrieval_blocks};
use slab::Slab;
use words36::{FileName, Ppn};

/// Where a current version is stored: its prime block, and the block by which the chain of its directory grows.
#[derive(Clone, Copy)]
pub(crate) struct NewBlocks {
    /// The prime block.
    pub at: u32,
    /// The new last block of the chain, if the one before is full.
    pub grown: Option<u32>,
}

/// Takes a block for a chain, if it grows.
pub(crate) fn take_for_chain(table: &mut Table, grows: bool) -> Option<u32>
    requires used { IsTrue grows → used_in_space table.old < table.old.booked }
    requires room { IsTrue grows → table.old.booked ≤ space table.old.size }
    ensures taken { Takes table.old (option_to_list result) table.new }
    ensures count { length (option_to_list result) ≡ (if grows then 1 else 0) }
{
    if grows {
        Some(table.take_block())
    } else {
        None
    }
}

/// Takes the blocks that a version needs besides its data blocks, and the one by which a chain grows, if it does.
/// `ribs` is a list with a place for each rib, or more.
fn take_places(table: &mut Table, version: &mut Version, ribs: Vec<u32>, grows: bool) -> NewBlocks
    requires sound { IsTable table.old }
    requires fixed { IsFixed table.old }
    requires enough { ribs_of version.old.blocks ≤ length ribs.items }
    requires used { used_in_space table.old + (if grows then 1 else 0) + (1 + ribs_of version.old.blocks)
        ≤ table.old.booked }
    requires room { table.old.booked ≤ space table.old.size }
    ensures kept { version.new ≡ record version.old { ribs = version.new.ribs } }
    ensures count { length version.new.ribs ≡ ribs_of version.new.blocks }
    ensures grown { length (option_to_list result.grown) ≡ (if grows then 1 else 0) }
    ensures taken { TakesPlaces table.old table.new (option_to_list result.grown) result.at version.new.ribs }
{
    let grown = take_for_chain(table, grows);
    let at = take_retrieval_blocks(table, version, ribs);
    NewBlocks { at, grown }
}

/// Brings the blocks of a version into use, and the one by which a chain grew: sets their bits, and releases one hold
/// of each. No other version has them any more, except those that are pinned or being written.
fn use_version(table: &mut Table, live: &LiveVersion, grown: Option<u32>)
    requires sound { IsTable table.old }
    requires held { (n : ℕ) → times n (blocks_reached live.now.at live.now.version ++ option_to_list grown)
        ≤ holds table.old n }
    requires clear { (n : ℕ) → bit table.old n
        + times n (blocks_reached live.now.at live.now.version ++ option_to_list grown) ≤ 1 }
    ensures { PutsInUse table.old table.new (blocks_reached live.now.at live.now.version ++ option_to_list grown) }
{
    use_block(table, live.at);
    bring_all(table, live.version.ribs());
    bring_blocks(table, &live.version);
    if let Some(n) = grown {
        use_block(table, n);
    }
}

/// Does the same for the version under a key.
fn use_current(table: &mut Table, versions: &Slab<LiveVersion>, key: usize, grown: Option<u32>)
    requires sound { IsTable table.old }
    requires there { IsSome (slot versions.now.slots key) }
    requires held { (v : LiveVersion) → slot versions.now.slots key ≡ Some v → (n : ℕ)
        → times n (blocks_reached v.at v.version ++ option_to_list grown) ≤ holds table.old n }
    requires clear { (v : LiveVersion) → slot versions.now.slots key ≡ Some v → (n : ℕ)
        → bit table.old n + times n (blocks_reached v.at v.version ++ option_to_list grown) ≤ 1 }
    ensures { (v : LiveVersion) → slot versions.now.slots key ≡ Some v
        → PutsInUse table.old table.new (blocks_reached v.at v.version ++ option_to_list grown) }
{
    let Some(live) = versions.get(key) else {
        unreachable!() // there is one
    };
    use_version(table, live, grown);
}

/// Gives a name its entry in a directory in memory, with the key of its version. Returns the key of the version that it
/// had, if any. `reserve` and `keys` are memory for the entry and the key, if the name is new.
pub(crate) fn put_entry(
    directory: &mut LiveDirectory,
    reserve: ChainPrealloc<FileEntry>,
    keys: Prealloc<usize>,
    entry: FileEntry,
    key: usize,
    grown: Option<u32>,
    set: &mut ChangeSet,
) -> Option<usize>
    requires reserve { IsReserve name_cmp (viewed file_view directory.old.chain) entry.name reserve }
    requires keys { find name_cmp entry.name (map file_view directory.old.chain.entries) ≡ None
        → IsSpareFor (length directory.old.keys.items) keys }
    requires grown { TakesBlock name_cmp (viewed file_view directory.old.chain) entry.name
        → (n : ℕ) × (grown ≡ Some n) × (times n directory.old.chain.blocks ≡ 0) }
    requires aligned { length directory.old.keys.items ≡ length directory.old.chain.entries }
    requires empty { set.old ≡ [] }
    // The list of keys, and the map with the entry.
    ensures items { map file_view directory.new.chain.entries
        ≡ inserted name_cmp (map file_view directory.old.chain.entries) (file_view entry) }
    ensures map { from_entries {R = name_cmp} (map file_view directory.new.chain.entries)
        ≡ insert (from_entries (map file_view directory.old.chain.entries)) entry.name entry.prime }
    ensures same { (TakesBlock name_cmp (viewed file_view directory.old.chain) entry.name → ⊥)
        → directory.new.chain.blocks ≡ directory.old.chain.blocks }
    ensures more { (n : ℕ) → TakesBlock name_cmp (viewed file_view directory.old.chain) entry.name → grown ≡ Some n
        → directory.new.chain.blocks ≡ directory.old.chain.blocks ++ n ∷ [] }
    // What is put of the chain.
    ensures chain { IsChain name_cmp IsFileEntry (viewed file_view directory.new.chain) }
    ensures put { PutsChain file_words (viewed file_view directory.old.chain)
        (viewed file_view directory.new.chain) [] set.new }
    ensures few { length set.new ≤ 2 }
    ensures replaced { IfSome result (λ old. (i : ℕ) × (w : ℕ)
        × StandsAt name_cmp (map file_view directory.old.chain.entries) entry.name w i
        × (slice_get directory.old.keys.items i ≡ Some old)
        × (directory.new.keys.items ≡ slice_set directory.old.keys.items i key)) }
    ensures added { IfNone result ((find name_cmp entry.name (map file_view directory.old.chain.entries) ≡ None)
        × (directory.new.keys.items ≡ directory.old.keys.items ++ key ∷ [])) }
{
    let place = directory.chain.find(&entry.name);
    directory.chain.insert_into(reserve, entry, grown, set);
    let _blocks = directory.chain.blocks(); // every chain is valid
    if let Some(i) = place {
        let old = directory.keys.at(i);
        directory.keys.set(i, key);
        return Some(old);
    }
    directory.keys.push_into(keys, key);
    None
}

/// Returns the place of a directory that exists.
pub(crate) fn place_of(master: &Chain<MasterEntry>, ppn: Ppn) -> usize
    requires { find nat_cmp ppn (map master_view master.now.entries) ≡ None → ⊥ }
    ensures { (v : ℕ × ℕ) × StandsAt nat_cmp (map master_view master.now.entries) ppn v result }
{
    match directory_place(master, ppn) {
        Ok(place) => place,
        Err(_) => unreachable!(), // it is there
    }
}

/// Returns the entry of a name that isn't zero.
pub(crate) fn file_entry(name: FileName, prime: u32) -> FileEntry
    requires { 0 < name.name }
    ensures name { result.name ≡ name }
    ensures prime { result.prime ≡ prime }
{
    match FileEntry::new(name, prime) {
        Some(entry) => entry,
        None => unreachable!(), // the name isn't zero
    }
}

/// Returns whether the chain at a place takes a block for an entry with this name.
pub(crate) fn takes_block(memory: &LiveMap, place: usize, name: &FileName) -> bool
    requires { place < length memory.now.directories.items }
    ensures { (d : LiveDirectory) → slice_get memory.now.directories.items place ≡ Some d
        → (IsTrue result ↔ TakesBlock name_cmp (viewed file_view d.chain) name.now) }
{
    let chain = &memory.directories[place].chain;
    chain.find(name).is_none() && chain.needs_block()
}

/// Makes the version under a key, which was being written, the file of its name in memory, and adds to `set` the puts
/// that will make it so on the disk after its retrieval blocks are written. Returns its key among the versions on the
/// disk.
pub(crate) fn make_current(
    memory: &mut LiveMap,
    key: usize,
    supplies: PublishPrealloc,
    set: &mut ChangeSet,
) -> usize
    requires whole { IsWholeMemory memory.old.table.size (memory_of memory.old) }
    requires there { IsSome (pending_at (memory_of memory.old).pending key) }
    requires placed { (p : PendingVersion) → pending_at (memory_of memory.old).pending key ≡ Some p
        → IsPlaced (memory_of memory.old) p }
    requires ribs { (p : PendingVersion) → pending_at (memory_of memory.old).pending key ≡ Some p
        → length supplies.ribs.items ≡ rib_count (length p.version.blocks) }
    requires supplied { (p : PendingVersion) → pending_at (memory_of memory.old).pending key ≡ Some p
        → IsSupplied (memory_of memory.old) p supplies.reserve supplies.keys }
    requires slot { HasRoomFor memory.old.versions 1 }
    requires empty { set.old ≡ [] }
    ensures { (p : PendingVersion) → pending_at (memory_of memory.old).pending key ≡ Some p
        → (at : ℕ) × (ribs : List ℕ) × (makes_current : MakesCurrent memory.old.table.size (memory_of memory.old)
        (memory_of memory.new) key p at ribs set.new) × (result ≡ makes_current.new_key) }
{
    let Some(
        PendingVersion {
            prime,
            mut version,
            ..
        },
    ) = memory.pending.try_remove(key)
    else {
        unreachable!() // there is one
    };
    let PublishPrealloc {
        ribs,
        reserve,
        keys,
    } = supplies;
    let _booked = memory.table.booked(); // every table is valid
    let place = place_of(&memory.master, prime.ppn);
    let grows = takes_block(memory, place, &prime.file);
    let NewBlocks { at, grown } = take_places(&mut memory.table, &mut version, ribs, grows);
    let entry = file_entry(prime.file, at);
    let current = memory.versions.insert_reserved(LiveVersion {
        prime,
        version,
        at,
        readers: 0,
        is_current: true,
    });
    let old = put_entry(
        &mut memory.directories[place],
        reserve,
        keys,
        entry,
        current,
        grown,
        set,
    );
    // The bits of blocks that both versions have are cleared with the old one, and set again.
    retire_before(&mut memory.versions, &mut memory.table, old);
    use_current(&mut memory.table, &memory.versions, current, grown);
    memory.table.changes(set);
    current
}

/// Clears the bits of a version's blocks.
fn clear_version(table: &mut Table, version: &LiveVersion)
    requires sound { IsTable table.old }
    requires set { (n : ℕ) → times n (blocks_reached version.now.at version.now.version) ≤ bit table.old n }
    ensures { ClearsBits table.old table.new (blocks_reached version.now.at version.now.version) }
{
    table.clear(version.at);
    clear_all(table, version.version.ribs());
    clear_blocks(table, &version.version);
}

/// Holds a version's blocks.
fn hold_version(table: &mut Table, version: &LiveVersion)
    requires sound { IsTable table.old }
    requires inside { (n : ℕ) → 0 < times n (blocks_reached version.now.at version.now.version) → n < table.old.size }
    requires fits { (n : ℕ) → holds table.old n + times n (blocks_reached version.now.at version.now.version) < 2 ^ 32 }
    ensures held { (n : ℕ)
        → holds table.new n ≡ holds table.old n + times n (blocks_reached version.now.at version.now.version) }
    ensures rest { table.new ≡ record table.old { held = table.new.held } }
    ensures sound { IsTable table.new }
{
    table.hold(version.at);
    hold_all(table, version.version.ribs());
    hold_blocks(table, &version.version);
}

/// Takes the version under a key out of use: no file has it any more, so its blocks are free on the disk. While it is
/// pinned, its blocks are held and its cost stays booked; otherwise it is removed.
pub(crate) fn retire(versions: &mut Slab<LiveVersion>, table: &mut Table, key: usize)
    requires sound { IsTable table.old }
    requires may { MayRetire table.old versions.old.slots key }
    ensures retired { (v : LiveVersion) → slot versions.old.slots key ≡ Some v
        → Retires table.old table.new v (live_left (Some (key, v))) }
    ensures left { (v : LiveVersion) → slot versions.old.slots key ≡ Some v
        → slot versions.new.slots key ≡ live_left (Some (key, v)) }
    ensures others { (k : ℕ) → (k ≡ key → ⊥) → slot versions.new.slots k ≡ slot versions.old.slots k }
{
    let Some(version) = versions.get_mut(key) else {
        unreachable!() // there is one
    };
    clear_version(table, version);
    if version.readers > 0 {
        hold_version(table, version);
        version.is_current = false;
        return;
    }
    table.unbook(version_cost(&version.version));
    let _gone = versions.try_remove(key);
}

/// Takes the version that an entry had out of use, if it had one.
fn retire_before(versions: &mut Slab<LiveVersion>, table: &mut Table, old: Option<usize>)
    requires sound { IsTable table.old }
    requires may { IfSome old (λ key. MayRetire table.old versions.old.slots key) }
    ensures retired { (key : ℕ) (v : LiveVersion) → old ≡ Some key → slot versions.old.slots key ≡ Some v
        → Retires table.old table.new v (live_left (Some (key, v))) }
    ensures left { (key : ℕ) (v : LiveVersion) → old ≡ Some key → slot versions.old.slots key ≡ Some v
        → slot versions.new.slots key ≡ live_left (Some (key, v)) }
    ensures others { (key k : ℕ) → old ≡ Some key → (k ≡ key → ⊥)
        → slot versions.new.slots k ≡ slot versions.old.slots k }
    ensures none { old ≡ None → (versions.new ≡ versions.old) × (table.new ≡ table.old) }
{
    let Some(key) = old else {
        return;
    };
    retire(versions, table, key);
}
