//! The making of directories.
ghost use Rattle.std.specs.Prelude.{◌≡◌, ◌↔◌, ◌⊎◌, ◌+◌, ◌<◌, ◌≤◌, ◌++◌, ◌∷◌, [], ℕ, true, if◌then◌else◌, IfOk, OnOk};
ghost use Rattle.std.specs.Prelude.{OnErr, IsErrOf, None, Some, option_to_list, length, false};
ghost use Rattle.std.specs.Ordering.{nat_cmp};
ghost use Rattle.std.specs.FinMap.Entries.{find};
ghost use Rattle.words36.specs.declared.names.FileName.{FileName};
ghost use Rattle.spec_image.specs.declared.code.ErrorCode.{ErrorCode};
ghost use Rattle.spec_image.specs.declared.code.ErrorCode.TheVariants.{NameExists, NoRoom};
ghost use Rattle.spec_image.specs.Common.{times, space_start};
ghost use Rattle.alloctab.specs.Common.{TableState, IsTable, IsFree, holds, space, used_in_space};
ghost use Rattle.retrieval.specs.Common.{Takes, IsFixed};
ghost use Rattle.volume.specs.Common.{IsDirectoryOf, ChangesFiles, DeviceAnswer, CurrentDirectory, IsWholeMemory};
ghost use Rattle.volume.specs.Common.{memory_of, put_in_use, Uses, TakesBlocks, PutsTable, chain_growth, fresh_list};
ghost use Rattle.volume.specs.Common.{files_made, IsEntered, IsMade, prime_at};
ghost use Rattle.volume.specs.declared.error.CallError.TheVariants.{Refused, Device, Failed};

use crate::CallError;
use crate::live::{LiveDirectory, LiveMap};
use crate::transaction::commit_edit;
use crate::volume::Volume;
use alloctab::Table;
use blockdisk::{Disk, NoMemory};
use changeset::ChangeSet;
use directory::{Chain, Keys, MasterEntry};
use spec_image::ErrorCode;
use std::alloc::Global;
use words36::{BLOCK_WORDS, Ppn, Word};

/// The blocks that a new directory takes.
#[derive(Clone, Copy)]
pub struct FreshBlocks {
    /// The block of its chain.
    pub directory: u32,
    /// The block that the chain of the master directory takes, if its last one is full.
    pub master: Option<u32>,
}

/// Takes the blocks for a new directory, which are booked.
fn take_blocks(table: &mut Table, grows: bool) -> FreshBlocks
    requires sound { IsTable table.old }
    requires fixed { IsFixed table.old }
    requires used { used_in_space table.old + (if grows then 2 else 1) ≤ table.old.booked }
    requires room { table.old.booked ≤ space table.old.size }
    ensures taken { Takes table.old (fresh_list result) table.new }
    ensures count { length (option_to_list result.master) ≡ (if grows then 1 else 0) }
{
    let directory = table.take_block();
    if !grows {
        return FreshBlocks {
            directory,
            master: None,
        };
    }
    FreshBlocks {
        directory,
        master: Some(table.take_block()),
    }
}

/// Frees blocks that were taken.
fn give_back(table: &mut Table, fresh: FreshBlocks)
    requires taken { (before : TableState) × IsTable before × Takes before (fresh_list fresh) table.old }
    ensures { (before : TableState) → IsTable before → Takes before (fresh_list fresh) table.old → table.new ≡ before }
{
    if let Some(n) = fresh.master {
        table.unhold(n);
    }
    table.unhold(fresh.directory);
}

/// Sets the bit of a block that was taken, and releases one hold of it.
pub(crate) fn use_block(table: &mut Table, n: u32)
    requires inside { n < table.old.size }
    requires held { 0 < holds table.old n }
    ensures { table.new ≡ put_in_use table.old n }
{
    table.set(n);
    table.unhold(n);
}

/// Brings blocks that were taken into use, the first one last.
fn bring(table: &mut Table, fresh: FreshBlocks)
    requires taken { (before : TableState) × IsTable before × Takes before (fresh_list fresh) table.old }
    ensures { (before : TableState) → IsTable before → Takes before (fresh_list fresh) table.old
        → Uses before table.new (fresh_list fresh) }
{
    if let Some(n) = fresh.master {
        use_block(table, n);
    }
    use_block(table, fresh.directory);
}

/// Brings blocks that were taken into use, and puts the blocks of the table that this changes.
fn use_blocks(table: &mut Table, fresh: FreshBlocks, set: &mut ChangeSet)
    requires taken { (before : TableState) × IsTable before × Takes before (fresh_list fresh) table.old }
    requires room { length set.old ≤ 2 }
    ensures taken { (before : TableState) → IsTable before → Takes before (fresh_list fresh) table.old
        → TakesBlocks before table.new (fresh_list fresh) }
    ensures put { (before : TableState) → IsTable before → Takes before (fresh_list fresh) table.old
        → PutsTable before.size before table.new set.old set.new }
{
    bring(table, fresh);
    table.changes(set);
}

/// Gives the master directory in memory the entry of an empty directory, and adds the directory.
///
/// # Errors
///
/// `NoMemory` if there is no memory for it; nothing changes then.
fn enter(
    memory: &mut LiveMap,
    alloc: Global,
    entry: MasterEntry,
    fresh: Option<u32>,
    set: &mut ChangeSet,
) -> Result<(), NoMemory>
    requires unlimited { entry.quota ≡ 0 }
    requires absent { find nat_cmp entry.ppn (memory_of memory.old).known.master.entries ≡ None }
    requires count { length (option_to_list fresh) ≡ chain_growth (memory_of memory.old).known.master }
    requires new { (n : ℕ) → fresh ≡ Some n → times n memory.old.master.blocks ≡ 0 }
    requires empty { set.old ≡ [] }
    ensures entered { OnOk result (IsEntered (memory_of memory.old).known
        (memory_of memory.new).known entry.ppn entry.protection entry.first (option_to_list fresh) set.new) }
    ensures table { (memory_of memory.new).known.table ≡ (memory_of memory.old).known.table }
    ensures live { (memory_of memory.new).live ≡ (memory_of memory.old).live }
    ensures pending { (memory_of memory.new).pending ≡ (memory_of memory.old).pending }
    ensures keys { OnOk result ((memory_of memory.new).keys ≡ (memory_of memory.old).keys ++ [] ∷ []) }
    ensures same { OnErr result (memory_of memory.new ≡ memory_of memory.old) }
    ensures unput { OnErr result (set.new ≡ set.old) }
{
    memory.directories.reserve(1)?;
    let chain = Chain::bare(alloc, entry.first)?;
    match memory.master.insert(entry, fresh, set) {
        Ok(()) => {}
        Err(_) => return Err(NoMemory),
    }
    let _blocks = memory.master.blocks(); // any chain is one as it should be
    memory.directories.push_reserved(LiveDirectory {
        chain,
        keys: Keys::new(alloc),
    });
    Ok(())
}

/// Makes a directory in memory, and adds to `set` the puts that will make it on the disk after its block is zeroed.
/// Returns that block.
fn make_in_memory(
    memory: &mut LiveMap,
    alloc: Global,
    ppn: Ppn,
    protection: u16,
    set: &mut ChangeSet,
) -> Result<u32, CallError>
    requires whole { IsWholeMemory memory.old.table.size (memory_of memory.old) }
    requires protection { protection < 512 }
    requires empty { set.old ≡ [] }
    ensures made { IfOk result (λ first. IsMade memory.old.table.size (memory_of memory.old).known
        (memory_of memory.new).known ppn protection first set.new) }
    ensures live { (memory_of memory.new).live ≡ (memory_of memory.old).live }
    ensures pending { (memory_of memory.new).pending ≡ (memory_of memory.old).pending }
    ensures keys { OnOk result ((memory_of memory.new).keys ≡ (memory_of memory.old).keys ++ [] ∷ []) }
    ensures same { OnErr result (memory_of memory.new ≡ memory_of memory.old) }
    ensures exists { IsErrOf result (Refused NameExists)
        ↔ (find nat_cmp ppn (memory_of memory.old).known.master.entries ≡ None → ⊥) }
    ensures room { find nat_cmp ppn (memory_of memory.old).known.master.entries ≡ None
        → (IsErrOf result (Refused NoRoom)
        ↔ (space memory.old.table.size < memory.old.table.booked + 1
        + chain_growth (memory_of memory.old).known.master)) }
    ensures codes { (code : ErrorCode) → IsErrOf result (Refused code) → (code ≡ NameExists) ⊎ (code ≡ NoRoom) }
    ensures plain { (IsErrOf result Device → ⊥) × (IsErrOf result Failed → ⊥) }
{
    if memory.master.find(&ppn).is_some() {
        return Err(CallError::Refused(ErrorCode::NameExists));
    }
    let grows = memory.master.needs_block();
    let count = 1 + u32::from(grows);
    if !memory.table.can_book(count) {
        return Err(CallError::Refused(ErrorCode::NoRoom));
    }
    let _booked = memory.table.booked(); // every table is valid
    memory.table.book(count);
    let fresh = take_blocks(&mut memory.table, grows);
    let entry = entry_of(ppn, protection, fresh.directory);
    if enter(memory, alloc, entry, fresh.master, set).is_err() {
        give_back(&mut memory.table, fresh);
        memory.table.unbook(count);
        return Err(CallError::NoMemory);
    }
    use_blocks(&mut memory.table, fresh, set);
    Ok(fresh.directory)
}

/// Returns the entry of a directory without a quota in the master directory.
fn entry_of(ppn: Ppn, protection: u16, first: u32) -> MasterEntry
    requires { protection < 512 }
    ensures ppn { result.ppn ≡ ppn }
    ensures protection { result.protection ≡ protection }
    ensures unlimited { result.quota ≡ 0 }
    ensures first { result.first ≡ first }
{
    match MasterEntry::new(ppn, protection, 0, first) {
        Some(entry) => entry,
        None => unreachable!(), // the protection fits
    }
}

impl<D: Disk> Volume<D> {
    /// Makes an empty directory: plans it in memory with the puts that it needs, then writes the block of the
    /// directory, then makes the puts in one change. Memory changes before the disk does: if the device fails, the
    /// volume has failed, and nothing in memory is used any more.
    ///
    /// `protection` is three octal digits, the owner's first (TOPS-10 Monitor Calls Manual).
    ///
    /// # Errors
    ///
    /// `Failed` if the volume failed before. `Refused` with `NameExists` if there is a directory of this
    /// project-programmer number, and with `NoRoom` if a block, and one more if the master directory has to grow,
    /// exceed the room; `NoMemory` if there is no memory for it. Nothing changes then. `Device` if the device failed,
    /// and the volume with it: a later start finds the directory, or all as before.
    pub fn make_dir(&mut self, alloc: Global, ppn: Ppn, protection: u16) -> Result<(), CallError>
        requires protection { protection < 512 }
        // What it does to the files, and what stays meanwhile.
        ensures files { ChangesFiles (D.state self.old.disk) (D.state self.new.disk) self.old.map
            (λ f. files_made f ppn protection) result }

        // The versions in use stay, and no block in use changes, except those of the master directory; if the device
        // failed, this holds for closed blocks.
        ensures live { self.new.map.live ≡ self.old.map.live }
        ensures pending { self.new.map.pending ≡ self.old.map.pending }
        ensures kept { (D.state self.new.disk).honest → (n : ℕ) → space_start (D.state self.old.disk).size ≤ n
            → times n self.old.map.known.master.blocks ≡ 0 → (IsFree self.old.map.known.table n → ⊥)
            → (IsErrOf result Device → (D.state self.old.disk).is_open n ≡ false)
            → (D.state self.new.disk).contents n ≡ (D.state self.old.disk).contents n }
        // Each directory stays at its place.
        ensures directories { (owner : ℕ) (d : CurrentDirectory) → IsDirectoryOf self.old.map owner d
            → IsDirectoryOf self.new.map owner d }
        // Each of its files keeps its prime block.
        ensures primes { (owner : ℕ) (name : FileName) (n : ℕ) → prime_at self.old.map owner name ≡ Some n
            → prime_at self.new.map owner name ≡ Some n }

        // Which error comes when, and what it leaves.
        ensures refused { (IsErrOf result Device → ⊥)
            → OnErr result ((self.new.disk ≡ self.old.disk) × (self.new.map ≡ self.old.map)) }
        ensures failed { self.old.failed ≡ true → IsErrOf result Failed }
        ensures given_up { IsErrOf result Failed → self.old.failed ≡ true }
        ensures exists { self.old.failed ≡ false
            → (IsErrOf result (Refused NameExists) ↔ (find nat_cmp ppn self.old.map.known.master.entries ≡ None → ⊥)) }
        ensures room { self.old.failed ≡ false → find nat_cmp ppn self.old.map.known.master.entries ≡ None
            → (IsErrOf result (Refused NoRoom)
            ↔ (space (D.state self.old.disk).size < self.old.map.known.table.booked + 1
            + chain_growth self.old.map.known.master)) }
        ensures codes { (code : ErrorCode) → IsErrOf result (Refused code) → (code ≡ NameExists) ⊎ (code ≡ NoRoom) }
        ensures answer { DeviceAnswer (D.state self.old.disk) (D.state self.new.disk) self.old.failed self.new.failed
            result }
        ensures layout { self.new.layout ≡ self.old.layout }
    {
        if self.failed {
            return Err(CallError::Failed);
        }
        let mut set = ChangeSet::new();
        let first = match make_in_memory(&mut self.map, alloc, ppn, protection, &mut set) {
            Ok(first) => first,
            Err(error) => return Err(error),
        };
        match self.disk.write(first, &[Word::ZERO; BLOCK_WORDS]) {
            Ok(()) => commit_edit(&mut self.disk, &mut self.failed, &set),
            Err(_) => {
                self.failed = true; // nothing of memory is used any more
                Err(CallError::Device)
            }
        }
    }
}
