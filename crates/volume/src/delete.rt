//! The deletion of files.
ghost use Rattle.std.specs.Prelude.{◌≡◌, ◌↔◌, ◌⊎◌, ◌+◌, ◌<◌, ◌≤◌, ◌++◌, [], ℕ, List, Bool, true, false, length, map};
ghost use Rattle.std.specs.Prelude.{slice_get, option_to_list, take, drop, suc, Some, None, IsSome, OnOk, OnErr};
ghost use Rattle.std.specs.Prelude.{IsErrOf};
ghost use Rattle.std.specs.Ordering.{nat_cmp};
ghost use Rattle.std.specs.FinMap.Entries.{find};
ghost use Rattle.words36.specs.declared.names.FileName.{FileName};
ghost use Rattle.spec_image.specs.declared.code.ErrorCode.{ErrorCode};
ghost use Rattle.spec_image.specs.declared.code.ErrorCode.TheVariants.{NoDirectory, NotFound};
ghost use Rattle.spec_image.specs.declared.put.Put.{Put};
ghost use Rattle.spec_image.specs.Common.{file_words, IsFileEntry, name_cmp, remove, from_entries, times};
ghost use Rattle.alloctab.specs.Common.{IsTable, bit};
ghost use Rattle.directory.specs.Common.{IsChain, viewed, StandsAt, PutsChain, removed, last_first};
ghost use Rattle.volume.specs.Common.{IsDirectoryOf, file_view, ChangesFiles, DeviceAnswer, CurrentDirectory, slot};
ghost use Rattle.volume.specs.Common.{IsWholeMemory, memory_of, IsKeyOf, prime_at, ClearsBits, files_removed};
ghost use Rattle.volume.specs.Common.{RemovesFile};
ghost use Rattle.volume.specs.declared.error.CallError.TheVariants.{Refused, Device, Failed, NoMemory};
ghost use Rattle.volume.specs.declared.live.LiveVersion.{LiveVersion};

use crate::CallError;
use crate::begin::growth_at;
use crate::live::{LiveDirectory, LiveMap};
use crate::pins::find_version;
use crate::publish_in_memory::{place_of, retire};
use crate::transaction::commit_edit;
use crate::volume::Volume;
use alloctab::Table;
use blockdisk::Disk;
use changeset::ChangeSet;
use words36::{FileName, Ppn};

/// What a directory loses with an entry.
#[derive(Clone, Copy)]
pub(crate) struct GivenUp {
    /// The key of the entry's version.
    pub key: usize,
    /// The last block of the chain, if it is left empty.
    pub block: Option<u32>,
}

/// Removes the entry of a name from a directory in memory, with the key of its version. The last entry moves into its
/// place.
pub(crate) fn remove_entry(
    directory: &mut LiveDirectory,
    name: &FileName,
    set: &mut ChangeSet,
) -> GivenUp
    requires there { IsSome (find name_cmp name.now (map file_view directory.old.chain.entries)) }
    requires aligned { length directory.old.keys.items ≡ length directory.old.chain.entries }
    requires room { length set.old ≤ 2 }
    // The list of keys, and the map without the entry.
    ensures items { map file_view directory.new.chain.entries
        ≡ removed name_cmp (map file_view directory.old.chain.entries) name.now }
    ensures map { from_entries {R = name_cmp} (map file_view directory.new.chain.entries)
        ≡ remove (from_entries (map file_view directory.old.chain.entries)) name.now }
    ensures blocks { directory.old.chain.blocks ≡ directory.new.chain.blocks ++ option_to_list result.block }
    ensures keys { (i : ℕ) × (w : ℕ) × StandsAt name_cmp (map file_view directory.old.chain.entries) name.now w i
        × (slice_get directory.old.keys.items i ≡ Some result.key)
        × (directory.new.keys.items
        ≡ take i directory.old.keys.items ++ last_first (drop (suc i) directory.old.keys.items)) }
    // What is put of the chain.
    ensures chain { IsChain name_cmp IsFileEntry (viewed file_view directory.new.chain) }
    ensures put { PutsChain file_words (viewed file_view directory.old.chain)
        (viewed file_view directory.new.chain) set.old set.new }
    ensures few { length set.new ≤ length set.old + 2 }
{
    let Some(i) = directory.chain.find(name) else {
        unreachable!() // the name is there
    };
    let block = directory.chain.remove(name, set);
    let _blocks = directory.chain.blocks(); // every chain is valid
    let key = directory.keys.swap_remove(i);
    GivenUp { key, block }
}

/// Clears the bit of a block that a chain frees, if there is one.
pub(crate) fn clear_left(table: &mut Table, block: Option<u32>)
    requires sound { IsTable table.old }
    requires set { (n : ℕ) → times n (option_to_list block) ≤ bit table.old n }
    ensures { ClearsBits table.old table.new (option_to_list block) }
{
    if let Some(n) = block {
        table.clear(n);
    }
    let _booked = table.booked(); // every table is valid
}

/// Deletes a file in memory, and adds to `set` the puts that will delete it on the disk.
fn remove_in_memory(memory: &mut LiveMap, ppn: Ppn, name: &FileName, set: &mut ChangeSet)
    requires whole { IsWholeMemory memory.old.table.size (memory_of memory.old) }
    requires there { (key : ℕ) × IsKeyOf (memory_of memory.old) ppn name.now key }
    requires empty { set.old ≡ [] }
    ensures removed { (key : ℕ) × (v : LiveVersion) × RemovesFile memory.old.table.size (memory_of memory.old)
        (memory_of memory.new) ppn name.now key v set.new }
    ensures table { IsTable memory.old.table }
{
    let place = place_of(&memory.master, ppn);
    let _booked = memory.table.booked(); // every table is valid
    let GivenUp { key, block } = remove_entry(&mut memory.directories[place], name, set);
    let less = growth_at(memory, place, ppn);
    retire(&mut memory.versions, &mut memory.table, key);
    clear_left(&mut memory.table, block);
    memory.table.unbook(less);
    memory.table.changes(set);
}

impl<D: Disk> Volume<D> {
    /// Deletes a file, by one change of its directory and the allocation table. A crash finds the files from before, or
    /// those without it. If its version is pinned, it stays for its readers, and takes its blocks until the last of
    /// them unpins it. Versions that are being written stay, those of its place too. It takes no memory.
    ///
    /// # Errors
    ///
    /// `Failed` if the volume failed before. `Refused` with `NoDirectory` if there is no such directory, and with
    /// `NotFound` if it has no such file. Nothing changes then. `Device` if the device failed, and the volume with it:
    /// a later start finds the files without it, or those from before.
    pub fn delete(&mut self, ppn: Ppn, name: &FileName) -> Result<(), CallError>
        // What it does to the files, and what stays meanwhile.
        ensures files { ChangesFiles (D.state self.old.disk) (D.state self.new.disk) self.old.map
            (λ f. files_removed f ppn name.now) result }
        // What it does to memory.
        ensures removed { OnOk result ((key : ℕ) × (v : LiveVersion) × (puts : List Put)
            × RemovesFile (D.state self.old.disk).size self.old.map self.new.map ppn name.now key v puts) }
        // All versions in use stay, whatever the answer. Their blocks stay too, unless the device failed, since they
        // may have been open then.
        ensures pending { self.new.map.pending ≡ self.old.map.pending }
        ensures held { (k : ℕ) (v : LiveVersion) → slot self.old.map.live k ≡ Some v → 0 < v.readers
            → (b : Bool) × (slot self.new.map.live k ≡ Some (record v { is_current = b })) }
        // Each other place keeps its prime block; this one has no prime block.
        ensures primes { OnOk result ((q : ℕ) (n : FileName) → ((q ≡ ppn) × (n ≡ name.now) → ⊥)
            → prime_at self.new.map q n ≡ prime_at self.old.map q n) }
        ensures gone { OnOk result (prime_at self.new.map ppn name.now ≡ None) }

        // Which error comes when, and what it leaves.
        ensures refused { (IsErrOf result Device → ⊥)
            → OnErr result ((self.new.disk ≡ self.old.disk) × (self.new.map ≡ self.old.map)) }
        ensures failed { self.old.failed ≡ true → IsErrOf result Failed }
        ensures given_up { IsErrOf result Failed → self.old.failed ≡ true }
        ensures no_directory { self.old.failed ≡ false
            → (IsErrOf result (Refused NoDirectory) ↔ (find nat_cmp ppn self.old.map.known.master.entries ≡ None)) }
        ensures not_found { self.old.failed ≡ false
            → (IsErrOf result (Refused NotFound) ↔ ((d : CurrentDirectory) × IsDirectoryOf self.old.map ppn d
            × (find name_cmp name.now d.chain.entries ≡ None))) }
        ensures codes { (code : ErrorCode) → IsErrOf result (Refused code)
            → (code ≡ NoDirectory) ⊎ (code ≡ NotFound) }
        ensures memory { IsErrOf result NoMemory → ⊥ }
        ensures answer { DeviceAnswer (D.state self.old.disk) (D.state self.new.disk) self.old.failed self.new.failed
            result }
        ensures layout { self.new.layout ≡ self.old.layout }
    {
        if self.failed {
            return Err(CallError::Failed);
        }
        if let Err(error) = find_version(&self.map, ppn, name) {
            return Err(error);
        }
        let mut set = ChangeSet::new();
        remove_in_memory(&mut self.map, ppn, name, &mut set);
        commit_edit(&mut self.disk, &mut self.failed, &set)
    }
}
