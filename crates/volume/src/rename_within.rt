//! The renaming of a file within its directory.
ghost use Rattle.std.specs.Prelude.{◌≡◌, ◌↔◌, ◌⊎◌, ◌<◌, ◌≤◌, [], ℕ, List, true, false, length, map, Some, None};
ghost use Rattle.std.specs.Prelude.{IsTrue, IsSome, IfOk, IfErr, OnOk, IsErrOf};
ghost use Rattle.std.specs.Ordering.{nat_cmp};
ghost use Rattle.std.specs.FinMap.Entries.{find};
ghost use Rattle.words36.specs.declared.names.FileName.{FileName};
ghost use Rattle.spec_image.specs.declared.code.ErrorCode.{ErrorCode};
ghost use Rattle.spec_image.specs.declared.code.ErrorCode.TheVariants.{NameExists, NoDirectory, NotFound};
ghost use Rattle.spec_image.specs.declared.put.Put.{Put};
ghost use Rattle.spec_image.specs.Common.{file_words, IsFileEntry, name_cmp, insert, remove, from_entries, place_of};
ghost use Rattle.directory.specs.Common.{IsChain, viewed, PutsChain, renamed};
ghost use Rattle.retrieval.specs.declared.prime.Prime.{Prime as PrimeValue};
ghost use Rattle.volume.specs.Common.{IsDirectoryOf, claims, file_view, ChangesFiles, DeviceAnswer};
ghost use Rattle.volume.specs.Common.{IsEdited, CurrentDirectory, slot, IsWholeMemory, memory_of, files_moved};
ghost use Rattle.volume.specs.Common.{IsFreeFor};
ghost use Rattle.volume.specs.Common.{IsMoveRefusal, MovesWithin, IsKeyOf, prime_at, IsFilePrime};
ghost use Rattle.volume.specs.Common.{IsSoundMemory};
ghost use Rattle.volume.specs.declared.error.CallError.{CallError};
ghost use Rattle.volume.specs.declared.error.CallError.TheVariants.{Refused, Device, Failed, NoMemory};
ghost use Rattle.volume.specs.declared.live.LiveVersion.{LiveVersion};

use crate::CallError;
use crate::live::{LiveDirectory, LiveMap};
use crate::moves::Move;
use crate::pins::find_version;
use crate::prime_change::{move_version, prime_of, read_prime};
use crate::publish_in_memory::{file_entry, place_of};
use crate::transaction::commit_edit;
use crate::volume::Volume;
use blockdisk::Disk;
use changeset::ChangeSet;
use directory::FileEntry;
use spec_image::ErrorCode;
use words36::{Block, FileName, Ppn};

/// Returns whether a directory has an entry named `to`, if that is another name than `name`.
fn has_other(map: &LiveMap, ppn: Ppn, name: &FileName, to: &FileName) -> bool
    requires whole { IsWholeMemory map.now.table.size (memory_of map.now) }
    requires there { find nat_cmp ppn (memory_of map.now).known.master.entries ≡ None → ⊥ }
    ensures no { result ≡ false → (d : CurrentDirectory) → IsDirectoryOf (memory_of map.now) ppn d
        → IsFreeFor d name.now to.now }
    ensures yes { IsTrue result → (to.now ≡ name.now → ⊥) × ((d : CurrentDirectory)
        → IsDirectoryOf (memory_of map.now) ppn d → find name_cmp to.now d.chain.entries ≡ None → ⊥) }
{
    if to == name {
        return false;
    }
    let place = place_of(&map.master, ppn);
    map.directories[place].chain.find(to).is_some()
}

/// Returns the key of the version of a file, if the file may get the name `to`.
///
/// # Errors
///
/// `Refused` with `NoDirectory` if there is no such directory, with `NotFound` if it has no such file, and with
/// `NameExists` if the new name is another one and exists already.
fn find_movable(map: &LiveMap, ppn: Ppn, name: &FileName, to: &FileName) -> Result<usize, CallError>
    requires whole { IsWholeMemory map.now.table.size (memory_of map.now) }
    ensures found { IfOk result (IsKeyOf (memory_of map.now) ppn name.now) }
    ensures free { OnOk result ((d : CurrentDirectory) → IsDirectoryOf (memory_of map.now) ppn d
        → IsFreeFor d name.now to.now) }
    ensures refused { IfErr result (IsMoveRefusal (memory_of map.now) ppn name.now to.now) }
{
    let key = match find_version(map, ppn, name) {
        Ok(key) => key,
        Err(error) => return Err(error),
    };
    if has_other(map, ppn, name, to) {
        return Err(CallError::Refused(ErrorCode::NameExists));
    }
    Ok(key)
}

/// Replaces the entry of a name in a directory in memory by another one. That has the same name, or one that isn't
/// there.
fn rename_entry(
    directory: &mut LiveDirectory,
    name: &FileName,
    entry: FileEntry,
    set: &mut ChangeSet,
)
    requires there { IsSome (find name_cmp name.now (map file_view directory.old.chain.entries)) }
    requires free { (name.now ≡ entry.name)
        ⊎ (find name_cmp entry.name (map file_view directory.old.chain.entries) ≡ None) }
    requires empty { set.old ≡ [] }
    // The map with the entry.
    ensures items { map file_view directory.new.chain.entries
        ≡ renamed name_cmp (map file_view directory.old.chain.entries) name.now (file_view entry) }
    ensures map { from_entries {R = name_cmp} (map file_view directory.new.chain.entries)
        ≡ insert (remove (from_entries (map file_view directory.old.chain.entries)) name.now) entry.name entry.prime }
    ensures blocks { directory.new.chain.blocks ≡ directory.old.chain.blocks }
    ensures keys { directory.new.keys ≡ directory.old.keys }
    // What is put of the chain.
    ensures chain { IsChain name_cmp IsFileEntry (viewed file_view directory.new.chain) }
    ensures put { PutsChain file_words (viewed file_view directory.old.chain)
        (viewed file_view directory.new.chain) [] set.new }
    ensures few { length set.new ≤ 1 }
{
    directory.chain.rename(name, entry, set);
    let _blocks = directory.chain.blocks(); // every chain is valid
}

/// Gives a file another name in its directory in memory, or the same one, and another protection; adds to `set` the
/// puts that will do the same on the disk. The words of its prime block are `words`.
fn move_in_memory(memory: &mut LiveMap, moved: Move, key: usize, words: &Block, set: &mut ChangeSet)
    requires whole { IsWholeMemory memory.old.table.size (memory_of memory.old) }
    requires there { IsKeyOf (memory_of memory.old) moved.ppn moved.name key }
    requires free { (d : CurrentDirectory) → IsDirectoryOf (memory_of memory.old) moved.ppn d
        → IsFreeFor d moved.name moved.to }
    requires named { 0 < moved.to.name }
    requires protection { moved.protection < 512 }
    requires empty { set.old ≡ [] }
    ensures { (v : LiveVersion) × MovesWithin memory.old.table.size (memory_of memory.old) (memory_of memory.new)
        moved.ppn moved.name moved.to moved.protection key v words.now set.new }
{
    let place = place_of(&memory.master, moved.ppn);
    let entry = file_entry(moved.to, prime_of(&memory.versions, key));
    rename_entry(&mut memory.directories[place], &moved.name, entry, set);
    move_version(
        &mut memory.versions,
        key,
        moved.ppn,
        &moved.to,
        moved.protection,
        words,
        set,
    );
}

/// Gives a file another name in its directory, or the same one, and another protection, after every refusal is ruled
/// out: reads the words of its prime block, then changes memory and collects the puts for that, then makes these in one
/// change.
///
/// # Errors
///
/// `Device` if the device failed, and `Failed` if the prime block is damaged or isn't this file's, which no honest disk
/// shows; the volume has failed then.
fn move_within<D: Disk>(
    disk: &mut D,
    map: &mut LiveMap,
    failed: &mut bool,
    moved: Move,
    key: usize,
) -> Result<(), CallError>
    // What the caller ensures.
    requires sound { IsSoundMemory (D.state disk.old) (memory_of map.old) false }
    requires alive { failed.old ≡ false }
    requires there { IsKeyOf (memory_of map.old) moved.ppn moved.name key }
    requires free { (d : CurrentDirectory) → IsDirectoryOf (memory_of map.old) moved.ppn d
        → IsFreeFor d moved.name moved.to }
    requires named { 0 < moved.to.name }
    requires protection { moved.protection < 512 }
    requires unclaimed { claims (memory_of map.old).pending (place_of moved.ppn moved.name) ≡ false }

    // What it does to memory and disk.
    ensures edited { IsEdited (D.state disk.old) (D.state disk.new) (memory_of map.old) (memory_of map.new)
        (λ f. files_moved f moved.ppn moved.name moved.ppn moved.to moved.protection) failed.new result }
    ensures moved { OnOk result ((v : LiveVersion) × (words : List ℕ) × (puts : List Put)
        × MovesWithin (D.state disk.old).size (memory_of map.old) (memory_of map.new) moved.ppn moved.name moved.to
        moved.protection key v words puts
        × ((D.state disk.new).honest → (D.state disk.old).contents v.at ≡ Some words)
        × IsFilePrime words moved.ppn moved.name v) }
    ensures pending { (memory_of map.new).pending ≡ (memory_of map.old).pending }
    ensures held { (k : ℕ) (v : LiveVersion) → slot (memory_of map.old).live k ≡ Some v
        → (prime : PrimeValue) × (slot (memory_of map.new).live k ≡ Some (record v { prime = prime })) }

    // Which refusal comes when, and what it leaves.
    ensures only { IfErr result (λ error. (error ≡ Device) ⊎ (error ≡ Failed)) }
    ensures given_up { IsErrOf result Failed → (D.state disk.new).honest → ⊥ }
    ensures answer { DeviceAnswer (D.state disk.old) (D.state disk.new) failed.old failed.new result }
{
    let _booked = map.table.booked(); // every table is valid
    let at = prime_of(&map.versions, key);
    let words = match read_prime(disk, at, &map.versions, key, moved.ppn, &moved.name) {
        Ok(words) => words,
        Err(error) => {
            *failed = true; // nothing is known of the disk any more
            return Err(error);
        }
    };
    let mut set = ChangeSet::new();
    move_in_memory(map, moved, key, &words, &mut set);
    commit_edit(disk, failed, &set)
}

impl<D: Disk> Volume<D> {
    /// Gives a file another name in its directory, or the same one, and another protection, by one change of its
    /// directory and its prime block. A crash finds the files from before, or those with this file changed. Its version
    /// stays, and stays pinned for its readers. It takes no memory. The directory is that of `moved.ppn`;
    /// `moved.to_ppn` isn't read.
    ///
    /// # Errors
    ///
    /// `Failed` if the volume failed before. `Refused` with `NoDirectory` if there is no such directory, with
    /// `NotFound` if it has no such file, and with `NameExists` if the new name is another one and exists already.
    /// Nothing changes then. `Device` if the device failed, and the volume with it: a later start finds the files with
    /// this file changed, or those from before. `Failed`, and the volume with it, if the file's prime block is damaged
    /// or isn't this file's, which no honest disk shows.
    pub(crate) fn rename_within(&mut self, moved: Move) -> Result<(), CallError>
        requires named { 0 < moved.to.name }
        requires protection { moved.protection < 512 }
        // No version is being written for its place, since it could have blocks of the file; claims ensure that.
        requires unclaimed { claims self.old.map.pending (place_of moved.ppn moved.name) ≡ false }
        // What it does to the files, and what stays meanwhile.
        ensures files { ChangesFiles (D.state self.old.disk) (D.state self.new.disk) self.old.map
            (λ f. files_moved f moved.ppn moved.name moved.ppn moved.to moved.protection) result }

        // What it does to memory, and what it puts, if the prime block had these words.
        ensures moved { OnOk result ((key : ℕ) × (v : LiveVersion) × (words : List ℕ) × (puts : List Put)
            × MovesWithin (D.state self.old.disk).size self.old.map self.new.map moved.ppn moved.name moved.to
            moved.protection key v words puts
            × ((D.state self.new.disk).honest → (D.state self.old.disk).contents v.at ≡ Some words)
            × IsFilePrime words moved.ppn moved.name v) }
        // All versions in use stay, whatever the answer. Their blocks stay too, unless the device failed, since they
        // may have been open then.
        ensures pending { self.new.map.pending ≡ self.old.map.pending }
        ensures held { (k : ℕ) (v : LiveVersion) → slot self.old.map.live k ≡ Some v → 0 < v.readers
            → (prime : PrimeValue) × (slot self.new.map.live k ≡ Some (record v { prime = prime })) }
        // The new place has the prime block that the old one had; the old one has no prime block then, and each other
        // place keeps its own.
        ensures here { OnOk result (prime_at self.new.map moved.ppn moved.to
            ≡ prime_at self.old.map moved.ppn moved.name) }
        ensures gone { OnOk result ((moved.to ≡ moved.name → ⊥) → prime_at self.new.map moved.ppn moved.name ≡ None) }
        ensures primes { OnOk result ((q : ℕ) (n : FileName) → ((q ≡ moved.ppn) × (n ≡ moved.name) → ⊥)
            → ((q ≡ moved.ppn) × (n ≡ moved.to) → ⊥) → prime_at self.new.map q n ≡ prime_at self.old.map q n) }

        // Which error comes when, and what it leaves.
        ensures failed { self.old.failed ≡ true → IsErrOf result Failed }
        ensures broken { self.old.failed ≡ true → (self.new.disk ≡ self.old.disk) × (self.new.map ≡ self.old.map) }
        ensures given_up { IsErrOf result Failed → (self.old.failed ≡ true) ⊎ ((D.state self.new.disk).honest → ⊥) }
        ensures no_directory { self.old.failed ≡ false
            → (IsErrOf result (Refused NoDirectory)
            ↔ (find nat_cmp moved.ppn self.old.map.known.master.entries ≡ None)) }
        ensures not_found { self.old.failed ≡ false
            → (IsErrOf result (Refused NotFound) ↔ ((d : CurrentDirectory) × IsDirectoryOf self.old.map moved.ppn d
            × (find name_cmp moved.name d.chain.entries ≡ None))) }
        ensures exists { self.old.failed ≡ false
            → (IsErrOf result (Refused NameExists) ↔ ((d : CurrentDirectory) × IsDirectoryOf self.old.map moved.ppn d
            × (find name_cmp moved.name d.chain.entries ≡ None → ⊥) × (moved.to ≡ moved.name → ⊥)
            × (find name_cmp moved.to d.chain.entries ≡ None → ⊥))) }
        ensures codes { (code : ErrorCode) → IsErrOf result (Refused code)
            → (code ≡ NoDirectory) ⊎ (code ≡ NotFound) ⊎ (code ≡ NameExists) }
        ensures refused { (code : ErrorCode) → IsErrOf result (Refused code) → (self.new.disk ≡ self.old.disk)
            × (self.new.map ≡ self.old.map) }
        ensures memory { IsErrOf result NoMemory → ⊥ }
        ensures answer { DeviceAnswer (D.state self.old.disk) (D.state self.new.disk) self.old.failed self.new.failed
            result }
        ensures layout { self.new.layout ≡ self.old.layout }
    {
        if self.failed {
            return Err(CallError::Failed);
        }
        let key = match find_movable(&self.map, moved.ppn, &moved.name, &moved.to) {
            Ok(key) => key,
            Err(error) => return Err(error),
        };
        move_within(&mut self.disk, &mut self.map, &mut self.failed, moved, key)
    }
}
