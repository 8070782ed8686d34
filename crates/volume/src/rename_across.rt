//! The move of a file to another directory.
ghost use Rattle.std.specs.Prelude.{◌≡◌, ◌↔◌, ◌⊎◌, ◌+◌, ◌<◌, ◌≤◌, [], ℕ, List, true, false, length, map, slice_get};
ghost use Rattle.std.specs.Prelude.{option_to_list, Some, None, IsSome, IfOk, IfErr, OnOk, IsErrOf};
ghost use Rattle.std.specs.Ordering.{nat_cmp};
ghost use Rattle.std.specs.FinMap.Entries.{find};
ghost use Rattle.words36.specs.declared.names.FileName.{FileName};
ghost use Rattle.spec_image.specs.declared.code.ErrorCode.{ErrorCode};
ghost use Rattle.spec_image.specs.declared.code.ErrorCode.TheVariants.{NameExists, NoDirectory, NoRoom, NotFound};
ghost use Rattle.spec_image.specs.declared.put.Put.{Put};
ghost use Rattle.spec_image.specs.Common.{name_cmp, times, growth, place_of};
ghost use Rattle.alloctab.specs.Common.{IsTable, bit, holds, space};
ghost use Rattle.directory.specs.Common.{StandsAt};
ghost use Rattle.retrieval.specs.declared.prime.Prime.{Prime as PrimeValue};
ghost use Rattle.volume.specs.Common.{entries_with, IsDirectoryOf, claims, master_view, ChangesFiles, DeviceAnswer};
ghost use Rattle.volume.specs.Common.{IsEdited, CurrentDirectory, slot, IsWholeMemory, memory_of, files_moved, HasFile};
ghost use Rattle.volume.specs.Common.{HasNoRoom, MovesAcross, MayArrive, Arrives, MayGiveUpEntry, GivesUpEntry};
ghost use Rattle.volume.specs.Common.{IsKeyOf, prime_at, IsFilePrime, PutsInUse, IsSoundMemory};
ghost use Rattle.volume.specs.declared.error.CallError.TheVariants.{Refused, Device, Failed, NoMemory};
ghost use Rattle.volume.specs.declared.live.LiveDirectory.{LiveDirectory};
ghost use Rattle.volume.specs.declared.live.LiveVersion.{LiveVersion};

use crate::CallError;
use crate::begin::growth_at;
use crate::delete::{GivenUp, clear_left, remove_entry};
use crate::live::LiveMap;
use crate::make_dir::use_block;
use crate::moves::Move;
use crate::pins::find_version;
use crate::prealloc::{EntryPrealloc, preallocate_entry};
use crate::prime_change::{move_version, prime_of, read_prime};
use crate::publish_in_memory::{file_entry, place_of, put_entry, take_for_chain, takes_block};
use crate::query::directory_place;
use crate::transaction::commit_edit;
use crate::volume::Volume;
use alloctab::Table;
use blockdisk::Disk;
use changeset::ChangeSet;
use spec_image::ErrorCode;
use std::alloc::Global;
use words36::{Block, FileName, Ppn};

/// Returns the place of the directory that a file moves to, if its name is new there.
///
/// # Errors
///
/// `Refused` with `NoDirectory` if there is no such directory, with `NameExists` if it has the name already, and with
/// `NoRoom` if one entry more costs it a block more, for which there is no room.
fn find_target(memory: &LiveMap, ppn: Ppn, name: &FileName) -> Result<usize, CallError>
    requires whole { IsWholeMemory memory.now.table.size (memory_of memory.now) }
    ensures place { IfOk result (λ place. (v : ℕ × ℕ)
        × StandsAt nat_cmp (map master_view memory.now.master.entries) ppn v place) }
    ensures free { OnOk result ((d : CurrentDirectory) → IsDirectoryOf (memory_of memory.now) ppn d
        → find name_cmp name.now d.chain.entries ≡ None) }
    ensures room { OnOk result ((d : CurrentDirectory) → IsDirectoryOf (memory_of memory.now) ppn d
        → 0 < growth (entries_with (memory_of memory.now) d ppn)
        → memory.now.table.booked + growth (entries_with (memory_of memory.now) d ppn) ≤ space memory.now.table.size) }
    ensures no_directory { IsErrOf result (Refused NoDirectory)
        ↔ (find nat_cmp ppn (memory_of memory.now).known.master.entries ≡ None) }
    ensures exists { IsErrOf result (Refused NameExists) ↔ HasFile (memory_of memory.now) ppn name.now }
    ensures no_room { IsErrOf result (Refused NoRoom)
        ↔ HasNoRoom memory.now.table.size (memory_of memory.now) ppn name.now }
    ensures only { IfErr result (λ error. (error ≡ Refused NoDirectory) ⊎ (error ≡ Refused NameExists)
        ⊎ (error ≡ Refused NoRoom)) }
{
    let place = match directory_place(&memory.master, ppn) {
        Ok(place) => place,
        Err(error) => return Err(error),
    };
    if memory.directories[place].chain.find(name).is_some() {
        return Err(CallError::Refused(ErrorCode::NameExists));
    }
    let more = growth_at(memory, place, ppn);
    if more > 0 && !memory.table.can_book(more) {
        return Err(CallError::Refused(ErrorCode::NoRoom));
    }
    Ok(place)
}

/// Brings the block that a chain took into use, if it took one.
fn use_grown(table: &mut Table, grown: Option<u32>)
    requires sound { IsTable table.old }
    requires held { (n : ℕ) → times n (option_to_list grown) ≤ holds table.old n }
    requires clear { (n : ℕ) → bit table.old n + times n (option_to_list grown) ≤ 1 }
    ensures { PutsInUse table.old table.new (option_to_list grown) }
{
    if let Some(n) = grown {
        use_block(table, n);
    }
    let _booked = table.booked(); // every table is valid
}

/// Gives a directory in memory an entry of a name that is new there, for the version under a key, and adds to `set` the
/// puts of its chain. What the directory costs more is booked, and a block that its chain takes is in use.
fn arrive(
    memory: &mut LiveMap,
    ppn: Ppn,
    name: &FileName,
    key: usize,
    supplies: EntryPrealloc,
    set: &mut ChangeSet,
)
    requires whole { IsWholeMemory memory.old.table.size (memory_of memory.old) }
    requires key { IsSome (slot memory.old.versions.slots key) }
    requires may_arrive { MayArrive memory.old ppn name.now supplies.reserve supplies.keys }
    requires named { 0 < name.now.name }
    requires empty { set.old ≡ [] }
    ensures { Arrives memory.old memory.new ppn name.now key set.new }
{
    let _booked = memory.table.booked(); // every table is valid
    let place = place_of(&memory.master, ppn);
    let more = growth_at(memory, place, ppn);
    let grows = takes_block(memory, place, name);
    memory.table.book(more);
    let grown = take_for_chain(&mut memory.table, grows);
    let entry = file_entry(*name, prime_of(&memory.versions, key));
    let EntryPrealloc { reserve, keys } = supplies;
    put_entry(
        &mut memory.directories[place],
        reserve,
        keys,
        entry,
        key,
        grown,
        set,
    );
    use_grown(&mut memory.table, grown);
}

/// Removes the entry of a name from a directory in memory, and adds to `set` the puts of its chain. What the directory
/// costs less is unbooked, and a block that its chain frees is free.
fn leave(memory: &mut LiveMap, ppn: Ppn, name: &FileName, set: &mut ChangeSet)
    requires sound { IsTable memory.old.table }
    requires there { find nat_cmp ppn (map master_view memory.old.master.entries) ≡ None → ⊥ }
    requires aligned { length memory.old.directories.items ≡ length memory.old.master.entries }
    requires may_leave { (d : LiveDirectory) (place : ℕ) (v : ℕ × ℕ)
        → StandsAt nat_cmp (map master_view memory.old.master.entries) ppn v place
        → slice_get memory.old.directories.items place ≡ Some d → MayGiveUpEntry memory.old d ppn name.now }
    requires booked { 0 < memory.old.table.booked }
    requires room { length set.old ≤ 2 }
    ensures { GivesUpEntry memory.old memory.new ppn name.now set.old set.new }
{
    let place = place_of(&memory.master, ppn);
    let GivenUp { block, .. } = remove_entry(&mut memory.directories[place], name, set);
    let less = growth_at(memory, place, ppn);
    clear_left(&mut memory.table, block);
    memory.table.unbook(less);
}

/// Moves a file to another directory in memory, where its name is new, and gives it another protection; adds to `set`
/// the puts that will do the same on the disk. The words of its prime block are `words`.
fn move_to_directory(
    memory: &mut LiveMap,
    moved: Move,
    key: usize,
    supplies: EntryPrealloc,
    words: &Block,
    set: &mut ChangeSet,
)
    requires whole { IsWholeMemory memory.old.table.size (memory_of memory.old) }
    requires there { IsKeyOf (memory_of memory.old) moved.ppn moved.name key }
    requires apart { moved.to_ppn ≡ moved.ppn → ⊥ }
    requires may_arrive { MayArrive memory.old moved.to_ppn moved.to supplies.reserve supplies.keys }
    requires named { 0 < moved.to.name }
    requires protection { moved.protection < 512 }
    requires empty { set.old ≡ [] }
    ensures { (v : LiveVersion) × MovesAcross memory.old.table.size (memory_of memory.old) (memory_of memory.new)
        moved.ppn moved.name moved.to_ppn moved.to moved.protection key v words.now set.new }
{
    arrive(memory, moved.to_ppn, &moved.to, key, supplies, set);
    leave(memory, moved.ppn, &moved.name, set);
    move_version(
        &mut memory.versions,
        key,
        moved.to_ppn,
        &moved.to,
        moved.protection,
        words,
        set,
    );
    memory.table.changes(set);
}

/// Moves a file to another directory, where its name is new, and gives it another protection, after every refusal is
/// ruled out: reads the words of its prime block, then changes memory and collects the puts for that, then makes these
/// in one change.
///
/// # Errors
///
/// `Device` if the device failed, and `Failed` if the prime block is damaged or isn't this file's, which no honest disk
/// shows; the volume has failed then.
fn move_across<D: Disk>(
    disk: &mut D,
    memory: &mut LiveMap,
    failed: &mut bool,
    moved: Move,
    key: usize,
    supplies: EntryPrealloc,
) -> Result<(), CallError>
    // What the caller ensures.
    requires sound { IsSoundMemory (D.state disk.old) (memory_of memory.old) false }
    requires alive { failed.old ≡ false }
    requires there { IsKeyOf (memory_of memory.old) moved.ppn moved.name key }
    requires apart { moved.to_ppn ≡ moved.ppn → ⊥ }
    requires may_arrive { MayArrive memory.old moved.to_ppn moved.to supplies.reserve supplies.keys }
    requires named { 0 < moved.to.name }
    requires protection { moved.protection < 512 }
    requires unclaimed { claims (memory_of memory.old).pending (place_of moved.ppn moved.name) ≡ false }

    // What it does to memory and disk.
    ensures edited { IsEdited (D.state disk.old) (D.state disk.new) (memory_of memory.old) (memory_of memory.new)
        (λ f. files_moved f moved.ppn moved.name moved.to_ppn moved.to moved.protection) failed.new result }
    ensures moved { OnOk result ((v : LiveVersion) × (words : List ℕ) × (puts : List Put)
        × MovesAcross (D.state disk.old).size (memory_of memory.old) (memory_of memory.new)
        moved.ppn moved.name moved.to_ppn moved.to moved.protection key v words puts
        × ((D.state disk.new).honest → (D.state disk.old).contents v.at ≡ Some words)
        × IsFilePrime words moved.ppn moved.name v) }
    ensures pending { (memory_of memory.new).pending ≡ (memory_of memory.old).pending }
    ensures held { (k : ℕ) (v : LiveVersion) → slot (memory_of memory.old).live k ≡ Some v
        → (prime : PrimeValue) × (slot (memory_of memory.new).live k ≡ Some (record v { prime = prime })) }

    // Which refusal comes when, and what it leaves.
    ensures only { IfErr result (λ error. (error ≡ Device) ⊎ (error ≡ Failed)) }
    ensures given_up { IsErrOf result Failed → (D.state disk.new).honest → ⊥ }
    ensures answer { DeviceAnswer (D.state disk.old) (D.state disk.new) failed.old failed.new result }
{
    let _booked = memory.table.booked(); // every table is valid
    let at = prime_of(&memory.versions, key);
    let words = match read_prime(disk, at, &memory.versions, key, moved.ppn, &moved.name) {
        Ok(words) => words,
        Err(error) => {
            *failed = true; // nothing is known of the disk any more
            return Err(error);
        }
    };
    let mut set = ChangeSet::new();
    move_to_directory(memory, moved, key, supplies, &words, &mut set);
    commit_edit(disk, failed, &set)
}

impl<D: Disk> Volume<D> {
    /// Moves a file to another directory, as a part of `rename`.
    ///
    /// # Errors
    ///
    /// Those of `rename`.
    pub(crate) fn rename_across(&mut self, alloc: Global, moved: Move) -> Result<(), CallError>
        // What the caller ensures.
        requires apart { moved.to_ppn ≡ moved.ppn → ⊥ }
        requires named { 0 < moved.to.name }
        requires protection { moved.protection < 512 }
        requires unclaimed { claims self.old.map.pending (place_of moved.ppn moved.name) ≡ false }
        // What it does to the files, and what stays meanwhile.
        ensures files { ChangesFiles (D.state self.old.disk) (D.state self.new.disk) self.old.map
            (λ f. files_moved f moved.ppn moved.name moved.to_ppn moved.to moved.protection) result }

        // What it does to memory, and to the versions that are pinned or being written.
        ensures moved { OnOk result ((key : ℕ) × (v : LiveVersion) × (words : List ℕ) × (puts : List Put)
            × MovesAcross (D.state self.old.disk).size self.old.map self.new.map moved.ppn moved.name moved.to_ppn
            moved.to moved.protection key v words puts
            × ((D.state self.new.disk).honest → (D.state self.old.disk).contents v.at ≡ Some words)
            × IsFilePrime words moved.ppn moved.name v) }
        ensures pending { self.new.map.pending ≡ self.old.map.pending }
        ensures held { (k : ℕ) (v : LiveVersion) → slot self.old.map.live k ≡ Some v → 0 < v.readers
            → (prime : PrimeValue) × (slot self.new.map.live k ≡ Some (record v { prime = prime })) }

        // The new place has the prime block that the old one had; the old one has no prime block then, and each other
        // place keeps its own.
        ensures here { OnOk result (prime_at self.new.map moved.to_ppn moved.to
            ≡ prime_at self.old.map moved.ppn moved.name) }
        ensures gone { OnOk result (prime_at self.new.map moved.ppn moved.name ≡ None) }
        ensures primes { OnOk result ((q : ℕ) (n : FileName) → ((q ≡ moved.ppn) × (n ≡ moved.name) → ⊥)
            → ((q ≡ moved.to_ppn) × (n ≡ moved.to) → ⊥) → prime_at self.new.map q n ≡ prime_at self.old.map q n) }

        // Which error comes when, and what it leaves.
        ensures failed { self.old.failed ≡ true → IsErrOf result Failed }
        ensures broken { self.old.failed ≡ true → (self.new.disk ≡ self.old.disk) × (self.new.map ≡ self.old.map) }
        ensures given_up { IsErrOf result Failed → (self.old.failed ≡ true) ⊎ ((D.state self.new.disk).honest → ⊥) }
        ensures no_directory { self.old.failed ≡ false
            → (IsErrOf result (Refused NoDirectory)
            ↔ ((find nat_cmp moved.ppn self.old.map.known.master.entries ≡ None)
            ⊎ (HasFile self.old.map moved.ppn moved.name
            × (find nat_cmp moved.to_ppn self.old.map.known.master.entries ≡ None)))) }
        ensures not_found { self.old.failed ≡ false
            → (IsErrOf result (Refused NotFound) ↔ ((d : CurrentDirectory) × IsDirectoryOf self.old.map moved.ppn d
            × (find name_cmp moved.name d.chain.entries ≡ None))) }
        ensures exists { self.old.failed ≡ false
            → (IsErrOf result (Refused NameExists) ↔ (HasFile self.old.map moved.ppn moved.name
            × HasFile self.old.map moved.to_ppn moved.to)) }
        ensures no_room { self.old.failed ≡ false
            → (IsErrOf result (Refused NoRoom) ↔ (HasFile self.old.map moved.ppn moved.name
            × HasNoRoom (D.state self.old.disk).size self.old.map moved.to_ppn moved.to)) }
        ensures codes { (code : ErrorCode) → IsErrOf result (Refused code)
            → (code ≡ NoDirectory) ⊎ (code ≡ NotFound) ⊎ (code ≡ NameExists) ⊎ (code ≡ NoRoom) }
        ensures refused { (code : ErrorCode) → IsErrOf result (Refused code) → (self.new.disk ≡ self.old.disk)
            × (self.new.map ≡ self.old.map) }
        ensures memory { IsErrOf result NoMemory → (self.new.disk ≡ self.old.disk) × (self.new.map ≡ self.old.map) }

        ensures answer { DeviceAnswer (D.state self.old.disk) (D.state self.new.disk) self.old.failed self.new.failed
            result }
        ensures layout { self.new.layout ≡ self.old.layout }
    {
        if self.failed {
            return Err(CallError::Failed);
        }
        let key = match find_version(&self.map, moved.ppn, &moved.name) {
            Ok(key) => key,
            Err(error) => return Err(error),
        };
        let place = match find_target(&self.map, moved.to_ppn, &moved.to) {
            Ok(place) => place,
            Err(error) => return Err(error),
        };
        let Ok(supplies) = preallocate_entry(&self.map, alloc, place, moved.to) else {
            return Err(CallError::NoMemory);
        };
        move_across(
            &mut self.disk,
            &mut self.map,
            &mut self.failed,
            moved,
            key,
            supplies,
        )
    }
}
