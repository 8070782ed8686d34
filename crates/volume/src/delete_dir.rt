//! The deletion of empty directories.
ghost use Rattle.std.specs.Prelude.{◌≡◌, ◌↔◌, ◌⊎◌, ◌<◌, ◌≤◌, [], ℕ, true, false, None, IfOk, OnOk, OnErr, IfErr};
ghost use Rattle.std.specs.Prelude.{IsErrOf};
ghost use Rattle.std.specs.Ordering.{nat_cmp};
ghost use Rattle.std.specs.FinMap.Entries.{find};
ghost use Rattle.words36.specs.declared.names.FileName.{FileName};
ghost use Rattle.spec_image.specs.declared.code.ErrorCode.{ErrorCode};
ghost use Rattle.spec_image.specs.declared.code.ErrorCode.TheVariants.{NoDirectory, NotEmpty};
ghost use Rattle.spec_image.specs.Common.{times, space_start};
ghost use Rattle.volume.specs.Common.{IsDirectoryOf, ChangesFiles, DeviceAnswer, CurrentDirectory, IsWholeMemory};
ghost use Rattle.volume.specs.Common.{memory_of, prime_at, directory_removed, IsEmptyAt, HasEntries, RemovesDirectory};
ghost use Rattle.volume.specs.declared.error.CallError.TheVariants.{Refused, Device, Failed, NoMemory};

use crate::CallError;
use crate::begin::creations;
use crate::blocks::clear_all;
use crate::delete::clear_left;
use crate::live::LiveMap;
use crate::query::directory_place;
use crate::transaction::commit_edit;
use crate::volume::Volume;
use blockdisk::Disk;
use changeset::ChangeSet;
use spec_image::ErrorCode;
use words36::Ppn;

/// Returns the place of an empty directory in the master directory, counted from 0.
///
/// # Errors
///
/// `Refused` with `NoDirectory` if there is no such directory, and with `NotEmpty` if it has an entry or a file is
/// being created in it.
fn empty_place(memory: &LiveMap, ppn: Ppn) -> Result<usize, CallError>
    requires whole { IsWholeMemory memory.now.table.size (memory_of memory.now) }
    ensures found { IfOk result (IsEmptyAt (memory_of memory.now) ppn) }
    ensures absent { IsErrOf result (Refused NoDirectory)
        ↔ (find nat_cmp ppn (memory_of memory.now).known.master.entries ≡ None) }
    ensures filled { IsErrOf result (Refused NotEmpty) ↔ HasEntries (memory_of memory.now) ppn }
    ensures only { IfErr result (λ error. (error ≡ Refused NoDirectory) ⊎ (error ≡ Refused NotEmpty)) }
{
    let place = match directory_place(&memory.master, ppn) {
        Ok(place) => place,
        Err(error) => return Err(error),
    };
    let entries = memory.directories[place].chain.len();
    let created = creations(&memory.pending, ppn);
    if entries > 0 || created > 0 {
        return Err(CallError::Refused(ErrorCode::NotEmpty));
    }
    Ok(place)
}

/// Deletes the empty directory at a place in memory, and adds to `set` the puts that will delete it on the disk.
fn remove_directory(memory: &mut LiveMap, ppn: Ppn, place: usize, set: &mut ChangeSet)
    requires whole { IsWholeMemory memory.old.table.size (memory_of memory.old) }
    requires there { IsEmptyAt (memory_of memory.old) ppn place }
    requires empty { set.old ≡ [] }
    ensures { RemovesDirectory memory.old.table.size (memory_of memory.old) (memory_of memory.new) ppn set.new }
{
    let _booked = memory.table.booked(); // every table is valid
    let left = memory.master.remove(&ppn, set);
    let _blocks = memory.master.blocks(); // every chain is valid
    let directory = memory.directories.swap_remove(place);
    clear_left(&mut memory.table, left);
    clear_all(&mut memory.table, directory.chain.blocks());
    memory.table.unbook(1 + u32::from(left.is_some()));
    memory.table.changes(set);
}

impl<D: Disk> Volume<D> {
    /// Deletes an empty directory, by one change of the master directory and the allocation table. A crash finds the
    /// files from before, or those without the directory. Neither the versions in use nor the other directories
    /// change. It takes no memory and reads nothing.
    ///
    /// # Errors
    ///
    /// `Failed` if the volume failed before. `Refused` with `NoDirectory` if there is no such directory, and with
    /// `NotEmpty` if it has an entry or a file is being created in it. Nothing changes then. `Device` if the device
    /// failed, and the volume with it: a later start finds the files without the directory, or all as before.
    pub fn delete_dir(&mut self, ppn: Ppn) -> Result<(), CallError>
        // What it does to the files, and what stays meanwhile.
        ensures files { ChangesFiles (D.state self.old.disk) (D.state self.new.disk) self.old.map
            (λ f. directory_removed f ppn) result }
        // The versions in use stay, and no block of the free space changes, except those of the master directory; if
        // the device failed, this holds for closed blocks.
        ensures live { self.new.map.live ≡ self.old.map.live }
        ensures pending { self.new.map.pending ≡ self.old.map.pending }
        ensures kept { (D.state self.new.disk).honest → (n : ℕ) → space_start (D.state self.old.disk).size ≤ n
            → times n self.old.map.known.master.blocks ≡ 0
            → (IsErrOf result Device → (D.state self.old.disk).is_open n ≡ false)
            → (D.state self.new.disk).contents n ≡ (D.state self.old.disk).contents n }
        // Each other directory is there with what it has, at whatever place, and this one is gone.
        ensures directories { (owner : ℕ) (d : CurrentDirectory) → IsDirectoryOf self.old.map owner d
            → (owner ≡ ppn → ⊥) → IsDirectoryOf self.new.map owner d }
        ensures gone { OnOk result (find nat_cmp ppn self.new.map.known.master.entries ≡ None) }
        // Each name has the prime block that it had.
        ensures primes { (owner : ℕ) (name : FileName)
            → prime_at self.new.map owner name ≡ prime_at self.old.map owner name }

        // Which error comes when, and what it leaves.
        ensures refused { (IsErrOf result Device → ⊥)
            → OnErr result ((self.new.disk ≡ self.old.disk) × (self.new.map ≡ self.old.map)) }
        ensures failed { self.old.failed ≡ true → IsErrOf result Failed }
        ensures given_up { IsErrOf result Failed → self.old.failed ≡ true }
        ensures no_directory { self.old.failed ≡ false
            → (IsErrOf result (Refused NoDirectory) ↔ (find nat_cmp ppn self.old.map.known.master.entries ≡ None)) }
        ensures not_empty { self.old.failed ≡ false
            → (IsErrOf result (Refused NotEmpty) ↔ HasEntries self.old.map ppn) }
        ensures codes { (code : ErrorCode) → IsErrOf result (Refused code)
            → (code ≡ NoDirectory) ⊎ (code ≡ NotEmpty) }
        ensures memory { IsErrOf result NoMemory → ⊥ }
        ensures answer { DeviceAnswer (D.state self.old.disk) (D.state self.new.disk) self.old.failed self.new.failed
            result }
        ensures layout { self.new.layout ≡ self.old.layout }
    {
        if self.failed {
            return Err(CallError::Failed);
        }
        let place = match empty_place(&self.map, ppn) {
            Ok(place) => place,
            Err(error) => return Err(error),
        };
        let mut set = ChangeSet::new();
        remove_directory(&mut self.map, ppn, place, &mut set);
        commit_edit(&mut self.disk, &mut self.failed, &set)
    }
}
