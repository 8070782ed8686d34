//! The change of a quota.
ghost use Rattle.std.specs.Prelude.{◌≡◌, ◌↔◌, ◌<◌, ◌≤◌, [], ℕ, false, true, None, OnOk, OnErr, IsErrOf};
ghost use Rattle.std.specs.Ordering.{nat_cmp};
ghost use Rattle.std.specs.FinMap.Entries.{find};
ghost use Rattle.words36.specs.declared.names.FileName.{FileName};
ghost use Rattle.spec_image.specs.declared.code.ErrorCode.{ErrorCode};
ghost use Rattle.spec_image.specs.declared.code.ErrorCode.TheVariants.{NoDirectory};
ghost use Rattle.spec_image.specs.Common.{layout_number, files_limited, times, space_start, quota_limit};
ghost use Rattle.directory.specs.Common.{StandsAt};
ghost use Rattle.volume.specs.Common.{IsDirectoryOf, IsLimited, LimitsDirectory, ChangesFiles, DeviceAnswer};
ghost use Rattle.volume.specs.Common.{CurrentDirectory, memory_of, prime_at};
ghost use Rattle.volume.specs.declared.error.CallError.TheVariants.{Refused, Device, Failed, NoMemory};

use crate::CallError;
use crate::live::LiveMap;
use crate::query::directory_place;
use crate::transaction::commit_edit;
use crate::volume::Volume;
use blockdisk::Disk;
use changeset::ChangeSet;
use directory::MasterEntry;
use words36::Ppn;

/// Gives the directory at a place in memory another quota, and adds to `set` the puts that will do the same on the
/// disk.
fn limit_directory(memory: &mut LiveMap, ppn: Ppn, quota: u32, place: usize, set: &mut ChangeSet)
    requires fits { quota < 262144 }
    requires there { (word : ℕ × ℕ) × StandsAt nat_cmp (memory_of memory.old).known.master.entries ppn word place }
    requires empty { set.old ≡ [] }
    ensures { LimitsDirectory (memory_of memory.old) (memory_of memory.new) ppn quota set.new }
{
    let entry = memory.master.entries()[place];
    let limited = MasterEntry {
        ppn: entry.ppn,
        protection: entry.protection,
        quota,
        first: entry.first,
    };
    match memory.master.insert(limited, None, set) {
        Ok(()) => {}
        Err(_) => unreachable!(), // the entry is there, and takes no memory
    }
}

impl<D: Disk> Volume<D> {
    /// Gives a directory another quota, in blocks, or 0 for no limit, by one change of the master directory. It may be
    /// below what the directory is charged for. A crash finds the files from before, or those with the quota. Neither
    /// the versions in use nor the other directories change. It takes no memory and reads nothing. The layout must have
    /// quotas: layout 1 has only 0.
    ///
    /// # Errors
    ///
    /// `Failed` if the volume failed before, `Refused(NoDirectory)` if there is no such directory. Nothing changes
    /// then. `Device` if the device failed, and the volume with it: a later start finds the files with the quota, or
    /// all as before.
    pub fn set_quota(&mut self, ppn: Ppn, quota: u32) -> Result<(), CallError>
        requires fits { quota < quota_limit (layout_number self.old.layout) }
        // What it does to the files, and to memory at Ok.
        ensures files { ChangesFiles (D.state self.old.disk) (D.state self.new.disk) self.old.map
            (λ f. files_limited f ppn quota) result }
        ensures limited { OnOk result (IsLimited self.old.map self.new.map ppn quota) }
        // The versions in use stay, and no block of the free space changes, except those of the master directory; if
        // the device failed, this holds for closed blocks.
        ensures live { self.new.map.live ≡ self.old.map.live }
        ensures pending { self.new.map.pending ≡ self.old.map.pending }
        ensures kept { (D.state self.new.disk).honest → (n : ℕ) → space_start (D.state self.old.disk).size ≤ n
            → times n self.old.map.known.master.blocks ≡ 0
            → (IsErrOf result Device → (D.state self.old.disk).is_open n ≡ false)
            → (D.state self.new.disk).contents n ≡ (D.state self.old.disk).contents n }
        // Each directory is there with what it has, and each name keeps its prime block.
        ensures directories { (owner : ℕ) (d : CurrentDirectory) → IsDirectoryOf self.old.map owner d
            → IsDirectoryOf self.new.map owner d }
        ensures primes { (owner : ℕ) (name : FileName)
            → prime_at self.new.map owner name ≡ prime_at self.old.map owner name }

        // Which error comes when, and what it leaves.
        ensures refused { (IsErrOf result Device → ⊥)
            → OnErr result ((self.new.disk ≡ self.old.disk) × (self.new.map ≡ self.old.map)) }
        ensures failed { self.old.failed ≡ true → IsErrOf result Failed }
        ensures given_up { IsErrOf result Failed → self.old.failed ≡ true }
        ensures no_directory { self.old.failed ≡ false
            → (IsErrOf result (Refused NoDirectory) ↔ (find nat_cmp ppn self.old.map.known.master.entries ≡ None)) }
        ensures codes { (code : ErrorCode) → IsErrOf result (Refused code) → code ≡ NoDirectory }
        ensures memory { IsErrOf result NoMemory → ⊥ }
        ensures answer { DeviceAnswer (D.state self.old.disk) (D.state self.new.disk) self.old.failed self.new.failed
            result }
        ensures layout { self.new.layout ≡ self.old.layout }
    {
        if self.failed {
            return Err(CallError::Failed);
        }
        let place = match directory_place(&self.map.master, ppn) {
            Ok(place) => place,
            Err(error) => return Err(error),
        };
        let mut set = ChangeSet::new();
        limit_directory(&mut self.map, ppn, quota, place, &mut set);
        commit_edit(&mut self.disk, &mut self.failed, &set)
    }
}
