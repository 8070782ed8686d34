//! The renaming of files, within a directory and across two.
ghost use Rattle.std.specs.Prelude.{◌≡◌, ◌↔◌, ◌⊎◌, ◌<◌, ℕ, List, true, false, Some, None, IsErrOf, OnOk};
ghost use Rattle.std.specs.Ordering.{nat_cmp};
ghost use Rattle.std.specs.FinMap.Entries.{find};
ghost use Rattle.words36.specs.declared.names.FileName.{FileName};
ghost use Rattle.spec_image.specs.declared.code.ErrorCode.{ErrorCode};
ghost use Rattle.spec_image.specs.declared.code.ErrorCode.TheVariants.{NameExists, NoDirectory, NoRoom, NotFound};
ghost use Rattle.spec_image.specs.declared.put.Put.{Put};
ghost use Rattle.spec_image.specs.Common.{name_cmp, place_of};
ghost use Rattle.retrieval.specs.declared.prime.Prime.{Prime as PrimeValue};
ghost use Rattle.volume.specs.Common.{IsDirectoryOf, claims, ChangesFiles, DeviceAnswer, CurrentDirectory, slot};
ghost use Rattle.volume.specs.Common.{files_moved, HasFile, HasNoRoom, MovesWithin, MovesAcross, prime_at, IsFilePrime};
ghost use Rattle.volume.specs.declared.error.CallError.TheVariants.{Refused, Failed, NoMemory};
ghost use Rattle.volume.specs.declared.live.LiveVersion.{LiveVersion};

use crate::CallError;
use crate::moves::Move;
use crate::volume::Volume;
use blockdisk::Disk;
use std::alloc::Global;
use words36::{FileName, Ppn};

impl<D: Disk> Volume<D> {
    /// Gives a file another name, in its directory `ppn` or in that of `to_ppn`, or the same place, and another
    /// protection, by one change of the directories, the prime block and the allocation table. A crash finds the files
    /// from before, or those with this file changed. Its version stays, with its blocks and everything else that its
    /// prime block says, and stays pinned for whoever reads it. No block is taken except one if the other directory
    /// grows. Within one directory it takes no memory.
    ///
    /// # Errors
    ///
    /// `Failed` if the volume failed before. `Refused` with `NoDirectory` if there is no such directory, with
    /// `NotFound` if it has no such file; then with `NoDirectory` if the directory that it moves to doesn't exist, with
    /// `NameExists` if the new place is another one and has a file already, and with `NoRoom` if the other directory
    /// costs a block more and there is no room for it; `NoMemory` if there is no memory for it. Nothing changes then.
    /// `Device` if the device failed, and the volume with it: a later start finds the files with this file changed, or
    /// those from before. `Failed`, and the volume with it, if the file's prime block is damaged or isn't that of the
    /// file, which no honest disk shows.
    pub fn rename(
        &mut self,
        alloc: Global,
        ppn: Ppn,
        name: &FileName,
        to_ppn: Ppn,
        to: &FileName,
        protection: u16,
    ) -> Result<(), CallError>
        requires named { 0 < to.now.name }
        requires protection { protection < 512 }
        // No version is being written for its place, since it could have blocks of the file; claims ensure that.
        requires unclaimed { claims self.old.map.pending (place_of ppn name.now) ≡ false }
        // What it does to the files, and what stays meanwhile.
        ensures files { ChangesFiles (D.state self.old.disk) (D.state self.new.disk) self.old.map
            (λ f. files_moved f ppn name.now to_ppn to.now protection) result }

        // What it does to memory, and what it puts, if the prime block had these words. On every disk they are those of
        // the prime block of this file.
        ensures within { to_ppn ≡ ppn → OnOk result ((key : ℕ) × (v : LiveVersion) × (words : List ℕ)
            × (puts : List Put) × MovesWithin (D.state self.old.disk).size self.old.map self.new.map ppn name.now
            to.now protection key v words puts
            × ((D.state self.new.disk).honest → (D.state self.old.disk).contents v.at ≡ Some words)
            × IsFilePrime words ppn name.now v) }
        ensures across { (to_ppn ≡ ppn → ⊥) → OnOk result ((key : ℕ) × (v : LiveVersion) × (words : List ℕ)
            × (puts : List Put) × MovesAcross (D.state self.old.disk).size self.old.map self.new.map ppn name.now
            to_ppn to.now protection key v words puts
            × ((D.state self.new.disk).honest → (D.state self.old.disk).contents v.at ≡ Some words)
            × IsFilePrime words ppn name.now v) }
        // All versions in use stay, whatever the answer. Their blocks stay too, unless the device failed, since they
        // may have been open then.
        ensures pending { self.new.map.pending ≡ self.old.map.pending }
        ensures held { (k : ℕ) (v : LiveVersion) → slot self.old.map.live k ≡ Some v → 0 < v.readers
            → (prime : PrimeValue) × (slot self.new.map.live k ≡ Some (record v { prime = prime })) }
        // The new place has the prime block that the old one had; the old one has no prime block then, and each other
        // place keeps its own.
        ensures here { OnOk result (prime_at self.new.map to_ppn to.now ≡ prime_at self.old.map ppn name.now) }
        ensures gone { OnOk result (((to_ppn ≡ ppn) × (to.now ≡ name.now) → ⊥)
            → prime_at self.new.map ppn name.now ≡ None) }
        ensures primes { OnOk result ((q : ℕ) (n : FileName) → ((q ≡ ppn) × (n ≡ name.now) → ⊥)
            → ((q ≡ to_ppn) × (n ≡ to.now) → ⊥) → prime_at self.new.map q n ≡ prime_at self.old.map q n) }

        // Which error comes when, and what it leaves.
        ensures failed { self.old.failed ≡ true → IsErrOf result Failed }
        ensures broken { self.old.failed ≡ true → (self.new.disk ≡ self.old.disk) × (self.new.map ≡ self.old.map) }
        ensures given_up { IsErrOf result Failed → (self.old.failed ≡ true) ⊎ ((D.state self.new.disk).honest → ⊥) }
        ensures no_directory { self.old.failed ≡ false
            → (IsErrOf result (Refused NoDirectory) ↔ ((find nat_cmp ppn self.old.map.known.master.entries ≡ None)
            ⊎ (HasFile self.old.map ppn name.now
            × (find nat_cmp to_ppn self.old.map.known.master.entries ≡ None)))) }
        ensures not_found { self.old.failed ≡ false
            → (IsErrOf result (Refused NotFound) ↔ ((d : CurrentDirectory) × IsDirectoryOf self.old.map ppn d
            × (find name_cmp name.now d.chain.entries ≡ None))) }
        ensures exists { self.old.failed ≡ false
            → (IsErrOf result (Refused NameExists) ↔ (HasFile self.old.map ppn name.now
            × ((to_ppn ≡ ppn) × (to.now ≡ name.now) → ⊥) × HasFile self.old.map to_ppn to.now)) }
        ensures no_room { self.old.failed ≡ false
            → (IsErrOf result (Refused NoRoom) ↔ (HasFile self.old.map ppn name.now × (to_ppn ≡ ppn → ⊥)
            × HasNoRoom (D.state self.old.disk).size self.old.map to_ppn to.now)) }
        ensures codes { (code : ErrorCode) → IsErrOf result (Refused code)
            → (code ≡ NoDirectory) ⊎ (code ≡ NotFound) ⊎ (code ≡ NameExists) ⊎ (code ≡ NoRoom) }
        ensures refused { (code : ErrorCode) → IsErrOf result (Refused code) → (self.new.disk ≡ self.old.disk)
            × (self.new.map ≡ self.old.map) }
        ensures memory { IsErrOf result NoMemory → (to_ppn ≡ ppn → ⊥) × (self.new.disk ≡ self.old.disk)
            × (self.new.map ≡ self.old.map) }
        ensures answer { DeviceAnswer (D.state self.old.disk) (D.state self.new.disk) self.old.failed self.new.failed
            result }
        ensures layout { self.new.layout ≡ self.old.layout }
    {
        let moved = Move {
            ppn,
            name: *name,
            to_ppn,
            to: *to,
            protection,
        };
        if to_ppn == ppn {
            return self.rename_within(moved);
        }
        self.rename_across(alloc, moved)
    }
}
