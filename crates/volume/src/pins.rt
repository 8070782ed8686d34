//! Pins: how readers keep the version of a file, whatever its name has later.
ghost use Rattle.std.specs.Prelude.{◌≡◌, ◌↔◌, ◌⊎◌, ◌+◌, ◌-◌, ◌<◌, ◌^◌, ℕ, true, false, None, Some, IfOk, IfErr, IsErr};
ghost use Rattle.std.specs.Prelude.{IsErrOf, IsTrue, length};
ghost use Rattle.spec_image.specs.declared.code.ErrorCode.TheVariants.{NotFound};
ghost use Rattle.spec_image.specs.Common.{File, Files, get, times, cost_of_blocks};
ghost use Rattle.alloctab.specs.Common.{holds};
ghost use Rattle.volume.specs.Common.{blocks_reached, slot, IsWholeMemory, memory_of, IsKeyOf, IsNoFile, IsPinAnswer};
ghost use Rattle.volume.specs.Common.{prime_at, IsPlainRefusal, IsReadable, RestsAt};
ghost use Rattle.volume.specs.declared.error.CallError.TheVariants.{Refused, Failed};
ghost use Rattle.volume.specs.declared.handles.VersionHandle.TheVariants.{Pinned};
ghost use Rattle.volume.specs.declared.live.LiveVersion.{LiveVersion};

use crate::CallError;
use crate::handles::Pin;
use crate::live::{LiveMap, LiveVersion, pin_version, unpin_version};
use crate::query::directory_place;
use crate::volume::Volume;
use blockdisk::Disk;
use slab::Slab;
use spec_image::ErrorCode;
use words36::{FileName, Ppn};

/// Returns the key of the version that the file at a place has.
///
/// # Errors
///
/// `Refused(NoDirectory)` if there is no such directory, `Refused(NotFound)` if it has no such file.
pub(crate) fn find_version(map: &LiveMap, ppn: Ppn, name: &FileName) -> Result<usize, CallError>
    requires whole { IsWholeMemory map.now.table.size (memory_of map.now) }
    ensures found { IfOk result (IsKeyOf (memory_of map.now) ppn name.now) }
    ensures none { IfErr result (IsNoFile (memory_of map.now) ppn name.now) }
{
    let place = directory_place(&map.master, ppn)?;
    let directory = &map.directories[place];
    match directory.chain.find(name) {
        Some(i) => Ok(directory.keys.at(i)),
        None => Err(CallError::Refused(ErrorCode::NotFound)),
    }
}

/// Returns whether each of these versions may have one reader more than it has.
fn have_few_readers(versions: &Slab<LiveVersion>) -> bool
    ensures few { IsTrue result → (key : ℕ) (v : LiveVersion) → slot versions.now.slots key ≡ Some v
        → v.readers + 1 < 2 ^ 32 }
    ensures many { result ≡ false → ((key : ℕ) (v : LiveVersion) → slot versions.now.slots key ≡ Some v
        → v.readers + 1 < 2 ^ 32) → ⊥ }
{
    for (_, version) in versions.iter() {
        if version.readers == u32::MAX {
            return false;
        }
    }
    true
}

impl<D: Disk> Volume<D> {
    /// Returns whether a version may be pinned: each may have one reader more than it has. It may until one version has
    /// as many readers as 32 bits can count.
    pub fn can_pin(&self) -> bool
        ensures few { IsTrue result → (key : ℕ) (v : LiveVersion) → slot self.now.map.live key ≡ Some v
            → v.readers + 1 < 2 ^ 32 }
        ensures many { result ≡ false → ((key : ℕ) (v : LiveVersion) → slot self.now.map.live key ≡ Some v
            → v.readers + 1 < 2 ^ 32) → ⊥ }
    {
        have_few_readers(&self.map.versions)
    }

    /// Pins the version that a file has now, for one reader more. Its blocks and its words stay until `unpin`, whatever
    /// the name has later. It takes no memory and doesn't touch the disk.
    ///
    /// # Errors
    ///
    /// `Refused(NoDirectory)` if there is no such directory, `Refused(NotFound)` if it has no such file, `Failed` if
    /// the volume failed before.
    pub fn pin(&mut self, ppn: Ppn, name: &FileName) -> Result<Pin, CallError>
        requires few { (key : ℕ) (v : LiveVersion) → slot self.old.map.live key ≡ Some v → v.readers + 1 < 2 ^ 32 }
        ensures value { (D.state self.new.disk).honest → self.old.failed ≡ false → (files : Files File)
            → RestsAt (D.state self.old.disk) files
            → IsPinAnswer (D.state self.old.disk).contents self.new.map.live name.now result (get files ppn) }

        // It is the version that memory has for the place.
        ensures at { IfOk result (λ pin. (v : LiveVersion) × (slot self.old.map.live pin.key ≡ Some v)
            × (v.is_current ≡ true) × (prime_at self.old.map ppn name.now ≡ Some v.at)) }
        // This version has one reader more, and nothing else changes.
        ensures pinned { IfOk result (λ pin. (v : LiveVersion) × (slot self.old.map.live pin.key ≡ Some v)
            × (slot self.new.map.live pin.key ≡ Some (record v { readers = v.readers + 1 }))) }
        // Its words can be read.
        ensures readable { IfOk result (λ pin. IsReadable self.new.map (Pinned pin)) }
        ensures others { IfOk result (λ pin. (k : ℕ) → (k ≡ pin.key → ⊥)
            → slot self.new.map.live k ≡ slot self.old.map.live k) }
        ensures map { self.new.map ≡ record self.old.map { live = self.new.map.live } }
        ensures same { IsErr result → self.new.map ≡ self.old.map }
        ensures untouched { (self.new.disk ≡ self.old.disk) × (self.new.failed ≡ self.old.failed) }
        ensures layout { self.new.layout ≡ self.old.layout }
        // If it is refused, memory has no file for the place.
        ensures absent { IsErr result → self.old.failed ≡ false → prime_at self.old.map ppn name.now ≡ None }
        ensures failed { IsErrOf result Failed ↔ IsTrue self.old.failed }
        ensures only { IfErr result IsPlainRefusal }
    {
        if self.failed {
            return Err(CallError::Failed);
        }
        let key = find_version(&self.map, ppn, name)?;
        pin_version(&mut self.map, key);
        Ok(Pin { key })
    }

    /// Unpins a version for one reader. A version that no file has any more is removed with its last reader: those of
    /// its blocks that no other version has are free then, and what it cost is unbooked. It takes no memory and doesn't
    /// touch the disk.
    pub fn unpin(&mut self, pin: Pin)
        requires live { (v : LiveVersion) × (slot self.old.map.live pin.key ≡ Some v) × (0 < v.readers) }
        ensures stays { (v : LiveVersion) → slot self.old.map.live pin.key ≡ Some v → (v.is_current ≡ true)
            ⊎ (1 < v.readers)
            → (slot self.new.map.live pin.key ≡ Some (record v { readers = v.readers - 1 }))
            × (self.new.map.known.table ≡ self.old.map.known.table) }
        ensures gone { (v : LiveVersion) → slot self.old.map.live pin.key ≡ Some v → v.is_current ≡ false
            → v.readers ≡ 1
            → (slot self.new.map.live pin.key ≡ None)
            × ((n : ℕ) → holds self.new.map.known.table n + times n (blocks_reached v.at v.version)
            ≡ holds self.old.map.known.table n)
            × (self.new.map.known.table.booked + cost_of_blocks (length v.version.blocks)
            ≡ self.old.map.known.table.booked) }
        ensures others { (k : ℕ) → (k ≡ pin.key → ⊥) → slot self.new.map.live k ≡ slot self.old.map.live k }
        ensures pending { self.new.map.pending ≡ self.old.map.pending }
        ensures keys { self.new.map.keys ≡ self.old.map.keys }
        ensures known { self.new.map.known ≡ record self.old.map.known { table = self.new.map.known.table } }
        ensures untouched { (self.new.disk ≡ self.old.disk) × (self.new.failed ≡ self.old.failed) }
        ensures layout { self.new.layout ≡ self.old.layout }
    {
        unpin_version(&mut self.map, pin.key);
    }
}
