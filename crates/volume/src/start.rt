//! The start of a volume: its making, its recovery and its opening.
ghost use Rattle.std.specs.Prelude.{◌≡◌, ◌⊎◌, ◌↔◌, [], false, OnOk, IfOk, IfErr, IfSome, IsErrOf};
ghost use Rattle.std.specs.List.{AllByRecursion};
ghost use Rattle.blockdisk.specs.Common.{Near, NoneOpen, Still, Modifies, LeavesOnly};
ghost use Rattle.changeset.specs.Common.{IsRecovered, SyncsFirst, AtRest};
ghost use Rattle.spec_image.specs.Common.{File, Files, StandsOn, layout_number, pack_in, pack_of, IsGateOpen, empty};
ghost use Rattle.spec_image.specs.Common.{IsVolumeSize, Stands};
ghost use Rattle.volume.specs.Common.{known_of, DiskAnswer, IsBare, IsInitBlock, IsWholeMap, IsBooked, IsFirstRead};
ghost use Rattle.volume.specs.Common.{NamesInSpace, Refuses, IsAtRest, RestsAt, StandsLike, StandsLikeBefore};
ghost use Rattle.volume.specs.declared.error.VolumeError.TheVariants.{NotVolume, Device};

use crate::VolumeError;
use crate::fresh::init_layout;
use crate::live::keep;
use crate::open::read_map;
use crate::volume::{LoadedMap, Volume};
use blockdisk::{Disk, NoMemory};
use changeset::{LogError, recover};
use spec_image::layout::Layout;
use std::alloc::Global;

/// Recovers a disk and reads all that it reaches, each block once, and its allocation table.
///
/// # Errors
///
/// `BadLog` if the gate is open and the log is bad, before anything of the homes is checked; otherwise the refusal for
/// a fault that the disk has, `Device` if the device failed, `NoMemory` if there was not enough memory. A disk that is
/// refused has at most been recovered.
pub fn read_volume<D: Disk>(alloc: Global, disk: &mut D) -> Result<LoadedMap, VolumeError>
    // A crash at any moment leaves what stands for whatever some contents stood for that a crash could leave before;
    // after the first sync, for whatever the contents before the call stood for. If that sync failed, nothing else was
    // done.
    ensures crash { (D.state disk.new).honest
        → LeavesOnly (D.state disk.old) (D.state disk.new) (StandsLikeBefore (D.state disk.old)) }
    ensures synced { (D.state disk.new).honest
        → SyncsFirst D.state disk.old disk.new (IsErrOf result Device) (StandsLike (D.state disk.old)) }

    // At Ok the disk was only recovered, it stood for some files, and it stands for the same files in the same layout;
    // and the map is the disk's.
    ensures recovered { (D.state disk.new).honest
        → IfOk result (λ map. IsRecovered (D.state disk.old).size (D.state disk.old).contents
        (D.state disk.new).contents) }
    ensures stood { (D.state disk.new).honest
        → IfOk result (λ map. (files : Files File)
        × StandsOn (pack_of (D.state disk.new)) (D.state disk.old).contents files × RestsAt (D.state disk.new) files) }
    ensures rest { (D.state disk.new).honest → IfOk result (λ map. IsAtRest (D.state disk.new) (known_of map)) }
    ensures layout { (D.state disk.new).honest
        → IfOk result (λ map. layout_number map.layout ≡ (pack_of (D.state disk.new)).layout) }
    ensures files { (D.state disk.new).honest → (files : Files File)
        → Stands (D.state disk.old).size (D.state disk.old).contents files
        → IfOk result (λ map. RestsAt (D.state disk.new) files) }
    ensures settled { (D.state disk.new).honest → IfOk result (λ map. NoneOpen (D.state disk.new)) }
    ensures whole { IfOk result (λ map. IsWholeMap (D.state disk.old).size (known_of map)) }
    ensures booked { IfOk result (λ map. IsBooked (D.state disk.old).size (known_of map)) }

    // A refusal names a fault that the disk has; unless it is `Device`, the disk was recovered, or nothing was written.
    ensures refused { (D.state disk.new).honest
        → IfErr result (Refuses (D.state disk.old).size (D.state disk.new).contents) }
    ensures kept { (D.state disk.new).honest → (IsErrOf result Device → ⊥)
        → Still (D.state disk.old) (D.state disk.new)
        ⊎ IsRecovered (D.state disk.old).size (D.state disk.old).contents (D.state disk.new).contents }

    // On every disk.
    ensures named { IfErr result (NamesInSpace (D.state disk.old).size) }
    ensures disk { DiskAnswer (D.state disk.old) (D.state disk.new) (IsErrOf result Device) }
{
    match recover(disk) {
        Ok(()) => read_map(alloc, disk),
        Err(LogError::BadLog) => Err(VolumeError::BadLog),
        Err(LogError::Device) => Err(VolumeError::Device),
        Err(LogError::TooMany) => unreachable!(), // a recovery never returns it
    }
}

impl<D: Disk> Volume<D> {
    /// Makes an empty volume on a disk, in layout 1, as `init_layout` does.
    ///
    /// # Errors
    ///
    /// Those of `init_layout`.
    pub fn init(disk: &mut D) -> Result<(), VolumeError>
        ensures stands { (D.state disk.new).honest
            → OnOk result (AtRest (D.state disk.new) (λ c. StandsOn (pack_in 1 (D.state disk.old).size) c empty)) }
        ensures settled { (D.state disk.new).honest → OnOk result (NoneOpen (D.state disk.new)) }
        ensures shut { (D.state disk.new).honest
            → OnOk result (IsGateOpen (D.state disk.old).size (D.state disk.new).contents → ⊥) }
        ensures bare { (D.state disk.new).honest
            → OnOk result (IsBare 1 (D.state disk.old).size (D.state disk.new).contents) }
        ensures modified { (D.state disk.new).honest
            → OnOk result (Modifies (IsInitBlock (D.state disk.old).size) (D.state disk.old) (D.state disk.new)) }
        ensures near { (D.state disk.new).honest
            → LeavesOnly (D.state disk.old) (D.state disk.new)
            (Near (IsInitBlock (D.state disk.old).size) (D.state disk.old)) }
        ensures range { IsErrOf result NotVolume ↔ (IsVolumeSize (D.state disk.old).size → ⊥) }
        ensures untouched { IsErrOf result NotVolume → disk.new ≡ disk.old }
        ensures only { IfErr result (λ error. (error ≡ NotVolume) ⊎ (error ≡ Device)) }
        ensures disk { DiskAnswer (D.state disk.old) (D.state disk.new) (IsErrOf result Device) }
    {
        init_layout(disk, Layout::One)
    }

    /// Makes an empty volume on a disk, in a layout: writes the fixed regions and the first block of the master
    /// directory, and nothing else. It isn't safe if it is interrupted.
    ///
    /// # Errors
    ///
    /// `NotVolume` if the disk doesn't have 64 to 131072 blocks, with nothing written; `Device` if the device failed.
    pub fn init_layout(disk: &mut D, layout: Layout) -> Result<(), VolumeError>
        ensures stands { (D.state disk.new).honest
            → OnOk result (AtRest (D.state disk.new)
            (λ c. StandsOn (pack_in (layout_number layout) (D.state disk.old).size) c empty)) }
        ensures settled { (D.state disk.new).honest → OnOk result (NoneOpen (D.state disk.new)) }
        ensures shut { (D.state disk.new).honest
            → OnOk result (IsGateOpen (D.state disk.old).size (D.state disk.new).contents → ⊥) }
        ensures bare { (D.state disk.new).honest
            → OnOk result (IsBare (layout_number layout) (D.state disk.old).size (D.state disk.new).contents) }
        ensures modified { (D.state disk.new).honest
            → OnOk result (Modifies (IsInitBlock (D.state disk.old).size) (D.state disk.old) (D.state disk.new)) }
        ensures near { (D.state disk.new).honest
            → LeavesOnly (D.state disk.old) (D.state disk.new)
            (Near (IsInitBlock (D.state disk.old).size) (D.state disk.old)) }
        ensures range { IsErrOf result NotVolume ↔ (IsVolumeSize (D.state disk.old).size → ⊥) }
        ensures untouched { IsErrOf result NotVolume → disk.new ≡ disk.old }
        ensures only { IfErr result (λ error. (error ≡ NotVolume) ⊎ (error ≡ Device)) }
        ensures disk { DiskAnswer (D.state disk.old) (D.state disk.new) (IsErrOf result Device) }
    {
        init_layout(disk, layout)
    }

    /// Opens the volume on a disk: recovers it first, and then reads every block that it reaches. It opens only if the
    /// disk stands for some files, and writes nothing except for the recovery.
    ///
    /// # Errors
    ///
    /// The refusal, with the disk handed back: `NotVolume`, `BadHome`, `BadLog`, `BadDirectory`, `BadRetrieval`,
    /// `BlockTwice`, `BadData` and `TableWrong` only if the disk has that fault, the last only if it has no other;
    /// `Device` if the device failed, `NoMemory` if there was not enough memory.
    pub fn open(alloc: Global, disk: D) -> Result<Volume<D>, (VolumeError, D)>
        ensures serves { IfOk result (λ volume. volume.failed ≡ false) }
        // Nobody reads or writes a version yet.
        ensures unread { IfOk result (λ volume. AllByRecursion (λ o. IfSome o IsFirstRead) volume.map.live) }
        ensures unwritten { IfOk result (λ volume. volume.map.pending ≡ []) }
        ensures recovered { IfOk result (λ volume. (D.state volume.disk).honest
            → IsRecovered (D.state disk).size (D.state disk).contents (D.state volume.disk).contents) }
        ensures stood { IfOk result (λ volume. (D.state volume.disk).honest → (files : Files File)
            × StandsOn (pack_of (D.state volume.disk)) (D.state disk).contents files
            × RestsAt (D.state volume.disk) files) }
        ensures files { (files : Files File) → Stands (D.state disk).size (D.state disk).contents files
            → IfOk result (λ volume. (D.state volume.disk).honest → RestsAt (D.state volume.disk) files) }
        ensures settled { IfOk result (λ volume. (D.state volume.disk).honest → NoneOpen (D.state volume.disk)) }
        ensures crash { IfOk result (λ volume. (D.state volume.disk).honest
            → LeavesOnly (D.state disk) (D.state volume.disk) (StandsLikeBefore (D.state disk))) }
        ensures synced { IfOk result (λ volume. (D.state volume.disk).honest
            → SyncsFirst D.state disk volume.disk ⊥ (StandsLike (D.state disk))) }

        // If it refuses.
        ensures refused { IfErr result (λ refused. (D.state refused.1).honest
            → Refuses (D.state disk).size (D.state refused.1).contents refused.0) }
        // On every disk a block that it names lies in the free space, or is one of the table.
        ensures named { IfErr result (λ refused. NamesInSpace (D.state disk).size refused.0) }
        ensures kept { IfErr result (λ refused. (D.state refused.1).honest → (refused.0 ≡ Device → ⊥)
            → Still (D.state disk) (D.state refused.1)
            ⊎ IsRecovered (D.state disk).size (D.state disk).contents (D.state refused.1).contents) }
        ensures crash_refused { IfErr result (λ refused. (D.state refused.1).honest
            → LeavesOnly (D.state disk) (D.state refused.1) (StandsLikeBefore (D.state disk))) }
        ensures synced_refused { IfErr result (λ refused. (D.state refused.1).honest
            → SyncsFirst D.state disk refused.1 (refused.0 ≡ Device) (StandsLike (D.state disk))) }

        ensures disk { IfOk result (λ volume. DiskAnswer (D.state disk) (D.state volume.disk) ⊥) }
        ensures disk_refused { IfErr result (λ refused.
            DiskAnswer (D.state disk) (D.state refused.1) (refused.0 ≡ Device)) }
    {
        let mut disk = disk;
        match read_volume(alloc, &mut disk) {
            Ok(map) => {
                let layout = map.layout;
                match keep(alloc, map) {
                    Ok(map) => Ok(Volume {
                        disk,
                        map,
                        failed: false,
                        layout,
                    }),
                    Err(NoMemory) => Err((VolumeError::NoMemory, disk)),
                }
            }
            Err(error) => Err((error, disk)),
        }
    }
}
