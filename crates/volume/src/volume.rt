//! A volume: a disk, and the map of it in memory.
ghost use Rattle.std.specs.Prelude.{◌≡◌, false};
ghost use Rattle.spec_image.specs.Common.{layout_number, pack_of};

use crate::live::LiveMap;
use crate::read_file::LoadedVersion;
use alloctab::Table;
use blockdisk::Disk;
use directory::{Chain, FileEntry, MasterEntry};
use spec_image::layout::Layout;
use std::marker::Model;

/// A directory that was read: its chain, and for each entry, in their order, the version of its file.
#[derive(Drop)]
pub struct LoadedDirectory {
    /// The chain with its entries.
    pub chain: Chain<FileEntry>,
    /// The versions of the entries.
    pub versions: Vec<LoadedVersion>,
}

/// What was read from a disk.
#[derive(Drop)]
pub struct LoadedMap {
    /// The layout that the home copy names.
    pub layout: Layout,
    /// The chain of the master directory with its entries.
    pub master: Chain<MasterEntry>,
    /// The directories of the entries, in their order.
    pub directories: Vec<LoadedDirectory>,
    /// Which blocks are in use, held and booked.
    pub table: Table,
}

/// A volume: a disk with its map in memory. Contracts see it as one value (`VolumeState`): the disk, what is known of
/// it, whether the volume has failed, and the layout.
#[derive(Drop)]
pub struct Volume<D: Disk> {
    pub(crate) disk: D,
    pub(crate) map: LiveMap,
    /// Whether a call met a fault of the disk: then nothing is known of the disk any more.
    pub(crate) failed: bool,
    /// The layout of the disk, which no call changes.
    pub(crate) layout: Layout,
}

impl<D: Disk> Model for Volume<D> {
    ghost use Rattle.volume.specs.Common.{memory_of};
    ghost use Rattle.volume.specs.Common.{IsSoundVolume};
    ghost use Rattle.volume.specs.Common.{VolumeState};

    ghost Value = { VolumeState D };

    ghost view = { λ v. record { disk = v.disk; map = memory_of v.map; failed = v.failed; layout = v.layout } };

    ghost invariant = { λ v. IsSoundVolume (D.state v.disk) (memory_of v.map) v.failed v.layout };
}

impl<D: Disk> Volume<D> {
    /// Returns the disk.
    pub fn disk(&self) -> &D
        ensures { result.now ≡ self.now.disk }
    {
        &self.disk
    }

    /// Returns the layout that `open` found, which no call changes. While the disk is honest and the volume hasn't
    /// failed, it is the disk's.
    pub fn layout(&self) -> Layout
        ensures value { result ≡ self.now.layout }
        ensures disk { (D.state self.now.disk).honest → self.now.failed ≡ false
            → layout_number result ≡ (pack_of (D.state self.now.disk)).layout }
    {
        self.layout
    }

    /// Returns the disk as it is. What isn't published is dropped.
    pub fn into_disk(self) -> D
        ensures { result ≡ self.disk }
    {
        self.disk
    }
}
