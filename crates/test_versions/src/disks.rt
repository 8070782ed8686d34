//! Volumes on disks for the tests.
use blockdisk::Disk;
use std::alloc::Global;
use std::process::Abort;
use volume::Volume;

/// Opens the volume on a disk, if it is accepted. It hides what else `open` promises.
pub(crate) fn open<D: Disk + Drop>(alloc: Global, disk: D) -> Option<Volume<D>> {
    match Volume::open(alloc, disk) {
        Ok(volume) => Some(volume),
        Err(_refused) => None,
    }
}

/// Opens the volume on a disk, which must be accepted.
pub(crate) fn opened<D: Disk + Drop>(rt: &impl Abort, alloc: Global, disk: D) -> Volume<D> {
    let Some(volume) = open(alloc, disk) else {
        panic!(rt; "the disk is refused");
    };
    volume
}

/// Checks how much room is left.
pub(crate) fn expect_room<D: Disk>(rt: &impl Abort, volume: &Volume<D>, room: i64) {
    assert_eq!(rt; volume.room(), room);
}
