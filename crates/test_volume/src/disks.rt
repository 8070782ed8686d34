//! What the tests need: disks, calls that hide what else they promise, and checks.
ghost use Rattle.std.specs.Prelude.{◌≡◌};
ghost use Rattle.spec_image.specs.Common.{layout_number};

use blockdisk::{Disk, MemDisk};
use retrieval::Mode;
use std::alloc::Global;
use std::process::Abort;
use test_support::{foo, owner};
use volume::{CallError, CopyError, FileFacts, Layout, Migrated, Volume, VolumeError};
use words36::{Block, Moment};

/// Puts a block on a disk.
pub(crate) fn load(rt: &impl Abort, disk: &mut MemDisk, n: u32, block: &Block) {
    assert!(rt; n < disk.blocks());
    disk.load(n, block);
}

/// Checks the words of a block.
pub(crate) fn expect_block<D: Disk>(rt: &impl Abort, disk: &mut D, n: u32, block: &Block) {
    assert!(rt; n < disk.blocks());
    assert!(rt; disk.read(n) == Ok(*block));
}

/// Checks that two disks of 64 blocks have the same words in all blocks but those of gate and log.
pub(crate) fn expect_same(rt: &impl Abort, disk: &mut MemDisk, other: &mut MemDisk) {
    for n in 0..64 {
        if n < 3 || n > 13 {
            assert!(rt; n < disk.blocks() && n < other.blocks());
            assert!(rt; disk.read(n) == other.read(n), "block {n}");
        }
    }
}

/// Opens the volume on a disk. It hides what else `open` promises.
pub(crate) fn open<D: Disk + Drop>(alloc: Global, disk: D) -> Result<Volume<D>, (VolumeError, D)> {
    Volume::open(alloc, disk)
}

/// Opens the volume on a disk, which must be accepted.
pub(crate) fn opened<D: Disk + Drop>(rt: &impl Abort, alloc: Global, disk: D) -> Volume<D> {
    let Ok(volume) = open(alloc, disk) else {
        panic!(rt; "the disk is refused");
    };
    volume
}

/// Checks how much room is left.
pub(crate) fn expect_room<D: Disk>(rt: &impl Abort, volume: &Volume<D>, room: i64) {
    assert_eq!(rt; volume.room(), room);
}

/// Checks that a volume has [10,20] with protection 775 and in it FOO.TXT of this many words and blocks, with what the
/// prime block of V1 says, and how much room is left.
pub(crate) fn expect_image<D: Disk>(
    rt: &impl Abort,
    volume: &Volume<D>,
    (words, blocks): (u32, u32),
    room: i64,
) {
    let facts = FileFacts {
        protection: 0o057,
        mode: Mode::Ascii,
        moment: Moment::new(4095, 0).expect(rt, "a moment"),
        words,
        blocks,
    };
    assert!(rt; !volume.has_failed());
    assert!(rt; volume.directory(owner()) == Ok(0o775));
    assert!(rt; volume.look(owner(), &foo()) == Ok(facts));
    expect_room(rt, volume, room);
}

/// Makes the directory [10,20] with protection 775. It hides what else `make_dir` promises.
pub(crate) fn make_dir<D: Disk>(alloc: Global, volume: &mut Volume<D>) -> Result<(), CallError> {
    volume.make_dir(alloc, owner(), 0o775)
}

/// Makes an empty volume on a disk. It hides what else `init_layout` promises.
pub(crate) fn init<D: Disk>(disk: &mut D, layout: Layout) -> Result<(), VolumeError> {
    Volume::init_layout(disk, layout)
}

/// Migrates a volume. It hides what else `migrate` promises.
pub(crate) fn migrate<D: Disk>(alloc: Global, disk: &mut D) -> Result<Migrated, VolumeError> {
    Volume::migrate(alloc, disk)
}

/// Copies the volume on a disk to another one. It hides what else `copy_image` promises.
pub(crate) fn copied<D: Disk, E: Disk>(
    rt: &impl Abort,
    alloc: Global,
    from: &mut D,
    to: &mut E,
) -> Result<(), CopyError> {
    assert_eq!(rt; from.blocks(), to.blocks());
    Volume::copy_image(alloc, from, to)
}

/// Checks that the volume has layout 2.
fn expect_layout_2<D: Disk>(rt: &impl Abort, volume: &Volume<D>)
    ensures { layout_number volume.now.layout ≡ 2 }
{
    match volume.layout() {
        Layout::Two => {}
        Layout::One => panic!(rt; "the volume has layout 1"),
    }
}

/// Gives [10,20] in a volume of layout 2 a quota. It hides what else `set_quota` promises.
pub(crate) fn set_quota<D: Disk>(
    rt: &impl Abort,
    volume: &mut Volume<D>,
    quota: u32,
) -> Result<(), CallError> {
    expect_layout_2(rt, volume);
    assert!(rt; quota < 0o1000000);
    volume.set_quota(owner(), quota)
}
