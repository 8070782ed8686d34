//! Tests of volumes that are made, opened and copied.
use crate::disks::{
    copied, expect_block, expect_image, expect_room, expect_same, init, load, make_dir, open,
    opened,
};
use blockdisk::{Disk, MemDisk, NoMemory};
use imagefile::{Form, ImageDisk, MemFile};
use std::alloc::Global;
use std::process::Abort;
use std::test::Fail;
use test_support::{
    DIRECTORY, HOME, MASTER, OPEN, PRIME, SIZE, beginning, filled, home_of, owner, v1, word,
};
use volume::{CallError, CopyError, Layout, Volume, VolumeError, read_volume};
use words36::Block;

/// The table of the disk with the long file: the blocks before 18, block 21, and 100 to 212.
const TABLE: [u64; 6] = [
    0o777777040000,
    0,
    0o000000000377,
    0o777777777777,
    0o777777777777,
    0o777777777770,
];

/// V1 has four blocks in use: those of its directories and of its file.
#[test]
fn v1_is_accepted(rt: HostRuntime) -> Result<(), Fail> {
    let volume = opened(&rt, rt.alloc(), v1(rt.alloc(), 2)?);
    expect_image(&rt, &volume, (2, 1), 45);
    let mut disk = volume.into_disk();
    let Ok(map) = read_volume(rt.alloc(), &mut disk) else {
        panic!(rt; "the disk is refused");
    };
    assert!(rt; map.layout == Layout::One && map.master.blocks() == [15].as_slice());
    assert_eq!(rt; map.table.booked(), 4);
    Ok(())
}

/// Returns V1 on a disk of 1024 blocks, where FOO.TXT has 113 blocks, 100 to 212, and an extension in 21. It has room
/// to record two syncs, so that it can be opened twice.
fn with_an_extension(rt: &impl Abort, alloc: Global) -> Result<MemDisk, NoMemory> {
    let home = beginning(&[HOME[0], HOME[1], 0o2000, HOME[3], HOME[4], HOME[5]]);
    let mut prime = beginning(&PRIME);
    prime[5] = word(113 * 128);
    prime[6] = word(112);
    prime[7] = word(21);
    for i in 0..112 {
        prime[16 + i] = word(0o1000000 + 100 + i as u64);
    }
    let mut disk = MemDisk::new(alloc, 1024, 2)?;
    load(rt, &mut disk, 1, &home);
    load(rt, &mut disk, 2, &home);
    load(rt, &mut disk, 14, &beginning(&TABLE));
    load(rt, &mut disk, 15, &beginning(&MASTER));
    load(rt, &mut disk, 16, &beginning(&DIRECTORY));
    load(rt, &mut disk, 17, &prime);
    load(
        rt,
        &mut disk,
        21,
        &beginning(&[0o706242000001, 0, 0o1000000 + 212]),
    );
    Ok(disk)
}

/// Opens the volume on a disk. If there is no memory, the disk is handed back, and the next try opens it.
fn open_again(rt: &impl Abort, alloc: Global, disk: MemDisk) -> Volume<MemDisk> {
    match open(alloc, disk) {
        Ok(volume) => volume,
        Err((error, disk)) => {
            assert!(rt; error == VolumeError::NoMemory);
            opened(rt, alloc, disk)
        }
    }
}

/// The allocations that a start takes are refused one after the other if the tests are run so (`--fail-alloc`).
#[test]
fn each_allocation_of_a_start_refused(rt: HostRuntime) {
    let Ok(disk) = with_an_extension(&rt, rt.alloc()) else {
        return;
    };
    let volume = open_again(&rt, rt.alloc(), disk);
    expect_image(&rt, &volume, (113 * 128, 113), 1024 - 15 - 117);
}

/// The same for a directory: after `NoMemory` nothing has changed, and the next try makes it.
#[test]
fn each_allocation_of_a_directory_refused(rt: HostRuntime) {
    let Ok(mut disk) = MemDisk::new(rt.alloc(), SIZE, 100) else {
        return;
    };
    assert_eq!(rt; init(&mut disk, Layout::One), Ok(()));
    let mut volume = open_again(&rt, rt.alloc(), disk);
    if make_dir(rt.alloc(), &mut volume) == Err(CallError::NoMemory) {
        expect_room(&rt, &volume, 48);
        assert!(rt; make_dir(rt.alloc(), &mut volume) == Ok(()));
    }
    expect_room(&rt, &volume, 47);
}

/// Makes an empty volume over blocks with other words, and checks that these are its blocks.
fn expect_made(
    rt: &impl Abort,
    alloc: Global,
    size: u32,
    layout: Layout,
    blocks: &[(u32, Block)],
) -> Result<Volume<MemDisk>, NoMemory> {
    let mut disk = MemDisk::new(alloc, size, 30)?;
    load(rt, &mut disk, 3, &filled(OPEN));
    load(rt, &mut disk, 14, &filled(7));
    load(rt, &mut disk, 15, &filled(7));
    load(rt, &mut disk, 17, &filled(7));
    assert_eq!(rt; init(&mut disk, layout), Ok(()));
    for (n, block) in blocks {
        expect_block(rt, &mut disk, *n, block);
    }
    Ok(opened(rt, alloc, disk))
}

/// Checks a fresh volume of 64 blocks: it has room 48, and a directory, which can't be made twice, takes a block.
fn expect_fresh<D: Disk>(rt: &impl Abort, alloc: Global, volume: &mut Volume<D>) {
    assert_eq!(rt; volume.blocks(), 64);
    expect_room(rt, volume, 48);
    assert!(rt; make_dir(alloc, volume) == Ok(()));
    assert!(rt; make_dir(alloc, volume).is_err());
    expect_room(rt, volume, 47);
    assert!(rt; volume.directory(owner()) == Ok(0o775));
    match volume.list(alloc, owner()) {
        Ok(lines) => assert!(rt; lines.is_empty()),
        Err(_refused) => panic!(rt; "an empty directory isn't listed"),
    }
}

/// A volume of 64 blocks in each layout.
#[test]
fn small_volumes_are_made(rt: HostRuntime) -> Result<(), Fail> {
    for (layout, number) in [(Layout::One, 1), (Layout::Two, 2)] {
        let blocks = [
            (1, home_of(number)),
            (2, home_of(number)),
            (3, filled(0)),
            (14, beginning(&[0o777774000000])),
            (15, filled(0)),
            (17, filled(7)),
        ];
        let mut volume = expect_made(&rt, rt.alloc(), SIZE, layout, &blocks)?;
        expect_fresh(&rt, rt.alloc(), &mut volume);
    }
    Ok(())
}

/// A volume of 4609 blocks, whose table has two blocks, and whose log has ten.
#[test]
fn a_volume_with_two_table_blocks(rt: HostRuntime) -> Result<(), Fail> {
    let home = beginning(&[HOME[0], 1, 0o11001, 2, 0o12, 0o21]);
    let blocks = [
        (1, home),
        (2, home),
        (3, filled(0)),
        (14, filled(7)),
        (15, beginning(&[0o777777000000])),
        (16, filled(0)),
        (17, filled(0)),
    ];
    let volume = expect_made(&rt, rt.alloc(), 4609, Layout::One, &blocks)?;
    expect_room(&rt, &volume, 4609 - 17 - 1);
    Ok(())
}

/// Returns the disk of a packed image of 64 blocks of zeros, with room to record `calls` writes and syncs.
fn packed(rt: &impl Abort, alloc: Global, calls: usize) -> Result<ImageDisk<MemFile>, Fail> {
    let zeros = vec![in alloc; 0; 36864]?;
    let file = MemFile::new(alloc, zeros.as_slice(), calls);
    drop(zeros);
    match ImageDisk::of_form(file?, Form::Packed) {
        Ok(disk) => Ok(disk),
        Err(_refused) => panic!(rt; "no image"),
    }
}

/// V1 with a damaged block is copied to a packed image, and from there to a disk again. A copy takes 64 writes and two
/// syncs, and its source and what is opened are recovered by one. The damaged block is copied as zeros.
#[test]
fn a_volume_is_copied(rt: HostRuntime) -> Result<(), Fail> {
    let mut source = v1(rt.alloc(), 1)?;
    assert!(rt; 30 < source.blocks());
    source.damage(30);
    let mut image = packed(&rt, rt.alloc(), 66 + 2)?;
    assert_eq!(rt; copied(&rt, rt.alloc(), &mut source, &mut image), Ok(()));
    expect_block(&rt, &mut image, 30, &filled(0));
    let volume = opened(&rt, rt.alloc(), image);
    expect_image(&rt, &volume, (2, 1), 45);
    let mut image = volume.into_disk();
    let mut back = MemDisk::new(rt.alloc(), SIZE, 66)?;
    assert_eq!(rt; copied(&rt, rt.alloc(), &mut image, &mut back), Ok(()));
    expect_same(&rt, &mut back, &mut v1(rt.alloc(), 1)?);
    Ok(())
}

/// A copy has no room for its last sync; a source has no room for its recovery.
#[test]
fn copies_that_fail(rt: HostRuntime) -> Result<(), Fail> {
    let mut target = MemDisk::new(rt.alloc(), SIZE, 65)?;
    let answer = copied(&rt, rt.alloc(), &mut v1(rt.alloc(), 1)?, &mut target);
    assert_eq!(rt; answer, Err(CopyError::Target));
    let answer = copied(&rt, rt.alloc(), &mut v1(rt.alloc(), 0)?, &mut target);
    assert_eq!(rt; answer, Err(CopyError::Source(VolumeError::Device)));
    Ok(())
}
