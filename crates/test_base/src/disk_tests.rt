//! Tests of disks in memory.
use blockdisk::{Disk, Fault, MemDisk, write_copies, write_through};
use std::process::Abort;
use std::test::Fail;
use test_support::filled;
use words36::Block;

/// Checks that a disk has these words in a block.
pub(crate) fn expect_block<D: Disk>(rt: &impl Abort, disk: &mut D, n: u32, block: &Block) {
    assert!(rt; n < disk.blocks());
    assert!(rt; disk.read(n) == Ok(*block));
}

/// Blocks 2 to 5 are written as one run and read as one; then blocks 4 and 7 are damaged.
#[test]
fn what_was_written_is_read(rt: HostRuntime) -> Result<(), Fail> {
    let mut disk = MemDisk::new(rt.alloc(), 8, 5)?;
    assert_eq!(rt; disk.blocks(), 8);
    assert_eq!(rt; disk.write(1, &filled(7)), Ok(()));
    assert_eq!(rt; disk.blocks(), 8);
    let blocks = [filled(2), filled(3), filled(4), filled(5)];
    assert_eq!(rt; disk.write_run(2, &blocks), Ok(()));
    assert_eq!(rt; disk.blocks(), 8);
    let mut places = [filled(9); 4];
    assert_eq!(rt; disk.read_run(2, &mut places), Ok(None));
    assert!(rt; places == blocks);
    // the record is full
    assert_eq!(rt; disk.sync(), Err(Fault::Device));
    assert_eq!(rt; disk.blocks(), 8);
    disk.load(0, &filled(9));
    assert_eq!(rt; disk.sync(), Ok(()));
    for (n, number) in [(0, 9), (1, 7), (5, 5), (6, 0)] {
        expect_block(&rt, &mut disk, n, &filled(number));
    }
    assert_eq!(rt; disk.blocks(), 8);
    disk.damage(4);
    disk.damage(7);
    assert!(rt; disk.read(4) == Err(Fault::Damaged));
    assert_eq!(rt; disk.read_run(2, &mut places), Ok(Some(4)));
    assert_eq!(rt; disk.verify(2, 4), Ok(None));
    assert_eq!(rt; disk.verify(5, 8), Ok(Some(7)));
    Ok(())
}

/// The record has room for three writes and three syncs.
#[test]
fn two_copies(rt: HostRuntime) -> Result<(), Fail> {
    let mut disk = MemDisk::new(rt.alloc(), 3, 6)?;
    assert_eq!(rt; disk.blocks(), 3);
    assert_eq!(rt; write_copies(&mut disk, 1, 2, &filled(3)), Ok(()));
    expect_block(&rt, &mut disk, 1, &filled(3));
    expect_block(&rt, &mut disk, 2, &filled(3));
    assert!(rt; 0 < disk.blocks());
    assert_eq!(rt; write_through(&mut disk, 0, &filled(4)), Ok(()));
    expect_block(&rt, &mut disk, 0, &filled(4));
    assert!(rt; 0 < disk.blocks());
    assert_eq!(rt; write_through(&mut disk, 0, &filled(5)), Err(Fault::Device));
    Ok(())
}
