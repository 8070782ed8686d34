//! Tests of change sets, commits and recovery.
ghost use Rattle.std.specs.Prelude.{◌<◌, ◌≤◌};
ghost use Rattle.std.specs.List.{AllByRecursion};
ghost use Rattle.spec_image.specs.Common.{IsTarget, targets};

use crate::disk_tests::expect_block;
use blockdisk::{Disk, MemDisk};
use changeset::{ChangeSet, LogError, commit, recover};
use std::process::Abort;
use std::test::Fail;
use test_support::{FailingDisk, filled};

/// The smallest volume. Its log has room for 9 images, and block 15 is the first of its free space.
const SIZE: u32 = 64;

const GATE: u32 = 3;

/// Adds a put of a block whose words are all this number.
fn add(rt: &impl Abort, set: &mut ChangeSet, block: u32, number: u64)
    requires target { (14 ≤ block) × (block < 64) }
    requires targets { AllByRecursion (IsTarget 64) (targets set.old) }
    ensures { AllByRecursion (IsTarget 64) (targets set.new) }
{
    match set.put(block, &filled(number)) {
        Ok(()) => (),
        Err(_) => panic!(rt; "no room for a put"),
    }
}

/// Returns puts for `count` blocks from block 20: the words of the first are all 100, those of the next all 101.
fn puts(rt: &impl Abort, count: u32) -> ChangeSet
    requires { count ≤ 37 }
    ensures { AllByRecursion (IsTarget 64) (targets result) }
{
    let mut set = ChangeSet::new();
    for i in 0..count {
        add(rt, &mut set, 20 + i, 100 + i as u64);
    }
    set
}

/// Commits such puts to a disk of 64 blocks.
fn commit_puts<D: Disk>(rt: &impl Abort, disk: &mut D, count: u32) -> Result<(), LogError> {
    assert!(rt; disk.blocks() == SIZE && count <= 37);
    commit(disk, &puts(rt, count))
}

/// A commit makes two writes for each put and three more, and four syncs; without a put it is one sync. The log has
/// room for 9 images.
#[test]
fn a_commit_counts_its_calls(rt: HostRuntime) -> Result<(), Fail> {
    for count in 0..10 {
        let mut counted = FailingDisk::counting(MemDisk::new(rt.alloc(), SIZE, 100)?);
        assert_eq!(rt; commit_puts(&rt, &mut counted, count), Ok(()));
        if count == 0 {
            assert_eq!(rt; (counted.writes, counted.syncs), (0, 1));
        } else {
            assert_eq!(rt; (counted.writes, counted.syncs), (2 * count + 3, 4));
            expect_block(
                &rt,
                &mut counted.inner,
                19 + count,
                &filled(99 + u64::from(count)),
            );
        }
        expect_block(&rt, &mut counted.inner, 20 + count, &filled(0));
        expect_block(&rt, &mut counted.inner, GATE, &filled(0));
    }
    let mut disk = MemDisk::new(rt.alloc(), SIZE, 0)?;
    assert_eq!(rt; commit_puts(&rt, &mut disk, 10), Err(LogError::TooMany));
    Ok(())
}

/// Loads a block, which begins the record of a disk anew, and recovers.
fn restart(rt: &impl Abort, disk: &mut MemDisk) -> Result<(), LogError> {
    assert!(rt; 0 < disk.blocks());
    disk.load(0, &filled(0));
    recover(disk)
}

/// A commit of 3 images stops at each of its calls, and so may the recovery after it, once.
#[test]
fn a_commit_that_stops_is_all_or_none(rt: HostRuntime) -> Result<(), Fail> {
    // 3 images and the header, a sync, then the gate
    for calls in 1..13 {
        let mut disk = MemDisk::new(rt.alloc(), SIZE, calls)?;
        assert_eq!(rt; commit_puts(&rt, &mut disk, 3), Err(LogError::Device));
        if restart(&rt, &mut disk) == Err(LogError::Device) {
            assert_eq!(rt; restart(&rt, &mut disk), Ok(()));
        }
        expect_block(&rt, &mut disk, GATE, &filled(0));
        let made = if calls < 6 {
            [0, 0, 0]
        } else {
            [100, 101, 102]
        };
        expect_block(&rt, &mut disk, 20, &filled(made[0]));
        expect_block(&rt, &mut disk, 21, &filled(made[1]));
        expect_block(&rt, &mut disk, 22, &filled(made[2]));
    }
    Ok(())
}
