//! Tests of changes that are stopped and crash, and of stopped recoveries from them.
use crate::disks::{expect_block, expect_image, expect_same, migrate, open, opened, set_quota};
use blockdisk::{Fail, FuseDisk, MemDisk, NoMemory, Pick};
use std::alloc::Global;
use std::process::Abort;
use std::test::Fail as TestFail;
use test_support::{PICKS, filled, home_of, owner, v1, v2};
use volume::{CallError, Charge, Layout, Migrated, VolumeError};

/// The number of calls that a start makes of V1: it reads the gate, the first home copy, and the blocks of the file,
/// the directories and the table, and it syncs.
const STARTED: u64 = 7 + 1;

/// The number of writes and syncs that a quota makes.
const QUOTA: u64 = 5 + 4;

/// The number of calls that a migration makes: those of a start, and seven writes and four syncs.
const MIGRATION: u64 = STARTED + 7 + 4;

/// More calls than the recovery of a disk makes, and the start after it.
const MOST_CALLS: u64 = 100;

/// What is stopped.
#[derive(Clone, Copy, PartialEq, Eq)]
enum Change {
    /// The quota of [10,20] becomes 5 after 7.
    Quota,
    /// V1 gets layout 2.
    Migration,
}

/// Where a change or a recovery is stopped.
#[derive(Clone, Copy)]
struct Stop {
    /// The number of calls of the disk that pass, counted from the first one of the change or of the recovery.
    passing: u64,
    /// What the crash leaves.
    pick: Pick,
}

/// Stops a change. Returns what the crash leaves, and whether the change was done before.
fn stopped(
    rt: &impl Abort,
    alloc: Global,
    change: Change,
    stop: Stop,
) -> Result<(MemDisk, bool), NoMemory> {
    let (mut disk, is_done) = match change {
        Change::Quota => {
            let passing = STARTED.saturating_add(stop.passing);
            let fused = FuseDisk::new(v2(alloc, 7, 100)?, passing, Fail::All);
            let mut volume = opened(rt, alloc, fused);
            let answer = set_quota(rt, &mut volume, 5);
            assert!(rt; answer == Ok(()) || answer == Err(CallError::Device));
            (volume.into_disk().into_inner(), answer.is_ok())
        }
        Change::Migration => {
            let mut fused = FuseDisk::new(v1(alloc, 100)?, stop.passing, Fail::All);
            let answer = migrate(alloc, &mut fused);
            assert!(rt; matches!(answer, Ok(Migrated::Done) | Err(VolumeError::Device)));
            (fused.into_inner(), answer.is_ok())
        }
    };
    disk.crash(stop.pick);
    Ok((disk, is_done))
}

/// Starts the volume on a disk that fails after `passing` calls, and crashes it. Returns what that leaves, and whether
/// the start was stopped.
fn recovered(alloc: Global, disk: MemDisk, stop: Stop) -> (MemDisk, bool) {
    let (mut left, was_stopped) = match open(alloc, FuseDisk::new(disk, stop.passing, Fail::All)) {
        Ok(volume) => (volume.into_disk().into_inner(), false),
        Err((_error, fused)) => (fused.into_inner(), true),
    };
    left.crash(stop.pick);
    (left, was_stopped)
}

/// Checks that what a crash left is V1 as before the change or as after it, and the latter if the change was done.
/// Returns whether the change is there.
fn judge(
    rt: &impl Abort,
    alloc: Global,
    change: Change,
    disk: MemDisk,
    is_done: bool,
) -> Result<bool, NoMemory> {
    let volume = opened(rt, alloc, disk);
    let layout = volume.layout();
    let quota = volume.quota(owner());
    let (is_there, mut wanted) = match change {
        Change::Quota => (quota == 5, v2(alloc, if quota == 5 { 5 } else { 7 }, 1)?),
        Change::Migration => match layout {
            Layout::One => (false, v1(alloc, 1)?),
            Layout::Two => (true, v2(alloc, 0, 1)?),
        },
    };
    assert!(rt; is_there || !is_done);
    assert!(rt; volume.charge(owner()) == Some(Charge { quota, used: 3 }));
    expect_image(rt, &volume, (2, 1), 45);
    let mut disk = volume.into_disk();
    expect_same(rt, &mut disk, &mut wanted);
    Ok(is_there)
}

/// Stops a change, and then the recovery, and checks that what that leaves is good. Returns whether the recovery was
/// stopped.
fn stop_twice(
    rt: &impl Abort,
    alloc: Global,
    change: Change,
    stop: Stop,
    again: Stop,
) -> Result<bool, NoMemory> {
    let (disk, is_done) = stopped(rt, alloc, change, stop)?;
    let (left, was_stopped) = recovered(alloc, disk, again);
    let _is_there = judge(rt, alloc, change, left, is_done)?;
    Ok(was_stopped)
}

/// Stops a change, and then the recovery at each of its calls, and after it is done.
fn stop_recoveries(
    rt: &impl Abort,
    alloc: Global,
    change: Change,
    stop: Stop,
    pick: Pick,
) -> Result<(), NoMemory> {
    for passing in 0..MOST_CALLS {
        if !stop_twice(rt, alloc, change, stop, Stop { passing, pick })? {
            return Ok(());
        }
    }
    panic!(rt; "the recovery doesn't end");
}

/// Stops a change at each of its calls from number `first`, and after it is done, and then the recovery at each of its
/// own. The first crash leaves what was written, so that there is most to recover, or both crashes leave the same.
fn stop_changes(
    rt: &impl Abort,
    alloc: Global,
    change: Change,
    (first, calls): (u64, u64),
    pick: Pick,
) -> Result<(), NoMemory> {
    for passing in first..=calls {
        let new = Pick::New;
        stop_recoveries(rt, alloc, change, Stop { passing, pick: new }, pick)?;
        stop_recoveries(rt, alloc, change, Stop { passing, pick }, pick)?;
    }
    Ok(())
}

/// A change of a quota that is stopped at any of its calls leaves the old quota or the new one, and all else, also if
/// the recovery is stopped at any of its calls, too.
#[test]
fn a_quota_and_its_recovery_are_stopped(rt: HostRuntime) -> Result<(), TestFail> {
    for pick in PICKS {
        stop_changes(&rt, rt.alloc(), Change::Quota, (0, QUOTA), pick)?;
    }
    Ok(())
}

/// The same for a migration after the calls of a start: it leaves layout 1 or 2.
#[test]
fn a_migration_and_its_recovery_are_stopped(rt: HostRuntime) -> Result<(), TestFail> {
    for pick in PICKS {
        stop_changes(
            &rt,
            rt.alloc(),
            Change::Migration,
            (STARTED, MIGRATION),
            pick,
        )?;
    }
    Ok(())
}

/// Returns whether a change was done before it was stopped and crashed so, and whether it is there after the crash.
fn outcome(
    rt: &impl Abort,
    alloc: Global,
    change: Change,
    stop: Stop,
) -> Result<(bool, bool), NoMemory> {
    let (disk, is_done) = stopped(rt, alloc, change, stop)?;
    Ok((is_done, judge(rt, alloc, change, disk, is_done)?))
}

/// If a crash leaves what was written, the new quota is there from the write that opens the gate, the fourth call,
/// though the write fails. If it leaves what there was at the last sync, it is there after that write is synced.
#[test]
fn the_moment_of_a_quota(rt: HostRuntime) -> Result<(), TestFail> {
    for passing in 0..=QUOTA {
        let (new, old) = (Pick::New, Pick::Old);
        let is_done = passing == QUOTA;
        let written = outcome(&rt, rt.alloc(), Change::Quota, Stop { passing, pick: new })?;
        assert!(rt; written == (is_done, passing >= 3));
        let synced = outcome(&rt, rt.alloc(), Change::Quota, Stop { passing, pick: old })?;
        assert!(rt; synced == (is_done, passing >= 5));
    }
    Ok(())
}

/// A migration that is stopped at any of its calls, those of a start too, leaves layout 1 or 2. It is done once all its
/// calls are.
#[test]
fn the_end_of_a_migration(rt: HostRuntime) -> Result<(), TestFail> {
    for passing in 0..=MIGRATION {
        let stop = Stop {
            passing,
            pick: Pick::New,
        };
        let (is_done, _) = outcome(&rt, rt.alloc(), Change::Migration, stop)?;
        assert!(rt; is_done == (passing == MIGRATION));
    }
    Ok(())
}

/// Both copies of V1 get layout 2, and the gate is closed; the second time nothing is written.
#[test]
fn v1_is_migrated(rt: HostRuntime) -> Result<(), TestFail> {
    let mut disk = v1(rt.alloc(), 1 + 11 + 1)?; // there is room only for the second recovery's sync
    assert_eq!(rt; migrate(rt.alloc(), &mut disk), Ok(Migrated::Done));
    expect_block(&rt, &mut disk, 1, &home_of(2));
    expect_block(&rt, &mut disk, 2, &home_of(2));
    expect_block(&rt, &mut disk, 3, &filled(0));
    assert_eq!(rt; migrate(rt.alloc(), &mut disk), Ok(Migrated::Already));
    expect_same(&rt, &mut disk, &mut v2(rt.alloc(), 0, 1)?);
    Ok(())
}
