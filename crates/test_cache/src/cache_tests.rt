//! Tests of a disk with a cache.
use crate::asking::{Answer, Asked, expect_calls, numbered};
use blockcache::Cached;
use blockdisk::{Fail as Failing, Fault, FuseDisk, NoMemory};
use std::alloc::Global;
use std::num::NonZeroUsize;
use std::process::Abort;
use std::test::Fail;

/// A call and its answer.
type Call = (Asked, Answer);

/// The answer of a fuse that has blown.
const DEVICE: Answer = Err(Fault::Device);

/// The answer for a block that holds no words.
const DAMAGED: Answer = Err(Fault::Damaged);

/// If one call passes, two reads of block 20 succeed, and a read of block 21 fails.
const ONE_CALL: [Call; 3] = [
    (Asked::Read(20), Ok(20)),
    (Asked::Read(20), Ok(20)),
    (Asked::Read(21), DEVICE),
];

/// Two reads of block 100 call the device once, for that block alone. It stays cached if a read of another
/// block fails.
const KEPT: [Call; 4] = [
    (Asked::Read(100), Ok(100)),
    (Asked::Read(100), Ok(100)),
    (Asked::Read(99), DEVICE),
    (Asked::Read(100), Ok(100)),
];

/// A read of three neighbours calls the device for each, even for block 101, which is cached and stays so. A write of
/// three bypasses that block: a read of it calls the device again.
const RUNS: [Call; 8] = [
    (Asked::Read(101), Ok(101)),
    (Asked::ReadRun(100), Ok(102)),
    (Asked::Read(101), Ok(101)),
    (Asked::WriteRun(100, 5), Ok(0)),
    (Asked::Read(101), Ok(5)),
    (Asked::ReadRun(100), Ok(5)),
    (Asked::Read(101), Ok(5)),
    (Asked::Read(102), DEVICE),
];

/// What is on the disk then.
const RUNS_LEFT: [Call; 2] = [(Asked::Read(100), Ok(5)), (Asked::Read(102), Ok(5))];

/// If there is room for one block, the one used last is cached; if there is room for two, both are.
const ROOM: [Call; 4] = [
    (Asked::Write(100, 7), Ok(0)),
    (Asked::Write(200, 8), Ok(0)),
    (Asked::Read(200), Ok(8)),
    (Asked::Read(100), DEVICE),
];

/// A block that holds no words, 100, is read from the device each time, and drives no other block out.
const DAMAGE: [Call; 5] = [
    (Asked::Read(100), DAMAGED),
    (Asked::Read(99), Ok(99)),
    (Asked::Read(100), DAMAGED),
    (Asked::Read(99), Ok(99)),
    (Asked::Read(100), DEVICE),
];

/// A check of blocks calls the device for each up to the first damaged one, 103, even for one that is cached. It caches
/// none, and leaves the cached block cached.
const CHECKS: [Call; 7] = [
    (Asked::Read(101), Ok(101)),
    (Asked::Verify(100, 102), Ok(0)),
    (Asked::Verify(100, 105), Ok(103)), // 100 to 103
    (Asked::Read(101), Ok(101)),
    (Asked::Verify(101, 102), DEVICE),
    (Asked::Verify(102, 102), Ok(0)),
    (Asked::Read(100), DEVICE),
];

/// A block that was written is cached, also after a sync, and is on the disk.
const PUT: [Call; 6] = [
    (Asked::Read(101), Ok(101)),
    (Asked::Write(101, 7), Ok(0)),
    (Asked::Read(101), Ok(7)),
    (Asked::Sync, Ok(0)),
    (Asked::Read(101), Ok(7)),
    (Asked::Read(100), DEVICE),
];

/// What is on the disk then.
const PUT_LEFT: [Call; 2] = [(Asked::Read(101), Ok(7)), (Asked::Read(100), Ok(100))];

/// After a write that failed, the block is read from the disk, as it is there.
const FAILED_WRITE: [Call; 3] = [
    (Asked::Read(100), Ok(100)),
    (Asked::Write(100, 7), DEVICE),
    (Asked::Read(100), Ok(7)),
];

/// If the device fails each time after that, the read fails too.
const FAILED_WRITES: [Call; 3] = [
    (Asked::Read(100), Ok(100)),
    (Asked::Write(100, 7), DEVICE),
    (Asked::Read(100), DEVICE),
];

/// After a sync that failed, each block is read from the disk.
const FAILED_SYNC: [Call; 5] = [
    (Asked::Read(100), Ok(100)),
    (Asked::Write(101, 7), Ok(0)),
    (Asked::Sync, DEVICE),
    (Asked::Read(101), DEVICE),
    (Asked::Read(100), DEVICE),
];

/// A block whose read failed isn't cached: the device is called again.
const FAILED_READ: [Call; 3] = [
    (Asked::Read(101), DEVICE),
    (Asked::Read(101), Ok(101)),
    (Asked::Read(101), Ok(101)),
];

/// The same if it fails each time after that.
const FAILED_READS: [Call; 2] = [(Asked::Read(101), DEVICE), (Asked::Read(101), DEVICE)];

/// Checks the answers to these calls of a numbered disk, of which one block may be damaged, through a cache of this
/// number of blocks over a fuse, and then those to these calls of the disk underneath. The fuse lets a number of calls
/// pass, where it counts each block that is read or written, and each sync.
fn expect_cached(
    rt: &impl Abort,
    alloc: Global,
    damaged: Option<u32>,
    capacity: NonZeroUsize,
    fuse: (u64, Failing),
    calls: &[Call],
    under: &[Call],
) -> Result<(), NoMemory> {
    let fused = FuseDisk::new(numbered(rt, alloc, damaged)?, fuse.0, fuse.1);
    match Cached::new(alloc, fused, capacity) {
        Ok(mut cached) => {
            expect_calls(rt, &mut cached, calls);
            expect_calls(rt, &mut cached.into_inner().into_inner(), under);
            Ok(())
        }
        Err((error, fused)) => {
            expect_calls(rt, &mut fused.into_inner(), under);
            Err(error)
        }
    }
}

#[test]
fn calls_through_a_cache_of_one_block(rt: HostRuntime) -> Result<(), Fail> {
    let (one, all, none) = (NonZeroUsize::MIN, Failing::All, [].as_slice());
    for (damaged, passing, fail, calls, under) in [
        (None, 1, all, ONE_CALL.as_slice(), none),
        (None, 1, all, KEPT.as_slice(), none),
        (None, 11, all, RUNS.as_slice(), RUNS_LEFT.as_slice()),
        (None, 2, all, ROOM.as_slice(), none),
        (Some(100), 3, all, DAMAGE.as_slice(), none),
        (Some(103), 7, all, CHECKS.as_slice(), none),
        (None, 3, all, PUT.as_slice(), PUT_LEFT.as_slice()),
        (None, 1, Failing::One, FAILED_WRITE.as_slice(), none),
        (None, 1, all, FAILED_WRITES.as_slice(), none),
        (None, 2, all, FAILED_SYNC.as_slice(), none),
        (None, 0, Failing::One, FAILED_READ.as_slice(), none),
        (None, 0, all, FAILED_READS.as_slice(), none),
    ] {
        expect_cached(&rt, rt.alloc(), damaged, one, (passing, fail), calls, under)?;
    }
    Ok(())
}

/// A cache of two blocks, and one of more than there is room for anywhere: the disk is handed back as it was.
#[test]
fn caches_of_other_sizes(rt: HostRuntime) -> Result<(), Fail> {
    let mut calls = ROOM;
    calls[3].1 = Ok(7);
    let two = NonZeroUsize::new(2).unwrap();
    let fuse = (2, Failing::All);
    expect_cached(&rt, rt.alloc(), None, two, fuse, &calls, &[])?;
    expect_cached(&rt, rt.alloc(), None, two, fuse, &FAILED_SYNC, &[])?;
    let all = NonZeroUsize::MAX;
    let under = [(Asked::Read(20), Ok(20)), (Asked::Read(21), Ok(21))];
    let made = expect_cached(&rt, rt.alloc(), None, all, (0, Failing::All), &[], &under);
    assert_eq!(rt; made, Err(NoMemory));
    Ok(())
}

/// Adds reads of the blocks from block `first` and before block `end`, upwards.
fn push_reads(calls: &mut Vec<Call>, first: u32, end: u32) -> Result<(), Fail> {
    for n in first..end {
        calls.push((Asked::Read(n), Ok(u64::from(n))))?;
    }
    Ok(())
}

/// A cache of 256 blocks. They are read upwards, and again downwards without the device. The next block then drives
/// out block 255, which was used longest ago.
#[test]
fn cache_of_256_blocks(rt: HostRuntime) -> Result<(), Fail> {
    let mut calls = Vec::new(rt.alloc());
    push_reads(&mut calls, 0, 256)?;
    for below in 0..256 {
        push_reads(&mut calls, 255 - below, 256 - below)?;
    }
    push_reads(&mut calls, 256, 257)?;
    push_reads(&mut calls, 0, 255)?;
    push_reads(&mut calls, 256, 257)?;
    calls.push((Asked::Read(255), DEVICE))?;
    let room = NonZeroUsize::new(256).unwrap();
    let fuse = (257, Failing::All);
    expect_cached(&rt, rt.alloc(), None, room, fuse, &calls, &[])?;
    Ok(())
}

/// Run with each allocation refused in turn: every call has the same answer, and making the cache answers `NoMemory`.
#[test]
fn each_allocation_refused(rt: HostRuntime) {
    let calls = [
        (Asked::Read(101), Ok(101)),
        (Asked::Read(100), Ok(100)),
        (Asked::Read(104), Ok(104)),
        (Asked::Read(103), DAMAGED),
        (Asked::Verify(99, 105), Ok(103)),
        (Asked::Write(100, 7), Ok(0)),
        (Asked::Read(100), Ok(7)),
    ];
    let under = [(Asked::Read(101), Ok(101))]; // also if the cache isn't made
    let one = NonZeroUsize::MIN;
    let fuse = (1000, Failing::All);
    let made = expect_cached(&rt, rt.alloc(), Some(103), one, fuse, &calls, &under);
    if let Err(error) = made {
        assert_eq!(rt; error, NoMemory);
    }
}
