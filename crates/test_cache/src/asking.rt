//! Calls of a disk, with checks of their answers.
use blockdisk::{Disk, Fault, MemDisk, NoMemory};
use std::alloc::Global;
use std::process::Abort;
use test_support::filled;
use words36::Block;

/// A call of a disk. A block that is written is filled with one number.
#[derive(Clone, Copy, Debug)]
pub(crate) enum Asked {
    Read(u32),
    Write(u32, u64),
    Sync,
    /// A check of the blocks from the first number up to the second.
    Verify(u32, u32),
    /// A read of three neighbours.
    ReadRun(u32),
    /// A write of three neighbours, each filled with one number.
    WriteRun(u32, u64),
}

/// The answer to a call: the number that fills the block that was read, or the last one of a run; the first damaged
/// block that was met, or 0 if a check met none; and 0 for a write or a sync.
pub(crate) type Answer = Result<u64, Fault>;

/// Returns a disk in memory of 400 blocks, each filled with its number, except for one that may be damaged.
pub(crate) fn numbered(
    rt: &impl Abort,
    alloc: Global,
    damaged: Option<u32>,
) -> Result<MemDisk, NoMemory> {
    let mut disk = MemDisk::new(alloc, 400, 16)?;
    for n in 0..400 {
        assert!(rt; n < disk.blocks());
        disk.load(n, &filled(u64::from(n)));
    }
    if let Some(n) = damaged {
        assert!(rt; n < disk.blocks());
        disk.damage(n);
    }
    Ok(disk)
}

/// Returns the number that fills a block.
fn number_of(rt: &impl Abort, block: &Block) -> u64 {
    let number = block[0].bits();
    assert!(rt; *block == filled(number));
    number
}

/// Makes a call of a disk of 400 blocks, and returns its answer.
fn answer<D: Disk>(rt: &impl Abort, disk: &mut D, asked: Asked) -> Answer {
    let mut places = [filled(0); 3];
    assert!(rt; disk.blocks() == 400);
    match asked {
        Asked::Read(n) => {
            assert!(rt; n < 400);
            disk.read(n).map(|block| number_of(rt, &block))
        }
        Asked::Write(n, number) => {
            assert!(rt; n < 400);
            disk.write(n, &filled(number)).map(|_done| 0)
        }
        Asked::Sync => disk.sync().map(|_done| 0),
        Asked::Verify(first, end) => {
            assert!(rt; end <= 400);
            let found = disk.verify(first, end)?;
            Ok(u64::from(found.unwrap_or(0)))
        }
        Asked::ReadRun(first) => {
            assert!(rt; first <= 397);
            match disk.read_run(first, &mut places)? {
                Some(bad) => Ok(u64::from(bad)),
                None => Ok(number_of(rt, &places[2])),
            }
        }
        Asked::WriteRun(first, number) => {
            assert!(rt; first <= 397);
            disk.write_run(first, &[filled(number); 3]).map(|_done| 0)
        }
    }
}

/// Makes these calls of a disk of 400 blocks, one after the other, and checks their answers.
pub(crate) fn expect_calls<D: Disk>(rt: &impl Abort, disk: &mut D, calls: &[(Asked, Answer)]) {
    for &(asked, wanted) in calls {
        let answered = answer(rt, disk, asked);
        assert_eq!(rt; answered, wanted, "of {asked:?}");
    }
}
