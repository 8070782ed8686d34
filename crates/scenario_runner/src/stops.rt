//! Stops at each call of a disk, and again in recovery: a start over what a crash leaves must find the files after the
//! events that were answered, or those after one more.
use crate::desk::Desk;
use crate::disks::{different_blocks, disk_of, forget_record, play_over, start_over};
use crate::row::Row;
use anyhow::{Result, ensure};
use blockdisk::{Disk, Fail, FuseDisk, MemDisk, Pick};
use std::alloc::Global;

/// The choices of what a crash leaves of the open blocks.
const PICKS: [Pick; 5] = [Pick::Old, Pick::New, Pick::Damaged, Pick::Half, Pick::Open];

/// More calls than the lines of a row make of their disk.
const MOST_CALLS: u64 = 5000;

/// The number of writes and syncs of a recovery that are recorded.
const RECORDED: usize = 500;

/// The way in which the lines of a row are stopped.
#[derive(Clone, Copy, PartialEq, Eq)]
pub enum Manner {
    /// By a crash, of which each pick is tried, and by another one in each recovery.
    Stops,
    /// By a fault of the disk alone, after which the disk serves again.
    Faults,
}

/// The result of a row at its stops.
#[derive(Clone, Copy)]
pub struct Stops {
    /// The number of starts over what was left.
    pub starts: u64,
    /// The number of times that the files were others, or an event was answered otherwise.
    pub mistakes: u64,
}

impl Stops {
    /// Counts a mistake.
    fn miss(&mut self) {
        self.mistakes = self.mistakes.saturating_add(1);
    }
}

/// A row that is stopped.
#[derive(Clone, Copy)]
struct Trial<'a> {
    row: &'a Row,
    /// The lines that are stopped.
    stopped: &'a [String],
    /// The lines that check what is there after n events, where n is the number of their alternative.
    telling: &'a [String],
    manner: Manner,
}

/// The state after a disk failed, or didn't.
#[derive(Drop)]
struct Left {
    disk: MemDisk,
    /// The number of events that were answered before.
    answered: usize,
    has_failed: bool,
    mistakes: u64,
}

/// Returns a disk with the same blocks, on which nothing is recorded.
fn copy_of(alloc: Global, disk: &mut MemDisk) -> Result<MemDisk> {
    let mut copy = MemDisk::new(alloc, disk.blocks(), RECORDED)?;
    for n in 0..disk.blocks() {
        ensure!(n < disk.blocks() && n < copy.blocks(), "no block {n}");
        match disk.read(n) {
            Ok(words) => copy.load(n, &words),
            Err(_) => copy.damage(n),
        }
    }
    Ok(copy)
}

/// Returns whether these lines come out as wanted on a disk, by this alternative.
fn comes_out(
    rt: &impl Print,
    alloc: Global,
    disk: MemDisk,
    lines: &[String],
    alternative: usize,
) -> Result<bool> {
    let mut desk = Desk::silent(alloc, alternative)?;
    play_over(rt, &mut desk, disk, lines)?;
    Ok(desk.mistakes == 0)
}

/// Starts what is left of a disk, and checks that the files are those after `answered` events, or after one more.
fn judge(
    rt: &impl Print,
    alloc: Global,
    disk: MemDisk,
    trial: Trial<'_>,
    answered: usize,
    stops: &mut Stops,
) -> Result<()> {
    stops.starts = stops.starts.saturating_add(1);
    let mut disk = disk;
    let before = copy_of(alloc, &mut disk)?;
    if !comes_out(rt, alloc, before, trial.telling, answered)?
        && !comes_out(rt, alloc, disk, trial.telling, answered.saturating_add(1))?
    {
        stops.miss();
    }
    Ok(())
}

/// Starts the service on a copy of a disk that fails after `passing` calls, and crashes it. Returns the disk, and
/// whether the start was stopped.
fn recover(alloc: Global, disk: &mut MemDisk, passing: u64, pick: Pick) -> Result<(MemDisk, bool)> {
    let fused = FuseDisk::new(copy_of(alloc, disk)?, passing, Fail::All);
    let (mut left, was_stopped) = match start_over(alloc, fused) {
        Ok(monitor) => (monitor.finish().into_inner(), false),
        Err((_error, fused)) => (fused.into_inner(), true),
    };
    left.crash(pick);
    Ok((left, was_stopped))
}

/// Stops the recovery of a disk after `passing` calls, and crashes it in each way that leaves something else. Returns
/// whether it was stopped.
fn stop_recovery(
    rt: &impl Print,
    alloc: Global,
    disk: &mut MemDisk,
    passing: u64,
    trial: Trial<'_>,
    answered: usize,
    stops: &mut Stops,
) -> Result<bool> {
    let (mut old, was_stopped) = recover(alloc, disk, passing, Pick::Old)?;
    if !was_stopped {
        return Ok(false);
    }
    for pick in PICKS {
        let (mut left, _) = recover(alloc, disk, passing, pick)?;
        if different_blocks(&mut old, &mut left) > 0 {
            judge(rt, alloc, left, trial, answered, stops)?;
        }
    }
    judge(rt, alloc, old, trial, answered, stops)?;
    Ok(true)
}

/// Stops the recovery of a disk at each of its calls.
fn stop_recoveries(
    rt: &impl Print,
    alloc: Global,
    disk: &mut MemDisk,
    trial: Trial<'_>,
    answered: usize,
    stops: &mut Stops,
) -> Result<()> {
    for passing in 0..MOST_CALLS {
        if !stop_recovery(rt, alloc, disk, passing, trial, answered, stops)? {
            return Ok(());
        }
    }
    stops.miss(); // a recovery that doesn't end
    Ok(())
}

/// Plays the lines of a row over a disk that fails after `passing` calls.
fn play_failing(
    rt: &impl Print,
    alloc: Global,
    trial: Trial<'_>,
    passing: u64,
    fail: Fail,
) -> Result<Left> {
    let mut disk = disk_of(alloc, trial.row, 0)?;
    forget_record(&mut disk);
    let mut desk = Desk::failing(alloc)?;
    let fused = FuseDisk::new(disk, passing, fail);
    let disk = play_over(rt, &mut desk, fused, trial.stopped)?.into_inner();
    Ok(Left {
        disk,
        answered: desk.answered,
        has_failed: desk.has_failed,
        mistakes: desk.mistakes,
    })
}

/// Stops the lines of a row after `passing` calls of the disk, by a crash with this pick.
fn crash_lines(
    rt: &impl Print,
    alloc: Global,
    trial: Trial<'_>,
    passing: u64,
    pick: Pick,
    stops: &mut Stops,
) -> Result<()> {
    let Left {
        mut disk,
        answered,
        ..
    } = play_failing(rt, alloc, trial, passing, Fail::One)?;
    disk.crash(pick);
    stop_recoveries(rt, alloc, &mut disk, trial, answered, stops)?;
    judge(rt, alloc, disk, trial, answered, stops)
}

/// Stops the lines of a row after `passing` calls of the disk: after it has failed it isn't called any more, whether it
/// would serve or not. Returns whether they were stopped.
fn stop_lines(
    rt: &impl Print,
    alloc: Global,
    trial: Trial<'_>,
    passing: u64,
    stops: &mut Stops,
) -> Result<bool> {
    let mut failing = play_failing(rt, alloc, trial, passing, Fail::All)?;
    let mut serving = play_failing(rt, alloc, trial, passing, Fail::One)?;
    if failing.mistakes.saturating_add(serving.mistakes) > 0
        || different_blocks(&mut failing.disk, &mut serving.disk) > 0
    {
        stops.miss();
    }
    if failing.has_failed && trial.manner == Manner::Stops {
        for pick in PICKS {
            crash_lines(rt, alloc, trial, passing, pick, stops)?;
        }
    } else {
        judge(rt, alloc, serving.disk, trial, serving.answered, stops)?;
    }
    Ok(failing.has_failed)
}

/// Plays a row whose lines up to its RESTART are stopped at each call of the disk. If they are stopped by a crash, each
/// recovery after that is stopped at each of its own calls, whatever the crashes leave of the open blocks.
pub fn play_stops(rt: &impl Print, alloc: Global, row: &Row, manner: Manner) -> Result<Stops> {
    let mut sections = row.lines().split(|line| line.as_str() == "RESTART");
    let trial = Trial {
        row,
        stopped: sections.next().unwrap_or(&[]),
        telling: sections.next().unwrap_or(&[]),
        manner,
    };
    let mut stops = Stops {
        starts: 0,
        mistakes: 0,
    };
    for passing in 0..MOST_CALLS {
        if !stop_lines(rt, alloc, trial, passing, &mut stops)? {
            return Ok(stops);
        }
    }
    stops.miss(); // the lines don't come to their end
    Ok(stops)
}
