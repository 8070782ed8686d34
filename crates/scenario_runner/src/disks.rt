//! The disk that a row begins with, and the run of a row over it.
use crate::counting_disk::{Calls, CountingDisk};
use crate::desk::Desk;
use crate::fields::{decimal, decimal_or, octal, octal_or_zero};
use crate::row::{Row, step, without_remark};
use crate::steps::play_steps;
use anyhow::{Result, ensure};
use blockcache::Cached;
use blockdisk::{Disk, MemDisk};
use commands::{Monitor, StartError, Volume};
use std::alloc::Global;
use std::num::NonZeroUsize;
use words36::{BLOCK_WORDS, Block, Moment, Word};

/// The number of blocks in the largest cache.
const MOST_KEPT: usize = 256;

/// The number of writes and syncs that a disk takes if a row doesn't give it.
const CALLS: u32 = 4000;

/// The image that is written out by hand: [10,20] with FOO.TXT of two words.
const WRITTEN: [(u32, &[u64]); 7] = [
    (1, &[0o465154634562, 1, 0o100, 1, 0o11, 0o17]),
    (2, &[0o465154634562, 1, 0o100, 1, 0o11, 0o17]),
    (14, &[0o777777400000]),
    (15, &[0, 1, 0o000010000020, 0o775000000000, 0o20]),
    (16, &[0, 1, 0o465757000000, 0o647064000000, 0o21]),
    (
        17,
        &[
            0o625142000000,
            0o465757000000,
            0o647064000000,
            0o057000007777,
            0o000010000020,
            2,
            1,
            0,
            0,
            0,
            0,
            0,
            0,
            0,
            0,
            0,
            0o000001000022,
        ],
    ),
    (18, &[0o442131446236, 0o064240000000]),
];

/// Puts these words into a block, with zeros after them.
fn put_words(disk: &mut MemDisk, n: u32, words: &[u64]) -> Result<()> {
    let mut block: Block = [Word::ZERO; BLOCK_WORDS];
    for (place, &number) in block.iter_mut().zip(words) {
        *place = Word::new(number).unwrap_or(Word::ZERO);
    }
    ensure!(n < disk.blocks(), "there is no block {n}");
    disk.load(n, &block);
    Ok(())
}

/// Returns a disk of zeros: a line gives its number of blocks, and how many writes and syncs it has room to record.
fn zeros(alloc: Global, fields: &[&str]) -> Result<MemDisk> {
    let blocks = decimal(fields, 1)?;
    let calls = decimal_or(fields, 2, CALLS)?;
    Ok(MemDisk::new(alloc, blocks, calls as usize)?)
}

/// Plays `BLOCK N WORD ..`: gives a block these words, in octal, with zeros after them.
fn put_block(disk: &mut MemDisk, fields: &[&str]) -> Result<()> {
    let mut words = [0; BLOCK_WORDS];
    for (place, word) in words.iter_mut().enumerate() {
        *word = octal_or_zero(fields, place + 2)?;
    }
    put_words(disk, decimal(fields, 1)?, &words)
}

/// Plays `ALL N WORD`: makes each word of a block this one, in octal.
fn put_all(disk: &mut MemDisk, fields: &[&str]) -> Result<()> {
    let words = [octal(fields, 2)?; BLOCK_WORDS];
    put_words(disk, decimal(fields, 1)?, &words)
}

/// Plays `DAMAGE N`: makes a block one without words.
fn damage(disk: &mut MemDisk, fields: &[&str]) -> Result<()> {
    let n = decimal(fields, 1)?;
    ensure!(n < disk.blocks(), "there is no block {n}");
    disk.damage(n);
    Ok(())
}

/// Writes the image that is written out by hand.
fn write_image(disk: &mut MemDisk) -> Result<()> {
    for (n, words) in WRITTEN {
        put_words(disk, n, words)?;
    }
    Ok(())
}

/// Makes a volume in which there is no directory.
fn make_volume(disk: &mut MemDisk) -> Result<()> {
    ensure!(Volume::init(disk).is_ok(), "no volume is made");
    Ok(())
}

/// Does what a line requires of the disk that a row begins with.
fn prepare(alloc: Global, disk: &mut MemDisk, fields: &[&str]) -> Result<()> {
    match fields.first().copied() {
        Some("RAW") => {
            *disk = zeros(alloc, fields)?;
            Ok(())
        }
        Some("VOLUME") => {
            *disk = zeros(alloc, fields)?;
            make_volume(disk)
        }
        Some("WRITTEN") => {
            *disk = zeros(alloc, fields)?;
            write_image(disk)
        }
        Some("BLOCK") => put_block(disk, fields),
        Some("ALL") => put_all(disk, fields),
        Some("DAMAGE") => damage(disk, fields),
        _ => Ok(()),
    }
}

/// Returns the disk that a row begins with.
pub fn disk_of(alloc: Global, row: &Row, alternative: usize) -> Result<MemDisk> {
    let mut disk = MemDisk::new(alloc, 0, 0)?;
    for line in row.lines() {
        let fields: Vec<&str> = without_remark(step(line, alternative))
            .split_whitespace()
            .collect(alloc)?;
        prepare(alloc, &mut disk, &fields)?;
    }
    Ok(disk)
}

/// Returns a monitor over a disk, or why that is refused. The contract of `start` stays inside this function: the
/// proofs of its callers are short without it.
pub fn start_over<D: Disk>(alloc: Global, disk: D) -> Result<Monitor<D>, (StartError, D)> {
    Monitor::start(alloc, disk)
}

/// Plays the lines of a row from one start to the next, over a disk, and returns the disk.
pub fn play_over<D: Disk + Drop>(
    rt: &impl Print,
    desk: &mut Desk,
    disk: D,
    lines: &[String],
) -> Result<D> {
    match start_over(desk.alloc, disk) {
        Ok(mut monitor) => {
            let played = play_steps(rt, &mut monitor, desk, lines);
            let disk = monitor.finish();
            played?;
            Ok(disk)
        }
        Err((error, disk)) => {
            let found = format!(in desk.alloc; "REFUSED {error}")?;
            expect_refusal(rt, desk, found.as_str(), lines)?;
            Ok(disk)
        }
    }
}

/// Checks how the start is refused.
fn expect_refusal(rt: &impl Print, desk: &mut Desk, found: &str, lines: &[String]) -> Result<()> {
    let mut wanted = "";
    for line in lines {
        let line = without_remark(step(line, desk.alternative));
        if line.starts_with("REFUSED") {
            wanted = line;
        }
    }
    desk.expect(rt, "a start", wanted, found)?;
    Ok(())
}

/// Empties the record of a disk: its present blocks become those from its beginning.
pub fn forget_record(disk: &mut MemDisk) {
    if disk.blocks() > 0
        && let Ok(words) = disk.read(0)
    {
        disk.load(0, &words);
    }
}

/// Plays `LEFT N WORD ..`: checks that a block has these words, in octal, with zeros after them.
fn expect_block(
    rt: &impl Print,
    disk: &mut MemDisk,
    desk: &mut Desk,
    line: &str,
    fields: &[&str],
) -> Result<()> {
    let n = decimal(fields, 1)?;
    ensure!(n < disk.blocks(), "there is no block {n}");
    let Ok(block) = disk.read(n) else {
        desk.expect(rt, line, "words", "damage")?;
        return Ok(());
    };
    for (place, word) in block.iter().enumerate() {
        let wanted = format!(in desk.alloc; "{:o}", octal_or_zero(fields, place + 2)?)?;
        let found = format!(in desk.alloc; "{:o}", word.bits())?;
        desk.expect(rt, line, wanted.as_str(), found.as_str())?;
    }
    Ok(())
}

/// Checks the blocks that `LEFT` lines name.
fn expect_left(
    rt: &impl Print,
    disk: &mut MemDisk,
    desk: &mut Desk,
    lines: &[String],
) -> Result<()> {
    for line in lines {
        let line = without_remark(step(line, desk.alternative));
        let fields: Vec<&str> = line.split_whitespace().collect(desk.alloc)?;
        if fields.first().copied() == Some("LEFT") {
            expect_block(rt, disk, desk, line, &fields)?;
        }
    }
    Ok(())
}

/// Prints the number of calls of the disk, for each `COST` line: without a cache, and with the largest.
fn print_costs(
    rt: &impl Print,
    calls: Calls,
    desk: &Desk,
    kept: usize,
    lines: &[String],
) -> Result<()> {
    let Calls {
        reads,
        writes,
        syncs,
    } = calls;
    for line in lines {
        let line = without_remark(step(line, desk.alternative));
        if let Some(label) = line.strip_prefix("COST ") {
            match kept {
                0 => println!(rt; "  {label}: {reads} read, {writes} written, {syncs} syncs")?,
                MOST_KEPT => println!(rt; "  {label}, {kept} blocks kept: {reads} read")?,
                _ => {}
            }
        }
    }
    Ok(())
}

/// Plays the lines of a row from one start to the next over a disk with a cache of `kept` blocks.
fn play_kept(
    rt: &impl Print,
    desk: &mut Desk,
    disk: CountingDisk<MemDisk>,
    kept: usize,
    lines: &[String],
) -> Result<CountingDisk<MemDisk>> {
    let Some(capacity) = NonZeroUsize::new(kept) else {
        return play_over(rt, desk, disk, lines);
    };
    match Cached::new(desk.alloc, disk, capacity) {
        Ok(cached) => Ok(play_over(rt, desk, cached, lines)?.into_inner()),
        Err((error, _disk)) => Err(error.into()),
    }
}

/// Plays a row with one of its alternatives over a disk with a cache of `kept` blocks, and returns the disk that is
/// left.
fn play_row(rt: &impl Print, desk: &mut Desk, row: &Row, kept: usize) -> Result<MemDisk> {
    let mut disk = disk_of(desk.alloc, row, desk.alternative)?;
    desk.moment = Moment::new(0, 0)?;
    for lines in row.lines().split(|line| line.as_str() == "RESTART") {
        forget_record(&mut disk);
        let counted = play_kept(rt, desk, CountingDisk::new(disk), kept, lines)?;
        print_costs(rt, counted.calls(), desk, kept, lines)?;
        disk = counted.into_inner();
        expect_left(rt, &mut disk, desk, lines)?;
    }
    Ok(disk)
}

/// Returns how many blocks of two disks are different.
pub fn different_blocks(one: &mut MemDisk, other: &mut MemDisk) -> u32 {
    let mut count = 0u32;
    for n in 0..one.blocks() {
        if n < one.blocks() && n < other.blocks() && one.read(n) != other.read(n) {
            count = count.saturating_add(1);
        }
    }
    count
}

/// Plays a row with one of its alternatives, without a cache and with caches of one, two and 256 blocks, and checks
/// that the same is left of the disk. Returns how many lines came out otherwise.
pub fn play_once(rt: &impl Print, alloc: Global, row: &Row, alternative: usize) -> Result<u64> {
    let mut desk = Desk::new(alloc, alternative)?;
    let mut plain = play_row(rt, &mut desk, row, 0)?;
    for kept in [1, 2, MOST_KEPT] {
        let mut disk = play_row(rt, &mut desk, row, kept)?;
        let found = format!(in alloc; "{}", different_blocks(&mut plain, &mut disk))?;
        desk.expect(rt, "a cache", "0", found.as_str())?;
    }
    Ok(desk.mistakes)
}
