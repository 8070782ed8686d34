//! Tests of an image of which blocks are read ahead.
use crate::image_tests::{disk_over, expect_block, expect_write};
use blockdisk::{Disk, Fault};
use imagefile::{AssumedImage, Form, HostCalls, HostFile, ImageDisk, SeekingFile, SyncData};
use std::alloc::Global;
use std::io::{self, Read, Seek, SeekFrom, Write};
use std::process::Abort;
use std::test::Fail;
use test_support::filled;
use words36::{block_to_bytes, block_to_nine};

/// The number of blocks of the image.
const BLOCKS: u32 = 64;

/// A file of the standard library over a list of bytes, of which those from place `bad` to `good` can't be read: a
/// read that begins there fails, and one that reaches them comes back short, or fails if it has to be `whole`. Each
/// call fails if there is no turn left.
#[derive(Drop)]
struct Spoiled {
    bytes: Vec<u8>,
    bad: usize,
    good: usize,
    whole: bool,
    at: usize,
    turns: usize,
}

impl Spoiled {
    fn turn(&mut self) -> io::Result<()> {
        self.turns = self
            .turns
            .checked_sub(1)
            .ok_or(io::Error::from(io::ErrorKind::Other))?;
        Ok(())
    }

    /// Returns where a read of this number of bytes ends.
    fn read_end(&self, count: usize) -> io::Result<usize> {
        let end = self.at.saturating_add(count).min(self.bytes.len());
        if end <= self.bad || self.good <= self.at {
            return Ok(end);
        }
        if self.at < self.bad && !self.whole {
            return Ok(self.bad);
        }
        Err(io::Error::from(io::ErrorKind::Other))
    }
}

impl Read for Spoiled {
    fn read(&mut self, buf: &mut [u8]) -> io::Result<usize> {
        self.turn()?;
        let end = self.read_end(buf.len())?;
        let count = end.saturating_sub(self.at).min(buf.len());
        for place in 0..count {
            if let Some(to) = buf.get_mut(place) {
                let from = self.bytes.get(self.at.saturating_add(place));
                *to = from.copied().unwrap_or(0);
            }
        }
        self.at = self.at.saturating_add(count);
        Ok(count)
    }
}

impl Write for Spoiled {
    fn write(&mut self, buf: &[u8]) -> io::Result<usize> {
        self.turn()?;
        let count = self.bytes.len().saturating_sub(self.at).min(buf.len());
        for place in 0..count {
            if let Some(to) = self.bytes.get_mut(self.at.saturating_add(place)) {
                *to = buf.get(place).copied().unwrap_or(0);
            }
        }
        self.at = self.at.saturating_add(count);
        Ok(count)
    }

    fn flush(&mut self) -> io::Result<()> {
        Ok(())
    }
}

impl Seek for Spoiled {
    fn seek(&mut self, to: SeekFrom) -> io::Result<u64> {
        self.turn()?;
        self.at = match to {
            SeekFrom::Start(at) => at as usize,
            _ => self.bytes.len(),
        };
        Ok(self.at as u64)
    }
}

impl SyncData for Spoiled {
    ghost was_synced = { λ before after done. Unit {0} };

    fn sync_data(&mut self) -> io::Result<()> {
        self.turn()
    }
}

/// Such a file as an image.
type SpoiledDisk = ImageDisk<HostFile<SeekingFile<HostCalls<Spoiled>>>>;

/// Returns an image of 64 blocks, each filled with its number, of which these can't be read, with buffers.
fn image_with_bad_bytes(
    rt: &impl Abort,
    alloc: Global,
    form: Form,
    bad: (u32, u32),
    whole: bool,
    turns: usize,
) -> Result<SpoiledDisk, Fail> {
    let mut bytes = Vec::new(alloc);
    for n in 0..BLOCKS {
        let block = filled(u64::from(n));
        match form {
            Form::Wide => bytes.extend_from_slice(&block_to_bytes(&block))?,
            Form::Packed => bytes.extend_from_slice(&block_to_nine(&block))?,
        }
    }
    let size = form.block_bytes() as usize;
    let calls = HostCalls::new(Spoiled {
        bytes,
        bad: bad.0 as usize * size,
        good: bad.1 as usize * size,
        whole,
        at: 0,
        turns,
    });
    let file = HostFile::new(SeekingFile::new(calls, AssumedImage::any()));
    Ok(disk_over(rt, file, form).with_room(alloc))
}

/// Checks that a block has its number, or that the device fails at it.
fn expect_number<D: Disk>(rt: &impl Abort, disk: &mut D, n: u32, is_good: bool) {
    let wanted = if is_good {
        Ok(filled(u64::from(n)))
    } else {
        Err(Fault::Device)
    };
    expect_block(rt, disk, n, wanted);
}

/// Blocks 20 and 21 can't be read, and all around them can, in whatever order they are read.
#[test]
fn bad_neighbours(rt: HostRuntime) -> Result<(), Fail> {
    for (form, whole) in [
        (Form::Wide, false),
        (Form::Wide, true),
        (Form::Packed, false),
        (Form::Packed, true),
    ] {
        for step in [1, 3, 63] {
            let mut disk = image_with_bad_bytes(
                &rt,
                rt.alloc(),
                form,
                (20, 22),
                whole,
                usize::MAX,
            )?;
            for turn in 0..2 * BLOCKS {
                let n = turn * step % BLOCKS;
                expect_number(&rt, &mut disk, n, n != 20 && n != 21);
            }
            assert!(rt; disk.blocks() == BLOCKS);
            assert_eq!(rt; disk.verify(0, 20), Ok(None));
            assert_eq!(rt; disk.verify(22, BLOCKS), Ok(None));
            assert_eq!(rt; disk.verify(19, 21), Err(Fault::Device));
        }
    }
    Ok(())
}

/// Five calls are made: for the length, to go to block 29, for it and block 30, for the length once more, and for the
/// sync. After a sync that failed nobody knows what the file holds.
#[test]
fn blocks_in_a_buffer(rt: HostRuntime) -> Result<(), Fail> {
    for (turns, is_synced) in [(5, true), (4, false)] {
        let mut disk = image_with_bad_bytes(&rt, rt.alloc(), Form::Wide, (0, 0), false, turns)?;
        expect_number(&rt, &mut disk, 30, true);
        expect_number(&rt, &mut disk, 29, true);
        let synced = if is_synced {
            Ok(())
        } else {
            Err(Fault::Device)
        };
        assert_eq!(rt; disk.sync(), synced);
        expect_number(&rt, &mut disk, 29, is_synced);
        expect_number(&rt, &mut disk, 31, false);
    }
    Ok(())
}

/// A block that was read ahead is read as it was written since, alone or in a run.
#[test]
fn writes_beside_a_buffer(rt: HostRuntime) -> Result<(), Fail> {
    for form in [Form::Wide, Form::Packed] {
        let mut disk = image_with_bad_bytes(&rt, rt.alloc(), form, (0, 0), false, usize::MAX)?;
        expect_number(&rt, &mut disk, 30, true);
        expect_write(&rt, &mut disk, 29, 7, Ok(()));
        expect_block(&rt, &mut disk, 29, Ok(filled(7)));
        expect_number(&rt, &mut disk, 40, true);
        assert!(rt; disk.blocks() == BLOCKS);
        assert_eq!(rt; disk.write_run(38, &[filled(8); 2]), Ok(()));
        expect_block(&rt, &mut disk, 39, Ok(filled(8)));
        expect_number(&rt, &mut disk, 40, true);
        expect_number(&rt, &mut disk, 63, true);
    }
    Ok(())
}

/// Three calls are made, for the length, to go to block 29, and for it and block 30; the write fails. The buffer
/// doesn't hide what it left.
#[test]
fn a_failed_write_beside_a_buffer(rt: HostRuntime) -> Result<(), Fail> {
    let mut disk = image_with_bad_bytes(&rt, rt.alloc(), Form::Wide, (0, 0), false, 3)?;
    expect_number(&rt, &mut disk, 30, true);
    expect_write(&rt, &mut disk, 29, 7, Err(Fault::Device));
    expect_number(&rt, &mut disk, 29, false);
    Ok(())
}
