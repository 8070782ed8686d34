//! Tests of a system's calls that do less than requested, or fail.
use crate::host_tests::{LENGTH, expect_same, fill};
use blockdisk::Fault;
use imagefile::{AssumedImage, Durable, HostCalls, HostFile, SeekingFile, SyncData};
use std::alloc::{AllocError, Global};
use std::io::{self, Read, Seek, SeekFrom, Write};
use std::process::Abort;
use std::test::Fail;

/// A file of the standard library over a list of bytes. It moves one byte a call, says that it has this length, and
/// fails each call if there is no turn left.
#[derive(Drop)]
struct Sluggish {
    bytes: Vec<u8>,
    length: u64,
    at: u64,
    turns: usize,
}

impl Sluggish {
    fn turn(&mut self) -> io::Result<()> {
        self.turns = self
            .turns
            .checked_sub(1)
            .ok_or(io::Error::from(io::ErrorKind::Other))?;
        Ok(())
    }
}

impl Read for Sluggish {
    fn read(&mut self, buf: &mut [u8]) -> io::Result<usize> {
        self.turn()?;
        match (self.bytes.get(self.at as usize), buf.first_mut()) {
            (Some(&byte), Some(first)) => {
                *first = byte;
                self.at = self.at.saturating_add(1);
                Ok(1)
            }
            _ => Ok(0),
        }
    }
}

impl Write for Sluggish {
    fn write(&mut self, buf: &[u8]) -> io::Result<usize> {
        self.turn()?;
        match (self.bytes.get_mut(self.at as usize), buf.first()) {
            (Some(byte), Some(&first)) => {
                *byte = first;
                self.at = self.at.saturating_add(1);
                Ok(1)
            }
            _ => Ok(0),
        }
    }

    fn flush(&mut self) -> io::Result<()> {
        Ok(())
    }
}

impl Seek for Sluggish {
    fn seek(&mut self, to: SeekFrom) -> io::Result<u64> {
        self.turn()?;
        self.at = match to {
            SeekFrom::Start(at) => at,
            _ => self.length,
        };
        Ok(self.at)
    }
}

impl SyncData for Sluggish {
    ghost was_synced = { λ before after done. Unit {0} };

    fn sync_data(&mut self) -> io::Result<()> {
        self.turn()
    }
}

/// Returns the file of the host that such a file of these bytes is.
fn slow_file(
    alloc: Global,
    bytes: &[u8],
    length: u64,
    turns: usize,
) -> Result<HostFile<SeekingFile<HostCalls<Sluggish>>>, AllocError> {
    let calls = HostCalls::new(Sluggish {
        bytes: Vec::from_slice(alloc, bytes)?,
        length,
        at: 0,
        turns,
    });
    Ok(HostFile::new(SeekingFile::new(calls, AssumedImage::any())))
}

/// Calls that move one byte each answer as a file in memory does.
#[test]
fn calls_that_do_less_than_asked(rt: HostRuntime) -> Result<(), Fail> {
    let mut bytes = [0; LENGTH];
    fill(&mut bytes, 5);
    let mut file = slow_file(rt.alloc(), &bytes, LENGTH as u64, usize::MAX)?;
    let _memory = expect_same(&rt, rt.alloc(), &mut file, &bytes)?;
    Ok(())
}

/// Measures a file of six bytes, writes four of them, syncs the file and reads it, and returns what it read.
fn use_file<F: Durable>(rt: &impl Abort, file: &mut F) -> Result<[u8; 6], Fault> {
    let mut bytes = [9; 6];
    let length = file.len()?;
    assert!(rt; length == 6);
    file.write_at(1, &[1, 2, 3, 4])?;
    file.sync()?;
    file.read_at(0, &mut bytes)?;
    Ok(bytes)
}

/// Fifteen calls are made: one for the length, five for the write, two for the sync, and seven for the read. Each one
/// that fails is a fault of the device.
#[test]
fn each_call_of_the_host_fails(rt: HostRuntime) -> Result<(), Fail> {
    for turns in 0..16 {
        let mut file = slow_file(rt.alloc(), &[0; 6], 6, turns)?;
        let wanted = if turns < 15 {
            Err(Fault::Device)
        } else {
            Ok([0, 1, 2, 3, 4, 0])
        };
        assert!(rt; use_file(&rt, &mut file) == wanted);
        assert!(rt; file.sync() == Err(Fault::Device));
    }
    Ok(())
}

/// Writes over the end of a file of this length, and reads over it.
fn use_end<F: Durable>(rt: &impl Abort, file: &mut F) -> [Result<(), Fault>; 2] {
    assert!(rt; file.len() == Ok(8));
    [file.write_at(4, &[5, 6, 7]), file.read_at(2, &mut [9; 6])]
}

/// A file that is shorter than it said takes nothing at its end, and gives nothing.
#[test]
fn a_file_that_ends_early(rt: HostRuntime) -> Result<(), Fail> {
    let mut file = slow_file(rt.alloc(), &[0; 6], 8, usize::MAX)?;
    assert!(rt; use_end(&rt, &mut file) == [Err(Fault::Device); 2]);
    Ok(())
}
