//! Sessions and scripts over readers and writers that fail or work in small pieces.
use crate::service::{Language, counted, drop_monitor, serve, started};
use commands::{SessionError, Tally};
use std::alloc::Global;
use std::io::{self, ErrorKind, Read, Write};
use std::process::Abort;
use std::test::Fail;

/// A reader that returns the bytes of an input a few at a time, and fails at its end if it has a fault.
#[derive(Drop)]
struct Pieces<'a> {
    rest: &'a [u8],
    size: usize,
    fault: Option<ErrorKind>,
}

impl Read for Pieces<'_> {
    fn read(&mut self, bytes: &mut [u8]) -> io::Result<usize> {
        let count = self.rest.len().min(self.size).min(bytes.len());
        if let (0, Some(kind)) = (count, self.fault) {
            return Err(io::Error::from(kind));
        }
        let (piece, rest) = self.rest.split_at(count);
        bytes[..count].copy_from_slice(piece);
        self.rest = rest;
        Ok(count)
    }
}

/// A writer that takes `room` bytes, a few at a time, and then fails, or takes none.
#[derive(Drop)]
struct Narrow {
    bytes: Vec<u8>,
    size: usize,
    room: usize,
    fault: Option<ErrorKind>,
}

impl Write for Narrow {
    fn write(&mut self, bytes: &[u8]) -> io::Result<usize> {
        let count = bytes.len().min(self.size).min(self.room);
        if let (0, Some(kind)) = (count, self.fault) {
            return Err(io::Error::from(kind));
        }
        self.bytes.extend_from_slice(&bytes[..count])?;
        self.room -= count;
        Ok(count)
    }

    fn flush(&mut self) -> io::Result<()> {
        Ok(())
    }
}

/// A writer that takes all bytes, and counts them and the calls.
#[derive(Drop)]
struct Counter {
    calls: u32,
    bytes: usize,
}

impl Write for Counter {
    fn write(&mut self, bytes: &[u8]) -> io::Result<usize> {
        self.calls = self.calls.saturating_add(1);
        self.bytes = self.bytes.saturating_add(bytes.len());
        Ok(bytes.len())
    }

    fn flush(&mut self) -> io::Result<()> {
        Ok(())
    }
}

/// A stream of `size` bytes at a time, and the fault with which it ends, if it has one.
#[derive(Clone, Copy)]
struct Stream {
    size: usize,
    room: usize,
    fault: Option<ErrorKind>,
}

/// A stream without a fault.
const ENDLESS: Stream = Stream {
    size: 100,
    room: 1000,
    fault: None,
};

/// Checks how lines end that come by one stream, and whose text goes by another, and what text the writer has then.
fn expect_streamed(
    rt: &impl Abort,
    alloc: Global,
    (language, lines): (Language, &[u8]),
    (from, to): (Stream, Stream),
    (text, wanted): (&[u8], Result<Tally, SessionError>),
) -> Result<(), Fail> {
    let mut reader = Pieces {
        rest: lines,
        size: from.size,
        fault: from.fault,
    };
    let mut writer = Narrow {
        bytes: Vec::new(alloc),
        size: to.size,
        room: to.room,
        fault: to.fault,
    };
    let Some(mut monitor) = started(alloc, 64)? else {
        panic!(rt; "the image is refused");
    };
    let served = serve(alloc, &mut monitor, language, &mut reader, &mut writer);
    drop_monitor(monitor);
    assert!(rt; served == wanted);
    assert!(rt; writer.bytes.as_slice() == text);
    Ok(())
}

/// Checks that lines that come `size` bytes at a time are answered by this many writes, and this many bytes.
fn expect_writes(
    rt: &impl Abort,
    alloc: Global,
    (language, lines): (Language, &[u8]),
    size: usize,
    (calls, bytes): (u32, usize),
) -> Result<(), Fail> {
    let mut reader = Pieces {
        rest: lines,
        size,
        fault: None,
    };
    let mut writer = Counter { calls: 0, bytes: 0 };
    let Some(mut monitor) = started(alloc, 64)? else {
        panic!(rt; "the image is refused");
    };
    let _served = serve(alloc, &mut monitor, language, &mut reader, &mut writer);
    drop_monitor(monitor);
    assert_eq!(rt; (writer.calls, writer.bytes), (calls, bytes));
    Ok(())
}

const LINES: &[u8] = b"LOGIN [10,20]\nTYPE FOO.TXT\nDIR\n";

const TEXT: &[u8] = b"Job 1 [10,20]\nHELLO\r\n?Command error\n";

const ORDERS: &[u8] = b"1 LOGIN 10,20 1000\n1 RESET\n1 EXA 0";

/// Checks that the same is printed whatever pieces are read and written.
#[test]
fn small_pieces(rt: HostRuntime) -> Result<(), Fail> {
    let tally = counted(1, 3, false);
    for size in [1, 2, 7, 13, 300] {
        let stream = Stream { size, ..ENDLESS };
        let lines = (Language::Session, LINES);
        expect_streamed(&rt, rt.alloc(), lines, (stream, stream), (TEXT, Ok(tally)))?;
    }
    Ok(())
}

/// Checks that the texts of all lines that end in one read are written by one call, that a read in which no line ends
/// makes no write, and that texts of more than 64 KiB are written before all lines of a piece are answered, with none
/// lost.
#[test]
fn one_write_for_each_read(rt: HostRuntime) -> Result<(), Fail> {
    for (size, calls) in [(31, 1), (14, 3), (13, 2), (1, 3)] {
        let writes = (calls, TEXT.len());
        expect_writes(&rt, rt.alloc(), (Language::Session, LINES), size, writes)?;
    }
    expect_writes(&rt, rt.alloc(), (Language::Script, ORDERS), 100, (2, 29))?;
    let mut lines = Vec::new(rt.alloc());
    lines.extend_from_slice(b"LOGIN [10,20]\nCOPY A=FOO.TXT\nCOPY B=FOO.TXT\nCOPY C=FOO.TXT\n")?;
    for _ in 0..400 {
        lines.extend_from_slice(b"DIRECTORY\n")?;
    }
    let input = (Language::Session, lines.as_slice());
    expect_writes(&rt, rt.alloc(), input, 5000, (2, 72823))?;
    expect_writes(&rt, rt.alloc(), input, 10, (404, 72823))
}

/// Checks what a writer has that takes ten or seven bytes and then fails, takes none, or is interrupted.
#[test]
fn a_writer_fails(rt: HostRuntime) -> Result<(), Fail> {
    for fault in [Some(ErrorKind::Other), Some(ErrorKind::Interrupted), None] {
        let to = Stream {
            size: 4,
            room: 10,
            fault,
        };
        let text = b"Job 1 [10,".as_slice();
        let lines = (Language::Session, LINES);
        let ended = (text, Err(SessionError::Write));
        expect_streamed(&rt, rt.alloc(), lines, (ENDLESS, to), ended)?;
        let to = Stream { room: 7, ..to };
        let lines = (Language::Script, ORDERS);
        let ended = (b"DONE\nDO".as_slice(), Err(SessionError::Write));
        expect_streamed(&rt, rt.alloc(), lines, (ENDLESS, to), ended)?;
    }
    Ok(())
}

/// Checks that, if a reader fails in a line, the lines before it are answered, and it is not.
#[test]
fn a_reader_fails(rt: HostRuntime) -> Result<(), Fail> {
    for kind in [ErrorKind::Other, ErrorKind::Interrupted] {
        let from = Stream {
            size: 3,
            room: 0,
            fault: Some(kind),
        };
        let lines = (Language::Session, &LINES[..26]);
        let ended = (b"Job 1 [10,20]\n".as_slice(), Err(SessionError::Read));
        expect_streamed(&rt, rt.alloc(), lines, (from, ENDLESS), ended)?;
        let lines = (Language::Script, ORDERS);
        let ended = (b"DONE\nDONE\n".as_slice(), Err(SessionError::Read));
        expect_streamed(&rt, rt.alloc(), lines, (from, ENDLESS), ended)?;
    }
    Ok(())
}
