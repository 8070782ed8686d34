//! Services over the image of the tests, which is V1.
use blockdisk::{MemDisk, NoMemory};
use commands::{Monitor, Reason, RefusedLines, SessionError, Tally, script, session};
use exchange::serve_wire;
use std::alloc::Global;
use std::io::{Read, Write};
use std::process::Abort;
use std::test::Fail;
use test_support::v1;
use words36::{FileName, Half, Moment, Word};

/// Returns a monitor over a disk, if that is accepted. The contract of `start` stays inside this function: the proofs
/// of the tests are short without it.
pub fn start(alloc: Global, disk: MemDisk) -> Option<Monitor<MemDisk>> {
    Monitor::start(alloc, disk).ok()
}

/// Returns a monitor over the image, or None if a start finds no memory.
pub fn started(alloc: Global, calls: usize) -> Result<Option<Monitor<MemDisk>>, NoMemory> {
    Ok(start(alloc, v1(alloc, calls)?))
}

/// The kind of an input.
#[derive(Clone, Copy)]
pub enum Language {
    Session,
    Script,
    Wire,
}

/// Serves the input of a reader, lines at date 0. The contracts of `session`, `script` and `serve_wire` stay inside
/// this function.
pub fn serve<R: Read, W: Write>(
    alloc: Global,
    monitor: &mut Monitor<MemDisk>,
    language: Language,
    reader: &mut R,
    writer: &mut W,
) -> Result<Tally, SessionError> {
    let Ok(moment) = Moment::new(0, 0) else {
        return Err(SessionError::Read);
    };
    match language {
        Language::Session => session(alloc, reader, writer, monitor, moment),
        Language::Script => script(alloc, reader, writer, monitor, moment),
        Language::Wire => serve_wire(alloc, reader, writer, monitor),
    }
}

/// Returns what this input prints, and what is counted, over the image on a disk that takes `calls` writes and syncs.
pub fn printed(
    rt: &impl Abort,
    alloc: Global,
    calls: usize,
    language: Language,
    lines: &[u8],
) -> Result<(Vec<u8>, Tally), Fail> {
    let Some(mut monitor) = started(alloc, calls)? else {
        panic!(rt; "the image is refused");
    };
    let mut writer = Vec::new(alloc);
    let mut reader = lines;
    let tally = serve(alloc, &mut monitor, language, &mut reader, &mut writer);
    drop_monitor(monitor);
    Ok((writer, tally?))
}

/// Drops a monitor. A function that owns one to its end would have to prove the drop at each of its exits.
pub fn drop_monitor(_monitor: Monitor<MemDisk>) {}

/// Returns the tally of a number of refused lines, the first of which has this number, and of whether a line met a
/// fault.
pub fn counted(count: u64, first: u64, broke: bool) -> Tally {
    let lines = RefusedLines { count, first };
    Tally {
        refused: count > 0,
        broke,
        reason: if count > 0 {
            Some(Reason::Lines(lines))
        } else {
            None
        },
    }
}

/// Returns the name BAR, which isn't on the image.
pub fn bar() -> FileName {
    FileName {
        name: Word::from_bits(0o424162000000),
        ext: Half::from_bits(0),
    }
}
