//! Long lines, the tally of refused lines, and the texts of refusals.
use crate::service::{Language, counted, printed};
use commands::refusal;
use spec_machine::Reply;
use std::alloc::Global;
use std::process::Abort;
use std::test::Fail;
use words36::Word;

/// Checks what `LOGIN` prints with this many blanks before the number, and this end after it.
fn expect_long_line(
    rt: &impl Abort,
    alloc: Global,
    blanks: usize,
    end: &[u8],
    text: &[u8],
) -> Result<(), Fail> {
    let mut lines = Vec::new(alloc);
    lines.extend_from_slice(b"LOGIN")?;
    for _ in 0..blanks {
        lines.push(b' ')?;
    }
    lines.extend_from_slice(b"[10,20]")?;
    lines.extend_from_slice(end)?;
    let (found, _tally) = printed(rt, alloc, 64, Language::Session, lines.as_slice())?;
    assert!(rt; found.as_slice() == text, "of {blanks} blanks: {found:?}");
    Ok(())
}

/// Checks that a line has at most 255 bytes, a carriage return counted.
#[test]
fn long_lines(rt: HostRuntime) -> Result<(), Fail> {
    let job = b"Job 1 [10,20]\n".as_slice();
    let wrong = b"?Command error\n".as_slice();
    for (blanks, end, text) in [
        (243, b"\n".as_slice(), job),
        (242, b"\r\n", job),
        (243, b"", job),
        (244, b"\n", wrong),
        (243, b"\r\n", wrong),
        (
            600,
            b"\nLOGIN [10,20]\n",
            b"?Command error\nJob 1 [10,20]\n",
        ),
    ] {
        expect_long_line(&rt, rt.alloc(), blanks, end, text)?;
    }
    Ok(())
}

/// Checks what lines print, and what is counted: how many were refused, which is the first, and whether one met a
/// fault.
fn expect_counted(
    rt: &impl Abort,
    alloc: Global,
    (calls, language): (usize, Language),
    (lines, text): (&[u8], &[u8]),
    (count, first, broke): (u64, u64, bool),
) -> Result<(), Fail> {
    let (found, tally) = printed(rt, alloc, calls, language, lines)?;
    assert!(rt; found.as_slice() == text, "{found:?}");
    assert!(rt; tally == counted(count, first, broke));
    Ok(())
}

/// Checks how many lines of a session were refused, and which. The RESET at its end isn't counted.
#[test]
fn session_tallies(rt: HostRuntime) -> Result<(), Fail> {
    for (calls, lines, text, tally) in [
        (
            64,
            b"LOGIN [10,20]\nTYPE FOO.TXT\n".as_slice(),
            b"Job 1 [10,20]\nHELLO\r\n".as_slice(),
            (0, 0, false),
        ),
        (
            64,
            b"LOGIN [10,20]\nTYPE FOO\nDIR",
            b"Job 1 [10,20]\n?File not found\n?Command error\n",
            (2, 2, false),
        ),
        (
            1,
            b"LOGIN [10,20]\nDELETE FOO.TXT\nDIRECTORY\n",
            b"Job 1 [10,20]\n?Device fault\n?Service stopped\n",
            (2, 2, true),
        ),
    ] {
        expect_counted(
            &rt,
            rt.alloc(),
            (calls, Language::Session),
            (lines, text),
            tally,
        )?;
    }
    Ok(())
}

/// Checks how many lines of a script were refused, and which.
#[test]
fn script_tallies(rt: HostRuntime) -> Result<(), Fail> {
    for (calls, lines, text, tally) in [
        (
            64,
            b"1 login 10,20 1000\r\n\n1 DEP 200 17\n1 EXA 200".as_slice(),
            b"DONE\nDONE\nVALUE 000000000017\n".as_slice(),
            (0, 0, false),
        ),
        (64, b"1 RESET\n", b"NOJOB\n", (1, 1, false)),
        (
            1,
            b"1 LOGIN 1,2 1000\n1 DEP 300 000011000005\n1 MAKDIR 300\n1 RESET\n",
            b"DONE\nDONE\nDEVICE\nFAILED\n",
            (2, 3, true),
        ),
    ] {
        expect_counted(
            &rt,
            rt.alloc(),
            (calls, Language::Script),
            (lines, text),
            tally,
        )?;
    }
    Ok(())
}

/// Checks what a refused call prints.
#[test]
fn refusals(rt: HostRuntime) {
    for (reply, text) in [
        (Reply::Refused(0), "?File not found"),
        (Reply::Refused(1), "?No such directory"),
        (Reply::Refused(2), "?Protection failure"),
        (Reply::Refused(3), "?File being modified"),
        (Reply::Refused(4), "?File name already exists"),
        (Reply::Refused(5), "?Illegal sequence"),
        (Reply::Refused(0o14), "?No room"),
        (Reply::Refused(0o22), "?Directory not empty"),
        (Reply::Stopped(0o040017), "?No room"),
        (Reply::NoJob, "?Not logged in"),
        (Reply::NoMemory, "?No memory"),
        (Reply::Device, "?Device fault"),
        (Reply::Failed, "?Service stopped"),
        (Reply::DateRange, "?Date out of range"),
        (Reply::Value(Word::ZERO), "?Illegal sequence"),
    ] {
        assert_eq!(rt; refusal(&reply), text);
    }
}
