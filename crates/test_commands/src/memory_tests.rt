//! Sessions, scripts, imports and exports with each allocation refused in turn.
use crate::service::{Language, bar, drop_monitor, serve, started};
use blockdisk::MemDisk;
use commands::{Encoding, Export, Exported, Import, Monitor, SessionError, export, import};
use std::alloc::Global;
use std::process::Abort;
use std::test::Fail;
use test_support::{foo, owner};
use words36::Moment;

/// Checks how lines end if an allocation is refused: a line whose calls find no memory prints so, and a text that finds
/// none ends the session after the texts of whole lines.
fn expect_ended(
    rt: &impl Abort,
    alloc: Global,
    language: Language,
    lines: &[u8],
    text: &[u8],
) -> Result<(), Fail> {
    let Ok(mut writer) = Vec::with_capacity(alloc, 200) else {
        return Ok(());
    };
    let Ok(Some(mut monitor)) = started(alloc, 64) else {
        return Ok(());
    };
    let mut reader = lines;
    let served = serve(alloc, &mut monitor, language, &mut reader, &mut writer);
    drop_monitor(monitor);
    match served {
        Ok(tally) => assert!(rt; tally.refused || writer.as_slice() == text, "{writer:?}"),
        Err(error) => {
            assert_eq!(rt; error, SessionError::NoMemory);
            assert!(rt; text.starts_with(&writer), "{writer:?}");
        }
    }
    Ok(())
}

#[test]
fn each_allocation_of_a_session_refused(rt: HostRuntime) -> Result<(), Fail> {
    let lines =
        b"LOGIN [10,20]\nCOPY BAR.TXT=FOO.TXT\nTYPE BAR.TXT\nRENAME BAZ=FOO.TXT\nDIRECTORY\n";
    let mut text = Vec::new(rt.alloc());
    for line in [
        b"Job 1 [10,20]\nOK\nHELLO\r\nOK\n".as_slice(),
        b"BAR    TXT     1  <057>   1-Jan-1964\n",
        b"BAZ            1  <057>   4-Jan-1975\n",
        b"Total 2 blocks in 2 files [10,20]\n",
    ] {
        if text.extend_from_slice(line).is_err() {
            return Ok(());
        }
    }
    expect_ended(&rt, rt.alloc(), Language::Session, lines, &text)
}

#[test]
fn each_allocation_of_a_script_refused(rt: HostRuntime) -> Result<(), Fail> {
    let lines = b"1 LOGIN 10,20 1000\n1 EXA 121\n1 RESET\n";
    let text = b"DONE\nVALUE 000000000140\nDONE\n";
    expect_ended(&rt, rt.alloc(), Language::Script, lines, text)
}

/// Imports BAR from bytes. If memory was refused, that is printed, or nothing is written.
fn expect_imported(rt: &impl Abort, alloc: Global, monitor: &mut Monitor<MemDisk>) {
    let file = Import {
        owner: owner(),
        name: bar(),
        encoding: Encoding::Characters,
        moment: Moment::new(0, 0).unwrap(),
        label: b"BAR ",
        bytes: b"SOME TEXT",
    };
    let mut writer = Vec::new(alloc);
    match import(alloc, &mut writer, monitor, &file) {
        Ok(tally) => {
            let wanted: &[u8] = if tally.refused {
                b"BAR ?No memory\n"
            } else {
                b"BAR OK\n"
            };
            assert!(rt; writer.as_slice() == wanted, "{writer:?}");
        }
        Err(error) => {
            assert!(rt; writer.is_empty());
            assert!(rt; error != SessionError::Read);
        }
    }
}

/// Exports FOO.TXT, and checks that it is whole. If memory was refused, there are no bytes.
fn expect_exported(rt: &impl Abort, alloc: Global, monitor: &mut Monitor<MemDisk>) {
    let file = Export {
        owner: owner(),
        name: foo(),
        mode: 0o17,
        moment: Moment::new(0, 0).unwrap(),
        encoding: None,
    };
    if let Ok(Exported::File(encoding, bytes)) = export(alloc, monitor, &file) {
        assert_eq!(rt; encoding, Encoding::Characters);
        assert!(rt; bytes.as_slice() == b"HELLO\r\n".as_slice(), "{bytes:?}");
    }
}

#[test]
fn each_allocation_of_an_import_and_an_export_refused(rt: HostRuntime) -> Result<(), Fail> {
    let Ok(Some(mut monitor)) = started(rt.alloc(), 64) else {
        return Ok(());
    };
    expect_exported(&rt, rt.alloc(), &mut monitor);
    expect_imported(&rt, rt.alloc(), &mut monitor);
    drop_monitor(monitor);
    Ok(())
}
