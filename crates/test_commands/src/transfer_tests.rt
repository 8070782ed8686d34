//! Puts, imports and exports of bytes in each encoding.
use crate::service::{bar, drop_monitor, started};
use blockdisk::MemDisk;
use commands::{
    Encoding, Existing, Export, Exported, Import, Monitor, PutFile, encoding_of, entries, export,
    import, put,
};
use std::alloc::Global;
use std::process::Abort;
use std::test::Fail;
use test_support::{foo, owner};
use words36::{FileName, Moment};

type Service = Monitor<MemDisk>;

/// A file's text as it is exported, in its encoding, or that it has no bytes or was refused.
#[derive(Clone, Copy)]
enum Wanted<'a> {
    Text(&'a [u8]),
    Words(&'a [u8]),
    Octets(&'a [u8]),
    NotBytes,
    Refused,
}

/// Nine bytes, some of which aren't characters.
const BYTES: [u8; 9] = [0, 1, 255, 4, 128, 0, 0, 9, 0];

/// A word that no characters and no bytes have, since bit 35 is set and 9 of its bytes would count; as text it is a
/// line feed.
const WORD: [u8; 8] = [0, 0, 0, 1, 0x40, 0, 0, 9];

fn moment() -> Moment {
    Moment::new(0, 0).unwrap()
}

/// Puts a file, and checks what is printed.
fn expect_put(
    rt: &impl Abort,
    alloc: Global,
    monitor: &mut Service,
    file: &PutFile,
    bytes: &[u8],
    printed: &[u8],
) {
    let mut reader = bytes;
    let mut writer = Vec::new(alloc);
    let _tally = put(alloc, &mut reader, &mut writer, monitor, moment(), file);
    assert!(rt; writer.as_slice() == printed, "{writer:?}");
}

/// Imports BAR from bytes with a label, and checks what is printed.
fn expect_imported(
    rt: &impl Abort,
    alloc: Global,
    monitor: &mut Service,
    encoding: Encoding,
    bytes: &[u8],
    printed: &[u8],
) {
    let file = Import {
        owner: owner(),
        name: bar(),
        encoding,
        moment: moment(),
        label: b"IT ",
        bytes,
    };
    let mut writer = Vec::new(alloc);
    let _tally = import(alloc, &mut writer, monitor, &file);
    assert!(rt; writer.as_slice() == printed, "{writer:?}");
}

/// Checks what was exported.
fn expect_answer(rt: &impl Abort, exported: Exported, wanted: Wanted<'_>) {
    match (exported, wanted) {
        (Exported::File(Encoding::Characters, bytes), Wanted::Text(text)) => {
            assert!(rt; bytes.as_slice() == text, "{bytes:?}");
        }
        (Exported::File(Encoding::Words, bytes), Wanted::Words(words)) => {
            assert!(rt; bytes.as_slice() == words, "{bytes:?}");
        }
        (Exported::File(Encoding::Octets, bytes), Wanted::Octets(octets)) => {
            assert!(rt; bytes.as_slice() == octets, "{bytes:?}");
        }
        (Exported::NotBytes, Wanted::NotBytes) => {}
        (Exported::Refused(_), Wanted::Refused) => {}
        _ => panic!(rt; "another encoding, or none"),
    }
}

/// Exports a file, and checks what that gives.
fn expect_exported(
    rt: &impl Abort,
    alloc: Global,
    monitor: &mut Service,
    (name, mode, encoding): (FileName, u32, Option<Encoding>),
    wanted: Wanted<'_>,
) {
    let file = Export {
        owner: owner(),
        name,
        mode,
        moment: moment(),
        encoding,
    };
    match export(alloc, monitor, &file) {
        Ok(exported) => expect_answer(rt, exported, wanted),
        Err(_) => panic!(rt; "no memory"),
    }
}

/// Checks that the directory has this many files.
fn expect_entries(rt: &impl Abort, alloc: Global, monitor: &mut Service, count: usize) {
    match entries(alloc, monitor, moment(), owner()) {
        Ok(entries) => assert_eq!(rt; entries.len(), count),
        Err(_) => panic!(rt; "the list is refused"),
    }
}

/// Checks that a file is put if there is none of its name, and that an existing one is replaced only on request.
fn check_existing(rt: &impl Abort, alloc: Global, monitor: &mut Service) {
    let new = PutFile {
        owner: owner(),
        name: bar(),
        encoding: Encoding::Characters,
        existing: Existing::Refuse,
    };
    let old = PutFile {
        owner: owner(),
        name: bar(),
        encoding: Encoding::Characters,
        existing: Existing::Replace,
    };
    let exists = b"?File name already exists\n".as_slice();
    expect_put(rt, alloc, monitor, &new, b"ONE", b"OK\n");
    expect_put(rt, alloc, monitor, &new, b"TWO", exists);
    expect_exported(rt, alloc, monitor, (bar(), 0, None), Wanted::Text(b"ONE"));
    expect_put(rt, alloc, monitor, &old, b"TWO", b"OK\n");
    expect_exported(rt, alloc, monitor, (bar(), 0, None), Wanted::Text(b"TWO"));
}

#[test]
fn a_name_that_is_there(rt: HostRuntime) -> Result<(), Fail> {
    let Some(mut monitor) = started(rt.alloc(), 200)? else {
        panic!(rt; "the image is refused");
    };
    check_existing(&rt, rt.alloc(), &mut monitor);
    drop_monitor(monitor);
    Ok(())
}

/// Checks that each import is answered after its label.
fn check_imports(rt: &impl Abort, alloc: Global, monitor: &mut Service, long: &[u8]) {
    let text = Encoding::Characters;
    let exists = b"IT ?File name already exists\n".as_slice();
    expect_imported(rt, alloc, monitor, text, &BYTES, b"IT ?Not ASCII\n");
    expect_imported(rt, alloc, monitor, text, long, b"IT ?No room\n");
    expect_imported(rt, alloc, monitor, text, b"ONE", b"IT OK\n");
    expect_imported(rt, alloc, monitor, text, b"TWO", exists);
    expect_exported(rt, alloc, monitor, (bar(), 0, None), Wanted::Text(b"ONE"));
    expect_entries(rt, alloc, monitor, 2);
}

#[test]
fn imports(rt: HostRuntime) -> Result<(), Fail> {
    let mut long = Vec::new(rt.alloc());
    for _ in 0..160 * 1024 + 1 {
        long.extend_from_slice(&[65; 64])?;
    }
    let Some(mut monitor) = started(rt.alloc(), 200)? else {
        panic!(rt; "the image is refused");
    };
    check_imports(&rt, rt.alloc(), &mut monitor, &long);
    drop_monitor(monitor);
    Ok(())
}

/// Checks that bytes that are imported are exported again.
fn check_returned(rt: &impl Abort, alloc: Global, monitor: &mut Service, bytes: &[u8]) {
    expect_imported(rt, alloc, monitor, Encoding::Octets, bytes, b"IT OK\n");
    expect_exported(
        rt,
        alloc,
        monitor,
        (bar(), 0o17, None),
        Wanted::Octets(bytes),
    );
    let asked = Some(Encoding::Octets);
    expect_exported(rt, alloc, monitor, (bar(), 0, asked), Wanted::Octets(bytes));
}

#[test]
fn bytes_of_each_length(rt: HostRuntime) -> Result<(), Fail> {
    for length in 0..10 {
        let Some(mut monitor) = started(rt.alloc(), 64)? else {
            panic!(rt; "the image is refused");
        };
        check_returned(&rt, rt.alloc(), &mut monitor, &BYTES[..length]);
        drop_monitor(monitor);
    }
    Ok(())
}

/// Exports a file of characters in each encoding, and one that doesn't exist.
fn check_characters(rt: &impl Abort, alloc: Global, monitor: &mut Service) {
    let text = Wanted::Text(b"HELLO\r\n");
    let words = Wanted::Words(b"\0\0\0\x09\x11\x66\x4c\x9e\0\0\0\x01\xa2\x80\0\0");
    expect_exported(rt, alloc, monitor, (foo(), 0, None), text);
    expect_exported(rt, alloc, monitor, (foo(), 1, None), text);
    expect_exported(rt, alloc, monitor, (foo(), 0o17, None), text);
    let asked = Some(Encoding::Octets);
    expect_exported(rt, alloc, monitor, (foo(), 0, asked), Wanted::NotBytes);
    let asked = Some(Encoding::Words);
    expect_exported(rt, alloc, monitor, (foo(), 0, asked), words);
    expect_exported(rt, alloc, monitor, (bar(), 0, None), Wanted::Refused);
}

/// Checks that words that no characters and no bytes have are exported as words.
fn check_words(rt: &impl Abort, alloc: Global, monitor: &mut Service) {
    expect_imported(rt, alloc, monitor, Encoding::Words, &WORD, b"IT OK\n");
    expect_exported(rt, alloc, monitor, (bar(), 0, None), Wanted::Words(&WORD));
    expect_exported(
        rt,
        alloc,
        monitor,
        (bar(), 0o14, None),
        Wanted::Words(&WORD),
    );
    let asked = Some(Encoding::Octets);
    expect_exported(rt, alloc, monitor, (bar(), 0o14, asked), Wanted::NotBytes);
    let asked = Some(Encoding::Characters);
    expect_exported(
        rt,
        alloc,
        monitor,
        (bar(), 0o14, asked),
        Wanted::Text(b"\n\x04"),
    );
}

#[test]
fn exports(rt: HostRuntime) -> Result<(), Fail> {
    let Some(mut monitor) = started(rt.alloc(), 64)? else {
        panic!(rt; "the image is refused");
    };
    check_characters(&rt, rt.alloc(), &mut monitor);
    check_words(&rt, rt.alloc(), &mut monitor);
    drop_monitor(monitor);
    Ok(())
}
