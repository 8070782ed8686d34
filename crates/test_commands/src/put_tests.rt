//! Puts that the device stops.
use crate::service::start;
use blockdisk::{Disk, MemDisk, NoMemory};
use commands::{Encoding, Existing, Monitor, PutFile, get, put};
use std::alloc::Global;
use std::process::Abort;
use std::test::Fail;
use test_support::{filled, foo, owner, v1};
use words36::Moment;

/// The bytes of FOO.TXT on the image.
const OLD: &[u8] = b"HELLO\r\n";

/// The number of writes and syncs that a start and a put of two blocks make: the start syncs, each block is written,
/// and a publication makes 8 writes and 4 syncs.
const WHOLE: usize = 1 + 2 + 8 + 4;

/// The put counts if the disk takes more than this many of them: then its log is on the disk, and the gate is open.
const COUNTS: usize = 1 + 2 + 5;

/// Puts FOO.TXT of [10,20] with these bytes, and checks what is printed.
fn put_foo(
    rt: &impl Abort,
    alloc: Global,
    monitor: &mut Monitor<MemDisk>,
    text: &[u8],
    printed: &[u8],
) {
    let moment = Moment::new(0, 0).unwrap();
    let file = PutFile {
        owner: owner(),
        name: foo(),
        encoding: Encoding::Characters,
        existing: Existing::Replace,
    };
    let mut reader = text;
    let mut writer = Vec::new(alloc);
    let _ = put(alloc, &mut reader, &mut writer, monitor, moment, &file);
    assert!(rt; writer.as_slice() == printed, "{writer:?}");
}

/// Checks that FOO.TXT of [10,20] has these bytes.
fn expect_foo(rt: &impl Abort, alloc: Global, monitor: &mut Monitor<MemDisk>, text: &[u8]) {
    let moment = Moment::new(0, 0).unwrap();
    let mut writer = Vec::new(alloc);
    let _ = get(
        alloc,
        &mut writer,
        monitor,
        moment,
        owner(),
        Encoding::Characters,
        foo(),
    );
    assert!(rt; writer.as_slice() == text, "{writer:?}");
}

/// Makes a put on a disk that takes `calls` writes and syncs, and checks that the next start finds the old file or the
/// new one.
fn stop_after(rt: &impl Abort, alloc: Global, calls: usize, text: &[u8]) -> Result<(), NoMemory> {
    let Some(mut monitor) = start(alloc, v1(alloc, calls)?) else {
        panic!(rt; "the image is refused");
    };
    let printed: &[u8] = if calls == WHOLE {
        b"OK\n"
    } else {
        b"?Device fault\n"
    };
    put_foo(rt, alloc, &mut monitor, text, printed);
    let mut disk = monitor.finish();
    assert!(rt; disk.blocks() == 64);
    disk.load(0, &filled(0)); // this empties the record
    let Some(mut monitor) = start(alloc, disk) else {
        panic!(rt; "what is left is refused");
    };
    expect_foo(
        rt,
        alloc,
        &mut monitor,
        if calls > COUNTS { text } else { OLD },
    );
    let _left = monitor.finish();
    Ok(())
}

/// Checks that a put that the device stops at each write and sync in turn leaves the old file or the new one.
#[test]
fn a_put_that_is_stopped(rt: HostRuntime) -> Result<(), Fail> {
    let text = [b'A'; 700];
    for calls in 1..=WHOLE {
        stop_after(&rt, rt.alloc(), calls, &text)?;
    }
    Ok(())
}
