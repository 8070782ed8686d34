//! A test of words that are put into the core of a job, and shown, at once.
use crate::service::{CORE, drop_monitor, logs_in, start};
use blockdisk::MemDisk;
use monitor::Monitor;
use std::process::Abort;
use std::test::Fail;
use test_support::{v1, word};
use words36::Word;

/// Puts words into the core of job 1 at once, from an address, and returns whether this was done.
fn puts(monitor: &mut Monitor<MemDisk>, first: u32, words: &[Word]) -> bool {
    monitor.deposit_all(1, first, words)
}

/// Returns whether the words of the core of job 1 are these, from an address.
fn shows(monitor: &Monitor<MemDisk>, first: u32, words: &[Word]) -> bool {
    match monitor.examine_all(1, first, words.len()) {
        Some(found) => found == words,
        None => false,
    }
}

/// Checks that three words are put into the last words of the core of job 1, and shown, and that there is no place for
/// them one word later.
fn expect_put(rt: &impl Abort, monitor: &mut Monitor<MemDisk>) {
    let words = [word(0o123456654321), word(7), word(0o777777777777)];
    assert!(rt; puts(monitor, CORE - 3, &words));
    assert!(rt; shows(monitor, CORE - 3, &words));
    assert!(rt; !puts(monitor, CORE - 2, &words));
    assert!(rt; !shows(monitor, CORE - 2, &words));
}

#[test]
fn words_are_put_and_shown_at_once(rt: HostRuntime) -> Result<(), Fail> {
    let disk = v1(rt.alloc(), 8)?;
    let mut monitor = start(&rt, rt.alloc(), disk);
    assert!(rt; logs_in(&mut monitor, rt.alloc()));
    expect_put(&rt, &mut monitor);
    drop_monitor(monitor);
    Ok(())
}
