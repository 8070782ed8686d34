//! Tests of a list of events that writes a file, and of a start after a crash.
use crate::service::{drop_monitor, start};
use blockdisk::MemDisk;
use monitor::{Monitor, start_after_crash};
use spec_machine::{Call, Event, Reply};
use std::alloc::Global;
use std::process::Abort;
use std::test::Fail;
use test_support::{owner, v1, word};
use words36::Moment;

/// Returns whether these events are answered with these replies.
fn serves(
    monitor: &mut Monitor<MemDisk>,
    alloc: Global,
    events: &[Event],
    wanted: &[Reply],
) -> bool {
    match monitor.serve(alloc, events) {
        Ok(replies) => replies.as_slice() == wanted,
        Err(_no_memory) => false,
    }
}

/// Returns the event that puts a word into the core of job 1.
fn put(address: u32, number: u64) -> Event {
    Event::Deposit(1, address, word(number))
}

/// Returns the event by which job 1 makes a call, at 0:17 of 4-Jan-75.
fn call(rt: &impl Abort, call: Call) -> Event {
    Event::Call(1, call, Moment::new(4095, 17).expect(rt, "a moment"))
}

/// Returns the events by which job 1 logs in, which nobody has done before, and fills its core: a dump mode OPEN at
/// 200, BAR.TXT at 300, a list at 400 that names the words 500 and 501.
fn ready(rt: &impl Abort) -> [Event; 10] {
    [
        put(0, 1),
        call(rt, Call::Reset),
        Event::Login(1, owner(), 0o1000),
        put(0o200, 0o17),
        put(0o201, 0o446353000000),
        put(0o300, 0o424162000000),
        put(0o301, 0o647064000000),
        put(0o400, 0o777776000477),
        put(0o500, 0o123456654321),
        put(0o501, 7),
    ]
}

/// Checks that BAR.TXT is written and closed, with an OPEN and a RELEAS between that are refused.
fn write_bar(rt: &impl Abort, monitor: &mut Monitor<MemDisk>, alloc: Global) {
    let events = [
        call(rt, Call::Open(3, 0o200)),
        call(rt, Call::Enter(3, 0o300)),
        call(rt, Call::Out(3, 0o400)),
        call(rt, Call::Open(3, 0o200)),
        call(rt, Call::Close(3, 0)),
        call(rt, Call::Releas(3)),
        call(rt, Call::Releas(3)),
    ];
    let wanted = [
        Reply::Done,
        Reply::Done,
        Reply::Done,
        Reply::Refused(5),
        Reply::Done,
        Reply::Done,
        Reply::NoChannel,
    ];
    assert!(rt; serves(monitor, alloc, &events, &wanted));
    assert_eq!(rt; monitor.room(), 43);
}

/// Checks a list that writes and closes BAR.TXT.
#[test]
fn a_file_is_written_by_a_list(rt: HostRuntime) -> Result<(), Fail> {
    let disk = v1(rt.alloc(), 32)?;
    let mut monitor = start(&rt, rt.alloc(), disk);
    let mut wanted = [Reply::Done; 10];
    wanted[0] = Reply::NoJob;
    wanted[1] = Reply::NoJob;
    assert!(rt; serves(&mut monitor, rt.alloc(), &ready(&rt), &wanted));
    write_bar(&rt, &mut monitor, rt.alloc());
    drop_monitor(monitor);
    Ok(())
}

/// Starts what a crash left of a disk, and returns the number of blocks that are left; none if it is refused.
fn room_after_crash(alloc: Global, stopped: &MemDisk, left: MemDisk) -> Option<i64> {
    let monitor = start_after_crash(alloc, stopped, left).ok()?;
    let room = monitor.room();
    drop_monitor(monitor);
    Some(room)
}

/// Checks a start over what a crash left: here all that was written.
#[test]
fn a_crash_is_started_after(rt: HostRuntime) -> Result<(), Fail> {
    let stopped = v1(rt.alloc(), 1)?;
    let left = v1(rt.alloc(), 1)?;
    assert!(rt; room_after_crash(rt.alloc(), &stopped, left) == Some(45));
    Ok(())
}
