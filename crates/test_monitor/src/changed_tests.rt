//! Tests of the areas that calls may change.
use crate::service::{drop_monitor, logs_in, start, start_over};
use blockdisk::{MemDisk, NoMemory};
use monitor::{CoreArea, Monitor};
use spec_machine::{Call, Reply};
use std::alloc::Global;
use std::process::Abort;
use std::test::Fail;
use test_support::{FOO, v1, word};
use words36::Moment;

/// The address of the three words of an OPEN.
const DEVICE: u32 = 0o200;

/// The address of the four words of a LOOKUP.
const BLOCK: u32 = 0o300;

/// The header of the ring of an output side, and that of an input side.
const OUTPUT: usize = 0o600;

const INPUT: usize = 0o610;

/// Returns an area of the core.
fn area(first: usize, count: usize) -> CoreArea {
    CoreArea { first, count }
}

/// Returns whether the areas that a call of job 1 may change are these; there is no answer if there is no memory for
/// them.
fn changes(
    monitor: &Monitor<MemDisk>,
    alloc: Global,
    asked: &Call,
    wanted: &[CoreArea],
) -> Option<bool> {
    match monitor.changed_areas(alloc, 1, asked) {
        Ok(areas) => Some(areas.as_slice() == wanted),
        Err(NoMemory) => None,
    }
}

/// Returns whether a call of job 1 is done.
fn is_done(monitor: &mut Monitor<MemDisk>, alloc: Global, asked: &Call) -> bool {
    let Ok(moment) = Moment::new(0, 0) else {
        return false;
    };
    monitor.call(alloc, 1, asked, moment) == Reply::Done
}

/// Checks that a call of job 1 may change these areas, and is done.
fn expect_changed(
    rt: &impl Abort,
    monitor: &mut Monitor<MemDisk>,
    alloc: Global,
    asked: Call,
    wanted: &[CoreArea],
) {
    assert!(rt; changes(monitor, alloc, &asked, wanted) == Some(true));
    assert!(rt; is_done(monitor, alloc, &asked));
}

/// Reads FOO.TXT by a ring that the first IN sets up.
fn read_by_ring(rt: &impl Abort, monitor: &mut Monitor<MemDisk>, alloc: Global) {
    let device = [0o14, 0o446353000000, 0o000600000610].map(word);
    assert!(rt; monitor.deposit_all(1, DEVICE, &device));
    let name = [FOO, 0o647064000000, 0, 0].map(word);
    assert!(rt; monitor.deposit_all(1, BLOCK, &name));
    let headers = [area(OUTPUT, 3), area(INPUT, 3)];
    expect_changed(rt, monitor, alloc, Call::Open(1, DEVICE), &headers);
    let block = [area(BLOCK as usize + 1, 3)];
    expect_changed(rt, monitor, alloc, Call::Lookup(1, BLOCK), &block);
    let first = [area(0o121, 1), area(0o140, 0o406), area(INPUT, 3)];
    expect_changed(rt, monitor, alloc, Call::In(1, 0), &first);
    expect_changed(rt, monitor, alloc, Call::Close(1, 0), &[area(INPUT, 3)]);
}

#[test]
fn areas_of_a_ring(rt: HostRuntime) -> Result<(), Fail> {
    let disk = v1(rt.alloc(), 100)?;
    let mut monitor = start(&rt, rt.alloc(), disk);
    assert!(rt; logs_in(&mut monitor, rt.alloc()));
    read_by_ring(&rt, &mut monitor, rt.alloc());
    drop_monitor(monitor);
    Ok(())
}

/// Asks which areas a RESET may change; after `NoMemory` the next question is answered.
fn ask_again(rt: &impl Abort, monitor: &Monitor<MemDisk>, alloc: Global) {
    let word = [area(0o121, 1)];
    if changes(monitor, alloc, &Call::Reset, &word).is_none() {
        assert!(rt; changes(monitor, alloc, &Call::Reset, &word) == Some(true));
    }
}

/// Checks that a question is answered after `NoMemory`: run with each allocation refused in turn.
#[test]
fn each_allocation_of_areas_refused(rt: HostRuntime) {
    let Ok(disk) = v1(rt.alloc(), 100) else {
        return;
    };
    let Some(mut monitor) = start_over(rt.alloc(), disk) else {
        return;
    };
    if logs_in(&mut monitor, rt.alloc()) {
        ask_again(&rt, &monitor, rt.alloc());
    }
    drop_monitor(monitor);
}
