//! A monitor over a disk in memory, as the tests use it.
use blockdisk::MemDisk;
use monitor::Monitor;
use spec_machine::Reply;
use std::alloc::Global;
use std::process::Abort;
use test_support::owner;

/// The number of words of a core.
pub(crate) const CORE: u32 = 0o40000;

/// Returns a monitor over a disk, if that is accepted. What `Monitor::start` promises stays inside this function:
/// without it the proofs of tests are short.
pub(crate) fn start_over(alloc: Global, disk: MemDisk) -> Option<Monitor<MemDisk>> {
    Monitor::start(alloc, disk).ok()
}

/// Starts a monitor over a disk, which must be accepted.
pub(crate) fn start(rt: &impl Abort, alloc: Global, disk: MemDisk) -> Monitor<MemDisk> {
    let Some(monitor) = start_over(alloc, disk) else {
        panic!(rt; "the disk is refused");
    };
    monitor
}

/// Logs job 1 in as [10,20], and returns whether there is memory for it.
pub(crate) fn logs_in(monitor: &mut Monitor<MemDisk>, alloc: Global) -> bool {
    monitor.login(alloc, 1, owner(), CORE) == Reply::Done
}

/// Drops a monitor. A function that owns one to its end would prove that each time.
pub(crate) fn drop_monitor(_monitor: Monitor<MemDisk>) {}
