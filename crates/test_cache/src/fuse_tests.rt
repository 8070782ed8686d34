//! Tests of a disk that fails on purpose.
use crate::asking::{Asked, expect_calls, numbered};
use blockdisk::{Fail as Failing, Fault, FuseDisk};
use std::test::Fail;

#[test]
fn one_call_fails_or_all(rt: HostRuntime) -> Result<(), Fail> {
    let device = Err(Fault::Device);
    for passing in 0..3 {
        let mut calls = [
            (Asked::Read(20), Ok(20)),
            (Asked::Write(20, 7), Ok(0)),
            (Asked::Sync, Ok(0)),
            (Asked::Read(20), Ok(7)),
            (Asked::Read(19), Err(Fault::Damaged)),
        ];
        calls[passing].1 = device;
        let disk = numbered(&rt, rt.alloc(), Some(19))?;
        let mut fused = FuseDisk::new(disk, passing as u64, Failing::One);
        expect_calls(&rt, &mut fused, &calls);
        let under = [(Asked::Read(20), Ok(7))];
        expect_calls(&rt, &mut fused.into_inner(), &under);
    }
    let calls = [
        (Asked::Read(19), Err(Fault::Damaged)),
        (Asked::Sync, Ok(0)),
        (Asked::Read(20), device),
        (Asked::Write(20, 7), device),
        (Asked::Write(21, 8), device),
        (Asked::Sync, device),
        (Asked::Read(20), device),
    ];
    let disk = numbered(&rt, rt.alloc(), Some(19))?;
    let mut fused = FuseDisk::new(disk, 2, Failing::All);
    expect_calls(&rt, &mut fused, &calls);
    // Both writes were made all the same.
    let under = [(Asked::Read(20), Ok(7)), (Asked::Read(21), Ok(8))];
    expect_calls(&rt, &mut fused.into_inner(), &under);
    Ok(())
}
