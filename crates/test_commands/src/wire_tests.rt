//! Exchanges by records.
use crate::service::{Language, drop_monitor, printed, serve, started};
use commands::{SessionError, Tally};
use std::alloc::{AllocError, Global};
use std::process::Abort;
use std::test::Fail;

/// A record: its kind, code, job, channel, number and detail, and the groups of eight bytes after it.
type Record<'a> = (u8, u8, u8, u8, u32, u32, &'a [u64]);

/// The first word of an OPEN in dump mode, and the device.
const OPEN_WORDS: [u64; 3] = [0o17, 0o446353000000, 0];

/// The four words that name BAR.
const NAME_WORDS: [u64; 4] = [0o424162000000, 0, 0, 0];

/// An exchange in which job 1 makes an empty file and looks it up, and then sends a record that is no order.
const ORDERS: [Record<'_>; 11] = [
    (1, 0, 1, 0, 0o1000, 0, &[0o10000020]),
    (2, 0, 1, 0, 0o100, 0, &OPEN_WORDS),
    (2, 0, 1, 0, 0o110, 0, &NAME_WORDS),
    (2, 0, 1, 0, 0o114, 0, &NAME_WORDS),
    (4, 0o50, 1, 1, 0o100, 0, &[]),
    (4, 0o77, 1, 1, 0o110, 0, &[]),
    (4, 0o70, 1, 1, 0, 0, &[]),
    (4, 0o76, 1, 1, 0o114, 0, &[]),
    (3, 0, 1, 0, 0o777, 2, &[]),
    (5, 0, 0, 0, 0, 0, &[]),
    (5, 0, 1, 0, 0, 0, &[]),
];

/// Its answers: after ENTER the second and third word of the four, after LOOKUP the fourth too; the word at 777, and
/// none at 1000; the room of the image, 45, less the block of the file.
const ANSWERS: [Record<'_>; 11] = [
    (1, 0, 0, 0, 0, 0, &[]),
    (1, 0, 0, 0, 0, 0, &[]),
    (1, 0, 0, 0, 0, 0, &[]),
    (1, 0, 0, 0, 0, 0, &[]),
    (1, 0, 0, 0, 0, 0, &[]),
    (
        1,
        0,
        0,
        0,
        0,
        0,
        &[0o111 << 36, 0o112 << 36 | 0o057740000000],
    ),
    (1, 0, 0, 0, 0, 0, &[]),
    (
        1,
        0,
        0,
        0,
        0,
        0,
        &[0o115 << 36, 0o116 << 36 | 0o057740000000, 0o117 << 36],
    ),
    (6, 0, 0, 0, 0, 0, &[0o777 << 36]),
    (12, 0, 0, 0, 0, 44, &[]),
    (0, 0, 0, 0, 0, 0, &[]),
];

/// Appends a record with the groups after it.
fn push_record(bytes: &mut Vec<u8>, record: &Record<'_>) -> Result<(), AllocError> {
    let (kind, code, job, channel, number, detail, groups) = *record;
    bytes.extend_from_slice(&[kind, code, job, channel])?;
    bytes.extend_from_slice(&number.to_be_bytes())?;
    bytes.extend_from_slice(&detail.to_be_bytes())?;
    let count = u32::try_from(groups.len()).unwrap_or(u32::MAX);
    bytes.extend_from_slice(&count.to_be_bytes())?;
    for group in groups {
        bytes.extend_from_slice(&group.to_be_bytes())?;
    }
    Ok(())
}

/// Returns the bytes of records in a row.
fn spelled(alloc: Global, records: &[Record<'_>]) -> Result<Vec<u8>, AllocError> {
    let mut bytes = Vec::new(alloc);
    for record in records {
        push_record(&mut bytes, record)?;
    }
    Ok(bytes)
}

/// The tally if a record was no order.
const REFUSED: Tally = Tally {
    refused: true,
    broke: false,
    reason: None,
};

#[test]
fn orders_are_answered(rt: HostRuntime) -> Result<(), Fail> {
    let orders = spelled(rt.alloc(), &ORDERS)?;
    let answers = spelled(rt.alloc(), &ANSWERS)?;
    let (found, tally) = printed(&rt, rt.alloc(), 64, Language::Wire, &orders)?;
    assert_eq!(rt; tally, REFUSED);
    assert!(rt; found.as_slice() == answers.as_slice(), "{found:?}");
    Ok(())
}

/// Checks that a record that ends with the input is no order, and that one that announces too much ends the exchange.
#[test]
fn what_is_left_is_no_order(rt: HostRuntime) -> Result<(), Fail> {
    let answer = spelled(rt.alloc(), &[(0, 0, 0, 0, 0, 0, &[])])?;
    for orders in [
        b"\x05".as_slice(),
        b"\x05\0\0\0\0\0\0\0\0\0\0\0\0\0\0",
        b"\x02\0\x01\0\0\0\0\0\0\0\0\0\0\0\0\x01\0\0\0\0\0\0\0",
        b"\x02\0\x01\0\0\0\0\0\0\0\0\0\0\x04\0\x01\x05\0\0\0\0\0\0\0\0\0\0\0\0\0\0\0",
    ] {
        let (found, tally) = printed(&rt, rt.alloc(), 64, Language::Wire, orders)?;
        assert_eq!(rt; tally, REFUSED);
        assert!(rt; found.as_slice() == answer.as_slice(), "{found:?}");
    }
    Ok(())
}

/// Runs with each allocation refused in turn, and checks that what is answered is a beginning of the answers, in whole
/// records, and that a call that finds no memory reports it.
#[test]
fn each_allocation_of_an_exchange_refused(rt: HostRuntime) -> Result<(), Fail> {
    let Ok(orders) = spelled(rt.alloc(), &ORDERS) else {
        return Ok(());
    };
    let Ok(answers) = spelled(rt.alloc(), &ANSWERS) else {
        return Ok(());
    };
    let Ok(mut writer) = Vec::with_capacity(rt.alloc(), 500) else {
        return Ok(());
    };
    let Ok(Some(mut monitor)) = started(rt.alloc(), 64) else {
        return Ok(());
    };
    let mut reader = orders.as_slice();
    let served = serve(
        rt.alloc(),
        &mut monitor,
        Language::Wire,
        &mut reader,
        &mut writer,
    );
    drop_monitor(monitor);
    match served {
        Ok(tally) => assert!(rt; tally == REFUSED),
        Err(error) => {
            assert_eq!(rt; error, SessionError::NoMemory);
            assert!(rt; answers.as_slice().starts_with(&writer), "{writer:?}");
        }
    }
    Ok(())
}
