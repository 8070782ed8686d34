//! The answers to a program, and their bytes.
ghost use Rattle.std.specs.Prelude.{◌≡◌, ◌+◌, ◌*◌, ◌^◌, ◌<◌, ◌≤◌, ◌++◌, IsOk, OnOk, length, vec_len, vec_capacity};
ghost use Rattle.words36.specs.Common.{block_bytes};
ghost use Rattle.wire.specs.Records.{answer_record, answer_kind, answer_value, record_bytes};

use crate::Header;
use spec_machine::Reply;
use std::alloc::AllocError;

/// An answer to a program.
#[derive(Clone, Copy, Debug, PartialEq, Eq)]
pub enum Answer {
    /// The reply to an order.
    Reply(Reply),
    /// The number of blocks that there is room for.
    Room(u64),
    /// The record and the bytes after it spell no order, and nothing was done.
    Wrong,
}

/// Returns the kind of an answer.
fn kind_of(answer: &Answer) -> u8
    ensures { result ≡ answer_kind answer.now }
{
    match answer {
        Answer::Wrong => 0,
        Answer::Reply(Reply::Done) => 1,
        Answer::Reply(Reply::Value(_)) => 2,
        Answer::Reply(Reply::Refused(_)) => 3,
        Answer::Reply(Reply::Stopped(_)) => 4,
        Answer::Reply(Reply::NoChannel) => 5,
        Answer::Reply(Reply::AddressCheck) => 6,
        Answer::Reply(Reply::NoJob) => 7,
        Answer::Reply(Reply::NoMemory) => 8,
        Answer::Reply(Reply::Device) => 9,
        Answer::Reply(Reply::Failed) => 10,
        Answer::Reply(Reply::DateRange) => 11,
        Answer::Room(_) => 12,
    }
}

/// Returns the number in an answer, or 0 if it has none.
fn value_of(answer: &Answer) -> u64
    ensures { result ≡ answer_value answer.now }
{
    match answer {
        Answer::Reply(Reply::Value(word)) => word.bits(),
        Answer::Reply(Reply::Refused(code)) => u64::from(*code),
        Answer::Reply(Reply::Stopped(status)) => u64::from(*status),
        Answer::Room(blocks) => *blocks,
        _ => 0,
    }
}

/// Returns the record of an answer that `count` groups of eight bytes follow.
fn answer_header(answer: &Answer, count: u32) -> Header
    ensures { result ≡ answer_record answer.now count }
{
    let value = value_of(answer);
    Header {
        kind: kind_of(answer),
        code: 0,
        job: 0,
        channel: 0,
        number: (value / 0x1_0000_0000) as u32,
        detail: (value % 0x1_0000_0000) as u32,
        count,
    }
}

/// Appends an answer to bytes: its record, and the groups of eight bytes that follow it.
///
/// # Errors
///
/// `AllocError` if there is no room for them, or if there are more than a record can count. The first of them may be
/// appended then.
pub fn push_answer(bytes: &mut Vec<u8>, answer: &Answer, groups: &[u64]) -> Result<(), AllocError>
    ensures ok { OnOk result (bytes.new.items ≡ bytes.old.items
        ++ record_bytes (answer_record answer.now (length groups.now)) ++ block_bytes groups.now) }
    // It doesn't fail if there is room for all of them.
    ensures succeeds { length groups.now < 2 ^ 32
        → vec_len bytes.old + (16 + 8 * length groups.now) ≤ vec_capacity bytes.old → IsOk result }
{
    let Ok(count) = u32::try_from(groups.len()) else {
        return Err(AllocError);
    };
    bytes.extend_from_slice(&answer_header(answer, count).to_bytes())?;
    for group in groups {
        bytes.extend_from_slice(&group.to_be_bytes())?;
    }
    Ok(())
}
