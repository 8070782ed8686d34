//! The record that bytes begin with, and the words that follow it.
ghost use Rattle.wire.specs.Frames.{BeginsWith};

use crate::header::{HEADER_BYTES, Header};

/// The most words that may follow a record: as many as the largest core has.
const MOST_WORDS: u32 = 1 << 18;

/// What bytes begin with.
#[derive(Clone, Copy, Debug)]
pub enum Front<'a> {
    /// A whole record, and the bytes of the words that follow it.
    Whole(Header, &'a [u8]),
    /// No whole record.
    Part,
    /// A record that announces more words than a core can have.
    TooLong,
}

/// Splits the first record, with the words that follow it, from bytes.
pub fn split_record(bytes: &[u8]) -> Front<'_>
    ensures { BeginsWith bytes.now result }
{
    if bytes.len() < HEADER_BYTES {
        return Front::Part;
    }
    let (first, rest) = bytes.split_at(HEADER_BYTES);
    let mut record = [0; HEADER_BYTES];
    record.copy_from_slice(first);
    let header = Header::from_bytes(&record);
    if header.count > MOST_WORDS {
        return Front::TooLong;
    }
    let size = 8 * header.count as usize;
    if rest.len() < size {
        return Front::Part;
    }
    Front::Whole(header, &rest[..size])
}
