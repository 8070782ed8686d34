//! Orders and answers as programs send and get them: records of 16 bytes, which words of eight bytes follow. What the
//! layer guarantees:
//!
//! 1. Every 16 bytes are one record, and every record is 16 bytes: what is written is read back. (`record_bytes`)
//! 2. `parse_order` returns an order exactly if a record and the bytes after it spell one. (`IsOrder`)
//! 3. `split_record` returns the record that bytes begin with, and the bytes that follow it, if all are there.
//!    (`BeginsWith`)
//! 4. The record of an answer has its kind, its number, and the number of groups of eight bytes that follow.
//!    (`answer_record`)
//! 5. Nothing that is written has two readings. (`records_have_one_reading`)
//!
//! Only the bytes of an answer take memory.
#![tactic(auto)]

mod answer;
mod calls;
mod front;
mod header;
mod laws;
mod order;

pub use answer::{Answer, push_answer};
pub use front::{Front, split_record};
pub use header::{HEADER_BYTES, Header};
pub use laws::records_have_one_reading;
pub use order::{Order, parse_order, word_at};
