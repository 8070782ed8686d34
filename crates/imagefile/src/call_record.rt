//! The record of the calls on an open file, with their answers, for proofs alone.
ghost use Rattle.std.specs.Prelude.{◌≡◌, List, [], ◌∷◌};
ghost use Rattle.std.specs.Borrow.{ftrue};
ghost use Rattle.imagefile.specs.Calls.{Call, calls_code};

use std::marker::Model;

/// The calls that were made on an open file, with the system's answers. Proofs alone read it: it takes no memory and
/// costs no time.
#[derive(Drop)]
pub struct CallRecord {
    /// The newest call comes first.
    pub(crate) ghost calls: { List Call } by { calls_code },
}

impl Model for CallRecord {
    ghost also_owns = { λ _. ftrue };
}

/// A call with its answer: `None` if it failed.
#[derive(Clone, Copy, Drop)]
pub(crate) enum CallMade<'a> {
    /// A seek to this number of bytes from the beginning; the answer is the position.
    SeekStart(u64, Option<u64>),
    /// A seek to the end; the answer is the position.
    SeekEnd(Option<u64>),
    /// A read of this number of bytes; the answer is the bytes that came.
    Read(usize, Option<&'a [u8]>),
    /// A write of these bytes; the answer is how many were written.
    Write(&'a [u8], Option<usize>),
    /// A sync, and whether all that was written is on the device.
    Sync(bool),
}

impl CallRecord {
    ghost use Rattle.imagefile.specs.Common.{spelled_call};

    /// Returns the record of a file before its first call.
    pub(crate) fn new() -> CallRecord
        ensures { result.calls ≡ [] }
    {
        CallRecord {}
    }

    /// Returns this record with one more call.
    pub(crate) fn then(&self, _call: &CallMade<'_>) -> CallRecord
        ensures { result.calls ≡ spelled_call _call.now ∷ self.now.calls }
    {
        CallRecord {}
    }
}
