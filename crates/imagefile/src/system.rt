//! A system's calls on an open file, one by one and each on record, and the host's own.
ghost use Rattle.std.specs.Prelude.{◌≡◌, ◌≤◌, Bool, List, ◌∷◌, [], length, is_ok, pos, IfOk};
ghost use Rattle.std.specs.Io.KnownBytes.{ReadConsumes, WriteAppends};
ghost use Rattle.std.specs.Io.Seek.{SeekMoves};
ghost use Rattle.imagefile.specs.Calls.{Call, SeekStart, SeekEnd, Read as ReadCall, Write as WriteCall, Sync, answer};
ghost use Rattle.imagefile.specs.Calls.{came};
ghost use Rattle.std.specs.declared.io.traits.SeekFrom.TheVariants as from;

use crate::call_record::{CallMade, CallRecord};
use std::fs::{File, OpenFile};
use std::io::{self, Read, Seek, SeekFrom, Write};

/// The calls of a system on an open file, one by one: each goes on record with its answer, whatever that is. Nothing
/// is supposed about the answers.
pub trait SystemCalls {
    /// The calls so far with their answers, the newest first.
    ghost history: { Self → List Call };

    /// Moves the position to `at` bytes from the beginning, and returns where it is.
    ///
    /// # Errors
    ///
    /// The system's.
    fn seek_start(&mut self, at: u64) -> io::Result<u64>
        ensures noted { history self.new ≡ SeekStart at (answer result) ∷ history self.old };

    /// Moves the position to the end, and returns where it is.
    ///
    /// # Errors
    ///
    /// The system's.
    fn seek_end(&mut self) -> io::Result<u64>
        ensures noted { history self.new ≡ SeekEnd (answer result) ∷ history self.old };

    /// Reads some bytes from the position, which moves past them, and returns how many.
    ///
    /// # Errors
    ///
    /// The system's; `bytes` may then hold anything.
    fn read(&mut self, bytes: &mut [u8]) -> io::Result<usize>
        ensures few { IfOk result (λ count. count ≤ length bytes.old) }
        ensures noted { history self.new ≡ ReadCall (length bytes.old) (came result bytes.new) ∷ history self.old };

    /// Writes some of the bytes from the position, which moves past them, and returns how many.
    ///
    /// # Errors
    ///
    /// The system's; the places of the bytes may then hold anything.
    fn write(&mut self, bytes: &[u8]) -> io::Result<usize>
        ensures few { IfOk result (λ count. count ≤ length bytes.now) }
        ensures noted { history self.new ≡ WriteCall bytes.now (answer result) ∷ history self.old };

    /// Waits until everything that was written is on the device.
    ///
    /// # Errors
    ///
    /// The system's.
    fn sync(&mut self) -> io::Result<()>
        ensures noted { history self.new ≡ Sync (is_ok result) ∷ history self.old };
}

/// The one call that the host file needs beyond `Read`, `Write` and `Seek`.
///
/// The standard library's `OpenFile` has it too, but also calls that cut a file short or change its permissions.
pub trait SyncData {
    /// A sync with this answer, and nothing else, turned the first value into the second. Code that is generic over
    /// this trait can only prove it by calling `sync_data`.
    ghost was_synced: { Self → Self → Bool → Type 0 };

    /// Waits until everything that was written is on the device.
    ///
    /// # Errors
    ///
    /// The system's.
    fn sync_data(&mut self) -> io::Result<()>
        ensures { was_synced self.old self.new (is_ok result) };
}

/// The trusted line of the host file: the standard library promises nothing about `File::sync_data` that a proof
/// could use, so nothing proves that this impl calls it. Everything else that the host file does rests on what the
/// library's `Read`, `Write` and `Seek` promise for any type.
impl SyncData for File {
    ghost was_synced = { λ before after done. Unit {0} };

    fn sync_data(&mut self) -> io::Result<()> {
        // No call of this crate changes the file's length, and its times need not be on the device.
        OpenFile::sync_data(self)
    }
}

/// An open file of the host, with the record of its calls.
///
/// Each method makes one call of the standard library and records it. The contracts prove that the recorded call is
/// the one that was made, as far as the library's traits can state it: where a seek goes, which bytes a read
/// returned, which bytes a write took. For a sync, `SyncData` states it. The library's traits do not state when a
/// call fails, so only the bodies below show that a recorded failure came from the library. No body can make another
/// call on the file: `self.file.set_len(0)` does not compile, because `F` has no such method.
#[derive(Drop)]
pub struct HostCalls<F: Read + Write + Seek + SyncData = File> {
    file: F,
    history: CallRecord,
}

impl<F: Read + Write + Seek + SyncData> HostCalls<F> {
    ghost use Rattle.imagefile.specs.Common.{history_of, file_of};

    /// Returns the calls of this open file before its first call.
    pub fn new(file: F) -> Self
        ensures file { file_of result ≡ file }
        ensures history { history_of result ≡ [] }
    {
        HostCalls {
            file,
            history: CallRecord::new(),
        }
    }
}

impl<F: Read + Write + Seek + SyncData> SystemCalls for HostCalls<F> {
    ghost use Rattle.imagefile.specs.Common.{history_of, file_of};

    ghost history = { history_of };

    fn seek_start(&mut self, at: u64) -> io::Result<u64>
        ensures noted { history_of self.new ≡ SeekStart at (answer result) ∷ history_of self.old }
        ensures made { SeekMoves (F.Seek.stream_position (file_of self.old)) (F.Seek.stream_position (file_of self.new))
            (F.Seek.stream_bytes (file_of self.old)) (from.Start at) result }
    {
        let place = self.file.seek(SeekFrom::Start(at));
        self.history = self.history.then(&CallMade::SeekStart(at, place.ok()));
        place
    }

    fn seek_end(&mut self) -> io::Result<u64>
        ensures noted { history_of self.new ≡ SeekEnd (answer result) ∷ history_of self.old }
        ensures made { SeekMoves (F.Seek.stream_position (file_of self.old)) (F.Seek.stream_position (file_of self.new))
            (F.Seek.stream_bytes (file_of self.old)) (from.End (pos 0)) result }
    {
        let place = self.file.seek(SeekFrom::End(0));
        self.history = self.history.then(&CallMade::SeekEnd(place.ok()));
        place
    }

    fn read(&mut self, bytes: &mut [u8]) -> io::Result<usize>
        ensures few { IfOk result (λ count. count ≤ length bytes.old) }
        ensures noted { history_of self.new ≡ ReadCall (length bytes.old) (came result bytes.new)
            ∷ history_of self.old }
        ensures made { ReadConsumes (F.Read.remaining (file_of self.old))
            (F.Read.remaining (file_of self.new)) result bytes.new }
    {
        let asked = bytes.len();
        let count = self.file.read(bytes);
        self.history = match count {
            Ok(count) => self
                .history
                .then(&CallMade::Read(asked, Some(&bytes[..count]))),
            Err(_) => self.history.then(&CallMade::Read(asked, None)),
        };
        count
    }

    fn write(&mut self, bytes: &[u8]) -> io::Result<usize>
        ensures few { IfOk result (λ count. count ≤ length bytes.now) }
        ensures noted { history_of self.new ≡ WriteCall bytes.now (answer result) ∷ history_of self.old }
        ensures made { WriteAppends (F.Write.contents (file_of self.old))
            (F.Write.contents (file_of self.new)) result bytes.now }
    {
        let count = self.file.write(bytes);
        self.history = self.history.then(&CallMade::Write(bytes, count.ok()));
        count
    }

    fn sync(&mut self) -> io::Result<()>
        ensures noted { history_of self.new ≡ Sync (is_ok result) ∷ history_of self.old }
        ensures made { F.was_synced (file_of self.old) (file_of self.new) (is_ok result) }
    {
        let done = self.file.sync_data();
        self.history = self.history.then(&CallMade::Sync(done.is_ok()));
        done
    }
}
