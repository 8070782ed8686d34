//! A file whose calls at a place are a seek to it, and then a read or a write.
ghost use Rattle.std.specs.Prelude.{◌≡◌, ◌+◌, ◌≤◌, ◌∷◌, ℕ, Bool, List, Some, None, All, length, take, is_ok, IfOk};
ghost use Rattle.std.specs.Prelude.{IfSome, OnOk, OnErr};
ghost use Rattle.imagefile.specs.File.{FileWrites, window};
ghost use Rattle.imagefile.specs.Calls.{Call, SeekStart, SeekEnd, Read, Write, Sync, answer, came};
ghost use Rattle.imagefile.specs.Unseen.{Unseen, size_of};
ghost use Rattle.imagefile.specs.Recorded.{IsHonestRecord, BeginsAt, GoesTo, AsksAt, words_asked_at, after_calls};
ghost use Rattle.imagefile.specs.Recorded.{recorded};
ghost use Rattle.imagefile.specs.Endings.{EndsSo};
ghost use Rattle.imagefile.specs.RecordedLaws.{recorded_counts_now, recorded_only_now, recorded_reaches_back};
ghost use Rattle.imagefile.specs.Answered.{HostCall, IsInFile, answered};
ghost use Rattle.imagefile.specs.AssumedImage.{assumed_in};

use crate::{AssumedImage, FileCalls, HostCalls, SystemCalls};
use std::io;

/// A file whose calls at a place are a seek to it, and then a read or a write; there is no seek if the last call
/// ended at that place. What it holds is what the record of its calls shows, and it is honest while that record could
/// be that of a file that keeps to the model and began as is supposed.
#[derive(Drop)]
pub struct SeekingFile<S: SystemCalls = HostCalls> {
    calls: S,
    supposed: AssumedImage,
    // Where the next read or write begins, if that is known.
    position: Option<u64>,
    ghost placed: { (at : ℕ) → position ≡ Some at → (u : Unseen) → BeginsAt u (S.history calls) at },
}

impl<S: SystemCalls> SeekingFile<S> {
    ghost use Rattle.imagefile.specs.Common.{system_of, unseen_of};

    /// Returns the file of these calls, with what is supposed of it that they don't show.
    pub fn new(calls: S, supposed: AssumedImage) -> Self
        ensures calls { system_of result ≡ calls }
        ensures supposed { unseen_of result ≡ assumed_in supposed }
    {
        SeekingFile {
            calls,
            supposed,
            position: None,
        }
    }

    /// Makes the next read or write begin at a place.
    ///
    /// # Errors
    ///
    /// The system's, if a seek is needed and fails.
    fn go_to(&mut self, at: u64) -> io::Result<()>
        ensures goes { OnOk result (GoesTo at (S.history (system_of self.old)) (S.history (system_of self.new))) }
        ensures failed { OnErr result (S.history (system_of self.new)
            ≡ SeekStart at None ∷ S.history (system_of self.old)) }
        ensures supposed { unseen_of self.new ≡ unseen_of self.old }
    {
        if self.position == Some(at) {
            return Ok(());
        }
        self.position = None;
        self.calls.seek_start(at)?;
        Ok(())
    }
}

/// Returns where a call ended that began at a place, given the number of bytes that it read or wrote, if that is
/// known.
fn place_behind(at: u64, count: io::Result<usize>) -> Option<u64>
    ensures { IfSome result (λ behind. (n : ℕ) × (answer count ≡ Some n) × (behind ≡ at + n)) }
{
    at.checked_add(count.ok()? as u64)
}

/// Proves that an honest record stays honest if calls are answered as the model states, whatever the file held and
/// whatever calls came before.
pub fn answers_by_the_model_are_honest()
    ensures sized { (u : Unseen) (calls : List Call) → IsHonestRecord u calls
        → IsHonestRecord u (SeekEnd (Some (size_of u)) ∷ calls) }
    ensures read { (u : Unseen) (calls : List Call) (at asked count : ℕ) → at + count ≤ size_of u
        → IsHonestRecord u calls
        → IsHonestRecord u
        (words_asked_at at (Some at) (Read asked (Some (window (after_calls u calls).bytes at count))) calls) }
    ensures written { (u : Unseen) (calls : List Call) (at count : ℕ) (given : List ℕ) → at + length given ≤ size_of u
        → count ≤ length given → IsHonestRecord u calls
        → IsHonestRecord u (words_asked_at at (Some at) (Write given (Some count)) calls) }
    ensures failed { (u : Unseen) (calls : List Call) (at asked : ℕ) (given : List ℕ) → at + length given ≤ size_of u
        → IsHonestRecord u calls
        → IsHonestRecord u (words_asked_at at (Some at) (Read asked None) calls)
        × IsHonestRecord u (words_asked_at at (Some at) (Write given None) calls) }
    ensures synced { (u : Unseen) (calls : List Call) (done : Bool) → IsHonestRecord u calls
        → IsHonestRecord u (Sync done ∷ calls) }
{}

/// Proves that a file that answers all its calls by the model, whole and at once, has an honest record, however it
/// began and whatever calls were made within its length. So each such file meets what is supposed of a record.
pub fn a_file_by_the_model_is_honest()
    ensures { (u : Unseen) (asked : List HostCall) → All (IsInFile (size_of u)) asked
        → IsHonestRecord u (answered u asked) }
{}

impl<S: SystemCalls> FileCalls for SeekingFile<S> {
    ghost use Rattle.imagefile.specs.Common.{system_of, unseen_of};

    ghost state = { λ file. recorded (unseen_of file) (S.history (system_of file)) };

    ghost ended = { λ before after outcome. EndsSo outcome (S.history (system_of after)) };

    ghost counts_now = { λ file t r h le may. recorded_counts_now (unseen_of file)
        (S.history (system_of file)) t r le may };

    ghost only_now = { λ file r h left. recorded_only_now (unseen_of file) (S.history (system_of file)) r left };

    ghost reaches_back = { λ file t s r h le left. recorded_reaches_back (unseen_of file)
        (S.history (system_of file)) t s r le left };

    fn size(&mut self) -> io::Result<u64>
        ensures asked { S.history (system_of self.new) ≡ SeekEnd (answer result) ∷ S.history (system_of self.old) }
        ensures supposed { unseen_of self.new ≡ unseen_of self.old }
    {
        self.position = None;
        self.calls.seek_end()
    }

    fn read_some(&mut self, at: u64, bytes: &mut [u8]) -> io::Result<usize>
        ensures few { IfOk result (λ count. count ≤ length bytes.old) }
        ensures read { (u : Unseen) → IsHonestRecord u (S.history (system_of self.new))
            → IfOk result (λ count. take count bytes.new
            ≡ window (recorded u (S.history (system_of self.old))).bytes at count) }
        ensures asked { AsksAt at (Read (length bytes.old) (came result bytes.new)) (is_ok result)
            (S.history (system_of self.old)) (S.history (system_of self.new)) }
        ensures supposed { unseen_of self.new ≡ unseen_of self.old }
    {
        self.go_to(at)?;
        let count = self.calls.read(bytes);
        self.position = place_behind(at, count);
        count
    }

    fn write_some(&mut self, at: u64, bytes: &[u8]) -> io::Result<usize>
        ensures few { IfOk result (λ count. count ≤ length bytes.now) }
        ensures put { (u : Unseen) → IsHonestRecord u (S.history (system_of self.new))
            → IfOk result (λ count. window (recorded u (S.history (system_of self.new))).bytes at count
            ≡ take count bytes.now) }
        ensures writes { (u : Unseen) → IsHonestRecord u (S.history (system_of self.new))
            → FileWrites at (length bytes.now) (recorded u (S.history (system_of self.old)))
            (recorded u (S.history (system_of self.new))) }
        ensures as_supposed { IsHonestRecord (unseen_of self.new) (S.history (system_of self.new))
            → FileWrites at (length bytes.now) (recorded (unseen_of self.old) (S.history (system_of self.old)))
            (recorded (unseen_of self.new) (S.history (system_of self.new))) }
        ensures asked { AsksAt at (Write bytes.now (answer result)) (is_ok result) (S.history (system_of self.old))
            (S.history (system_of self.new)) }
        ensures supposed { unseen_of self.new ≡ unseen_of self.old }
    {
        self.go_to(at)?;
        let count = self.calls.write(bytes);
        self.position = place_behind(at, count);
        count
    }

    fn sync_all(&mut self) -> io::Result<()>
        ensures asked { S.history (system_of self.new) ≡ Sync (is_ok result) ∷ S.history (system_of self.old) }
        ensures supposed { unseen_of self.new ≡ unseen_of self.old }
    {
        self.calls.sync()
    }
}
