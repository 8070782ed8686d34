//! The trait of a system's calls on an open file, which may do less than requested.
ghost use Rattle.std.specs.Prelude.{◌≡◌, ◌+◌, ◌<◌, ◌≤◌, ℕ, length, take, IfOk, OnOk, OnErr};
ghost use Rattle.imagefile.specs.File.{Remains, FileState, MayRemain, SameFile, FileKeeps, FileWrites, FileSyncs};
ghost use Rattle.imagefile.specs.File.{FileFails, window};
ghost use Rattle.imagefile.specs.Outcomes.{Outcome, size_outcome, move_outcome, sync_outcome};

use std::io;

/// The calls of a system on an open file, each of which may do less than requested.
///
/// A file is `honest` while it has kept to the model so far: an answer may end that, and none brings it back. What is
/// stated for a file that is honest *after* a call is what an honest answer means; the rest holds for every file.
pub trait FileCalls {
    ghost state: { Self → FileState };

    /// One call with this outcome turned the first value into the second. Code that is generic over this trait can
    /// only prove it by making that call.
    ghost ended: { Self → Self → Outcome → Type 0 };

    /// Returns the number of bytes.
    ///
    /// # Errors
    ///
    /// The system's.
    fn size(&mut self) -> io::Result<u64>
        ensures ended { ended self.old self.new (size_outcome result) }
        ensures size { (state self.new).honest → IfOk result (λ size. size ≡ (state self.old).size) }
        ensures keeps { (state self.new).honest → FileKeeps (state self.old) (state self.new) }
        ensures same { SameFile (state self.old) (state self.new) };

    /// Reads some of the bytes from place `at`, and returns how many.
    ///
    /// # Errors
    ///
    /// The system's; `bytes` may then hold anything.
    fn read_some(&mut self, at: u64, bytes: &mut [u8]) -> io::Result<usize>
        requires { (state self.old).honest → at + length bytes.old ≤ (state self.old).size }
        ensures ended { ended self.old self.new (move_outcome (length bytes.old) result) }
        ensures few { IfOk result (λ count. count ≤ length bytes.old) }
        ensures read { (state self.new).honest
            → IfOk result (λ count. take count bytes.new ≡ window (state self.old).bytes at count) }
        ensures keeps { (state self.new).honest → FileKeeps (state self.old) (state self.new) }
        ensures same { SameFile (state self.old) (state self.new) };

    /// Writes some of the bytes from place `at`, and returns how many. After that, all of them are open, whatever the
    /// answer was.
    ///
    /// # Errors
    ///
    /// The system's; those places may then hold anything.
    fn write_some(&mut self, at: u64, bytes: &[u8]) -> io::Result<usize>
        requires { (state self.old).honest → at + length bytes.now ≤ (state self.old).size }
        ensures ended { ended self.old self.new (move_outcome (length bytes.now) result) }
        ensures few { IfOk result (λ count. count ≤ length bytes.now) }
        ensures put { (state self.new).honest
            → IfOk result (λ count. window (state self.new).bytes at count ≡ take count bytes.now) }
        ensures moves { (state self.new).honest → OnOk result ((state self.old).clock < (state self.new).clock) }
        ensures writes { (state self.new).honest → FileWrites at (length bytes.now) (state self.old) (state self.new) }
        ensures same { SameFile (state self.old) (state self.new) };

    /// Waits until everything that was written is on the device. After that, no byte is open.
    ///
    /// # Errors
    ///
    /// The system's. The open bytes then stay open, and each may be anything; the closed ones stay as they are.
    fn sync_all(&mut self) -> io::Result<()>
        ensures ended { ended self.old self.new (sync_outcome result) }
        ensures syncs { (state self.new).honest → OnOk result (FileSyncs (state self.old) (state self.new)) }
        ensures moves { (state self.new).honest → OnOk result ((state self.old).clock < (state self.new).clock) }
        ensures fails { (state self.new).honest → OnErr result (FileFails (state self.old) (state self.new)) }
        ensures same { SameFile (state self.old) (state self.new) };

    /// This moment is one of the moments since any earlier one.
    ghost counts_now: { (file : Self) (t : ℕ) (r : Remains) → (state file).honest → t ≤ (state file).clock
        → MayRemain (state file) r → (state file).left_since t r };

    /// Since this moment there has been no other moment.
    ghost only_now: { (file : Self) (r : Remains) → (state file).honest → (state file).left_since (state file).clock r
        → MayRemain (state file) r };

    /// What was left since a moment was also left since each earlier one.
    ghost reaches_back: { (file : Self) (t s : ℕ) (r : Remains) → (state file).honest → t ≤ s
        → (state file).left_since s r → (state file).left_since t r };
}
