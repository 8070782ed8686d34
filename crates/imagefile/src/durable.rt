//! The trait of a file that keeps to the disk's model byte by byte.
ghost use Rattle.std.specs.Prelude.{◌≡◌, ◌+◌, ◌<◌, ◌≤◌, ℕ, length, take, IfOk, OnOk, OnErr, IsErrOf};
ghost use Rattle.blockdisk.specs.Common.{one_more};
ghost use Rattle.blockdisk.specs.declared.fault.Fault.TheVariants.{Device, Damaged};
ghost use Rattle.imagefile.specs.File.{Remains, FileState, MayRemain, SameFile, FileKeeps, FileWrites, FileSyncs};
ghost use Rattle.imagefile.specs.File.{FileFails, window};

use blockdisk::Fault;

/// A file of a fixed number of bytes, counted from 0, that keeps to the disk's model byte by byte.
///
/// Between two syncs, a byte that was written may be anything after a crash; the other bytes stay as they are. A sync
/// that fails may do to the bytes what a crash may. A file is `honest` while it has kept to this so far: nobody else
/// wrote to it, and it returned what was written. An answer may end that, and none brings it back. So nobody has to
/// know future answers: what a call ensures about the bytes, it ensures if the file is honest *after* the call. The
/// rest holds for every file.
pub trait Durable {
    ghost state: { Self → FileState };

    /// A read of this number of bytes from this place was refused, and turned the first value into the second. Code
    /// that is generic over this trait can only prove it by making that call.
    ghost refused: { Self → Self → ℕ → ℕ → Type 0 };

    /// Returns the number of bytes.
    ///
    /// # Errors
    ///
    /// `Device` if the device failed.
    fn len(&mut self) -> Result<u64, Fault>
        ensures size { (state self.new).honest → IfOk result (λ size. size ≡ (state self.old).size) }
        ensures keeps { (state self.new).honest → FileKeeps (state self.old) (state self.new) }
        ensures same { SameFile (state self.old) (state self.new) }
        ensures device { IsErrOf result Damaged → ⊥ }
        ensures failed { IsErrOf result Device → (state self.new).failures ≡ one_more (state self.old).failures }
        ensures served { OnOk result ((state self.new).failures ≡ (state self.old).failures) };

    /// Fills `bytes` with what the file has from place `at`.
    ///
    /// # Errors
    ///
    /// `Device` if the device failed; `bytes` may then hold anything.
    fn read_at(&mut self, at: u64, bytes: &mut [u8]) -> Result<(), Fault>
        requires { (state self.old).honest → at + length bytes.old ≤ (state self.old).size }
        ensures read { (state self.new).honest
            → OnOk result (bytes.new ≡ window (state self.old).bytes at (length bytes.old)) }
        ensures refused { OnErr result (refused self.old self.new at (length bytes.old)) }
        ensures keeps { (state self.new).honest → FileKeeps (state self.old) (state self.new) }
        ensures same { SameFile (state self.old) (state self.new) }
        ensures device { IsErrOf result Damaged → ⊥ }
        ensures failed { IsErrOf result Device → (state self.new).failures ≡ one_more (state self.old).failures }
        ensures served { OnOk result ((state self.new).failures ≡ (state self.old).failures) };

    /// Reads bytes from place `at` that nobody needs yet, and returns how many came: fewer than requested, or none, if
    /// they can't be read. That is no failure of the file.
    fn prefetch(&mut self, at: u64, bytes: &mut [u8]) -> usize
        requires { (state self.old).honest → at + length bytes.old ≤ (state self.old).size }
        ensures few { result ≤ length bytes.old }
        ensures read { (state self.new).honest → take result bytes.new ≡ window (state self.old).bytes at result }
        ensures keeps { (state self.new).honest → FileKeeps (state self.old) (state self.new) }
        ensures same { SameFile (state self.old) (state self.new) }
        ensures served { (state self.new).failures ≡ (state self.old).failures };

    /// Writes `bytes` from place `at`. After that, they are open until a sync succeeds, whatever the answer was.
    ///
    /// # Errors
    ///
    /// `Device` if the device failed; those places may then hold anything.
    fn write_at(&mut self, at: u64, bytes: &[u8]) -> Result<(), Fault>
        requires { (state self.old).honest → at + length bytes.now ≤ (state self.old).size }
        ensures put { (state self.new).honest
            → OnOk result (window (state self.new).bytes at (length bytes.now) ≡ bytes.now) }
        ensures moves { (state self.new).honest → OnOk result ((state self.old).clock < (state self.new).clock) }
        ensures writes { (state self.new).honest → FileWrites at (length bytes.now) (state self.old) (state self.new) }
        ensures same { SameFile (state self.old) (state self.new) }
        ensures device { IsErrOf result Damaged → ⊥ }
        ensures failed { IsErrOf result Device → (state self.new).failures ≡ one_more (state self.old).failures }
        ensures served { OnOk result ((state self.new).failures ≡ (state self.old).failures) };

    /// Waits until everything that was written is on the device. After that, no byte is open.
    ///
    /// # Errors
    ///
    /// `Device` if the device failed. The open bytes then stay open, and each may be anything; the closed ones stay
    /// as they are.
    fn sync(&mut self) -> Result<(), Fault>
        ensures syncs { (state self.new).honest → OnOk result (FileSyncs (state self.old) (state self.new)) }
        ensures moves { (state self.new).honest → OnOk result ((state self.old).clock < (state self.new).clock) }
        ensures fails { (state self.new).honest → OnErr result (FileFails (state self.old) (state self.new)) }
        ensures same { SameFile (state self.old) (state self.new) }
        ensures device { IsErrOf result Damaged → ⊥ }
        ensures failed { IsErrOf result Device → (state self.new).failures ≡ one_more (state self.old).failures }
        ensures served { OnOk result ((state self.new).failures ≡ (state self.old).failures) };

    /// This moment is one of the moments since any earlier one.
    ghost counts_now: { (file : Self) (t : ℕ) (r : Remains) → (state file).honest → t ≤ (state file).clock
        → MayRemain (state file) r → (state file).left_since t r };

    /// Since this moment there has been no other moment.
    ghost only_now: { (file : Self) (r : Remains) → (state file).honest → (state file).left_since (state file).clock r
        → MayRemain (state file) r };

    /// What was left since a moment was also left since each earlier one.
    ghost reaches_back: { (file : Self) (t u : ℕ) (r : Remains) → (state file).honest → t ≤ u
        → (state file).left_since u r → (state file).left_since t r };
}
