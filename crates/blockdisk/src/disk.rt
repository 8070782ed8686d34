//! The trait of a disk: its calls, and what they ensure about its blocks and about crashes.
ghost use Rattle.std.specs.Prelude.{◌≡◌, ◌+◌, ◌<◌, ◌≤◌, ℕ, Some, None, IsOk, IfOk, OnOk, OnErr, IsErrOf, length};
ghost use Rattle.blockdisk.specs.declared.fault.Fault.TheVariants.{Device, Damaged};
ghost use Rattle.blockdisk.specs.Common.{Contents, DiskState, MayLeave, SameDisk, Keeps, Writes, Syncs, Fails};
ghost use Rattle.blockdisk.specs.Common.{one_more, AreFilled, AreVerified, HoldRun, IsInRun, IsWithin, Modifies};

use crate::Fault;
use words36::Block;

/// A disk of a fixed number of blocks of 128 words, counted from 0.
///
/// Between two syncs, a crash may leave anything in a block that was written, or damage it; the other blocks stay as
/// they are. A sync that fails may do to the blocks what a crash may. A disk is `honest` while it has kept to this so
/// far: nobody else wrote to it, and it returned what was written. Honesty is about the past, so nobody has to know
/// future answers: what a call ensures about contents, it ensures if the disk is honest *after* the call. The rest
/// holds on every disk.
pub trait Disk {
    ghost state: { Self → DiskState };

    /// Returns the number of blocks.
    fn blocks(&self) -> u32
        ensures { result ≡ (state self.now).size };

    /// Reads the words of a block.
    ///
    /// # Errors
    ///
    /// `Device` if the device failed, `Damaged` exactly if the block holds no words.
    fn read(&mut self, n: u32) -> Result<Block, Fault>
        requires { n < (state self.old).size }
        ensures words { (state self.new).honest → IfOk result (λ block. (state self.old).contents n ≡ Some block) }
        ensures damaged { (state self.new).honest → IsErrOf result Damaged → (state self.old).contents n ≡ None }
        ensures keeps { (state self.new).honest → Keeps (state self.old) (state self.new) }
        ensures same { SameDisk (state self.old) (state self.new) }
        ensures failed { IsErrOf result Device → (state self.new).failures ≡ one_more (state self.old).failures }
        ensures served { (IsErrOf result Device → ⊥) → (state self.new).failures ≡ (state self.old).failures };

    /// Reads neighbouring blocks, from block `first`, into as many places. Returns the first damaged block among
    /// them, if any: the places before its own are filled, and the others may hold anything.
    ///
    /// # Errors
    ///
    /// `Device` if the device failed; the places may then hold anything.
    fn read_run(&mut self, first: u32, blocks: &mut [Block]) -> Result<Option<u32>, Fault>
        requires { first + length blocks.old ≤ (state self.old).size }
        ensures within { IfOk result (IsWithin first (first + length blocks.old)) }
        ensures words { (state self.new).honest → IfOk result (AreFilled (state self.old).contents first blocks.new) }
        ensures keeps { (state self.new).honest → Keeps (state self.old) (state self.new) }
        ensures same { SameDisk (state self.old) (state self.new) }
        ensures device { IsErrOf result Damaged → ⊥ }
        ensures failed { IsErrOf result Device → (state self.new).failures ≡ one_more (state self.old).failures }
        ensures served { IsOk result → (state self.new).failures ≡ (state self.old).failures }
    {
        let _size = self.blocks(); // the number of places fits a u32
        for place in 0..blocks.len() {
            let number = first + place as u32;
            match self.read(number) {
                Ok(block) => blocks[place] = block,
                Err(Fault::Damaged) => return Ok(Some(number)),
                Err(Fault::Device) => return Err(Fault::Device),
            }
        }
        Ok(None)
    }

    /// Returns the first damaged block from block `first` and before block `end`, if any: for a caller that needs no
    /// words of them.
    ///
    /// # Errors
    ///
    /// `Device` if the device failed.
    fn verify(&mut self, first: u32, end: u32) -> Result<Option<u32>, Fault>
        requires { end ≤ (state self.old).size }
        ensures within { IfOk result (IsWithin first end) }
        ensures verified { (state self.new).honest → IfOk result (AreVerified (state self.old).contents first end) }
        ensures keeps { (state self.new).honest → Keeps (state self.old) (state self.new) }
        ensures same { SameDisk (state self.old) (state self.new) }
        ensures device { IsErrOf result Damaged → ⊥ }
        ensures failed { IsErrOf result Device → (state self.new).failures ≡ one_more (state self.old).failures }
        ensures served { IsOk result → (state self.new).failures ≡ (state self.old).failures }
    {
        for n in first..end {
            match self.read(n) {
                Ok(_) => (),
                Err(Fault::Damaged) => return Ok(Some(n)),
                Err(Fault::Device) => return Err(Fault::Device),
            }
        }
        Ok(None)
    }

    /// Writes a block. After that, the block is open until a sync succeeds, whatever the answer was.
    ///
    /// # Errors
    ///
    /// `Device` if the device failed; the block may then hold anything.
    fn write(&mut self, n: u32, block: &Block) -> Result<(), Fault>
        requires { n < (state self.old).size }
        ensures put { (state self.new).honest → OnOk result ((state self.new).contents n ≡ Some block.now) }
        ensures moves { (state self.new).honest → OnOk result ((state self.old).clock < (state self.new).clock) }
        ensures writes { (state self.new).honest → Writes n (state self.old) (state self.new) }
        ensures same { SameDisk (state self.old) (state self.new) }
        ensures device { IsErrOf result Damaged → ⊥ }
        ensures failed { IsErrOf result Device → (state self.new).failures ≡ one_more (state self.old).failures }
        ensures served { OnOk result ((state self.new).failures ≡ (state self.old).failures) };

    /// Writes neighbouring blocks, from block `first`. After that, a crash may leave anything in them until a sync
    /// succeeds, whatever the answer was.
    ///
    /// # Errors
    ///
    /// `Device` if the device failed; each of the blocks may then hold anything.
    fn write_run(&mut self, first: u32, blocks: &[Block]) -> Result<(), Fault>
        requires { first + length blocks.now ≤ (state self.old).size }
        ensures put { (state self.new).honest → OnOk result (HoldRun (state self.new).contents first blocks.now) }
        ensures moves { (state self.new).honest → OnOk result (0 < length blocks.now
            → (state self.old).clock < (state self.new).clock) }
        ensures writes { (state self.new).honest
            → Modifies (IsInRun first (length blocks.now)) (state self.old) (state self.new) }
        ensures same { SameDisk (state self.old) (state self.new) }
        ensures device { IsErrOf result Damaged → ⊥ }
        ensures failed { IsErrOf result Device → (state self.new).failures ≡ one_more (state self.old).failures }
        ensures served { OnOk result ((state self.new).failures ≡ (state self.old).failures) }
    {
        let _size = self.blocks(); // the number of blocks fits a u32
        for place in 0..blocks.len() {
            self.write(first + place as u32, &blocks[place])?;
        }
        Ok(())
    }

    /// Waits until everything that was written is on the disk. After that, no block is open.
    ///
    /// # Errors
    ///
    /// `Device` if the device failed. The open blocks then stay open, and each may hold anything or be damaged; the
    /// closed ones stay as they are.
    fn sync(&mut self) -> Result<(), Fault>
        ensures syncs { (state self.new).honest → OnOk result (Syncs (state self.old) (state self.new)) }
        ensures moves { (state self.new).honest → OnOk result ((state self.old).clock < (state self.new).clock) }
        ensures fails { (state self.new).honest → OnErr result (Fails (state self.old) (state self.new)) }
        ensures same { SameDisk (state self.old) (state self.new) }
        ensures device { IsErrOf result Damaged → ⊥ }
        ensures failed { IsErrOf result Device → (state self.new).failures ≡ one_more (state self.old).failures }
        ensures served { OnOk result ((state self.new).failures ≡ (state self.old).failures) };

    /// This moment is one of the moments since any earlier one.
    ghost counts_now: { (disk : Self) (t : ℕ) (c : Contents) → (state disk).honest → t ≤ (state disk).clock
        → MayLeave (state disk) c → (state disk).left_since t c };

    /// Since this moment there has been no other moment.
    ghost only_now: { (disk : Self) (c : Contents) → (state disk).honest → (state disk).left_since (state disk).clock c
        → MayLeave (state disk) c };

    /// What was left since a moment was also left since each earlier one.
    ghost reaches_back: { (disk : Self) (t u : ℕ) (c : Contents) → (state disk).honest → t ≤ u
        → (state disk).left_since u c → (state disk).left_since t c };
}
