//! A disk in memory that fails on purpose, and counts its calls; and what a crash may leave of one.
ghost use Rattle.std.specs.Prelude.{◌≡◌, OnOk, OnErr, IfErr};
ghost use Rattle.blockdisk.specs.Common.{one_more};
ghost use Rattle.blockdisk.specs.declared.fault.Fault.TheVariants.{Device};

use blockdisk::{Disk, Fault, MemDisk, Pick};
use words36::Block;

/// Each pick of what a crash leaves of the open blocks.
pub const PICKS: [Pick; 5] = [Pick::Old, Pick::New, Pick::Damaged, Pick::Half, Pick::Open];

/// A way in which a disk that fails on purpose answers its writes, or its syncs.
#[derive(Clone, Copy, Debug, PartialEq, Eq)]
pub enum Answer {
    /// Each fails, and the disk in memory isn't called.
    Fails,
    /// Each succeeds, and the disk in memory isn't called.
    Succeeds,
    /// Each is passed to the disk in memory.
    Passes,
    /// Each is passed to the disk in memory while reads are left, and takes one of them.
    PassesAsRead,
}

/// A disk in memory that serves a number of reads, and fails all after them; a read of a block that the disk in memory
/// doesn't have fails too. Its maker says how it answers its writes and its syncs. It counts its calls.
///
/// It is called dishonest, so that it promises nothing except its count of failures.
#[derive(Drop)]
pub struct FailingDisk {
    /// The disk in memory.
    pub inner: MemDisk,
    /// The number of blocks that it says that it has.
    pub size: u32,
    /// The number of reads that it still serves.
    pub left: u32,
    /// The answer to a read that it doesn't serve.
    pub fault: Fault,
    /// The answer to its writes.
    pub on_write: Answer,
    /// The answer to its syncs.
    pub on_sync: Answer,
    /// The number of reads, served or not.
    pub reads: u32,
    /// The number of writes, whatever the answer was.
    pub writes: u32,
    /// The number of syncs, whatever the answer was.
    pub syncs: u32,
    /// The number of failures of the device.
    pub failures: u64,
}

impl FailingDisk {
    /// Returns a disk of the same size as this one in memory that serves `left` reads, and answers its writes and its
    /// syncs in these ways. A read that it doesn't serve is a fault of the device.
    pub fn new(inner: MemDisk, left: u32, on_write: Answer, on_sync: Answer) -> Self {
        let size = inner.blocks();
        FailingDisk {
            inner,
            size,
            left,
            fault: Fault::Device,
            on_write,
            on_sync,
            reads: 0,
            writes: 0,
            syncs: 0,
            failures: 0,
        }
    }

    /// Returns a disk that passes all its calls to this one in memory, for a test of how many there are.
    pub fn counting(inner: MemDisk) -> Self {
        FailingDisk::new(inner, u32::MAX, Answer::Passes, Answer::Passes)
    }

    /// Takes one of the reads that are left. Returns whether there was one.
    fn take_read(&mut self) -> bool
        ensures { self.new ≡ record self.old { left = self.new.left } }
    {
        if self.left == 0 {
            return false;
        }
        self.left -= 1;
        true
    }

    /// Passes a write to the disk in memory, if that has such a block. Returns whether it succeeded.
    fn pass_write(&mut self, n: u32, block: &Block) -> bool
        ensures { self.new ≡ record self.old { inner = self.new.inner } }
    {
        n < self.inner.blocks() && self.inner.write(n, block).is_ok()
    }

    /// Passes a sync to the disk in memory. Returns whether it succeeded.
    fn pass_sync(&mut self) -> bool
        ensures { self.new ≡ record self.old { inner = self.new.inner } }
    {
        self.inner.sync().is_ok()
    }

    /// Returns the answer to a write or a sync that was done or not, and counts a failure.
    fn answer(&mut self, is_done: bool) -> Result<(), Fault>
        ensures done { OnOk result (self.new ≡ self.old) }
        ensures failed { OnErr result (self.new ≡ record self.old { failures = one_more self.old.failures }) }
        ensures device { IfErr result (λ fault. fault ≡ Device) }
    {
        if is_done {
            return Ok(());
        }
        self.failures = self.failures.saturating_add(1);
        Err(Fault::Device)
    }
}

impl Disk for FailingDisk {
    ghost use Rattle.blockdisk.specs.Common.{memory_state};

    ghost state = { λ failing. record (memory_state failing.inner) {
      size = failing.size;
      honest = ⊥;
      failures = failing.failures;
    } };

    ghost counts_now = { λ failing t c honest. absurd honest };

    ghost only_now = { λ failing c honest. absurd honest };

    ghost reaches_back = { λ failing t u c honest. absurd honest };

    fn blocks(&self) -> u32 {
        self.size
    }

    fn read(&mut self, n: u32) -> Result<Block, Fault> {
        self.reads = self.reads.saturating_add(1);
        if n < self.inner.blocks() && self.take_read() {
            return self.inner.read(n);
        }
        if self.fault == Fault::Device {
            self.failures = self.failures.saturating_add(1);
        }
        Err(self.fault)
    }

    fn write(&mut self, n: u32, block: &Block) -> Result<(), Fault> {
        self.writes = self.writes.saturating_add(1);
        let is_done = match self.on_write {
            Answer::Fails => false,
            Answer::Succeeds => true,
            Answer::Passes => self.pass_write(n, block),
            Answer::PassesAsRead => self.take_read() && self.pass_write(n, block),
        };
        self.answer(is_done)
    }

    fn sync(&mut self) -> Result<(), Fault> {
        self.syncs = self.syncs.saturating_add(1);
        let is_done = match self.on_sync {
            Answer::Fails => false,
            Answer::Succeeds => true,
            Answer::Passes => self.pass_sync(),
            Answer::PassesAsRead => self.take_read() && self.pass_sync(),
        };
        self.answer(is_done)
    }
}
