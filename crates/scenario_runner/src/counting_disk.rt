//! A disk that counts its calls.
ghost use Rattle.std.specs.Prelude.{◌≡◌};

use blockdisk::{Disk, Fault};
use words36::Block;

/// The number of calls of a disk.
#[derive(Clone, Copy, Debug, PartialEq, Eq)]
pub struct Calls {
    /// Blocks read.
    pub reads: u64,
    /// Blocks written.
    pub writes: u64,
    /// Syncs.
    pub syncs: u64,
}

impl Calls {
    /// No calls.
    pub const NONE: Calls = Calls {
        reads: 0,
        writes: 0,
        syncs: 0,
    };
}

/// A disk that passes each call to another disk, and counts them.
#[derive(Drop)]
pub struct CountingDisk<D> {
    inner: D,
    calls: Calls,
}

impl<D: Disk> CountingDisk<D> {
    /// Returns a disk over this one, with no call counted.
    pub fn new(inner: D) -> Self
        ensures inner { result.inner ≡ inner }
        ensures calls { result.calls ≡ record { reads = 0; writes = 0; syncs = 0 } }
    {
        CountingDisk {
            inner,
            calls: Calls::NONE,
        }
    }

    /// Returns the disk under it.
    pub fn into_inner(self) -> D
        ensures { result ≡ self.inner }
    {
        self.inner
    }

    /// Returns the calls so far.
    pub fn calls(&self) -> Calls
        ensures { result ≡ self.now.calls }
    {
        self.calls
    }
}

impl<D: Disk> Disk for CountingDisk<D> {
    ghost state = { λ disk. D.state disk.inner };

    ghost counts_now = { λ disk t c h le left. D.counts_now disk.inner t c h le left };

    ghost only_now = { λ disk c h left. D.only_now disk.inner c h left };

    ghost reaches_back = { λ disk t u c h le left. D.reaches_back disk.inner t u c h le left };

    fn blocks(&self) -> u32 {
        self.inner.blocks()
    }

    fn read(&mut self, n: u32) -> Result<Block, Fault> {
        self.calls.reads = self.calls.reads.saturating_add(1);
        self.inner.read(n)
    }

    fn write(&mut self, n: u32, block: &Block) -> Result<(), Fault> {
        self.calls.writes = self.calls.writes.saturating_add(1);
        self.inner.write(n, block)
    }

    fn sync(&mut self) -> Result<(), Fault> {
        self.calls.syncs = self.calls.syncs.saturating_add(1);
        self.inner.sync()
    }
}
