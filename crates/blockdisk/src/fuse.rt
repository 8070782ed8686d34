//! A disk that fails on purpose after a number of calls.
ghost use Rattle.std.specs.Prelude.{◌≡◌, ◌<◌, ◌≤◌, ◌+◌, ◌-◌, Some, None, Result, IsErrOf, IfOk, OnOk, OnErr, length};
ghost use Rattle.std.specs.Prelude.{true, false};
ghost use Rattle.blockdisk.specs.Common.{IsRead, IsRunRead, IsVerify, IsWrite, IsRunWrite, IsSync, IsWithin};
ghost use Rattle.blockdisk.specs.Common.{one_more, is_blown, burnt, fused, blocks_read};
ghost use Rattle.blockdisk.specs.declared.fault.Fault.TheVariants.{Device, Damaged};

use crate::{Disk, Fault};
use words36::Block;

/// Which calls fail after the fuse of a disk has blown.
#[derive(Clone, Copy)]
pub enum Fail {
    /// Only the next one.
    One,
    /// The next one and all after it.
    All,
}

/// A disk that fails on purpose. A number of calls pass, and then one call or every call answers `Device`. A read, a
/// write and a sync count as one each, and a run counts one for each block up to the first that is damaged or fails.
///
/// A write that fails is done all the same; a read or a sync that fails never reaches the disk underneath.
#[derive(Drop)]
pub struct FuseDisk<D: Disk> {
    inner: D,
    left: Option<u64>,
    fail: Fail,
    failures: u64,
}

impl<D: Disk> FuseDisk<D> {
    ghost use Rattle.blockdisk.specs.Common.{own_failures};

    /// Returns the same disk with a fuse that lets this number of calls pass.
    pub fn new(disk: D, passing: u64, fail: Fail) -> Self
        ensures inner { result.inner ≡ disk }
        ensures left { result.left ≡ Some passing }
        ensures fail { result.fail ≡ fail }
        ensures failures { result.failures ≡ 0 }
    {
        FuseDisk {
            inner: disk,
            left: Some(passing),
            fail,
            failures: 0,
        }
    }

    /// Returns the disk underneath, as it is.
    pub fn into_inner(self) -> D
        ensures { result ≡ self.inner }
    {
        self.inner
    }

    /// Counts a call, and returns whether it fails.
    fn blows(&mut self) -> bool
        ensures blows { result ≡ is_blown self.old.left }
        ensures burnt { self.new ≡ record self.old { left = burnt self.old.fail self.old.left } }
    {
        match self.left {
            None => false,
            Some(0) => {
                self.left = match self.fail {
                    Fail::One => None,
                    Fail::All => Some(0),
                };
                true
            }
            Some(passing) => {
                self.left = Some(passing - 1);
                false
            }
        }
    }

    /// Counts a failure that is the fuse's alone.
    fn count_failure(&mut self)
        ensures { self.new ≡ record self.old { failures = one_more self.old.failures } }
    {
        self.failures = self.failures.saturating_add(1);
    }

    /// Makes the write of a call that fails. If the disk underneath fails, too, that is one failure, and it is in
    /// that disk's count.
    fn write_anyway(&mut self, n: u32, block: &Block) -> Result<(), Fault>
        requires { n < (D.state self.old.inner).size }
        ensures writes { IsWrite n block.now (D.state self.old.inner) (D.state self.new.inner) result }
        ensures counts { self.new ≡ record self.old {
          inner = self.new.inner;
          failures = own_failures result self.old.failures;
        } }
    {
        self.inner.write(n, block)?;
        self.count_failure();
        Ok(())
    }
}

impl<D: Disk> Disk for FuseDisk<D> {
    ghost use Rattle.blockdisk.specs.Common.{passed, refused, IsMadeAnyway, HavePassed, HasFailedRead};
    ghost use Rattle.blockdisk.specs.Common.{HasFailedWrite};

    ghost state = { λ disk. fused (D.state disk.inner) disk.failures };

    ghost counts_now = { λ disk t c h le left. D.counts_now disk.inner t c h le left };

    ghost only_now = { λ disk c h left. D.only_now disk.inner c h left };

    ghost reaches_back = { λ disk t u c h le left. D.reaches_back disk.inner t u c h le left };

    fn blocks(&self) -> u32 {
        self.inner.blocks()
    }

    fn read(&mut self, n: u32) -> Result<Block, Fault>
        requires { n < (D.state self.old.inner).size }
        ensures blown { is_blown self.old.left ≡ true → IsErrOf result Device × (self.new ≡ refused self.old) }
        ensures passed { is_blown self.old.left ≡ false
            → IsRead n (D.state self.old.inner) (D.state self.new.inner) result
            × (self.new ≡ passed self.old self.new.inner) }
        ensures reads { IsRead n (fused (D.state self.old.inner) self.old.failures)
            (fused (D.state self.new.inner) self.new.failures) result }
    {
        if self.blows() {
            self.count_failure();
            return Err(Fault::Device);
        }
        self.inner.read(n)
    }

    fn read_run(&mut self, first: u32, blocks: &mut [Block]) -> Result<Option<u32>, Fault>
        requires { first + length blocks.old ≤ (D.state self.old.inner).size }
        ensures within { IfOk result (IsWithin first (first + length blocks.old)) }
        ensures passed { IfOk result
            (λ found. HavePassed (blocks_read first (length blocks.old) found) self.old self.new) }
        ensures failed { OnErr result (HasFailedRead D.state (length blocks.old) self.old self.new) }
        ensures reads { IsRunRead first (fused (D.state self.old.inner) self.old.failures)
            (fused (D.state self.new.inner) self.new.failures) blocks.new result }
    {
        let _size = self.blocks(); // the number of places fits a u32
        for place in 0..blocks.len() {
            let number = first + place as u32;
            match self.read(number) {
                Ok(block) => blocks[place] = block,
                Err(Fault::Damaged) => return Ok(Some(number)),
                Err(Fault::Device) => return Err(Fault::Device),
            }
        }
        Ok(None)
    }

    fn verify(&mut self, first: u32, end: u32) -> Result<Option<u32>, Fault>
        requires { end ≤ (D.state self.old.inner).size }
        ensures passed { IfOk result (λ found. HavePassed (blocks_read first (end - first) found) self.old self.new) }
        ensures failed { OnErr result (HasFailedRead D.state (end - first) self.old self.new) }
        ensures verifies { IsVerify first end (fused (D.state self.old.inner) self.old.failures)
            (fused (D.state self.new.inner) self.new.failures) result }
    {
        for n in first..end {
            match self.read(n) {
                Ok(_) => (),
                Err(Fault::Damaged) => return Ok(Some(n)),
                Err(Fault::Device) => return Err(Fault::Device),
            }
        }
        Ok(None)
    }

    fn write(&mut self, n: u32, block: &Block) -> Result<(), Fault>
        requires { n < (D.state self.old.inner).size }
        ensures blown { is_blown self.old.left ≡ true → IsErrOf result Device × IsMadeAnyway
            (IsWrite n block.now (D.state self.old.inner) (D.state self.new.inner)) self.old self.new }
        ensures passed { is_blown self.old.left ≡ false
            → IsWrite n block.now (D.state self.old.inner) (D.state self.new.inner) result
            × (self.new ≡ passed self.old self.new.inner) }
        ensures writes { IsWrite n block.now (fused (D.state self.old.inner) self.old.failures)
            (fused (D.state self.new.inner) self.new.failures) result }
    {
        if self.blows() {
            let _made = self.write_anyway(n, block);
            return Err(Fault::Device);
        }
        self.inner.write(n, block)
    }

    fn write_run(&mut self, first: u32, blocks: &[Block]) -> Result<(), Fault>
        requires { first + length blocks.now ≤ (D.state self.old.inner).size }
        ensures passed { OnOk result (HavePassed (length blocks.now) self.old self.new) }
        ensures failed { OnErr result (HasFailedWrite D.state first (length blocks.now) self.old self.new) }
        ensures writes { IsRunWrite first blocks.now (fused (D.state self.old.inner) self.old.failures)
            (fused (D.state self.new.inner) self.new.failures) result }
    {
        let _size = self.blocks(); // the number of blocks fits a u32
        for place in 0..blocks.len() {
            self.write(first + place as u32, &blocks[place])?;
        }
        Ok(())
    }

    fn sync(&mut self) -> Result<(), Fault>
        ensures blown { is_blown self.old.left ≡ true → IsErrOf result Device × (self.new ≡ refused self.old) }
        ensures passed { is_blown self.old.left ≡ false
            → IsSync (D.state self.old.inner) (D.state self.new.inner) result
            × (self.new ≡ passed self.old self.new.inner) }
        ensures syncs { IsSync (fused (D.state self.old.inner) self.old.failures)
            (fused (D.state self.new.inner) self.new.failures) result }
    {
        if self.blows() {
            self.count_failure();
            return Err(Fault::Device);
        }
        self.inner.sync()
    }
}
