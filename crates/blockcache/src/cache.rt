//! A disk with a cache of the blocks that were used last. Nothing is read ahead.
ghost use Rattle.std.specs.Prelude.{◌≡◌, ◌+◌, ◌<◌, ◌≤◌, ◌^◌, ℕ, List, Some, None, Ok, IfOk, IfErr, OnOk, OnErr};
ghost use Rattle.std.specs.Prelude.{IfSome, [], ◌∷◌, Contains, IfNone, get_or, length, nat_eq};
ghost use Rattle.std.specs.NonZero.{non_zero_usize_get};
ghost use Rattle.std.specs.Map.{lookup};
ghost use Rattle.lru.specs.LruCache.{lru_cache};
ghost use Rattle.blockdisk.specs.Common.{IsRead, IsRunRead, IsVerify, IsWrite, IsRunWrite, IsSync, IsInRun, IsWithin};
ghost use Rattle.blockcache.specs.Cache.{AreCached, IsCached, used, without, without_run, emptied};

use blockdisk::{Disk, Fault, NoMemory};
use lru::LruCache;
use std::alloc::Global;
use std::num::NonZeroUsize;
use words36::Block;

/// A disk some of whose blocks are cached in memory: those that were read or written last, each by itself, as many as
/// there is room for. Writes go through to the disk underneath at once, and no block is read ahead.
///
/// Blocks for which there is no memory are silently not cached: they are read again when they are needed.
#[derive(Drop)]
pub struct Cached<D: Disk> {
    inner: D,
    cache: LruCache<u32, Block>,
    ghost coherent: { (D.state inner).honest → AreCached cache.entries (D.state inner).contents },
}

impl<D: Disk> Cached<D> {
    /// Returns the same disk, with room for this number of blocks. No block is cached yet, and the disk isn't called.
    ///
    /// # Errors
    ///
    /// `NoMemory`, with the disk as it was, if there isn't that much room.
    pub fn new(alloc: Global, disk: D, capacity: NonZeroUsize) -> Result<Self, (NoMemory, D)>
        ensures inner { IfOk result (λ cached. cached.inner ≡ disk) }
        ensures empty { IfOk result (λ cached. cached.cache ≡ lru_cache [] (non_zero_usize_get capacity)) }
        ensures handed_back { IfErr result (λ refused. refused.1 ≡ disk) }
    {
        match LruCache::new(alloc, capacity) {
            Ok(cache) => Ok(Cached { inner: disk, cache }),
            Err(error) => Err((error.into(), disk)),
        }
    }

    /// Returns the disk underneath.
    pub fn inner(&self) -> &D
        ensures { result.now ≡ self.now.inner }
    {
        &self.inner
    }

    /// Returns the disk underneath, as it is: it has everything that was written.
    pub fn into_inner(self) -> D
        ensures { result ≡ self.inner }
    {
        self.inner
    }

    /// Returns the cached words of a block, if any, and makes it the block that was used last.
    fn recall(&mut self, n: u32) -> Option<Block>
        ensures found { result ≡ lookup (nat_eq n) self.old.cache.entries }
        ensures used { self.new.cache ≡ used n self.old.cache }
        ensures missed { lookup (nat_eq n) self.old.cache.entries ≡ None → self.new.cache ≡ self.old.cache }
        ensures inner { self.new.inner ≡ self.old.inner }
    {
        self.cache.get(&n).copied()
    }

    /// Caches the words of a block, if there is memory.
    fn keep(&mut self, n: u32, block: &Block)
        requires { (D.state self.old.inner).honest → (D.state self.old.inner).contents n ≡ Some block.now }
        ensures kept { IsCached n block.now self.old.cache self.new.cache }
        ensures inner { self.new.inner ≡ self.old.inner }
    {
        let _kept = self.cache.put(n, *block);
    }

    /// Drops a block from the cache.
    fn forget(&mut self, n: u32)
        ensures forgotten { self.new.cache ≡ without n self.old.cache }
        ensures none { lookup (nat_eq n) self.new.cache.entries ≡ None }
        ensures inner { self.new.inner ≡ self.old.inner }
    {
        let _kept = self.cache.len(); // no block is cached twice
        let _block = self.cache.pop(&n);
    }

    /// Drops a run of neighbouring blocks from the cache.
    fn forget_run(&mut self, first: u32, count: u32)
        requires { first + count < 2 ^ 32 }
        ensures forgotten { self.new.cache ≡ without_run first count self.old.cache }
        ensures none { (n : ℕ) → IsInRun first count n → lookup (nat_eq n) self.new.cache.entries ≡ None }
        ensures no_others { (e : ℕ × List ℕ) → Contains self.new.cache.entries e → Contains self.old.cache.entries e }
        ensures inner { self.new.inner ≡ self.old.inner }
    {
        for number in first..first + count {
            self.forget(number);
        }
    }
}

impl<D: Disk> Disk for Cached<D> {
    ghost state = { λ cached. D.state cached.inner };

    ghost counts_now = { λ cached t c h le left. D.counts_now cached.inner t c h le left };

    ghost only_now = { λ cached c h left. D.only_now cached.inner c h left };

    ghost reaches_back = { λ cached t u c h le left. D.reaches_back cached.inner t u c h le left };

    fn blocks(&self) -> u32 {
        self.inner.blocks()
    }

    fn read(&mut self, n: u32) -> Result<Block, Fault>
        requires { n < (D.state self.old.inner).size }
        ensures recalled { IfSome (lookup (nat_eq n) self.old.cache.entries) (λ block. (result ≡ Ok block)
            × (self.new.inner ≡ self.old.inner) × (self.new.cache ≡ used n self.old.cache)) }
        ensures reads { IsRead n (D.state self.old.inner) (D.state self.new.inner) result }
        ensures keeps_block { lookup (nat_eq n) self.old.cache.entries ≡ None
            → IfOk result (λ block. IsCached n block self.old.cache self.new.cache) }
        ensures keeps_none { lookup (nat_eq n) self.old.cache.entries ≡ None
            → OnErr result (self.new.cache ≡ self.old.cache) }
    {
        if let Some(block) = self.recall(n) {
            return Ok(block);
        }
        let block = self.inner.read(n)?;
        self.keep(n, &block);
        Ok(block)
    }

    /// Reads neighbouring blocks. A run of several bypasses the cached blocks, which are as the disk holds them, and
    /// none of it is cached: it would drive the others out. A single block is read as by `read`.
    fn read_run(&mut self, first: u32, blocks: &mut [Block]) -> Result<Option<u32>, Fault>
        requires { first + length blocks.old ≤ (D.state self.old.inner).size }
        ensures within { IfOk result (IsWithin first (first + length blocks.old)) }
        ensures reads { IsRunRead first (D.state self.old.inner) (D.state self.new.inner) blocks.new result }
        ensures passes_by { (length blocks.old ≡ 1 → ⊥) → self.new.cache ≡ self.old.cache }
        ensures recalled { length blocks.old ≡ 1 → IfSome (lookup (nat_eq first) self.old.cache.entries)
            (λ block. (result ≡ Ok None) × (blocks.new ≡ block ∷ []) × (self.new.inner ≡ self.old.inner)
            × (self.new.cache ≡ used first self.old.cache)) }
        ensures keeps_block { length blocks.old ≡ 1 → lookup (nat_eq first) self.old.cache.entries ≡ None
            → IfOk result (λ bad. IfNone bad
            (IsCached first (get_or blocks.new 0 []) self.old.cache self.new.cache)) }
        ensures keeps_none { length blocks.old ≡ 1 → lookup (nat_eq first) self.old.cache.entries ≡ None
            → (result ≡ Ok None → ⊥) → self.new.cache ≡ self.old.cache }
    {
        if blocks.len() != 1 {
            return self.inner.read_run(first, blocks);
        }
        match self.read(first) {
            Ok(block) => blocks[0] = block,
            Err(Fault::Damaged) => return Ok(Some(first)),
            Err(Fault::Device) => return Err(Fault::Device),
        }
        Ok(None)
    }

    /// Calls the disk to verify all these blocks, even those that are cached, which are as the disk holds them. Caches
    /// none of the others.
    fn verify(&mut self, first: u32, end: u32) -> Result<Option<u32>, Fault>
        requires { end ≤ (D.state self.old.inner).size }
        ensures verifies { IsVerify first end (D.state self.old.inner) (D.state self.new.inner) result }
        ensures keeps_all { self.new.cache ≡ self.old.cache }
    {
        self.inner.verify(first, end)
    }

    fn write(&mut self, n: u32, block: &Block) -> Result<(), Fault>
        requires { n < (D.state self.old.inner).size }
        ensures writes { IsWrite n block.now (D.state self.old.inner) (D.state self.new.inner) result }
        ensures keeps_block { OnOk result (IsCached n block.now (without n self.old.cache) self.new.cache) }
        ensures forgets { OnErr result (self.new.cache ≡ without n self.old.cache) }
        ensures none { OnErr result (lookup (nat_eq n) self.new.cache.entries ≡ None) }
    {
        self.forget(n);
        self.inner.write(n, block)?;
        self.keep(n, block);
        Ok(())
    }

    /// Writes neighbouring blocks. A run of several bypasses the cache, and none of it stays cached: it would drive
    /// the others out. A single block is written as by `write`.
    fn write_run(&mut self, first: u32, blocks: &[Block]) -> Result<(), Fault>
        requires { first + length blocks.now ≤ (D.state self.old.inner).size }
        ensures writes { IsRunWrite first blocks.now (D.state self.old.inner) (D.state self.new.inner) result }
        ensures forgets { (length blocks.now ≡ 1 → ⊥)
            → self.new.cache ≡ without_run first (length blocks.now) self.old.cache }
        ensures none { (length blocks.now ≡ 1 → ⊥) → (n : ℕ) → IsInRun first (length blocks.now) n
            → lookup (nat_eq n) self.new.cache.entries ≡ None }
        ensures keeps_block { length blocks.now ≡ 1
            → OnOk result (IsCached first (get_or blocks.now 0 []) (without first self.old.cache) self.new.cache) }
        ensures forgets_block { length blocks.now ≡ 1 → OnErr result (self.new.cache ≡ without first self.old.cache) }
    {
        if blocks.len() == 1 {
            return self.write(first, &blocks[0]);
        }
        let _size = self.blocks(); // the number of blocks fits a u32
        self.forget_run(first, blocks.len() as u32);
        self.inner.write_run(first, blocks)
    }

    fn sync(&mut self) -> Result<(), Fault>
        ensures syncs { IsSync (D.state self.old.inner) (D.state self.new.inner) result }
        ensures keeps_all { OnOk result (self.new.cache ≡ self.old.cache) }
        ensures keeps_none { OnErr result (self.new.cache ≡ emptied self.old.cache) }
    {
        if let Err(fault) = self.inner.sync() {
            self.cache.clear(); // what open blocks hold may have changed
            return Err(fault);
        }
        Ok(())
    }
}
