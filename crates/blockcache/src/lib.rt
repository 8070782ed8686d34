//! A cache of blocks over any disk. What the layer guarantees:
//!
//! 1. `Cached` over any `Disk` is a `Disk`, and it is the same one: its contents, open blocks, clock, crashes, count
//!    of failures and honesty are those of the disk underneath, at every capacity, and whether memory was found for a
//!    block or not. (`state`)
//! 2. What is cached of a block is what the disk holds, while the disk is honest. (`coherent`)
//! 3. A read of a cached block calls no device (`recalled`). Any other read is one of the disk underneath, and
//!    what it returned is cached if there is room; a block that holds no words is never cached. (`read`)
//! 4. A write first drops the block from the cache, then writes, and caches the new words after they are written: a
//!    write that failed leaves nothing of its block in the cache. (`write`)
//! 5. A sync that failed may have changed what open blocks hold, so nothing stays cached after it. (`sync`)
//! 6. A run of several blocks bypasses the cache: a read leaves the cache as it was, and a write drops its own
//!    blocks and leaves everything else. (`passes_by`, `forgets`)
//! 7. A check of blocks is one of the disk underneath, and caches none. (`verifies`, `keeps_all`)
//!
//! No clause counts the calls of the disk underneath. That a read makes no second one, and that a check leaves out no
//! cached block, is tested.
#![tactic(auto)]

mod cache;

pub use cache::Cached;
