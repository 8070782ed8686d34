//! A version in memory: its length, its data blocks and its ribs.
ghost use Rattle.std.specs.Prelude.{◌≡◌, ◌+◌, ◌-◌, ◌<◌, ◌≤◌, ◌++◌, ◌∷◌, ℕ, [], slice_set, slice_get, slice_index};
ghost use Rattle.std.specs.Prelude.{length, IfOk, OnOk, OnErr};
ghost use Rattle.retrieval.specs.Common.{blocks_of_runs, pairs_of, longest_runs, VersionState};

use crate::block_list::BlockList;
use crate::run::Run;
use blockdisk::NoMemory;
use std::alloc::Global;
use std::marker::Model;

/// Where a version of a file lies: its length in words, its data blocks in order, which are stored as runs, and its
/// ribs, the extensions of its prime block.
#[derive(Drop)]
pub struct Version {
    length: u32,
    pub(crate) blocks: BlockList,
    ribs: Vec<u32>,
}

impl Model for Version {
    ghost use Rattle.retrieval.specs.Common.{VersionState};

    ghost Value = { VersionState };

    ghost view = { λ v. record { words = v.length; blocks = v.blocks.blocks; ribs = v.ribs.items } };
}

impl Version {
    /// Returns a version of no words and no blocks. It takes no memory yet.
    pub fn new(alloc: Global) -> Self
        ensures { result ≡ record { words = 0; blocks = []; ribs = [] } }
    {
        Version {
            length: 0,
            blocks: BlockList::new(alloc),
            ribs: Vec::new(alloc),
        }
    }

    /// Returns the length in words.
    pub fn length(&self) -> u32
        ensures { result ≡ self.now.words }
    {
        self.length
    }

    /// Sets the length in words; the blocks stay.
    pub fn set_length(&mut self, words: u32)
        ensures { self.new ≡ record self.old { words = words } }
    {
        self.length = words;
    }

    /// Returns how many data blocks there are.
    pub fn count(&self) -> usize
        ensures { result ≡ length self.now.blocks }
    {
        self.blocks.len()
    }

    /// Returns the longest runs of the data blocks, in order.
    pub fn runs(&self) -> &[Run]
        ensures blocks { blocks_of_runs result.now ≡ self.now.blocks }
        ensures are_longest { pairs_of result.now ≡ longest_runs self.now.blocks }
    {
        self.blocks.runs()
    }

    /// Returns the extensions of the prime block, in order.
    pub fn ribs(&self) -> &[u32]
        ensures { result.now ≡ self.now.ribs }
    {
        self.ribs.as_slice()
    }

    /// Returns the data block at a place, counted from 0, or `None` past the last.
    pub fn block(&self, i: usize) -> Option<u32>
        ensures { result ≡ slice_get self.now.blocks i }
    {
        self.blocks.get(i)
    }

    /// Returns the data block at a place, counted from 0.
    pub fn block_at(&self, i: usize) -> u32
        requires { i < length self.now.blocks }
        ensures { result ≡ slice_index self.now.blocks i }
    {
        self.blocks.at(i)
    }

    /// Returns the data block at a place, counted from 0, with all neighbours that follow it in the list.
    pub fn run_at(&self, i: usize) -> Run
        requires { i < length self.now.blocks }
        ensures within { i + (result.last - result.first) < length self.now.blocks }
        ensures side_by_side { (j : ℕ) → j ≤ result.last - result.first
            → slice_index self.now.blocks (i + j) ≡ result.first + j }
        ensures longest { i + (result.last - result.first) + 1 < length self.now.blocks
            → slice_index self.now.blocks (i + (result.last - result.first) + 1) ≡ result.last + 1 → ⊥ }
    {
        self.blocks.run_at(i)
    }

    /// Puts another block at a place.
    ///
    /// # Errors
    ///
    /// `NoMemory` if there is no memory; nothing changes then.
    pub fn set_block(&mut self, i: usize, n: u32) -> Result<(), NoMemory>
        requires { i < length self.old.blocks }
        ensures ok { OnOk result (self.new ≡ record self.old { blocks = slice_set self.old.blocks i n }) }
        ensures err { OnErr result (self.new ≡ self.old) }
    {
        self.blocks.reserve(2)?; // a run that is split
        self.blocks.set(i, n);
        Ok(())
    }

    /// Adds a data block after the last.
    ///
    /// # Errors
    ///
    /// `NoMemory` if there is no memory; nothing changes then.
    pub fn push(&mut self, n: u32) -> Result<(), NoMemory>
        ensures ok { OnOk result (self.new ≡ record self.old { blocks = self.old.blocks ++ n ∷ [] }) }
        ensures err { OnErr result (self.new ≡ self.old) }
    {
        self.blocks.push(n)
    }

    /// Adds a rib after the last.
    ///
    /// # Errors
    ///
    /// `NoMemory` if there is no memory; nothing changes then.
    pub fn push_rib(&mut self, n: u32) -> Result<(), NoMemory>
        ensures ok { OnOk result (self.new ≡ record self.old { ribs = self.old.ribs ++ n ∷ [] }) }
        ensures err { OnErr result (self.new ≡ self.old) }
    {
        match self.ribs.push(n) {
            Ok(()) => Ok(()),
            Err(_) => Err(NoMemory),
        }
    }

    /// Replaces all ribs by others.
    pub(crate) fn set_ribs(&mut self, ribs: Vec<u32>)
        ensures { self.new ≡ record self.old { ribs = ribs.items } }
    {
        self.ribs = ribs;
    }

    /// Returns a version with the same words: of the same length and the same data blocks, and with no ribs yet.
    ///
    /// # Errors
    ///
    /// `NoMemory` if there is no memory.
    pub fn copy_without_ribs(&self, alloc: Global) -> Result<Version, NoMemory>
        ensures { IfOk result (λ version. version ≡ record self.now { ribs = [] }) }
    {
        let ribs = Vec::new(alloc);
        Ok(Version {
            length: self.length,
            blocks: self.blocks.copy()?,
            ribs,
        })
    }

    /// Returns an equal version.
    ///
    /// # Errors
    ///
    /// `NoMemory` if there is no memory.
    pub fn copy(&self) -> Result<Version, NoMemory>
        ensures { IfOk result (λ version. version ≡ self.now) }
    {
        Ok(Version {
            length: self.length,
            blocks: self.blocks.copy()?,
            ribs: self.ribs.clone()?,
        })
    }
}
