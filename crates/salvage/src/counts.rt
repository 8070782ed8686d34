//! How often blocks occur in files.
ghost use Rattle.std.specs.Prelude.{◌≡◌, ◌+◌, ◌<◌, ◌∷◌, ℕ, [], length, replicate, slice_index, IfOk, IfErr, IfSome};
ghost use Rattle.std.specs.Prelude.{IfNone};
ghost use Rattle.std.specs.List.{AllByRecursion};
ghost use Rattle.spec_image.specs.Common.{times};
ghost use Rattle.alloctab.specs.Common.{digit_at};
ghost use Rattle.salvage.specs.BlockCounts.{CountTo};
ghost use Rattle.salvage.specs.Saved.{FitsDisk, blocks_of, claims};
ghost use Rattle.salvage.specs.declared.error.SalvageError.TheVariants.{NoMemory};

use crate::{SalvageError, SavedFile};
use alloctab::Reached;
use retrieval::Version;
use std::alloc::Global;
use std::marker::Model;

/// How often each block of a disk occurs in files. A count ends at 2.
#[derive(Drop)]
pub struct Counts {
    counts: Vec<u8>,
}

impl Model for Counts {
    ghost use Rattle.std.specs.Prelude.{ℕ, ◌^◌, ◌<◌, List, length};

    ghost Value = { List ℕ };

    ghost view = { λ c. c.counts.items };

    ghost invariant = { λ c. length c.counts.items < 2 ^ 32 };
}

impl Counts {
    /// Returns the counts of no files, for `size` blocks.
    ///
    /// # Errors
    ///
    /// `NoMemory` if there is no memory for the counts.
    pub fn new(alloc: Global, size: u32) -> Result<Self, SalvageError>
        ensures zeros { IfOk result (λ counts. counts ≡ replicate size 0) }
        ensures only { IfErr result (λ error. error ≡ NoMemory) }
    {
        match vec![in alloc; 0; size as usize] {
            Ok(counts) => Ok(Counts { counts }),
            Err(_) => Err(SalvageError::NoMemory),
        }
    }

    /// Returns how often a block was counted.
    pub fn of(&self, n: u32) -> u8
        requires { n < length self.now }
        ensures { result ≡ slice_index self.now n }
    {
        self.counts[n as usize]
    }

    /// Counts a block once more.
    fn count(&mut self, n: u32)
        requires { n < length self.old }
        ensures counted { (f : ℕ → ℕ) → CountTo self.old f → CountTo self.new (λ m. f m + times m (n ∷ [])) }
        ensures length { length self.new ≡ length self.old }
    {
        let counted = self.counts[n as usize].saturating_add(1);
        self.counts[n as usize] = counted.min(2);
    }

    /// Counts these blocks.
    fn count_all(&mut self, blocks: &[u32])
        requires { AllByRecursion (λ n. n < length self.old) blocks.now }
        ensures counted { (f : ℕ → ℕ) → CountTo self.old f → CountTo self.new (λ m. f m + times m blocks.now) }
        ensures length { length self.new ≡ length self.old }
    {
        for &block in blocks {
            self.count(block);
        }
    }

    /// Counts the data blocks of a version.
    fn count_data(&mut self, version: &Version)
        requires { AllByRecursion (λ n. n < length self.old) version.now.blocks }
        ensures counted { (f : ℕ → ℕ) → CountTo self.old f → CountTo self.new (λ m. f m + times m version.now.blocks) }
        ensures length { length self.new ≡ length self.old }
    {
        for i in 0..version.count() {
            self.count(version.block_at(i));
        }
    }

    /// Counts the blocks of a file: the prime block, the extensions and the data blocks.
    fn count_file(&mut self, file: &SavedFile)
        requires { FitsDisk (length self.old) file.now }
        ensures counted { (f : ℕ → ℕ) → CountTo self.old f
            → CountTo self.new (λ m. f m + times m (blocks_of file.now)) }
        ensures length { length self.new ≡ length self.old }
    {
        self.count(file.at);
        self.count_all(file.stored.version.ribs());
        self.count_data(&file.stored.version);
    }

    /// Counts the blocks of these files.
    pub fn count_files(&mut self, files: &[SavedFile])
        requires { AllByRecursion (FitsDisk (length self.old)) files.now }
        ensures counted { (f : ℕ → ℕ) → CountTo self.old f → CountTo self.new (λ m. f m + claims files.now m) }
        ensures length { length self.new ≡ length self.old }
    {
        for file in files {
            self.count_file(file);
        }
    }

    /// Counts the blocks that are marked.
    pub fn count_marked(&mut self, marks: &Reached)
        requires { length marks.now ≡ length self.old }
        ensures counted { (f : ℕ → ℕ) → CountTo self.old f → CountTo self.new (λ m. f m + digit_at marks.now m) }
        ensures length { length self.new ≡ length self.old }
    {
        for n in 0..self.counts.len() as u32 {
            if marks.is_marked(n) {
                self.count(n);
            }
        }
    }

    /// Returns the first of these blocks that wasn't counted exactly once, if any.
    fn shared_among(&self, blocks: &[u32]) -> Option<u32>
        requires { AllByRecursion (λ n. n < length self.now) blocks.now }
        ensures shared { IfSome result (λ n. slice_index self.now n ≡ 1 → ⊥) }
        ensures among { IfSome result (λ n. 0 < times n blocks.now) }
        ensures alone { IfNone result ((n : ℕ) → 0 < times n blocks.now → slice_index self.now n ≡ 1) }
    {
        for &block in blocks {
            if self.of(block) != 1 {
                return Some(block);
            }
        }
        None
    }

    /// Returns the first data block of a version that wasn't counted exactly once, if any.
    fn shared_data(&self, version: &Version) -> Option<u32>
        requires { AllByRecursion (λ n. n < length self.now) version.now.blocks }
        ensures shared { IfSome result (λ n. slice_index self.now n ≡ 1 → ⊥) }
        ensures among { IfSome result (λ n. 0 < times n version.now.blocks) }
        ensures alone { IfNone result ((n : ℕ) → 0 < times n version.now.blocks → slice_index self.now n ≡ 1) }
    {
        for i in 0..version.count() {
            let block = version.block_at(i);
            if self.of(block) != 1 {
                return Some(block);
            }
        }
        None
    }

    /// Returns the first block of a file that wasn't counted exactly once, if any.
    pub fn shared_block(&self, file: &SavedFile) -> Option<u32>
        requires { FitsDisk (length self.now) file.now }
        ensures shared { IfSome result (λ n. slice_index self.now n ≡ 1 → ⊥) }
        ensures among { IfSome result (λ n. 0 < times n (blocks_of file.now)) }
        ensures alone { IfNone result ((n : ℕ) → 0 < times n (blocks_of file.now) → slice_index self.now n ≡ 1) }
    {
        if self.of(file.at) != 1 {
            return Some(file.at);
        }
        if let Some(block) = self.shared_among(file.stored.version.ribs()) {
            return Some(block);
        }
        self.shared_data(&file.stored.version)
    }
}
