//! Which files have each block, up to four of them.
ghost use Rattle.std.specs.Prelude.{◌≡◌, ◌+◌, ◌<◌, ◌≤◌, ◌∷◌, ℕ, [], false, length, replicate, slice_index};
ghost use Rattle.std.specs.Prelude.{IfOk, IfErr, IfSome, IfNone, IsTrue};
ghost use Rattle.std.specs.List.{AllByRecursion};
ghost use Rattle.spec_image.specs.Common.{times};
ghost use Rattle.salvage.specs.BlockCounts.{AreClaimed};
ghost use Rattle.salvage.specs.Saved.{FitsDisk, blocks_of};
ghost use Rattle.salvage.specs.declared.error.SalvageError.TheVariants.{NoMemory};

use crate::{SalvageError, SavedFile};
use retrieval::Version;
use std::alloc::Global;
use std::marker::Model;

/// How many claims a block has at most.
const MOST_CLAIMS: u8 = 4;

/// How many files claim each block of a disk; one that has it twice claims it twice. No block has more than four
/// claims, so all files that claim their blocks have at most four times the blocks of the disk.
#[derive(Drop)]
pub struct Claims {
    counts: Vec<u8>,
}

impl Model for Claims {
    ghost use Rattle.std.specs.Prelude.{ℕ, ◌^◌, ◌<◌, ◌≤◌, List, length, slice_index};

    ghost Value = { List ℕ };

    ghost view = { λ c. c.counts.items };

    ghost invariant = { λ c. (length c.counts.items < 2 ^ 32) × ((n : ℕ) → slice_index c.counts.items n ≤ 4) };
}

impl Claims {
    /// Returns the claims of no files, for `size` blocks.
    ///
    /// # Errors
    ///
    /// `NoMemory` if there is no memory for them.
    pub fn new(alloc: Global, size: u32) -> Result<Self, SalvageError>
        ensures zeros { IfOk result (λ claims. claims ≡ replicate size 0) }
        ensures only { IfErr result (λ error. error ≡ NoMemory) }
    {
        match vec![in alloc; 0; size as usize] {
            Ok(counts) => Ok(Claims { counts }),
            Err(_) => Err(SalvageError::NoMemory),
        }
    }

    /// Claims a block once more, unless it has four claims. Returns whether it was claimed.
    fn claim(&mut self, n: u32) -> bool
        requires { n < length self.old }
        ensures claimed { IsTrue result
            → (m : ℕ) → slice_index self.new m ≡ slice_index self.old m + times m (n ∷ []) }
        ensures full { result ≡ false → (self.new ≡ self.old) × (slice_index self.old n ≡ 4) }
        ensures few { (m : ℕ) → slice_index self.new m ≤ 4 }
        ensures length { length self.new ≡ length self.old }
    {
        let claims = self.counts[n as usize];
        if claims >= MOST_CLAIMS {
            return false;
        }
        self.counts[n as usize] = claims + 1;
        true
    }

    /// Claims these blocks, up to one that has four claims already, which is returned.
    pub fn claim_all(&mut self, blocks: &[u32]) -> Option<u32>
        requires { AllByRecursion (λ n. n < length self.old) blocks.now }
        ensures claimed { AreClaimed self.old self.new blocks.now result }
        ensures few { ((n : ℕ) → slice_index self.old n ≤ 4) → (n : ℕ) → slice_index self.new n ≤ 4 }
        ensures length { length self.new ≡ length self.old }
    {
        for &block in blocks {
            if !self.claim(block) {
                return Some(block);
            }
        }
        None
    }

    /// Claims the data blocks of a version, up to one that has four claims already, which is returned.
    fn claim_data(&mut self, version: &Version) -> Option<u32>
        requires { AllByRecursion (λ n. n < length self.old) version.now.blocks }
        ensures claimed { AreClaimed self.old self.new version.now.blocks result }
        ensures few { ((n : ℕ) → slice_index self.old n ≤ 4) → (n : ℕ) → slice_index self.new n ≤ 4 }
        ensures length { length self.new ≡ length self.old }
    {
        for i in 0..version.count() {
            let block = version.block_at(i);
            if !self.claim(block) {
                return Some(block);
            }
        }
        None
    }

    /// Claims the blocks of a file, up to one that has four claims already, which is returned: first its prime block
    /// and its extensions, then its data blocks.
    pub fn claim_file(&mut self, file: &SavedFile) -> Option<u32>
        requires { FitsDisk (length self.old) file.now }
        ensures claimed { AreClaimed self.old self.new (blocks_of file.now) result }
        ensures few { (n : ℕ) → slice_index self.new n ≤ 4 }
        ensures length { length self.new ≡ length self.old }
    {
        if !self.claim(file.at) {
            return Some(file.at);
        }
        if let Some(block) = self.claim_all(file.stored.version.ribs()) {
            return Some(block);
        }
        self.claim_data(&file.stored.version)
    }

    /// Returns the first of these blocks that has four claims, if any.
    pub fn full_among(&self, blocks: &[u32]) -> Option<u32>
        requires { AllByRecursion (λ n. n < length self.now) blocks.now }
        ensures full { IfSome result (λ n. (0 < times n blocks.now) × (slice_index self.now n ≡ 4)) }
        ensures open { IfNone result ((n : ℕ) → 0 < times n blocks.now → slice_index self.now n < 4) }
    {
        for &block in blocks {
            if self.counts[block as usize] >= MOST_CLAIMS {
                return Some(block);
            }
        }
        None
    }
}
