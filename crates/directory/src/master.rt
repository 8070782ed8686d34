//! The entries of the master directory: directories.
ghost use Rattle.std.specs.Prelude.{◌≡◌, ◌<◌, ◌↔◌, IsSome, IfSome};

use crate::entry::block_number;
use crate::{ChainEntry, EntryFault};
use std::cmp::Ordering;
use words36::{Ppn, Word};

/// An entry of the master directory: a directory, its protection and quota, and where its chain begins.
#[derive(Clone, Copy, Debug, PartialEq, Eq)]
pub struct MasterEntry {
    /// The project-programmer number of the directory.
    pub ppn: Ppn,
    /// Three octal digits: owner, project, others.
    pub protection: u16,
    /// How many blocks the directory may have; 0 for no limit.
    pub quota: u32,
    /// The number of the first block of the directory's chain.
    pub first: u32,
    pub ghost protection_fits: { protection < 512 },
    pub ghost quota_fits: { quota < 262144 },
}

/// The largest quota: all bits of a half word.
const LAST_QUOTA: u32 = 262_143;

impl MasterEntry {
    /// Returns the entry of a directory, or `None` for a protection above 777 (octal) or a quota above 262143.
    pub fn new(ppn: Ppn, protection: u16, quota: u32, first: u32) -> Option<MasterEntry>
        ensures ppn { IfSome result (λ entry. entry.ppn ≡ ppn) }
        ensures protection { IfSome result (λ entry. entry.protection ≡ protection) }
        ensures quota { IfSome result (λ entry. entry.quota ≡ quota) }
        ensures first { IfSome result (λ entry. entry.first ≡ first) }
        ensures fits { IsSome result ↔ ((protection < 512) × (quota < 262144)) }
    {
        if protection > 0o777 {
            return None;
        }
        if quota > LAST_QUOTA {
            return None;
        }
        Some(MasterEntry {
            ppn,
            protection,
            quota,
            first,
        })
    }
}

impl ChainEntry for MasterEntry {
    ghost use Rattle.std.specs.Prelude.{ℕ, refl};
    ghost use Rattle.std.specs.Ordering.{nat_cmp};
    ghost use Rattle.std.specs.Cmp.{nat_cmp_total};
    ghost use Rattle.std.specs.FinMap.{nat_cmp-IsAntisymmetric};
    ghost use Rattle.spec_image.specs.Common.{master_words, master_word};
    ghost use Rattle.spec_image.specs.Common.{IsMasterEntryOf};
    ghost use Rattle.spec_image.proofs.Common.{master_apart};

    type Key = Ppn;

    ghost Stored = { ℕ × ℕ };

    ghost order = { nat_cmp };

    ghost view = { λ e. (e.ppn, (master_word e.protection e.quota, e.first)) };

    ghost words_of = { master_words };

    ghost IsEntry = { IsMasterEntryOf 2 };

    ghost target = { λ e. e.1.1 };

    fn words(&self) -> [Word; 3] {
        let (ppn, first) = (self.ppn.word(), u64::from(self.first));
        let word = (u64::from(self.protection) << 27) + u64::from(self.quota);
        [ppn, Word::from_bits(word), Word::from_bits(first)]
    }

    fn parse(words: [Word; 3]) -> Result<Self, EntryFault> {
        let [ppn, word, first] = words;
        let Some(ppn) = Ppn::from_word(ppn) else {
            return Err(EntryFault::Malformed);
        };
        // Bits 9 to 17 are between the protection and the quota, and are zero.
        let left = word.left().bits();
        if left % 512 != 0 {
            return Err(EntryFault::Malformed);
        }
        let Some(first) = block_number(first) else {
            return Err(EntryFault::Outside);
        };
        Ok(MasterEntry {
            ppn,
            protection: (left / 512) as u16,
            quota: word.right().bits(),
            first,
        })
    }

    fn target(&self) -> u32 {
        self.first
    }

    fn key(&self) -> Ppn {
        self.ppn
    }

    fn cmp_key(&self, key: &Ppn) -> Ordering {
        let (own, other) = (self.ppn.word(), key.word());
        own.bits().cmp(&other.bits())
    }

    ghost keyed = { λ a b. refl };

    ghost total = { nat_cmp_total };

    ghost exact = { nat_cmp-IsAntisymmetric };

    ghost apart = { master_apart };
}
