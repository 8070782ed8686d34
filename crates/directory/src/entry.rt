//! Entries of directories.
ghost use Rattle.std.specs.Prelude.{◌≡◌, ◌≤◌, ◌^◌, ℕ, List, IfOk, IfSome, IfNone, IsErrOf};
ghost use Rattle.std.specs.declared.cmp.Ordering.{Ordering};
ghost use Rattle.std.specs.Cmp.{IsTotalOrder};
ghost use Rattle.std.specs.FinMap.{IsAntisymmetric};
ghost use Rattle.spec_image.proofs.Common.{TellsApart};
ghost use Rattle.directory.specs.declared.entry.EntryFault.TheVariants.{Malformed, Outside};

use std::cmp::Ordering;
use words36::Word;

/// Why three words aren't an entry.
#[derive(Clone, Copy, Debug, PartialEq, Eq)]
pub enum EntryFault {
    /// They aren't an entry's.
    Malformed,
    /// They are those of an entry that names a block past any disk, 2^32 or more.
    Outside,
}

/// An entry of a directory: three words on the disk, one of them the number of a block. No key occurs
/// twice in a directory.
pub trait ChainEntry: Copy {
    /// What an entry is found by.
    type Key: Copy + Ord;

    // What is stored at a key.
    ghost Stored: { Type 0 };

    // The order of the keys.
    ghost order: { Self.Key → Self.Key → Ordering };

    // The entry as a key and what is stored there.
    ghost view: { Self → Self.Key × Stored };

    // The words of an entry on the disk.
    ghost words_of: { Self.Key × Stored → List ℕ };

    // The entry is valid.
    ghost IsEntry: { Self.Key × Stored → Type 0 };

    // The block that an entry names.
    ghost target: { Self.Key × Stored → ℕ };

    /// Returns the three words on the disk.
    fn words(&self) -> [Word; 3]
        ensures value { result ≡ words_of (view self.now) }
        ensures good { IsEntry (view self.now) };

    /// Returns the entry that has these words.
    ///
    /// # Errors
    ///
    /// `Malformed` if the words aren't those of a valid entry, `Outside` if they are and the block that it
    /// names has a number of 2^32 or more.
    fn parse(words: [Word; 3]) -> Result<Self, EntryFault>
        ensures value { IfOk result (λ entry. words_of (view entry) ≡ words) }
        ensures good { IfOk result (λ entry. IsEntry (view entry)) }
        ensures malformed { IsErrOf result Malformed → (e : Self.Key × Stored) → IsEntry e → words_of e ≡ words → ⊥ }
        ensures outside { IsErrOf result Outside → (e : Self.Key × Stored) × IsEntry e × (words_of e ≡ words)
            × (2 ^ 32 ≤ target e) };

    /// Returns the number of the block that the entry names.
    fn target(&self) -> u32
        ensures { result ≡ target (view self.now) };

    /// Returns the key.
    fn key(&self) -> Self::Key
        ensures { result ≡ (view self.now).0 };

    /// Compares the entry's key with another.
    fn cmp_key(&self, key: &Self::Key) -> Ordering
        ensures { result ≡ order (view self.now).0 key.now };

    // The keys compare in this order.
    ghost keyed: { (a b : Self.Key) → Self.Key.cmp a b ≡ order a b };

    // The order is total.
    ghost total: { IsTotalOrder order };

    // Only equal keys tie in it.
    ghost exact: { IsAntisymmetric order };

    // An entry has three words, and no two have the same.
    ghost apart: { TellsApart words_of };
}

/// Returns the block number that a word is, or `None` for 2^32 or more.
pub(crate) fn block_number(word: Word) -> Option<u32>
    ensures value { IfSome result (λ n. n ≡ word) }
    ensures none { IfNone result (2 ^ 32 ≤ word) }
{
    u32::try_from(word.bits()).ok()
}
