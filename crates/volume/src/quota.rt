//! The refusal of quotas in a layout without quotas.
ghost use Rattle.std.specs.Prelude.{◌≡◌, ◌<◌, ℕ, map, OnOk, IfErr, IfSome, IfNone, IsErrOf};
ghost use Rattle.std.specs.List.{AllByRecursion};
ghost use Rattle.std.specs.Ordering.{nat_cmp};
ghost use Rattle.blockdisk.specs.Common.{Contents};
ghost use Rattle.spec_image.specs.Common.{master_words, InSpace, IsMasterEntryOf, layout_number, times, LeadsAlong};
ghost use Rattle.directory.specs.Common.{nodes_of, IsBadChain};
ghost use Rattle.volume.specs.Common.{master_view, HasNoQuota, IsFirstQuota, IsFirstQuotaBlock};
ghost use Rattle.volume.specs.declared.error.VolumeError.TheVariants.{BadDirectory};

use crate::VolumeError;
use directory::{Chain, MasterEntry};
use spec_image::layout::{BLOCK_ENTRIES, Layout};

/// Returns the place of the first entry with a quota, counted from 0.
fn first_quota(entries: &[MasterEntry]) -> Option<usize>
    ensures some { IfSome result (IsFirstQuota entries.now) }
    ensures none { IfNone result (AllByRecursion HasNoQuota entries.now) }
{
    for i in 0..entries.len() {
        if entries[i].quota != 0 {
            return Some(i);
        }
    }
    None
}

/// Refuses quotas in the master directory if the layout has no quotas.
///
/// # Errors
///
/// `BadDirectory` with the block of the chain that has the first entry with a quota.
pub fn refuse_quotas(chain: &Chain<MasterEntry>, layout: Layout) -> Result<(), VolumeError>
    ensures ok { OnOk result (AllByRecursion (IsMasterEntryOf (layout_number layout))
        (map master_view chain.now.entries)) }
    ensures only { IfErr result (λ error. (n : ℕ) × (error ≡ BadDirectory n)) }
    ensures named { (n : ℕ) → IsErrOf result (BadDirectory n) → 0 < times n chain.now.blocks }
    ensures first { (n : ℕ) → IsErrOf result (BadDirectory n) → IsFirstQuotaBlock chain.now n }
    // If the contents of a disk spell the chain, that block is invalid.
    ensures bad { (n : ℕ) → IsErrOf result (BadDirectory n) → (size : ℕ) (contents : Contents) (first : ℕ)
        → LeadsAlong master_words contents first (nodes_of chain.now.blocks (map master_view chain.now.entries)) 0
        → InSpace size n
        → IsBadChain nat_cmp master_words (IsMasterEntryOf (layout_number layout)) (λ e. e.1.1) size contents first n }
{
    let entries = chain.entries();
    match layout {
        Layout::One => match first_quota(entries) {
            Some(i) => Err(VolumeError::BadDirectory(chain.blocks()[i / BLOCK_ENTRIES])),
            None => Ok(()),
        },
        Layout::Two => Ok(()),
    }
}
