//! Marks of the blocks that a version reaches.
ghost use Rattle.std.specs.Prelude.{◌≡◌, ◌+◌, ◌<◌, ◌≤◌, ◌∷◌, ◌++◌, ℕ, OnOk, IsErrOf, length};
ghost use Rattle.std.specs.List.{AllByRecursion};
ghost use Rattle.spec_image.specs.Common.{times};
ghost use Rattle.alloctab.specs.Common.{digit_at};

use alloctab::Reached;
use retrieval::Version;

/// Marks these blocks in turn.
///
/// # Errors
///
/// The first block that was marked already; those before it are marked then.
pub fn mark_all(reached: &mut Reached, blocks: &[u32]) -> Result<(), u32>
    requires { AllByRecursion (λ n. n < length reached.old) blocks.now }
    ensures ok { OnOk result ((n : ℕ) → digit_at reached.new n ≡ digit_at reached.old n + times n blocks.now) }
    ensures twice { (n : ℕ) → IsErrOf result n → 2 ≤ digit_at reached.old n + times n blocks.now }
    ensures among { (n : ℕ) → IsErrOf result n → 0 < times n blocks.now }
    ensures length { length reached.new ≡ length reached.old }
{
    for &block in blocks {
        if !reached.mark(block) {
            return Err(block);
        }
    }
    Ok(())
}

/// Marks the data blocks of a version in turn.
///
/// # Errors
///
/// The first block that was marked already; those before it are marked then.
fn mark_blocks(reached: &mut Reached, version: &Version) -> Result<(), u32>
    requires { AllByRecursion (λ n. n < length reached.old) version.now.blocks }
    ensures ok { OnOk result ((n : ℕ) → digit_at reached.new n ≡ digit_at reached.old n + times n version.now.blocks) }
    ensures twice { (n : ℕ) → IsErrOf result n → 2 ≤ digit_at reached.old n + times n version.now.blocks }
    ensures among { (n : ℕ) → IsErrOf result n → 0 < times n version.now.blocks }
    ensures length { length reached.new ≡ length reached.old }
{
    for i in 0..version.count() {
        let block = version.block_at(i);
        if !reached.mark(block) {
            return Err(block);
        }
    }
    Ok(())
}

/// Marks the blocks of a version: the prime block, the ribs, and the data blocks.
///
/// # Errors
///
/// The first block that was marked already; those before it are marked then.
pub fn mark_version(reached: &mut Reached, prime: u32, version: &Version) -> Result<(), u32>
    requires prime { prime < length reached.old }
    requires ribs { AllByRecursion (λ n. n < length reached.old) version.now.ribs }
    requires blocks { AllByRecursion (λ n. n < length reached.old) version.now.blocks }
    ensures ok { OnOk result ((n : ℕ) → digit_at reached.new n
        ≡ digit_at reached.old n + times n (prime ∷ (version.now.ribs ++ version.now.blocks))) }
    ensures twice { (n : ℕ) → IsErrOf result n
        → 2 ≤ digit_at reached.old n + times n (prime ∷ (version.now.ribs ++ version.now.blocks)) }
    ensures among { (n : ℕ) → IsErrOf result n → 0 < times n (prime ∷ (version.now.ribs ++ version.now.blocks)) }
    ensures length { length reached.new ≡ length reached.old }
{
    if !reached.mark(prime) {
        return Err(prime);
    }
    mark_all(reached, version.ribs())?;
    mark_blocks(reached, version)
}
