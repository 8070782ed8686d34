//! The extensions of versions: each is loaded for one of them.
ghost use Rattle.std.specs.Prelude.{◌≡◌, ◌⊎◌, ◌<◌, ℕ, true, IfOk, IfSome, IfNone, IsErrOf, OnOk, length};
ghost use Rattle.blockdisk.specs.Common.{SameDisk, one_more};
ghost use Rattle.changeset.specs.Common.{OnlyReads};
ghost use Rattle.spec_image.specs.Common.{InSpace, IsVolumeSize, layout_number};
ghost use Rattle.alloctab.specs.Common.{flag_at};
ghost use Rattle.salvage.specs.Common.{IsExtension, IsExtensionLink, IsOwnedAgain, IsPrimeLink};
ghost use Rattle.salvage.specs.declared.error.SalvageError.TheVariants.{Device, NotVolume};

use crate::SalvageError;
use alloctab::Reached;
use blockdisk::{Disk, Fault};
use retrieval::{parse_extension, parse_prime};
use spec_image::layout::{Layout, is_in_space};

/// Returns the block of the free space that a prime block names as its first extension; 0 if there is none, or if this
/// isn't a prime block.
fn first_extension<D: Disk>(disk: &mut D, layout: Layout, n: u32) -> Result<u32, SalvageError>
    requires { n < (D.state disk.old).size }
    ensures link { (D.state disk.new).honest → IfOk result (λ next. 0 < next
        → IsPrimeLink (layout_number layout) (D.state disk.old).contents n next
        × InSpace (D.state disk.old).size next) }
    ensures none { (D.state disk.new).honest → IfOk result (λ next. (m : ℕ)
        → IsPrimeLink (layout_number layout) (D.state disk.old).contents n m → InSpace (D.state disk.old).size m
        → m ≡ next) }
    ensures inside { IfOk result (λ next. 0 < next → InSpace (D.state disk.old).size next) }
    ensures range { IsErrOf result NotVolume → ⊥ }
    ensures reads { (D.state disk.new).honest → OnlyReads (D.state disk.old) (D.state disk.new) }
    ensures same { SameDisk (D.state disk.old) (D.state disk.new) }
    ensures failed { IsErrOf result Device → (D.state disk.new).failures ≡ one_more (D.state disk.old).failures }
    ensures served { (IsErrOf result Device → ⊥) → (D.state disk.new).failures ≡ (D.state disk.old).failures }
{
    let size = disk.blocks();
    let block = match disk.read(n) {
        Ok(block) => block,
        Err(Fault::Damaged) => return Ok(0),
        Err(Fault::Device) => return Err(SalvageError::Device),
    };
    let Some(head) = parse_prime(&block, layout) else {
        return Ok(0);
    };
    if is_in_space(size, head.next) {
        return Ok(head.next as u32);
    }
    Ok(0)
}

/// Returns the block of the free space that an extension names next; 0 if there is none, or if this isn't an extension.
fn next_extension<D: Disk>(disk: &mut D, n: u32) -> Result<u32, SalvageError>
    requires { n < (D.state disk.old).size }
    ensures link { (D.state disk.new).honest → IfOk result (λ next. 0 < next
        → IsExtensionLink (D.state disk.old).contents n next × InSpace (D.state disk.old).size next) }
    ensures none { (D.state disk.new).honest → IfOk result (λ next. (m : ℕ)
        → IsExtensionLink (D.state disk.old).contents n m → InSpace (D.state disk.old).size m → m ≡ next) }
    ensures inside { IfOk result (λ next. 0 < next → InSpace (D.state disk.old).size next) }
    ensures range { IsErrOf result NotVolume → ⊥ }
    ensures reads { (D.state disk.new).honest → OnlyReads (D.state disk.old) (D.state disk.new) }
    ensures same { SameDisk (D.state disk.old) (D.state disk.new) }
    ensures failed { IsErrOf result Device → (D.state disk.new).failures ≡ one_more (D.state disk.old).failures }
    ensures served { (IsErrOf result Device → ⊥) → (D.state disk.new).failures ≡ (D.state disk.old).failures }
{
    let size = disk.blocks();
    let block = match disk.read(n) {
        Ok(block) => block,
        Err(Fault::Damaged) => return Ok(0),
        Err(Fault::Device) => return Err(SalvageError::Device),
    };
    let Some(head) = parse_extension(&block) else {
        return Ok(0);
    };
    if is_in_space(size, head.next) {
        return Ok(head.next as u32);
    }
    Ok(0)
}

/// Marks the extensions of the version at this prime block, up to one that is marked already, which is returned.
///
/// # Errors
///
/// `Device` if the device failed.
pub fn mark_extensions<D: Disk>(
    disk: &mut D,
    layout: Layout,
    prime: u32,
    marks: &mut Reached,
) -> Result<Option<u32>, SalvageError>
    requires volume { IsVolumeSize (D.state disk.old).size }
    requires prime { InSpace (D.state disk.old).size prime }
    requires long { length marks.old ≡ (D.state disk.old).size }
    ensures only { (D.state disk.new).honest → OnOk result ((n : ℕ) → flag_at marks.new n ≡ true
        → (flag_at marks.old n ≡ true)
        ⊎ IsExtension (D.state disk.old).size (layout_number layout) (D.state disk.old).contents prime n) }
    ensures stays { (n : ℕ) → flag_at marks.old n ≡ true → flag_at marks.new n ≡ true }
    // All extensions of the version are marked, and none of them was before; or the one that is returned was.
    ensures met { (D.state disk.new).honest → IfOk result (λ met. IfSome met (IsOwnedAgain (D.state disk.old).size
        (layout_number layout) (D.state disk.old).contents marks.old prime)) }
    ensures unmet { (D.state disk.new).honest → IfOk result (λ met. IfNone met ((n : ℕ)
        → IsExtension (D.state disk.old).size (layout_number layout) (D.state disk.old).contents prime n
        → (flag_at marks.new n ≡ true) × (flag_at marks.old n ≡ true → ⊥))) }
    ensures long { length marks.new ≡ length marks.old }
    ensures range { IsErrOf result NotVolume → ⊥ }
    ensures reads { (D.state disk.new).honest → OnlyReads (D.state disk.old) (D.state disk.new) }
    ensures same { SameDisk (D.state disk.old) (D.state disk.new) }
    ensures failed { IsErrOf result Device → (D.state disk.new).failures ≡ one_more (D.state disk.old).failures }
    ensures served { (IsErrOf result Device → ⊥) → (D.state disk.new).failures ≡ (D.state disk.old).failures }
{
    let mut next = first_extension(disk, layout, prime)?;
    while next != 0 {
        if marks.is_marked(next) {
            return Ok(Some(next));
        }
        marks.mark(next);
        next = next_extension(disk, next)?;
    }
    Ok(None)
}
