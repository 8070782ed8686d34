//! Prime blocks, and the places that they name.
ghost use Rattle.std.specs.Prelude.{◌≡◌, ◌<◌, IfOk, IsErrOf, IsTrue};
ghost use Rattle.blockdisk.specs.Common.{SameDisk, one_more};
ghost use Rattle.changeset.specs.Common.{OnlyReads};
ghost use Rattle.spec_image.specs.Common.{layout_number, place_of};
ghost use Rattle.volume.specs.Common.{IsOtherPlace};
ghost use Rattle.salvage.specs.Common.{IsPrimeAt};
ghost use Rattle.salvage.specs.declared.error.SalvageError.TheVariants.{Device, NotVolume};

use crate::SalvageError;
use blockdisk::{Disk, Fault};
use retrieval::parse_prime;
use spec_image::layout::Layout;
use words36::{FileName, Ppn};

/// Returns whether a block is the prime block of a file of this place. Its extensions aren't read.
///
/// # Errors
///
/// `Device` if the device failed.
pub fn is_prime_at<D: Disk>(
    disk: &mut D,
    layout: Layout,
    ppn: Ppn,
    name: FileName,
    n: u32,
) -> Result<bool, SalvageError>
    requires { n < (D.state disk.old).size }
    ensures is { (D.state disk.new).honest → IfOk result (λ is. IsTrue is
        → IsPrimeAt (layout_number layout) (D.state disk.old).contents n (place_of ppn name)) }
    ensures other { (D.state disk.new).honest → IfOk result (λ is. (IsTrue is → ⊥)
        → IsOtherPlace (layout_number layout) (D.state disk.old).contents (place_of ppn name) n) }
    ensures range { IsErrOf result NotVolume → ⊥ }
    ensures reads { (D.state disk.new).honest → OnlyReads (D.state disk.old) (D.state disk.new) }
    ensures same { SameDisk (D.state disk.old) (D.state disk.new) }
    ensures failed { IsErrOf result Device → (D.state disk.new).failures ≡ one_more (D.state disk.old).failures }
    ensures served { (IsErrOf result Device → ⊥) → (D.state disk.new).failures ≡ (D.state disk.old).failures }
{
    let block = match disk.read(n) {
        Ok(block) => block,
        Err(Fault::Damaged) => return Ok(false),
        Err(Fault::Device) => return Err(SalvageError::Device),
    };
    let Some(head) = parse_prime(&block, layout) else {
        return Ok(false);
    };
    if head.prime.ppn != ppn {
        return Ok(false);
    }
    Ok(head.prime.file == name)
}
