//! Writes that wait until their blocks are on the disk: of one block, and of two copies of it.
ghost use Rattle.std.specs.Prelude.{◌≡◌, ◌≢◌, ◌<◌, Some, OnOk, IsErrOf};
ghost use Rattle.blockdisk.specs.Common.{OneIsWhole, BothAreNew, NoneOpen, SameDisk, Near, Modifies, LeavesOnly};
ghost use Rattle.blockdisk.specs.Common.{one_more};
ghost use Rattle.blockdisk.specs.declared.fault.Fault.TheVariants.{Device, Damaged};

use crate::{Disk, Fault};
use words36::Block;

/// Writes a block and waits until it is on the disk. After that, no block is open.
///
/// # Errors
///
/// `Device` if the device failed; the block may then hold anything, and so may the blocks that were open.
pub fn write_through<D: Disk>(disk: &mut D, n: u32, block: &Block) -> Result<(), Fault>
    requires { n < (D.state disk.old).size }
    ensures put { (D.state disk.new).honest → OnOk result ((D.state disk.new).contents n ≡ Some block.now) }
    ensures settled { (D.state disk.new).honest → OnOk result (NoneOpen (D.state disk.new)) }
    ensures modified { (D.state disk.new).honest
        → OnOk result (Modifies (λ m. m ≡ n) (D.state disk.old) (D.state disk.new)) }
    ensures near { (D.state disk.new).honest
        → LeavesOnly (D.state disk.old) (D.state disk.new) (Near (λ m. m ≡ n) (D.state disk.old)) }
    ensures same { SameDisk (D.state disk.old) (D.state disk.new) }
    ensures device { IsErrOf result Damaged → ⊥ }
    ensures failed { IsErrOf result Device → (D.state disk.new).failures ≡ one_more (D.state disk.old).failures }
    ensures served { OnOk result ((D.state disk.new).failures ≡ (D.state disk.old).failures) }
{
    disk.write(n, block)?;
    disk.sync()
}

/// Writes the same block to two places, the second only after the first is on the disk: after a crash at any moment,
/// the second copy is as it was or the first one is new.
///
/// # Errors
///
/// `Device` if the device failed; one of the copies may then hold anything, and so may blocks that were open.
pub fn write_copies<D: Disk>(
    disk: &mut D,
    first: u32,
    second: u32,
    block: &Block,
) -> Result<(), Fault>
    requires first_inside { first < (D.state disk.old).size }
    requires second_inside { second < (D.state disk.old).size }
    requires apart { first ≢ second }
    ensures new { (D.state disk.new).honest
        → OnOk result (BothAreNew first second block.now (D.state disk.old).contents (D.state disk.new).contents) }
    ensures settled { (D.state disk.new).honest → OnOk result (NoneOpen (D.state disk.new)) }
    ensures leaves { (D.state disk.new).honest → NoneOpen (D.state disk.old)
        → LeavesOnly (D.state disk.old) (D.state disk.new)
        (OneIsWhole first second block.now (D.state disk.old).contents) }
    ensures same { SameDisk (D.state disk.old) (D.state disk.new) }
    ensures device { IsErrOf result Damaged → ⊥ }
    ensures failed { IsErrOf result Device → (D.state disk.new).failures ≡ one_more (D.state disk.old).failures }
    ensures served { OnOk result ((D.state disk.new).failures ≡ (D.state disk.old).failures) }
{
    write_through(disk, first, block)?;
    write_through(disk, second, block)
}
