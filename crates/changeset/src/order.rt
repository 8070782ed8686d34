//! A commit: its writes in their order.
ghost use Rattle.std.specs.Prelude.{ℕ, ◌≡◌, ◌⊎◌, ◌<◌, ◌≤◌, ◌↔◌, [], OnOk, IsErrOf, Some, length, replicate};
ghost use Rattle.std.specs.List.{AllByRecursion};
ghost use Rattle.blockdisk.specs.Common.{MayLeave, Near, Modifies, Still, NoneOpen, SameDisk, SameOutside};
ghost use Rattle.blockdisk.specs.Common.{LeavesOnly, one_more};
ghost use Rattle.blockdisk.specs.declared.fault.Fault.TheVariants.{Device, Damaged};
ghost use Rattle.changeset.specs.Common.{IsGate, IsGateOrLog, IsShut, SettlesAs, AllOrNone, ArePending, IsPutIn};
ghost use Rattle.changeset.specs.Common.{AreDistinct};
ghost use Rattle.changeset.specs.declared.error.LogError.TheVariants.{Device as Failed, TooMany, BadLog};
ghost use Rattle.spec_image.specs.Common.{IsTarget, targets, with_puts, IsVolumeSize, log_images};
ghost use Rattle.words36.specs.declared.word.TheConstants.{BLOCK_WORDS};
ghost use Rattle.spec_image.specs.declared.layout.TheConstants.{GATE};

use crate::gate::{close_gate, open_gate};
use crate::log::write_log;
use crate::{ChangeSet, LogError};
use blockdisk::{Disk, Fault};
use spec_image::Put;
use spec_image::layout::log_images;

/// Makes all the puts of a set, or none, and waits until they are on the disk. A set of no puts is one sync.
///
/// # Errors
///
/// `TooMany` if the log of this disk has no room for the puts, with nothing done; `Device` if the device
/// failed: recovery then finds all puts made, or none.
pub fn commit<D: Disk>(disk: &mut D, set: &ChangeSet) -> Result<(), LogError>
    requires volume { IsVolumeSize (D.state disk.old).size }
    requires in_range { AllByRecursion (IsTarget (D.state disk.old).size) (targets set.now) }

    // A crash at any moment leaves contents that settle, except for gate and log, to some that a crash could
    // leave before, or to those read before with all puts.
    ensures crash { (D.state disk.new).honest → IsShut (D.state disk.old)
        → LeavesOnly (D.state disk.old) (D.state disk.new) (AllOrNone set.now (D.state disk.old)) }

    // At Ok they are the latter.
    ensures all { (D.state disk.new).honest
        → OnOk result (SameOutside (IsGateOrLog (D.state disk.old).size) (with_puts set.now (D.state disk.old).contents)
        (D.state disk.new).contents) }
    ensures settled { (D.state disk.new).honest → OnOk result (NoneOpen (D.state disk.new)) }
    ensures gate { (D.state disk.new).honest → 0 < length set.now
        → OnOk result ((D.state disk.new).contents GATE ≡ Some (replicate BLOCK_WORDS 0)) }
    ensures shut { (D.state disk.new).honest → IsShut (D.state disk.old) → OnOk result (IsShut (D.state disk.new)) }

    // No other block is written, and none at all if there are no puts. If a sync failed, the blocks that
    // were open before may be anything, too.
    ensures modified { (D.state disk.new).honest
        → OnOk result (Modifies (λ n. IsGateOrLog (D.state disk.old).size n ⊎ IsPutIn set.now n) (D.state disk.old)
        (D.state disk.new)) }
    ensures near { (D.state disk.new).honest
        → LeavesOnly (D.state disk.old) (D.state disk.new) (Near (λ n. IsGateOrLog (D.state disk.old).size n
        ⊎ IsPutIn set.now n) (D.state disk.old)) }
    ensures nothing { (D.state disk.new).honest → set.now ≡ []
        → OnOk result (Still (D.state disk.old) (D.state disk.new)) }
    ensures unwritten { (D.state disk.new).honest → set.now ≡ []
        → LeavesOnly (D.state disk.old) (D.state disk.new) (MayLeave (D.state disk.old)) }

    // On every disk.
    ensures many { IsErrOf result TooMany ↔ (log_images (D.state disk.old).size < length set.now) }
    ensures unchanged { IsErrOf result TooMany → disk.new ≡ disk.old }
    ensures good { IsErrOf result BadLog → ⊥ }
    ensures same { SameDisk (D.state disk.old) (D.state disk.new) }
    ensures failed { IsErrOf result Failed → (D.state disk.new).failures ≡ one_more (D.state disk.old).failures }
    ensures served { (IsErrOf result Failed → ⊥) → (D.state disk.new).failures ≡ (D.state disk.old).failures }
{
    let puts = set.puts();
    if puts.is_empty() {
        return Ok(disk.sync()?);
    }
    if puts.len() > log_images(disk.blocks()) as usize {
        return Err(LogError::TooMany);
    }
    commit_some(disk, puts)?;
    Ok(())
}

/// Makes all these puts, or none.
fn commit_some<D: Disk>(disk: &mut D, puts: &[Put]) -> Result<(), Fault>
    // What the caller ensures.
    requires volume { IsVolumeSize (D.state disk.old).size }
    requires some { 0 < length puts.now }
    requires few { length puts.now ≤ log_images (D.state disk.old).size }
    requires distinct { AreDistinct puts.now }
    requires in_range { AllByRecursion (IsTarget (D.state disk.old).size) (targets puts.now) }
    // What a crash leaves, and what there is at Ok.
    ensures crash { (D.state disk.new).honest → IsShut (D.state disk.old)
        → LeavesOnly (D.state disk.old) (D.state disk.new) (AllOrNone puts.now (D.state disk.old)) }
    ensures all { (D.state disk.new).honest
        → OnOk result (SameOutside (IsGateOrLog (D.state disk.old).size)
        (with_puts puts.now (D.state disk.old).contents) (D.state disk.new).contents) }
    ensures settled { (D.state disk.new).honest → OnOk result (NoneOpen (D.state disk.new)) }
    ensures gate { (D.state disk.new).honest
        → OnOk result ((D.state disk.new).contents GATE ≡ Some (replicate BLOCK_WORDS 0)) }
    // Which blocks are written, whatever the result.
    ensures modified { (D.state disk.new).honest
        → OnOk result (Modifies (λ n. IsGateOrLog (D.state disk.old).size n ⊎ IsPutIn puts.now n) (D.state disk.old)
        (D.state disk.new)) }
    ensures near { (D.state disk.new).honest
        → LeavesOnly (D.state disk.old) (D.state disk.new) (Near (λ n. IsGateOrLog (D.state disk.old).size n
        ⊎ IsPutIn puts.now n) (D.state disk.old)) }
    ensures same { SameDisk (D.state disk.old) (D.state disk.new) }
    // The device: what failed, and how often.
    ensures device { IsErrOf result Damaged → ⊥ }
    ensures failed { IsErrOf result Device → (D.state disk.new).failures ≡ one_more (D.state disk.old).failures }
    ensures served { OnOk result ((D.state disk.new).failures ≡ (D.state disk.old).failures) }
{
    write_log(disk, puts)?;
    open_gate(disk)?;
    redo(disk, puts)
}

/// Makes the puts of a log whose gate is open, and closes the gate.
///
/// # Errors
///
/// `Device` if the device failed; the gate may then still be open.
pub fn redo<D: Disk>(disk: &mut D, puts: &[Put]) -> Result<(), Fault>
    requires volume { IsVolumeSize (D.state disk.old).size }
    requires distinct { AreDistinct puts.now }
    requires in_range { AllByRecursion (IsTarget (D.state disk.old).size) (targets puts.now) }

    // Whatever a crash leaves settles to the contents with all puts.
    ensures crash { (D.state disk.new).honest → NoneOpen (D.state disk.old) → (size : ℕ)
        → ArePending size (D.state disk.old).contents puts.now
        → LeavesOnly (D.state disk.old) (D.state disk.new)
        (SettlesAs size (with_puts puts.now (D.state disk.old).contents)) }
    ensures all { (D.state disk.new).honest
        → OnOk result (SameOutside IsGate (with_puts puts.now (D.state disk.old).contents)
        (D.state disk.new).contents) }
    ensures settled { (D.state disk.new).honest → OnOk result (NoneOpen (D.state disk.new)) }
    ensures gate { (D.state disk.new).honest
        → OnOk result ((D.state disk.new).contents GATE ≡ Some (replicate BLOCK_WORDS 0)) }
    // Which blocks are written, whatever the result.
    ensures modified { (D.state disk.new).honest
        → OnOk result (Modifies (λ n. IsGate n ⊎ IsPutIn puts.now n) (D.state disk.old) (D.state disk.new)) }
    ensures near { (D.state disk.new).honest
        → LeavesOnly (D.state disk.old) (D.state disk.new)
        (Near (λ n. IsGate n ⊎ IsPutIn puts.now n) (D.state disk.old)) }
    ensures same { SameDisk (D.state disk.old) (D.state disk.new) }
    // The device: what failed, and how often.
    ensures device { IsErrOf result Damaged → ⊥ }
    ensures failed { IsErrOf result Device → (D.state disk.new).failures ≡ one_more (D.state disk.old).failures }
    ensures served { OnOk result ((D.state disk.new).failures ≡ (D.state disk.old).failures) }
{
    write_places(disk, puts)?;
    close_gate(disk)
}

/// Writes the words of each put to its block, and waits until they are on the disk.
fn write_places<D: Disk>(disk: &mut D, puts: &[Put]) -> Result<(), Fault>
    requires distinct { AreDistinct puts.now }
    requires in_range { AllByRecursion (λ n. n < (D.state disk.old).size) (targets puts.now) }
    ensures placed { (D.state disk.new).honest
        → OnOk result ((n : ℕ) → (D.state disk.new).contents n ≡ with_puts puts.now (D.state disk.old).contents n) }
    ensures settled { (D.state disk.new).honest → OnOk result (NoneOpen (D.state disk.new)) }
    ensures modified { (D.state disk.new).honest
        → OnOk result (Modifies (IsPutIn puts.now) (D.state disk.old) (D.state disk.new)) }
    ensures near { (D.state disk.new).honest
        → LeavesOnly (D.state disk.old) (D.state disk.new) (Near (IsPutIn puts.now) (D.state disk.old)) }
    ensures same { SameDisk (D.state disk.old) (D.state disk.new) }
    ensures device { IsErrOf result Damaged → ⊥ }
    ensures failed { IsErrOf result Device → (D.state disk.new).failures ≡ one_more (D.state disk.old).failures }
    ensures served { OnOk result ((D.state disk.new).failures ≡ (D.state disk.old).failures) }
{
    for put in puts {
        disk.write(put.block, &put.words)?;
    }
    disk.sync()
}
