//! Recovery: it finishes a commit that a crash interrupted after its gate was open.
ghost use Rattle.std.specs.Prelude.{List, [], Ok, true, false, ◌≡◌, ◌<◌, OnOk, IsErrOf};
ghost use Rattle.std.specs.List.{AllByRecursion};
ghost use Rattle.blockdisk.specs.Common.{MayLeave, Still, NoneOpen, SameDisk, LeavesOnly, one_more};
ghost use Rattle.changeset.specs.Common.{SettlesLike, SettlesLikeBefore, IsLost, ArePending, IsRecovered, SyncsFirst};
ghost use Rattle.changeset.specs.Common.{OnlyReads, AreDistinct};
ghost use Rattle.changeset.specs.declared.error.LogError.TheVariants.{Device, TooMany, BadLog};
ghost use Rattle.spec_image.specs.Common.{IsGateOpen, IsTarget, targets, IsVolumeSize};
ghost use Rattle.spec_image.specs.declared.put.Put.{Put};

use crate::gate::has_open_words;
use crate::log::read_log;
use crate::order::redo;
use crate::{LogError, MAX_PUTS};
use arrayvec::ArrayVec;
use blockdisk::Disk;
use spec_image::Put;
use spec_image::layout::is_volume_size;

/// Makes the puts of a log whose gate a crash left open, and closes the gate. It may itself be stopped at
/// any moment, and a second recovery changes nothing. On a disk that isn't a volume it only syncs.
///
/// # Errors
///
/// `BadLog` if the gate is open and the log isn't good, with nothing written; `Device` if the device failed.
pub fn recover<D: Disk>(disk: &mut D) -> Result<(), LogError>
    // A crash at any moment leaves what settles like something that a crash could leave before.
    ensures crash { (D.state disk.new).honest
        → LeavesOnly (D.state disk.old) (D.state disk.new) (SettlesLikeBefore (D.state disk.old)) }

    // If the first sync failed, nothing else was done; after it a crash leaves what settles like the contents
    // read before.
    ensures synced { (D.state disk.new).honest
        → SyncsFirst D.state disk.old disk.new (IsErrOf result Device)
        (SettlesLike (D.state disk.old).size (D.state disk.old).contents) }

    // At Ok the contents are the settled ones, with the gate closed.
    ensures recovered { (D.state disk.new).honest
        → OnOk result (IsRecovered (D.state disk.old).size (D.state disk.old).contents (D.state disk.new).contents) }
    ensures settled { (D.state disk.new).honest → OnOk result (NoneOpen (D.state disk.new)) }

    // The log is bad only if nothing settles. Nothing is written unless the gate is open and the log good:
    // a first sync that failed may have changed open blocks, and nothing else did.
    ensures bad { (D.state disk.new).honest → IsErrOf result BadLog
        → IsLost (D.state disk.old).size (D.state disk.old).contents }
    ensures unmodified { (D.state disk.new).honest
        → ((puts : List Put) → ArePending (D.state disk.old).size (D.state disk.old).contents puts → ⊥)
        → (IsErrOf result Device → ⊥) → Still (D.state disk.old) (D.state disk.new) }
    ensures unwritten { (D.state disk.new).honest
        → ((puts : List Put) → ArePending (D.state disk.old).size (D.state disk.old).contents puts → ⊥)
        → LeavesOnly (D.state disk.old) (D.state disk.new) (MayLeave (D.state disk.old)) }

    // On every disk.
    ensures many { IsErrOf result TooMany → ⊥ }
    ensures same { SameDisk (D.state disk.old) (D.state disk.new) }
    ensures failed { IsErrOf result Device → (D.state disk.new).failures ≡ one_more (D.state disk.old).failures }
    ensures served { (IsErrOf result Device → ⊥) → (D.state disk.new).failures ≡ (D.state disk.old).failures }
{
    disk.sync()?; // what is read after this is what a crash leaves
    recover_synced(disk)
}

/// Recovers a disk that has no open block.
fn recover_synced<D: Disk>(disk: &mut D) -> Result<(), LogError>
    ensures crash { (D.state disk.new).honest → NoneOpen (D.state disk.old)
        → LeavesOnly (D.state disk.old) (D.state disk.new)
        (SettlesLike (D.state disk.old).size (D.state disk.old).contents) }
    ensures recovered { (D.state disk.new).honest
        → OnOk result (IsRecovered (D.state disk.old).size (D.state disk.old).contents (D.state disk.new).contents) }
    ensures settled { (D.state disk.new).honest → NoneOpen (D.state disk.old)
        → OnOk result (NoneOpen (D.state disk.new)) }
    ensures bad { (D.state disk.new).honest → IsErrOf result BadLog
        → IsLost (D.state disk.old).size (D.state disk.old).contents }
    ensures unmodified { (D.state disk.new).honest
        → ((puts : List Put) → ArePending (D.state disk.old).size (D.state disk.old).contents puts → ⊥)
        → Still (D.state disk.old) (D.state disk.new) }
    ensures many { IsErrOf result TooMany → ⊥ }
    ensures same { SameDisk (D.state disk.old) (D.state disk.new) }
    ensures failed { IsErrOf result Device → (D.state disk.new).failures ≡ one_more (D.state disk.old).failures }
    ensures served { (IsErrOf result Device → ⊥) → (D.state disk.new).failures ≡ (D.state disk.old).failures }
{
    let mut puts = ArrayVec::new();
    if find_pending(disk, &mut puts)? {
        redo(disk, puts.as_slice())?;
    }
    Ok(())
}

/// Returns whether the gate is open. If it is, the puts of the log are then in `puts`, which is empty before. Nothing
/// is written: what the disk holds after these puts are made is what a start would find.
///
/// # Errors
///
/// `BadLog` if the gate is open and the log isn't good, `Device` if the device failed.
pub fn find_pending<D: Disk>(
    disk: &mut D,
    puts: &mut ArrayVec<Put, MAX_PUTS>,
) -> Result<bool, LogError>
    requires { puts.old.items ≡ [] }
    ensures closed { (D.state disk.new).honest → (result ≡ Ok false)
        → IsGateOpen (D.state disk.old).size (D.state disk.old).contents → ⊥ }
    ensures pending { (D.state disk.new).honest → (result ≡ Ok true)
        → ArePending (D.state disk.old).size (D.state disk.old).contents puts.new.items }
    ensures volume { (result ≡ Ok true) → IsVolumeSize (D.state disk.old).size }
    ensures distinct { (result ≡ Ok true) → AreDistinct puts.new.items }
    ensures in_range { (result ≡ Ok true)
        → AllByRecursion (IsTarget (D.state disk.old).size) (targets puts.new.items) }
    ensures bad { (D.state disk.new).honest → IsErrOf result BadLog
        → IsLost (D.state disk.old).size (D.state disk.old).contents }
    ensures reads { (D.state disk.new).honest → OnlyReads (D.state disk.old) (D.state disk.new) }
    ensures many { IsErrOf result TooMany → ⊥ }
    ensures same { SameDisk (D.state disk.old) (D.state disk.new) }
    ensures failed { IsErrOf result Device → (D.state disk.new).failures ≡ one_more (D.state disk.old).failures }
    ensures served { (IsErrOf result Device → ⊥) → (D.state disk.new).failures ≡ (D.state disk.old).failures }
{
    let size = disk.blocks();
    if !is_volume_size(size) || !has_open_words(disk)? {
        return Ok(false);
    }
    read_log(disk, size, puts)?;
    Ok(true)
}
