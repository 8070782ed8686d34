//! The commit of a change that memory has already.
ghost use Rattle.std.specs.Prelude.{◌≤◌, length};
ghost use Rattle.std.specs.List.{AllByRecursion};
ghost use Rattle.spec_image.specs.Common.{IsTarget, targets, IsVolumeSize, log_images};
ghost use Rattle.volume.specs.Common.{IsCommitted};

use crate::CallError;
use blockdisk::Disk;
use changeset::{ChangeSet, LogError, commit};

/// Makes the puts of a change, all or none; memory has the change already. What was written before is durable first.
///
/// # Errors
///
/// `Device` if the device failed, and the volume with it: recovery then finds all puts made, or none.
pub(crate) fn commit_edit<D: Disk>(
    disk: &mut D,
    failed: &mut bool,
    set: &ChangeSet,
) -> Result<(), CallError>
    // What the caller ensures.
    requires volume { IsVolumeSize (D.state disk.old).size }
    requires in_range { AllByRecursion (IsTarget (D.state disk.old).size) (targets set.now) }
    requires few { length set.now ≤ log_images (D.state disk.old).size }
    ensures { IsCommitted (D.state disk.old) (D.state disk.new) set.now failed.old failed.new result }
{
    match commit(disk, set) {
        Ok(()) => Ok(()),
        Err(LogError::Device) => {
            *failed = true; // nothing of memory is used any more
            Err(CallError::Device)
        }
        Err(_) => unreachable!(), // the log has room, and a commit reads no log
    }
}
