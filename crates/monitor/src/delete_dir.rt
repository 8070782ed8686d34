//! The call DeleteDir.
ghost use Rattle.std.specs.Prelude.{◌≡◌};
ghost use Rattle.spec_machine.specs.declared.call.Call.TheVariants.{DeleteDir};
ghost use Rattle.monitor.specs.Common.{is_kept_from, IsCallReady, ServesAlways};

use crate::job::Job;
use crate::make_dir::is_system;
use crate::open::{lies_outside, word_at};
use crate::status::refuse;
use blockdisk::Disk;
use spec_image::ErrorCode;
use spec_machine::Reply;
use volume::{CallError, Volume};
use words36::Ppn;

/// Serves DeleteDir: deletes an empty directory, whose owner is the first of the two words at an address. It is refused
/// if there is no such directory, then to anybody except [1,2] and, if it has no quota, its owner, then if it has a
/// file or one is being created in it. Its row is `removes`.
pub fn serve_delete_dir<D: Disk>(volume: &mut Volume<D>, job: &mut Job, address: u32) -> Reply
    requires ready { IsCallReady (D.state volume.old.disk) volume.old.map volume.old.failed job.old }
    ensures serving { ServesAlways D.state volume.old.disk volume.new.disk volume.old.map volume.new.map
        volume.new.failed job.old job.new (DeleteDir address) result }
    ensures layout { volume.new.layout ≡ volume.old.layout }
{
    if lies_outside(&job.core, address, 2) {
        return Reply::AddressCheck;
    }
    let Some(owner) = Ppn::from_word(word_at(&job.core, address)) else {
        return refuse(&mut job.core, address, ErrorCode::NoDirectory);
    };
    if volume.directory(owner).is_err() {
        return refuse(&mut job.core, address, ErrorCode::NoDirectory);
    }
    if is_kept_from(volume, job.ppn, owner) {
        return refuse(&mut job.core, address, ErrorCode::Protection);
    }
    match volume.delete_dir(owner) {
        Ok(()) => Reply::Done,
        Err(CallError::Refused(code)) => refuse(&mut job.core, address, code),
        Err(CallError::Device) => Reply::Device,
        Err(CallError::NoMemory | CallError::Failed) => unreachable!(), // it takes no memory, and the volume serves
    }
}

/// Returns whether a job may not delete a directory: [1,2] may, and so may the directory's owner if it has no quota.
fn is_kept_from<D: Disk>(volume: &Volume<D>, ppn: Ppn, owner: Ppn) -> bool
    ensures { result ≡ is_kept_from volume.now.map ppn owner }
{
    !is_system(ppn) && (ppn != owner || volume.quota(owner) != 0)
}
