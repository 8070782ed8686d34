//! The call Quota.
ghost use Rattle.std.specs.Prelude.{◌≡◌, ◌==◌};
ghost use Rattle.spec_image.specs.Common.{layout_number};
ghost use Rattle.spec_machine.specs.declared.call.Call.TheVariants.{Quota};
ghost use Rattle.monitor.specs.Common.{IsCallReady, ServesAlways};

use crate::job::Job;
use crate::make_dir::is_system;
use crate::open::{lies_outside, word_at};
use crate::status::refuse;
use blockdisk::Disk;
use spec_image::ErrorCode;
use spec_machine::Reply;
use volume::{CallError, Layout, Volume};
use words36::Ppn;

/// Serves Quota: gives the directory whose owner is the first of the two words at an address the quota in the left half
/// of the second. It is refused in a layout without quotas, then if there is no such directory, then to anybody except
/// [1,2]. Its row is `limits`.
pub fn serve_quota<D: Disk>(volume: &mut Volume<D>, job: &mut Job, address: u32) -> Reply
    requires ready { IsCallReady (D.state volume.old.disk) volume.old.map volume.old.failed job.old }
    ensures serving { ServesAlways D.state volume.old.disk volume.new.disk volume.old.map volume.new.map
        volume.new.failed job.old job.new (Quota address) result }
    ensures layout { volume.new.layout ≡ volume.old.layout }
{
    let _layout = volume.layout(); // its contract states that it is the disk's
    if lies_outside(&job.core, address, 2) {
        return Reply::AddressCheck;
    }
    if has_no_quotas(volume) {
        return refuse(&mut job.core, address, ErrorCode::Sequence);
    }
    let Some(owner) = Ppn::from_word(word_at(&job.core, address)) else {
        return refuse(&mut job.core, address, ErrorCode::NoDirectory);
    };
    if volume.directory(owner).is_err() {
        return refuse(&mut job.core, address, ErrorCode::NoDirectory);
    }
    if !is_system(job.ppn) {
        return refuse(&mut job.core, address, ErrorCode::Protection);
    }
    let quota = word_at(&job.core, address + 1).left();
    match volume.set_quota(owner, quota.bits()) {
        Ok(()) => Reply::Done,
        Err(CallError::Refused(code)) => refuse(&mut job.core, address, code),
        Err(CallError::Device) => Reply::Device,
        Err(CallError::NoMemory | CallError::Failed) => unreachable!(), // it takes no memory, and the volume serves
    }
}

/// Returns whether a volume's layout has no quotas.
fn has_no_quotas<D: Disk>(volume: &Volume<D>) -> bool
    ensures { result ≡ (layout_number volume.now.layout == 1) }
{
    match volume.layout() {
        Layout::One => true,
        Layout::Two => false,
    }
}
