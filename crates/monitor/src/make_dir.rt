//! The call MakeDir.
ghost use Rattle.std.specs.Prelude.{◌≡◌, ◌==◌};
ghost use Rattle.spec_machine.specs.Common.{system};
ghost use Rattle.spec_machine.specs.declared.call.Call.TheVariants.{MakeDir};
ghost use Rattle.monitor.specs.Common.{IsCallReady, ServesAlways};

use crate::enter::protection_or;
use crate::job::Job;
use crate::open::{lies_outside, word_at};
use crate::status::refuse;
use blockdisk::Disk;
use spec_image::ErrorCode;
use spec_machine::Reply;
use std::alloc::Global;
use volume::{CallError, Volume};
use words36::Ppn;

/// The protection of a directory if the words ask for none.
const DIRECTORY_PROTECTION: u16 = 0o775;

/// Serves MakeDir: makes an empty directory, by the two words at an address: its owner, and its protection in the nine
/// high bits, 775 (octal) if they are 0. Its row is `make_dir`.
pub fn serve_make_dir<D: Disk>(
    alloc: Global,
    volume: &mut Volume<D>,
    job: &mut Job,
    address: u32,
) -> Reply
    requires ready { IsCallReady (D.state volume.old.disk) volume.old.map volume.old.failed job.old }
    ensures serving { ServesAlways D.state volume.old.disk volume.new.disk volume.old.map volume.new.map
        volume.new.failed job.old job.new (MakeDir address) result }
    ensures layout { volume.new.layout ≡ volume.old.layout }
{
    if lies_outside(&job.core, address, 2) {
        return Reply::AddressCheck;
    }
    let Some(owner) = Ppn::from_word(word_at(&job.core, address)) else {
        return refuse(&mut job.core, address, ErrorCode::NoDirectory);
    };
    if !is_system(job.ppn) && job.ppn != owner {
        return refuse(&mut job.core, address, ErrorCode::Protection);
    }
    let protection = protection_or(word_at(&job.core, address + 1), DIRECTORY_PROTECTION);
    match volume.make_dir(alloc, owner, protection) {
        Ok(()) => Reply::Done,
        Err(CallError::Refused(code)) => refuse(&mut job.core, address, code),
        Err(CallError::NoMemory) => Reply::NoMemory,
        Err(CallError::Device) => Reply::Device,
        Err(CallError::Failed) => unreachable!(), // the volume serves
    }
}

/// Returns whether a PPN is [1,2], which may make directories for anybody.
pub fn is_system(ppn: Ppn) -> bool
    ensures { result ≡ (ppn == system) }
{
    ppn.word().bits() == 0o000001000002
}
