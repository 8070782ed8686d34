//! `salvage`: what is whole on an image, written to files of the host.
ghost use Rattle.std.specs.Prelude.{◌≡◌, ◌≢◌, codes, length};
ghost use Rattle.blockdisk.specs.Common.{SameDisk};
ghost use Rattle.imagefile.specs.Common.{assumed_in};
ghost use Rattle.spec_image.specs.Common.{IsVolumeSize};
ghost use Rattle.salvage.specs.Common.{copy_findings};
ghost use Rattle.filser.specs.Common.{IsCopySalvaged, IsLine, IsOnSalvaged, IsPartSalvaged, IsSalvagedFrom};
ghost use Rattle.filser.specs.Common.{acts_of, start_error};
ghost use Rattle.filser.specs.declared.status.Status.TheVariants.{BadArguments};

use crate::fault::report_fault;
use crate::host::Shelf;
use crate::image::{NamedImage, failure_of, open_start};
use crate::message::print_line;
use crate::program::refuse_image;
use crate::reasons::report_ending;
use crate::serve_image::{ending, say};
use crate::{
    Disks, Host, ImageDisks, Message, OpeningLeave, Refusal, Run, SalvageTask, Seen, Status,
};
use blockdisk::Disk;
use collection::save_survey;
use salvage::{Copied, SalvageError, Search, survey_disk};
use std::alloc::Global;
use std::io::Write;
use volume::VolumeError;

/// Prints that files that no directory names weren't searched for, since memory ran out.
fn say_incomplete<W: Write>(writer: &mut W) -> Status
    ensures serving { result ≢ BadArguments }
    ensures said { IsLine (W.contents writer.old) (W.contents writer.new) result 4
        (codes "?No memory: search incomplete") }
{
    let message = Message::Plain("?No memory: search incomplete");
    print_line(writer, &message, Status::Fault)
}

/// Returns why there is no survey, as a start's error.
fn start_error(error: SalvageError) -> VolumeError
    ensures { result ≡ start_error error }
{
    match error {
        SalvageError::NotVolume => VolumeError::NotVolume,
        SalvageError::Device => VolumeError::Device,
        SalvageError::NoMemory => VolumeError::NoMemory,
    }
}

/// Writes what is whole of the files that directories name in a copy of a disk to files of the host, and says that the
/// others weren't searched for.
fn salvage_named<H: Host, W: Write, E: Write>(
    shelf: &mut Shelf<'_, H>,
    alloc: Global,
    copied: &mut Copied,
    task: &SalvageTask<'_>,
    writer: &mut W,
    errors: &mut E,
) -> Status
    requires size { IsVolumeSize (length copied.old.disk.blocks) }
    requires findings { copied.old.findings.items ≡ copy_findings copied.old.faults }
    ensures serving { result ≢ BadArguments }
    ensures ran { IsPartSalvaged (acts_of shelf.old.permit) (acts_of shelf.new.permit)
        task.now (W.contents writer.old)
        (W.contents writer.new) copied.old.disk copied.new.disk copied.old.faults result }
{
    match survey_disk(alloc, &mut copied.disk, Search::Named) {
        Ok(found) => {
            let saved = save_survey(shelf, alloc, &task.export, &found, copied, writer, errors);
            report_ending(errors, ending(saved), &saved);
            match saved {
                Ok(_) => say_incomplete(writer),
                Err(_) => Status::Fault,
            }
        }
        Err(error) => say(writer, Refusal::Start(start_error(error))),
    }
}

/// Goes on after memory ran out: without a search for files that no directory names, if there was one.
fn salvage_part<H: Host, W: Write, E: Write>(
    shelf: &mut Shelf<'_, H>,
    alloc: Global,
    copied: &mut Copied,
    task: &SalvageTask<'_>,
    writer: &mut W,
    errors: &mut E,
) -> Status
    requires size { IsVolumeSize (length copied.old.disk.blocks) }
    requires findings { copied.old.findings.items ≡ copy_findings copied.old.faults }
    ensures serving { result ≢ BadArguments }
    ensures ran { IsCopySalvaged (acts_of shelf.old.permit) (acts_of shelf.new.permit)
        task.now (W.contents writer.old)
        (W.contents writer.new) copied.old.disk copied.new.disk copied.old.faults result }
{
    match task.search {
        Search::Named => say(writer, Refusal::Start(VolumeError::NoMemory)),
        Search::Used | Search::Every => salvage_named(shelf, alloc, copied, task, writer, errors),
    }
}

/// Writes what is whole in a copy of a disk to files of the host, and reports why the run ended. If memory runs out in
/// the search for files that no directory names, the others are saved.
fn salvage_copy<H: Host, W: Write, E: Write>(
    shelf: &mut Shelf<'_, H>,
    alloc: Global,
    copied: &mut Copied,
    task: &SalvageTask<'_>,
    writer: &mut W,
    errors: &mut E,
) -> Status
    requires size { IsVolumeSize (length copied.old.disk.blocks) }
    requires findings { copied.old.findings.items ≡ copy_findings copied.old.faults }
    ensures serving { result ≢ BadArguments }
    ensures ran { IsCopySalvaged (acts_of shelf.old.permit) (acts_of shelf.new.permit)
        task.now (W.contents writer.old)
        (W.contents writer.new) copied.old.disk copied.new.disk copied.old.faults result }
{
    match survey_disk(alloc, &mut copied.disk, task.search) {
        Ok(found) => {
            let saved = save_survey(shelf, alloc, &task.export, &found, copied, writer, errors);
            let status = ending(saved);
            report_ending(errors, status, &saved);
            status
        }
        Err(SalvageError::NoMemory) => salvage_part(shelf, alloc, copied, task, writer, errors),
        Err(error) => say(writer, Refusal::Start(start_error(error))),
    }
}

/// Writes what is whole on a disk, which `tail` bytes follow, to files of the host.
fn salvage_from<H: Host, D: Disk, W: Write, E: Write>(
    shelf: &mut Shelf<'_, H>,
    alloc: Global,
    disk: &mut D,
    tail: u32,
    task: &SalvageTask<'_>,
    writer: &mut W,
    errors: &mut E,
) -> Status
    ensures serving { result ≢ BadArguments }
    ensures ran { IsSalvagedFrom (acts_of shelf.old.permit) (acts_of shelf.new.permit)
        task.now tail
        (W.contents writer.old) (W.contents writer.new) (D.state disk.old) (D.state disk.new) result }
    ensures same { SameDisk (D.state disk.old) (D.state disk.new) }
{
    match Copied::of(alloc, disk, tail) {
        Ok(mut copied) => salvage_copy(shelf, alloc, &mut copied, task, writer, errors),
        Err(error) => say(writer, Refusal::Start(start_error(error))),
    }
}

/// Writes what is whole on an image to files of the host, if these don't exist, and prints a line for each and for each
/// fault. The image may be cut in the middle of a block. As for a task, nothing is assumed of the host.
pub(crate) fn salvage_image<H: Host, W: Write, E: Write>(
    shelf: &mut Shelf<'_, H>,
    alloc: Global,
    image: &NamedImage<'_>,
    leave: OpeningLeave,
    task: &SalvageTask<'_>,
    writer: &mut W,
    errors: &mut E,
) -> (Status, ImageDisks)
    ensures serving { result.0 ≢ BadArguments }
    ensures ran { IsOnSalvaged (H.facts shelf.old.host.now) (⟦<Run as Seen>⟧.views) image.now.path.now
        image.now.form task.now (assumed_in leave.supposed) (acts_of shelf.old.permit) (acts_of shelf.new.permit)
        (W.contents writer.old) (W.contents writer.new)
        result.1 result.0 }
{
    let (path, form) = (image.path, image.form);
    match open_start(shelf.host, path, form, leave) {
        Ok((disk, tail)) => {
            let mut disk = disk;
            let status = salvage_from(shelf, alloc, &mut disk, tail, task, writer, errors);
            if let Some(fault) = &failure_of(disk.file()) {
                report_fault(errors, path, fault);
            }
            (status, Disks::Unserved(disk))
        }
        Err((fault, disks)) => (refuse_image(fault, path, writer, errors), disks),
    }
}
