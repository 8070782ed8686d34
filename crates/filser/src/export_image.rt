//! `export`: files of an image written to new files of the host.
ghost use Rattle.std.specs.Prelude.{◌≡◌, ◌≢◌};
ghost use Rattle.imagefile.specs.Common.{assumed_in};
ghost use Rattle.filser.specs.Common.{IsExportedFrom, IsOnExported, acts_of};
ghost use Rattle.filser.specs.declared.status.Status.TheVariants.{BadArguments};

use crate::host::Shelf;
use crate::image::{NamedImage, open_image, report_failure};
use crate::program::refuse_image;
use crate::reasons::report_ending;
use crate::serve_image::{ending, say};
use crate::{
    Access, Disks, ExportTask, Host, ImageDisks, OpeningLeave, Refusal, Run, Seen, Status,
};
use blockdisk::Disk;
use collection::export_files;
use commands::Monitor;
use std::alloc::Global;
use std::io::Write;

/// Writes files of a disk to files of the host, reports what was refused, and hands the disk back.
fn export_from<H: Host, D: Disk + Drop, W: Write, E: Write>(
    shelf: &mut Shelf<'_, H>,
    alloc: Global,
    disk: D,
    task: &ExportTask<'_>,
    writer: &mut W,
    errors: &mut E,
) -> (Status, D)
    ensures serving { result.0 ≢ BadArguments }
    ensures ran { IsExportedFrom D.state task.now (acts_of shelf.old.permit) (acts_of shelf.new.permit)
        (W.contents writer.old)
        (W.contents writer.new) (D.state disk) result.1 result.0 }
    ensures size { (D.state result.1).size ≡ (D.state disk).size }
    ensures was_honest { (D.state result.1).honest → (D.state disk).honest }
{
    match Monitor::start(alloc, disk) {
        Ok(mut monitor) => {
            let exported = export_files(shelf, alloc, task, &mut monitor, writer, errors);
            let status = ending(exported);
            report_ending(errors, status, &exported);
            (status, monitor.finish())
        }
        Err((error, disk)) => (say(writer, Refusal::Start(error)), disk),
    }
}

/// Writes the files of an image to files of the host, if these don't exist, and prints a line for each. As for a task,
/// nothing is assumed of the host.
pub(crate) fn export_image<H: Host, W: Write, E: Write>(
    shelf: &mut Shelf<'_, H>,
    alloc: Global,
    image: &NamedImage<'_>,
    leave: OpeningLeave,
    task: &ExportTask<'_>,
    writer: &mut W,
    errors: &mut E,
) -> (Status, ImageDisks)
    ensures serving { result.0 ≢ BadArguments }
    ensures ran { IsOnExported (H.facts shelf.old.host.now) (⟦<Run as Seen>⟧.views) image.now.path.now
        image.now.form task.now (assumed_in leave.supposed) (acts_of shelf.old.permit) (acts_of shelf.new.permit)
        (W.contents writer.old) (W.contents writer.new)
        result.1 result.0 }
{
    let (path, form) = (image.path, image.form);
    match open_image(shelf.host, alloc, path, form, Access::Read, leave) {
        Ok(disk) => {
            let (status, disk) = export_from(shelf, alloc, disk, task, writer, errors);
            report_failure(errors, path, &disk);
            (status, Disks::Served(disk))
        }
        Err((fault, disks)) => (refuse_image(fault, path, writer, errors), disks),
    }
}
