//! `import`: files of the host put on an image.
ghost use Rattle.std.specs.Prelude.{◌≡◌, ◌≢◌};
ghost use Rattle.imagefile.specs.Common.{assumed_in};
ghost use Rattle.filser.specs.Common.{IsImportRun, IsOnImported, acts_of};
ghost use Rattle.filser.specs.declared.status.Status.TheVariants.{BadArguments};

use crate::host::Shelf;
use crate::image::{NamedImage, open_image, report_failure};
use crate::program::refuse_image;
use crate::reasons::{report_ending, report_late_date};
use crate::serve_image::{ending, say};
use crate::{
    Access, Disks, Host, ImageDisks, ImportTask, OpeningLeave, Refusal, Run, Seen, Status,
};
use blockdisk::Disk;
use collection::import_files;
use commands::Monitor;
use std::alloc::Global;
use std::io::Write;
use volume::Layout;

/// Reports that every file will be refused, if the date that is given to all of them is past those of the volume.
fn report_date<E: Write>(errors: &mut E, task: &ImportTask<'_>, layout: Layout) {
    if !task.dated {
        report_late_date(errors, Some(task.moment), layout);
    }
}

/// Puts files of the host on a disk, reports what was refused, and hands the disk back.
fn import_on<H: Host, D: Disk + Drop, W: Write, E: Write>(
    shelf: &mut Shelf<'_, H>,
    alloc: Global,
    disk: D,
    task: &ImportTask<'_>,
    writer: &mut W,
    errors: &mut E,
) -> (Status, D)
    ensures serving { result.0 ≢ BadArguments }
    ensures ran { IsImportRun D.state task.now (acts_of shelf.old.permit) (acts_of shelf.new.permit)
        (W.contents writer.old) (W.contents writer.new) (D.state disk) result.1 result.0 }
    ensures size { (D.state result.1).size ≡ (D.state disk).size }
    ensures was_honest { (D.state result.1).honest → (D.state disk).honest }
{
    match Monitor::start(alloc, disk) {
        Ok(mut monitor) => {
            report_date(errors, task, monitor.layout());
            let imported = import_files(shelf, alloc, task, &mut monitor, writer, errors);
            let status = ending(imported);
            report_ending(errors, status, &imported);
            (status, monitor.finish())
        }
        Err((error, disk)) => (say(writer, Refusal::Start(error)), disk),
    }
}

/// Puts files of the host on an image, each one if no file has its name, and prints a line for each. As for a task,
/// nothing is assumed of the host.
pub(crate) fn import_image<H: Host, W: Write, E: Write>(
    shelf: &mut Shelf<'_, H>,
    alloc: Global,
    image: &NamedImage<'_>,
    leave: OpeningLeave,
    task: &ImportTask<'_>,
    writer: &mut W,
    errors: &mut E,
) -> (Status, ImageDisks)
    ensures serving { result.0 ≢ BadArguments }
    ensures ran { IsOnImported (H.facts shelf.old.host.now) (⟦<Run as Seen>⟧.views) image.now.path.now
        image.now.form task.now (assumed_in leave.supposed) (acts_of shelf.old.permit) (acts_of shelf.new.permit)
        (W.contents writer.old) (W.contents writer.new)
        result.1 result.0 }
{
    let (path, form) = (image.path, image.form);
    match open_image(shelf.host, alloc, path, form, Access::Write, leave) {
        Ok(disk) => {
            let (status, disk) = import_on(shelf, alloc, disk, task, writer, errors);
            report_failure(errors, path, &disk);
            (status, Disks::Served(disk))
        }
        Err((fault, disks)) => (refuse_image(fault, path, writer, errors), disks),
    }
}
