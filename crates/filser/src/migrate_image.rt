//! `migrate`: an image's volume given layout 2.
ghost use Rattle.std.specs.Prelude.{◌≢◌, codes};
ghost use Rattle.blockdisk.specs.Common.{SameDisk};
ghost use Rattle.imagefile.specs.Common.{assumed_in};
ghost use Rattle.filser.specs.Common.{IsLine, IsMigrationRun, IsOnMigrated};
ghost use Rattle.filser.specs.declared.status.Status.TheVariants.{BadArguments};

use crate::image::{open_image, report_failure};
use crate::message::print_line;
use crate::program::refuse_image;
use crate::serve_image::say;
use crate::{Access, Disks, Host, ImageDisks, Message, OpeningLeave, Refusal, Run, Seen, Status};
use blockdisk::Disk;
use commands::Volume;
use imagefile::Form;
use std::alloc::Global;
use std::io::Write;

/// Prints the layout that a volume has after its migration.
fn report_layout<W: Write>(writer: &mut W) -> Status
    ensures serving { result ≢ BadArguments }
    ensures told { IsLine (W.contents writer.old) (W.contents writer.new) result 0 (codes "Layout 2") }
{
    print_line(writer, &Message::Plain("Layout 2"), Status::Done)
}

/// Gives the volume on a disk layout 2, which it may have already, and prints that; or prints why the disk is refused.
fn migrate<D: Disk, W: Write>(alloc: Global, disk: &mut D, writer: &mut W) -> Status
    ensures serving { result ≢ BadArguments }
    ensures ran { IsMigrationRun (D.state disk.old) (D.state disk.new) (W.contents writer.old) (W.contents writer.new)
        result }
    ensures same { SameDisk (D.state disk.old) (D.state disk.new) }
{
    match Volume::migrate(alloc, disk) {
        Ok(_) => report_layout(writer),
        Err(error) => say(writer, Refusal::Start(error)),
    }
}

/// Gives the volume of the image of this form at a path layout 2: its files stay, and dates up to 32767 fit. Prints the
/// layout that it then has, also if it had it before, or why it is refused. As for a task, nothing is assumed of the
/// host.
pub(crate) fn migrate_image<H: Host, W: Write, E: Write>(
    host: &H,
    alloc: Global,
    path: &str,
    form: Form,
    leave: OpeningLeave,
    writer: &mut W,
    errors: &mut E,
) -> (Status, ImageDisks)
    ensures serving { result.0 ≢ BadArguments }
    ensures ran { IsOnMigrated (H.facts host.now) (⟦<Run as Seen>⟧.views) path.now form (assumed_in leave.supposed)
        (W.contents writer.old) (W.contents writer.new) result.1 result.0 }
{
    match open_image(host, alloc, path, form, Access::Write, leave) {
        Ok(image) => {
            let mut image = image;
            let status = migrate(alloc, &mut image, writer);
            report_failure(errors, path, &image);
            (status, Disks::Served(image))
        }
        Err((fault, disks)) => (refuse_image(fault, path, writer, errors), disks),
    }
}
