//! Tasks, done on an image or on a fresh volume in memory.
ghost use Rattle.std.specs.Prelude.{◌≡◌, ◌≢◌, max, if◌then◌else◌};
ghost use Rattle.imagefile.specs.Common.{assumed_in};
ghost use Rattle.filser.specs.Common.{IsOnFresh, IsOnImage, IsTaskRun, IsLine, refusal_text, refusal_code, IsEnding};
ghost use Rattle.filser.specs.Common.{status_code, Attends, IsFirstMoment};
ghost use Rattle.filser.specs.declared.status.Status.TheVariants.{BadArguments};

use crate::fault::report_no_memory;
use crate::image::{NamedImage, open_image, report_failure};
use crate::losses::give_back;
use crate::message::print_line;
use crate::program::refuse_image;
use crate::reasons::{report_ending, report_late_date};
use crate::streams::Streams;
use crate::{Disks, Host, ImageDisks, OpeningLeave, Refusal, Run, Seen, Status, Task};
use blockdisk::{Disk, MemDisk};
use commands::{
    Monitor, PutFile, SessionError, Tally, Volume, check, delete, get, list, put, script, session,
};
use exchange::serve_wire;
use std::alloc::Global;
use std::io::{Read, Write};
use words36::Moment;

/// How many blocks the volume has that is served if no image is named.
const FRESH_BLOCKS: u32 = 64;

/// How many writes and syncs that volume survives.
const FRESH_CALLS: usize = 4096;

/// Prints why a run ends here, and returns its status.
pub(crate) fn say<W: Write>(writer: &mut W, refusal: Refusal) -> Status
    ensures serving { result ≢ BadArguments }
    ensures said { IsLine (W.contents writer.old) (W.contents writer.new) result (refusal_code refusal)
        (refusal_text refusal) }
{
    print_line(writer, &refusal.message(), refusal.status())
}

/// Returns the status of a run whose lines were counted in this tally.
fn status_of(tally: Tally) -> Status
    ensures code { status_code result ≡ max (if tally.refused then 1 else 0) (if tally.broke then 4 else 0) }
    ensures serving { result ≢ BadArguments }
{
    let refused = if tally.refused {
        Status::Refused
    } else {
        Status::Done
    };
    refused.worst(if tally.broke {
        Status::Fault
    } else {
        Status::Done
    })
}

/// Returns the status of a session or a script, which may have broken off.
pub(crate) fn ending(talked: Result<Tally, SessionError>) -> Status
    ensures ends { IsEnding result talked }
    ensures serving { result ≢ BadArguments }
{
    match talked {
        Ok(tally) => status_of(tally),
        Err(_) => Status::Fault,
    }
}

/// Returns the moment of what has none: date 0, minute 0.
fn no_moment() -> Moment
    ensures { IsFirstMoment result }
{
    Moment::new(0, 0).unwrap()
}

/// Does a task by a service that was started on an image.
fn attend<D: Disk, R: Read, W: Write>(
    alloc: Global,
    task: Task,
    reader: &mut R,
    writer: &mut W,
    monitor: &mut Monitor<D>,
) -> Result<Tally, SessionError>
    ensures { Attends D.state task (R.remaining reader.old) (R.remaining reader.new) (W.contents writer.old)
        (W.contents writer.new) monitor.old monitor.new result }
{
    match task {
        Task::Run(at) => session(alloc, reader, writer, monitor, at),
        Task::Calls(at) => script(alloc, reader, writer, monitor, at),
        Task::Wire => serve_wire(alloc, reader, writer, monitor),
        Task::Put(file, existing, at) => {
            let file = PutFile {
                owner: file.owner,
                name: file.name,
                encoding: file.encoding,
                existing,
            };
            put(alloc, reader, writer, monitor, at, &file)
        }
        Task::Get(file, at) => get(
            alloc,
            writer,
            monitor,
            at,
            file.owner,
            file.encoding,
            file.name,
        ),
        Task::Delete(owner, name) => delete(alloc, writer, monitor, no_moment(), owner, name),
        Task::List(place, style) => list(alloc, writer, monitor, no_moment(), style, place),
        Task::Check => check(alloc, writer, monitor),
    }
}

/// Does a task on a disk, reports what was refused, and hands the disk back.
fn serve<D: Disk + Drop, R: Read, W: Write, E: Write>(
    alloc: Global,
    disk: D,
    task: Task,
    reader: &mut R,
    writer: &mut W,
    errors: &mut E,
) -> (Status, D)
    ensures serving { result.0 ≢ BadArguments }
    ensures ran { IsTaskRun D.state (D.state disk) task (R.remaining reader.old) (R.remaining reader.new)
        (W.contents writer.old) (W.contents writer.new) result.1 result.0 }
    ensures size { (D.state result.1).size ≡ (D.state disk).size }
    ensures was_honest { (D.state result.1).honest → (D.state disk).honest }
{
    match Monitor::start(alloc, disk) {
        Ok(mut monitor) => {
            report_late_date(errors, task.moment(), monitor.layout());
            let attended = attend(alloc, task, reader, writer, &mut monitor);
            let status = ending(attended);
            report_ending(errors, status, &attended);
            (status, monitor.finish())
        }
        Err((error, disk)) => {
            let status = say(writer, Refusal::Start(error));
            (status, give_back(alloc, disk, task, error, errors))
        }
    }
}

/// Does a task on the image of this form at a path. Nothing is assumed of the host, so this holds for whatever may be
/// supposed of the file: if its calls were answered, up to the end, as by a file that began so and keeps to the model,
/// then what it began with is what was served, and whatever a crash left since then stands for it.
pub(crate) fn serve_image<H: Host, R: Read, W: Write, E: Write>(
    host: &H,
    alloc: Global,
    image: &NamedImage<'_>,
    leave: OpeningLeave,
    task: Task,
    streams: &mut Streams<R, W, E>,
) -> (Status, ImageDisks)
    ensures serving { result.0 ≢ BadArguments }
    ensures ran { IsOnImage (H.facts host.now) (⟦<Run as Seen>⟧.views) image.now.path.now image.now.form
        (assumed_in leave.supposed) task (R.remaining streams.old.reader) (R.remaining streams.new.reader)
        (W.contents streams.old.writer) (W.contents streams.new.writer) result.1 result.0 }
{
    let (path, form) = (image.path, image.form);
    let Streams {
        reader,
        writer,
        errors,
    } = streams;
    match open_image(host, alloc, path, form, task.access(), leave) {
        Ok(opened) => {
            let (status, opened) = serve(alloc, opened, task, reader, writer, errors);
            report_failure(errors, path, &opened);
            (status, Disks::Served(opened))
        }
        Err((fault, disks)) => (refuse_image(fault, path, writer, errors), disks),
    }
}

/// Serves the lines of the reader, at date 0 and minute 0, on a fresh volume in memory.
pub(crate) fn serve_fresh<R: Read, W: Write, E: Write>(
    alloc: Global,
    streams: &mut Streams<R, W, E>,
) -> (Status, Option<MemDisk>)
    ensures serving { result.0 ≢ BadArguments }
    ensures ran { IsOnFresh (⟦<Run as Seen>⟧.views) (R.remaining streams.old.reader) (R.remaining streams.new.reader)
        (W.contents streams.old.writer) (W.contents streams.new.writer) result.1 result.0 }
{
    let Streams {
        reader,
        writer,
        errors,
    } = streams;
    let Ok(mut disk) = MemDisk::new(alloc, FRESH_BLOCKS, FRESH_CALLS) else {
        report_no_memory(errors);
        return (Status::Fault, None);
    };
    match Volume::init(&mut disk) {
        Ok(()) => {
            let task = Task::Run(no_moment());
            let (status, disk) = serve(alloc, disk, task, reader, writer, errors);
            (status, Some(disk))
        }
        Err(error) => (say(writer, Refusal::Start(error)), Some(disk)),
    }
}
