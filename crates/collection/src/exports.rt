//! The export of files of a volume to new files of the host.
ghost use Rattle.std.specs.Prelude.{◌≡◌};
ghost use Rattle.monitor.specs.Common.{MonitorState};
ghost use Rattle.commands.specs.Common.{machine_of};
ghost use Rattle.collection.specs.Common.{EachDone, Goes, none_counted, folder_of as folder_text, AreEntriesDone};
ghost use Rattle.collection.specs.Common.{AreOwnersDone, IsChangeOf, IsEntryDone, IsExportRun, IsOwnerDone, IsStored};
ghost use Rattle.collection.specs.Common.{IsTakenOut, encoding_text};

use crate::clock::first_moment;
use crate::lines::{added, say, say_path, turn_down};
use crate::paths::{folder_of, path_of};
use crate::report::{report, report_undated};
use crate::{ExportTask, HostFiles};
use blockdisk::Disk;
use commands::{
    Encoding, Export, Exported, Monitor, SessionError, Tally, entries, export, is_broken, refusal,
};
use spec_image::Entry;
use std::alloc::{AllocError, Global};
use std::io::Write;
use words36::{Moment, Ppn};

/// Returns the word for an encoding in a file's line.
fn encoding_text(encoding: Encoding) -> &'static str
    ensures { result.now ≡ encoding_text encoding }
{
    match encoding {
        Encoding::Characters => "text",
        Encoding::Octets => "bytes",
        Encoding::Words => "words",
    }
}

/// Returns the moment of the last change that the file of the host gets.
fn change_of(entry: &Entry) -> Option<Moment>
    ensures { IsChangeOf entry.now result }
{
    match Moment::new(entry.date, entry.time) {
        Ok(at) => Some(at),
        Err(_) => None,
    }
}

/// Makes a file of the host from what was read, last changed at a moment, and writes its line.
pub(crate) fn store<H: HostFiles, W: Write, E: Write>(
    host: &mut H,
    alloc: Global,
    path: &str,
    changed: Option<Moment>,
    exported: Result<Exported, AllocError>,
    writer: &mut W,
    errors: &mut E,
) -> Result<Tally, SessionError>
    ensures { IsStored path.now changed exported (H.acts host.old) (H.acts host.new) (W.contents writer.old)
        (W.contents writer.new) result }
{
    let (encoding, bytes) = match exported {
        Ok(Exported::File(encoding, bytes)) => (encoding, bytes),
        Ok(Exported::Refused(reply)) => {
            return turn_down(alloc, writer, path, refusal(&reply), is_broken(&reply));
        }
        Ok(Exported::NotBytes) => return turn_down(alloc, writer, path, "?Not bytes", false),
        Err(_) => return Err(SessionError::NoMemory),
    };
    match host.store(alloc, path, &bytes, changed) {
        Ok(undated) => {
            report_undated(errors, path, undated);
            let said = encoding_text(encoding).as_bytes();
            say(alloc, writer, path, said, "OK", Tally::none())
        }
        Err(error) => {
            report(errors, path, &error);
            turn_down(alloc, writer, path, "?Can't write", false)
        }
    }
}

/// A directory whose files will become files of the host.
#[derive(Clone, Copy)]
struct Directory<'a> {
    task: &'a ExportTask<'a>,
    owner: Ppn,
}

/// A file that will become one of the host, at a path.
#[derive(Clone, Copy)]
struct Outgoing<'a> {
    path: &'a str,
    entry: &'a Entry,
}

/// The files of a directory, and the folder for them.
#[derive(Clone, Copy)]
struct Listed<'a> {
    folder: &'a str,
    entries: &'a [Entry],
}

/// Reads a file and makes one of the host from it, at a path.
fn take_out<H: HostFiles, W: Write, E: Write, D: Disk>(
    host: &mut H,
    alloc: Global,
    directory: &Directory<'_>,
    file: &Outgoing<'_>,
    monitor: &mut Monitor<D>,
    writer: &mut W,
    errors: &mut E,
) -> Result<Tally, SessionError>
    ensures { IsTakenOut (λ (m : MonitorState D). machine_of (D.state m.disk) m.map m.failed m.jobs)
        directory.now.task.now.encoding file.now.path.now directory.now.owner file.now.entry.now (W.contents writer.old)
        (W.contents writer.new) (H.acts host.old, monitor.old) (H.acts host.new, monitor.new) result }
{
    let entry = file.entry;
    let wanted = Export {
        owner: directory.owner,
        name: entry.name,
        mode: entry.mode,
        moment: first_moment(),
        encoding: directory.task.encoding,
    };
    let exported = export(alloc, monitor, &wanted);
    let changed = change_of(entry);
    store(host, alloc, file.path, changed, exported, writer, errors)
}

/// Makes a file of the host from a file, or only lists its path.
fn export_one<H: HostFiles, W: Write, E: Write, D: Disk>(
    host: &mut H,
    alloc: Global,
    directory: &Directory<'_>,
    entry: &Entry,
    monitor: &mut Monitor<D>,
    writer: &mut W,
    errors: &mut E,
) -> Result<Tally, SessionError>
    ensures { IsEntryDone (λ (m : MonitorState D). machine_of (D.state m.disk) m.map m.failed m.jobs)
        directory.now.task.now directory.now.owner entry.now (W.contents writer.old) (W.contents writer.new)
        (H.acts host.old, monitor.old) (H.acts host.new, monitor.new) result }
{
    let task = directory.task;
    let Ok(path) = path_of(alloc, task.folder, directory.owner, entry.name) else {
        return Err(SessionError::NoMemory);
    };
    if task.lists {
        return say_path(alloc, writer, path.as_str());
    }
    let file = Outgoing {
        path: path.as_str(),
        entry,
    };
    take_out(host, alloc, directory, &file, monitor, writer, errors)
}

/// Makes files of the host from these files of a directory, or only lists their paths.
fn export_entries<H: HostFiles, W: Write, E: Write, D: Disk>(
    host: &mut H,
    alloc: Global,
    directory: &Directory<'_>,
    entries: &[Entry],
    monitor: &mut Monitor<D>,
    writer: &mut W,
    errors: &mut E,
) -> Result<Tally, SessionError>
    ensures { EachDone (IsEntryDone (λ (m : MonitorState D). machine_of (D.state m.disk) m.map m.failed m.jobs)
        directory.now.task.now directory.now.owner) entries.now none_counted (W.contents writer.old)
        (W.contents writer.new) (H.acts host.old, monitor.old) (H.acts host.new, monitor.new) result }
{
    let mut tally = Tally::none();
    for entry in entries {
        let one = export_one(host, alloc, directory, entry, monitor, writer, errors)?;
        tally = added(tally, one);
    }
    Ok(tally)
}

/// Makes the folder of a directory, unless paths are only listed, and then exports its files.
fn fill_folder<H: HostFiles, W: Write, E: Write, D: Disk>(
    host: &mut H,
    alloc: Global,
    directory: &Directory<'_>,
    listed: &Listed<'_>,
    monitor: &mut Monitor<D>,
    writer: &mut W,
    errors: &mut E,
) -> Result<Tally, SessionError>
    requires { listed.now.folder.now ≡ folder_text directory.now.task.now.folder.now directory.now.owner }
    ensures { AreEntriesDone (λ (m : MonitorState D). machine_of (D.state m.disk) m.map m.failed m.jobs)
        directory.now.task.now directory.now.owner listed.now.entries.now (W.contents writer.old)
        (W.contents writer.new) (H.acts host.old, monitor.old) (H.acts host.new, monitor.new) result }
{
    let Listed { folder, entries } = *listed;
    if directory.task.lists {
        return export_entries(host, alloc, directory, entries, monitor, writer, errors);
    }
    match host.make_folder(folder) {
        Ok(()) => export_entries(host, alloc, directory, entries, monitor, writer, errors),
        Err(error) => {
            report(errors, folder, &error);
            turn_down(alloc, writer, folder, "?Can't make folder", false)
        }
    }
}

/// Makes files of the host from the files of a directory.
fn export_directory<H: HostFiles, W: Write, E: Write, D: Disk>(
    host: &mut H,
    alloc: Global,
    directory: &Directory<'_>,
    monitor: &mut Monitor<D>,
    writer: &mut W,
    errors: &mut E,
) -> Result<Tally, SessionError>
    ensures { IsOwnerDone (λ (m : MonitorState D). machine_of (D.state m.disk) m.map m.failed m.jobs)
        directory.now.task.now directory.now.owner (W.contents writer.old) (W.contents writer.new)
        (H.acts host.old, monitor.old) (H.acts host.new, monitor.new) result }
{
    let Ok(folder) = folder_of(alloc, directory.task.folder, directory.owner) else {
        return Err(SessionError::NoMemory);
    };
    let folder = folder.as_str();
    match entries(alloc, monitor, first_moment(), directory.owner) {
        Ok(entries) => {
            let listed = Listed {
                folder,
                entries: entries.as_slice(),
            };
            fill_folder(host, alloc, directory, &listed, monitor, writer, errors)
        }
        Err(reply) => turn_down(alloc, writer, folder, refusal(&reply), is_broken(&reply)),
    }
}

/// Makes files of the host from the files of these directories.
fn export_directories<H: HostFiles, W: Write, E: Write, D: Disk>(
    host: &mut H,
    alloc: Global,
    task: &ExportTask<'_>,
    owners: &[Ppn],
    monitor: &mut Monitor<D>,
    writer: &mut W,
    errors: &mut E,
) -> Result<Tally, SessionError>
    ensures { EachDone (IsOwnerDone (λ (m : MonitorState D). machine_of (D.state m.disk) m.map m.failed m.jobs)
        task.now) owners.now none_counted (W.contents writer.old) (W.contents writer.new) (H.acts host.old, monitor.old)
        (H.acts host.new, monitor.new) result }
{
    let mut tally = Tally::none();
    for owner in owners {
        let directory = Directory {
            task: &*task,
            owner: *owner,
        };
        let one = export_directory(host, alloc, &directory, monitor, writer, errors)?;
        tally = added(tally, one);
    }
    Ok(tally)
}

/// Makes the folder for all directories, unless paths are only listed, and then exports these.
fn export_owners<H: HostFiles, W: Write, E: Write, D: Disk>(
    host: &mut H,
    alloc: Global,
    task: &ExportTask<'_>,
    owners: &[Ppn],
    monitor: &mut Monitor<D>,
    writer: &mut W,
    errors: &mut E,
) -> Result<Tally, SessionError>
    ensures { AreOwnersDone (λ (m : MonitorState D). machine_of (D.state m.disk) m.map m.failed m.jobs) task.now
        owners.now (W.contents writer.old) (W.contents writer.new) (H.acts host.old, monitor.old)
        (H.acts host.new, monitor.new) result }
{
    if task.lists {
        return export_directories(host, alloc, task, owners, monitor, writer, errors);
    }
    match host.make_folder(task.folder) {
        Ok(()) => export_directories(host, alloc, task, owners, monitor, writer, errors),
        Err(error) => {
            report(errors, task.folder, &error);
            turn_down(alloc, writer, task.folder, "?Can't make folder", false)
        }
    }
}

/// Makes a file of the host from each file of a directory, or of all directories, at a path where there is none:
/// FOLDER/10,20/FOO.TXT. Job 1 logs in as [1,2] and reads them. A line is written for each file, and for each directory
/// that is refused; none of these stops the others. A task that only lists reads no file and makes none: it writes the
/// paths.
///
/// # Errors
///
/// `Write` if the writer failed, `NoMemory` if there is no memory for a file or its line: those before it were made.
pub fn export_files<H: HostFiles, W: Write, E: Write, D: Disk>(
    host: &mut H,
    alloc: Global,
    task: &ExportTask<'_>,
    monitor: &mut Monitor<D>,
    writer: &mut W,
    errors: &mut E,
) -> Result<Tally, SessionError>
    ensures done { IsExportRun (λ (m : MonitorState D). machine_of (D.state m.disk) m.map m.failed m.jobs) task.now
        (W.contents writer.old) (W.contents writer.new) (H.acts host.old, monitor.old) (H.acts host.new, monitor.new)
        result }
    ensures goes { Goes (λ (m : MonitorState D). machine_of (D.state m.disk) m.map m.failed m.jobs) monitor.old
        monitor.new }
{
    if let Some(owner) = task.owner {
        return export_owners(host, alloc, task, &[owner], monitor, writer, errors);
    }
    match monitor.owners(alloc) {
        Ok(owners) => export_owners(host, alloc, task, &owners, monitor, writer, errors),
        Err(reply) => {
            let (text, broke) = (refusal(&reply), is_broken(&reply));
            turn_down(alloc, writer, task.folder, text, broke)
        }
    }
}
