//! The import of files of the host into a directory.
ghost use Rattle.std.specs.Prelude.{◌≡◌, ◌⊎◌, ◌<◌, ℕ, List, length, get_or, map, true, IfSome, IfNone, Ok, Err};
ghost use Rattle.std.specs.Prelude.{None};
ghost use Rattle.spec_machine.specs.declared.call.Reply.TheVariants.{Refused};
ghost use Rattle.spec_language.specs.Common.{own_file};
ghost use Rattle.commands.specs.Common.{Imported, put_plan_as};
ghost use Rattle.commands.specs.declared.existing.Existing.TheVariants.{Refuse};
ghost use Rattle.collection.specs.Common.{Goes, IsDoneWith, IsEncodingFor, IsImportRun, IsMomentFor, IsPutInto};
ghost use Rattle.collection.specs.Common.{IsSourcePut, most_read};
ghost use Rattle.monitor.specs.Common.{MonitorState};
ghost use Rattle.commands.specs.Common.{machine_of};

use crate::clock::first_moment;
use crate::host_names::{Named, name_for};
use crate::lines::{added, label, turn_down};
use crate::report::{report, report_collision};
use crate::{HostFiles, ImportTask, Source};
use blockdisk::Disk;
use commands::{
    Encoding, Import, Misfit, Monitor, Reason, SessionError, Tally, encoding_of, import, is_broken,
    make_directory, most_bytes, refusal,
};
use spec_machine::Reply;
use std::alloc::Global;
use std::collections::BTreeMap;
use std::io::Write;
use words36::{FileName, Moment, Ppn};

/// Code 4: the directory exists.
const ALREADY_EXISTS: u32 = 4;

/// Returns the most bytes that a file may have; one more than these is read.
fn most_read(asked: Option<Encoding>) -> usize
    ensures { result ≡ most_read asked }
{
    most_bytes(asked.unwrap_or(Encoding::Characters))
}

/// Returns the encoding of a file's bytes: the given one, or the one that they show.
fn encoding_for(asked: Option<Encoding>, bytes: &[u8]) -> Encoding
    ensures { IsEncodingFor asked bytes.now result }
{
    match asked {
        Some(encoding) => encoding,
        None => encoding_of(bytes),
    }
}

/// Returns the moment that a file gets: that of its last change, or the given one.
fn moment_for(task: &ImportTask<'_>, source: &Source) -> Option<Moment>
    ensures some { IfSome result (IsMomentFor task.now source.now) }
    ensures none { IfNone result ((task.now.dated ≡ true) × (source.now.changed ≡ None)) }
{
    if task.dated {
        source.changed
    } else {
        Some(task.moment)
    }
}

/// Tells people why the bytes of a file can't be put, if they can't.
fn report_misfit<E: Write>(errors: &mut E, path: &str, put: &Result<Tally, SessionError>) {
    let Ok(
        Tally {
            reason: Some(Reason::Input(misfit)),
            ..
        },
    ) = put
    else {
        return;
    };
    match misfit {
        Misfit::Byte(byte, place) => {
            let what = format_args!("byte {byte} at {place} isn't text (1 to 127)");
            report(errors, path, &what);
        }
        Misfit::Length(count) => {
            let what = format_args!("{count} bytes, which is no multiple of eight");
            report(errors, path, &what);
        }
        Misfit::Word(place) => {
            let what = format_args!("word {place} has bits above its 36");
            report(errors, path, &what);
        }
        Misfit::Excess(most) => {
            let what = format_args!("more than {most} bytes, which no file can hold");
            report(errors, path, &what);
        }
    }
}

/// Returns why a directory doesn't exist, if it was neither made nor there before.
fn refusal_of(made: Result<(), Reply>) -> Option<Reply>
    ensures some { IfSome result (λ reply. (made ≡ Err reply) × (reply ≡ Refused 4 → ⊥)) }
    ensures none { IfNone result ((made ≡ Ok tt) ⊎ (made ≡ Err (Refused 4))) }
{
    match made {
        Ok(()) => None,
        Err(Reply::Refused(ALREADY_EXISTS)) => None,
        Err(reply) => Some(reply),
    }
}

/// Makes the directory of a file, unless it exists, puts the file, if none has its name, and writes its line.
fn put_into<W: Write, E: Write, D: Disk>(
    alloc: Global,
    path: &str,
    file: &Import<'_>,
    monitor: &mut Monitor<D>,
    writer: &mut W,
    errors: &mut E,
) -> Result<Tally, SessionError>
    ensures { IsPutInto (λ (m : MonitorState D). machine_of (D.state m.disk) m.map m.failed m.jobs) file.now.owner
        path.now (W.contents writer.old) (W.contents writer.new) monitor.old monitor.new result
        (λ mid. Imported (W.contents writer.old) (W.contents writer.new)
        (λ (m : MonitorState D). machine_of (D.state m.disk) m.map m.failed m.jobs) mid monitor.new file.now.encoding
        file.now.label.now file.now.bytes.now
        (put_plan_as Refuse file.now.moment file.now.owner file.now.encoding (own_file file.now.name)) result) }
{
    let made = make_directory(alloc, monitor, first_moment(), file.owner);
    if let Some(reply) = refusal_of(made) {
        return turn_down(alloc, writer, path, refusal(&reply), is_broken(&reply));
    }
    let put = import(alloc, writer, monitor, file);
    report_misfit(errors, path, &put);
    put
}

/// Puts a file that was read, if no file has its name, and writes its line.
fn put_source<W: Write, E: Write, D: Disk>(
    alloc: Global,
    task: &ImportTask<'_>,
    named: &Named<'_>,
    source: &Source,
    monitor: &mut Monitor<D>,
    writer: &mut W,
    errors: &mut E,
) -> Result<Tally, SessionError>
    ensures { IsSourcePut (λ (m : MonitorState D). machine_of (D.state m.disk) m.map m.failed m.jobs) task.now
        named.now.path.now named.now.text.items named.now.name source.now (W.contents writer.old)
        (W.contents writer.new) monitor.old monitor.new result }
{
    let Some(moment) = moment_for(task, source) else {
        return turn_down(alloc, writer, named.path, "?Date out of range", false);
    };
    let Ok(label) = label(alloc, named.path, &named.text) else {
        return Err(SessionError::NoMemory);
    };
    let file = Import {
        owner: task.owner,
        name: named.name,
        encoding: encoding_for(task.encoding, &source.bytes),
        moment,
        label: &label,
        bytes: &source.bytes,
    };
    put_into(alloc, named.path, &file, monitor, writer, errors)
}

/// Reads a file of the host and puts it, if no file has its name, and writes its line.
fn import_one<H: HostFiles, W: Write, E: Write, D: Disk>(
    host: &mut H,
    alloc: Global,
    task: &ImportTask<'_>,
    path: &str,
    monitor: &mut Monitor<D>,
    writer: &mut W,
    errors: &mut E,
) -> Result<Tally, SessionError>
    ensures { IsDoneWith (λ (m : MonitorState D). machine_of (D.state m.disk) m.map m.failed m.jobs) task.now path.now
        (W.contents writer.old) (W.contents writer.new) (H.acts host.old, monitor.old) (H.acts host.new, monitor.new)
        result }
{
    let Ok(found) = name_for(alloc, path, task.shortens) else {
        return Err(SessionError::NoMemory);
    };
    let Some(named) = found else {
        return turn_down(alloc, writer, path, "?Bad name", false);
    };
    match host.read(alloc, path, most_read(task.encoding)) {
        Ok(source) => put_source(alloc, task, &named, &source, monitor, writer, errors),
        Err(error) => {
            report(errors, path, &error);
            turn_down(alloc, writer, path, "?Can't read", false)
        }
    }
}

/// Remembers the name of a file that was put. For a refused one it reports which file of this run was put under its
/// name, if one was.
fn note_name<E: Write>(
    alloc: Global,
    task: &ImportTask<'_>,
    place: usize,
    refused: bool,
    put: &mut BTreeMap<FileName, usize>,
    errors: &mut E,
) {
    let Some(path) = task.paths.get(place) else {
        return;
    };
    let Ok(Some(named)) = name_for(alloc, path, task.shortens) else {
        return;
    };
    if !refused {
        let _ = put.insert(named.name, place); // without memory a later note is missing, and nothing else
        return;
    }
    if let Some(earlier) = put.get(&named.name)
        && let Some(other) = task.paths.get(*earlier)
    {
        report_collision(errors, path, other);
    }
}

/// Returns the path at a place of a task, counted from 0.
fn path_at<'a>(task: &ImportTask<'a>, place: usize) -> &'a str
    requires { place < length task.now.paths.items }
    ensures { (d : List ℕ) → result.now ≡ get_or (map (λ p. p.now) task.now.paths.items) place d }
{
    task.paths[place]
}

/// Puts files of the host into a directory.
fn import_all<H: HostFiles, W: Write, E: Write, D: Disk>(
    host: &mut H,
    alloc: Global,
    task: &ImportTask<'_>,
    monitor: &mut Monitor<D>,
    writer: &mut W,
    errors: &mut E,
) -> Result<Tally, SessionError>
    ensures { IsImportRun (λ (m : MonitorState D). machine_of (D.state m.disk) m.map m.failed m.jobs) task.now
        (map (λ p. p.now) task.now.paths.items) (W.contents writer.old) (W.contents writer.new)
        (H.acts host.old, monitor.old) (H.acts host.new, monitor.new) result }
{
    let mut tally = Tally::none();
    let mut put = BTreeMap::new(alloc);
    for place in 0..task.paths.len() {
        let path = path_at(task, place);
        let one = import_one(host, alloc, task, path, monitor, writer, errors)?;
        note_name(alloc, task, place, one.refused, &mut put, errors);
        tally = added(tally, one);
    }
    Ok(tally)
}

/// Puts files of the host into a directory, each one if no file has its name, by job 1, which logs in as the owner.
/// Makes the directory before the first file is put, if it doesn't exist. A line is written for each file. A refused
/// file doesn't stop the others.
///
/// # Errors
///
/// `Write` if the writer failed, `NoMemory` if there is no memory for the words or the line of a file: those before it
/// were put.
pub fn import_files<H: HostFiles, W: Write, E: Write, D: Disk>(
    host: &mut H,
    alloc: Global,
    task: &ImportTask<'_>,
    monitor: &mut Monitor<D>,
    writer: &mut W,
    errors: &mut E,
) -> Result<Tally, SessionError>
    ensures done { IsImportRun (λ (m : MonitorState D). machine_of (D.state m.disk) m.map m.failed m.jobs) task.now
        (map (λ p. p.now) task.now.paths.items) (W.contents writer.old) (W.contents writer.new)
        (H.acts host.old, monitor.old) (H.acts host.new, monitor.new) result }
    ensures goes { Goes (λ (m : MonitorState D). machine_of (D.state m.disk) m.map m.failed m.jobs) monitor.old
        monitor.new }
{
    import_all(host, alloc, task, monitor, writer, errors)
}
