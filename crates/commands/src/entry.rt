//! The monitor as a service of files, and its use by a program: session, script, and the errands of job 1.
ghost use Rattle.commands.specs.Monitors.{machine_of};
ghost use Rattle.commands.specs.Sessions.{Session, Script};
ghost use Rattle.commands.specs.Transfers.{Checked, Delivery, Errand, Survey, delete_plan, put_plan_as};
ghost use Rattle.commands.specs.Export.{HasEntries, HasExported, export_plan};
ghost use Rattle.commands.specs.Import.{Imported};
ghost use Rattle.commands.specs.PlanSteps.{FollowsPlan, followed};
ghost use Rattle.monitor.specs.Common.{MonitorState};
ghost use Rattle.spec_language.specs.Common.{login_events, get_plan, own_file, Plan, make_dir_events, each};
ghost use Rattle.commands.specs.declared.existing.Existing.TheVariants.{Refuse};
ghost use Rattle.std.specs.Prelude.{Some};

use crate::answer::{SESSION_JOB, Tally};
use crate::export_file::{Export, Exported, entries_of, take_out};
use crate::import_file::{Import, take_in};
use crate::make_dir::make_own;
use crate::put_file::PutFile;
use crate::run::{print, run_script, run_session};
use crate::service::FileService;
use crate::transfer::{read_in, write_deleted, write_lists, write_out, write_refusal};
use crate::{SessionError, text};
use blockdisk::{Disk, NoMemory};
use monitor::{CoreArea, Monitor};
use spec_image::Entry;
use spec_language::{Encoding, Spec, Style};
use spec_machine::{Call, Event, Reply};
use std::alloc::{AllocError, Global};
use std::io::{Read, Write};
use words36::{FileName, Moment, Ppn, Word};

impl<D: Disk> FileService for Monitor<D> {
    ghost use Rattle.monitor.proofs.Events.EventCrashes.{state_stands};

    ghost machine = { λ m. machine_of (D.state m.disk) m.map m.failed m.jobs };

    ghost stands = { λ m honest s serves. state_stands (D.state m.disk) m.map m.jobs s serves.1 };

    fn event(&mut self, alloc: Global, event: &Event) -> Reply {
        Monitor::event(self, alloc, event)
    }

    fn examine_all(&self, first: u32, count: usize) -> Option<&[Word]> {
        Monitor::examine_all(self, SESSION_JOB, first, count)
    }

    fn deposit_all(&mut self, first: u32, words: &[Word]) -> bool {
        Monitor::deposit_all(self, SESSION_JOB, first, words)
    }

    fn list(&mut self, alloc: Global, job: u32, owner: Ppn) -> Result<Vec<Entry>, Reply> {
        Monitor::list(self, alloc, job, owner)
    }

    fn changed_areas(
        &self,
        alloc: Global,
        job: u32,
        call: &Call,
    ) -> Result<Vec<CoreArea>, NoMemory> {
        Monitor::changed_areas(self, alloc, job, call)
    }

    fn room(&self) -> u64 {
        u64::try_from(Monitor::room(self)).unwrap_or(0)
    }
}

/// Serves the lines of a reader until its end, as job 1 at a moment, and writes what they print; at the end of the
/// input the job is reset. The lines are those of this project's profile. All that a crash may leave, at any moment of
/// it, stands for the files after some of the calls that its lines make, in their order, or for those after one call
/// more.
///
/// # Errors
///
/// `Read` or `Write` if the reader or the writer failed, `NoMemory` if a text found no room. What was answered before
/// stays done, and the writer has a beginning of the text. A line that a fault of the reader cuts short isn't answered,
/// and no job is reset then.
pub fn session<R: Read, W: Write, D: Disk>(
    alloc: Global,
    reader: &mut R,
    writer: &mut W,
    monitor: &mut Monitor<D>,
    moment: Moment,
) -> Result<Tally, SessionError>
    ensures { Session (R.remaining reader.old) (R.remaining reader.new) (W.contents writer.old) (W.contents writer.new)
        (λ (m : MonitorState D). machine_of (D.state m.disk) m.map m.failed m.jobs) monitor.old monitor.new
        moment result }
{
    run_session(alloc, reader, writer, monitor, moment)
}

/// Serves a call script: each line of the reader is one event, at a moment, and one line is written for its reply. A
/// line that isn't of the grammar is answered with `SYNTAX`, and has no event. No job is reset at the end. The tally
/// has whether a line was answered with other than `DONE` and `VALUE`, and whether one was `DEVICE` or `FAILED`.
///
/// # Errors
///
/// The same as those of `session`.
pub fn script<R: Read, W: Write, D: Disk>(
    alloc: Global,
    reader: &mut R,
    writer: &mut W,
    monitor: &mut Monitor<D>,
    moment: Moment,
) -> Result<Tally, SessionError>
    ensures { Script (R.remaining reader.old) (R.remaining reader.new) (W.contents writer.old) (W.contents writer.new)
        (λ (m : MonitorState D). machine_of (D.state m.disk) m.map m.failed m.jobs) monitor.old monitor.new
        moment result }
{
    run_script(alloc, reader, writer, monitor, moment)
}

/// Writes a file, as it is printed, by job 1, which logs in for it as the owner of a directory, at a moment. What holds
/// for the calls of a session holds for the calls that are made.
///
/// # Errors
///
/// `Write` if the writer failed: it has a beginning of the file. `NoMemory` if the file found no room: nothing is
/// written.
pub fn get<W: Write, D: Disk>(
    alloc: Global,
    writer: &mut W,
    monitor: &mut Monitor<D>,
    moment: Moment,
    owner: Ppn,
    encoding: Encoding,
    name: FileName,
) -> Result<Tally, SessionError>
    ensures { Errand (W.contents writer.old) (W.contents writer.new)
        (λ (m : MonitorState D). machine_of (D.state m.disk) m.map m.failed m.jobs) monitor.old monitor.new
        (get_plan moment owner encoding (own_file name)) result }
{
    let spec = Spec { name, owner: None };
    write_out(alloc, writer, monitor, moment, owner, encoding, spec)
}

/// Deletes a file, by job 1, which logs in for it as the owner of a directory, at a moment, and writes `OK`, or why
/// not. What holds for the calls of a session holds for the calls that are made.
///
/// # Errors
///
/// `Write` if the writer failed, `NoMemory` if the text found no room: the calls were made.
pub fn delete<W: Write, D: Disk>(
    alloc: Global,
    writer: &mut W,
    monitor: &mut Monitor<D>,
    moment: Moment,
    owner: Ppn,
    name: FileName,
) -> Result<Tally, SessionError>
    ensures { Errand (W.contents writer.old) (W.contents writer.new)
        (λ (m : MonitorState D). machine_of (D.state m.disk) m.map m.failed m.jobs) monitor.old monitor.new
        (delete_plan moment owner (own_file name)) result }
{
    let spec = Spec { name, owner: None };
    write_deleted(alloc, writer, monitor, moment, owner, spec)
}

/// Makes a file of all that a reader returns, by job 1, which logs in for it as the owner of a directory, at a moment.
/// A file that exists is superseded, or it stays and its name is refused. All of the input is read and tested before
/// the first call. Reading stops early at bytes with which no file begins, and at more than a file can hold. `OK` is
/// written, or why not.
///
/// # Errors
///
/// `Read` if the reader failed, `NoMemory` if its bytes or their words found no room: no call was made, and nothing is
/// written. `Write` if the writer failed, `NoMemory` if the text found no room: the calls were made.
pub fn put<R: Read, W: Write, D: Disk>(
    alloc: Global,
    reader: &mut R,
    writer: &mut W,
    monitor: &mut Monitor<D>,
    moment: Moment,
    file: &PutFile,
) -> Result<Tally, SessionError>
    ensures { Delivery (R.remaining reader.old) (R.remaining reader.new) (W.contents writer.old) (W.contents writer.new)
        (λ (m : MonitorState D). machine_of (D.state m.disk) m.map m.failed m.jobs) monitor.old monitor.new
        file.now.encoding
        (put_plan_as file.now.existing moment file.now.owner file.now.encoding (own_file file.now.name)) result }
{
    read_in(alloc, reader, writer, monitor, moment, file)
}

/// Makes a file of bytes in memory if there is none of its name, by job 1, which logs in for it as the owner of a
/// directory. Its label and then `OK` are written as one line, or its label and why not. The bytes are tested before
/// the first call.
///
/// # Errors
///
/// `Write` if the writer failed: it has a beginning of the line. `NoMemory` if the words of the bytes found no room: no
/// call was made; or if the line found none: the calls were made. Nothing is written then.
pub fn import<W: Write, D: Disk>(
    alloc: Global,
    writer: &mut W,
    monitor: &mut Monitor<D>,
    file: &Import<'_>,
) -> Result<Tally, SessionError>
    ensures { Imported (W.contents writer.old) (W.contents writer.new)
        (λ (m : MonitorState D). machine_of (D.state m.disk) m.map m.failed m.jobs) monitor.old monitor.new
        file.now.encoding file.now.label.now file.now.bytes.now
        (put_plan_as Refuse file.now.moment file.now.owner file.now.encoding (own_file file.now.name)) result }
{
    take_in(alloc, writer, monitor, file)
}

/// Writes the list of a directory, or of all directories, one after the other, as DIRECTORY prints it or as a table, by
/// job 1, which logs in for it as [1,2], at a moment.
///
/// # Errors
///
/// `Write` if the writer failed: it has a beginning of the lists. `NoMemory` if they found no room: nothing is written.
pub fn list<W: Write, D: Disk>(
    alloc: Global,
    writer: &mut W,
    monitor: &mut Monitor<D>,
    moment: Moment,
    style: Style,
    place: Option<Ppn>,
) -> Result<Tally, SessionError>
    ensures { Survey (W.contents writer.old) (W.contents writer.new)
        (λ (m : MonitorState D). machine_of (D.state m.disk) m.map m.failed m.jobs) monitor.old monitor.new
        moment style place result }
{
    if let Some(owner) = place {
        return write_lists(alloc, writer, monitor, moment, style, &[owner]);
    }
    match monitor.owners(alloc) {
        Ok(owners) => write_lists(alloc, writer, monitor, moment, style, &owners),
        Err(reply) => write_refusal(alloc, writer, monitor, &reply),
    }
}

/// Returns the files of a directory, as they are listed for job 1, which logs in for it as [1,2]. All channels are
/// closed if LOGIN is refused.
///
/// # Errors
///
/// The reply that refused LOGIN or the list.
pub fn entries<D: Disk>(
    alloc: Global,
    monitor: &mut Monitor<D>,
    moment: Moment,
    owner: Ppn,
) -> Result<Vec<Entry>, Reply>
    ensures { HasEntries (λ v. v.items)
        (λ (m : MonitorState D). machine_of (D.state m.disk) m.map m.failed m.jobs) monitor.old monitor.new
        moment owner result }
{
    entries_of(alloc, monitor, moment, owner)
}

/// Returns the bytes of a file, which is read by job 1, which logs in for it as [1,2]. If no encoding is given, the
/// bytes spell the very words of the file, in the first encoding of its mode in which any bytes do. In a given encoding
/// they are as `get` writes them.
///
/// # Errors
///
/// `AllocError` if the words or the bytes found no room: the file was read all the same.
pub fn export<D: Disk>(
    alloc: Global,
    monitor: &mut Monitor<D>,
    file: &Export,
) -> Result<Exported, AllocError>
    ensures { HasExported (λ (m : MonitorState D). machine_of (D.state m.disk) m.map m.failed m.jobs) monitor.old
        monitor.new file.now.encoding file.now.mode
        (export_plan file.now.moment (record { name = file.now.name; owner = Some file.now.owner })) result }
{
    take_out(alloc, monitor, file)
}

/// Makes the directory of an owner, with protection 775, by job 1, which logs in for it as the owner.
///
/// # Errors
///
/// The reply that refused it: code 4 if the directory exists.
pub fn make_directory<D: Disk>(
    alloc: Global,
    monitor: &mut Monitor<D>,
    moment: Moment,
    owner: Ppn,
) -> Result<(), Reply>
    ensures { (next : Plan) → FollowsPlan
        (λ (m : MonitorState D). machine_of (D.state m.disk) m.map m.failed m.jobs) monitor.old monitor.new
        (each moment (login_events owner) (each moment (make_dir_events moment owner 0) next))
        (followed moment result (λ unit. next)) }
{
    make_own(alloc, monitor, moment, owner)
}

/// Writes how many blocks a volume has, and how many are left.
///
/// # Errors
///
/// `Write` if the writer failed: it has a beginning of the line. `NoMemory` if the line found no room: nothing is
/// written.
pub fn check<W: Write, D: Disk>(
    alloc: Global,
    writer: &mut W,
    monitor: &Monitor<D>,
) -> Result<Tally, SessionError>
    ensures { Checked (W.contents writer.old) (W.contents writer.new)
        (machine_of (D.state monitor.now.disk) monitor.now.map monitor.now.failed monitor.now.jobs) result }
{
    let text = text::volume_line(alloc, monitor.blocks(), monitor.room());
    print(writer, text)?;
    Ok(Tally::none())
}
