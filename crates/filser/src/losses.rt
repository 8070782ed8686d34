//! The files that are lost on a disk that a start refused, as `check` reports them.
ghost use Rattle.std.specs.Prelude.{◌≡◌, IsTrue};
ghost use Rattle.filser.specs.Common.{IsGivenBack, IsSearched};
ghost use Rattle.filser.specs.declared.task.Task.TheVariants.{Check};

use crate::Task;
use crate::fault::report_no_memory;
use blockdisk::{Disk, Fail, FuseDisk};
use commands::extension_text;
use salvage::{Copied, Cost, Finding, SalvageError, Search, Survey, survey_disk};
use std::alloc::Global;
use std::fmt::{self, Display, Formatter};
use std::io::Write;
use volume::VolumeError;
use words36::{FileName, Ppn, text_of};

/// How often the search for lost files reads a block on average, at most: more often than needed unless files and
/// directories share blocks.
const READS_PER_BLOCK: u64 = 16;

/// How many faults are reported at most.
const MOST_TOLD: usize = 100;

/// A file of a directory, as a line names it: `FOO.TXT[10,20]`.
#[derive(Clone, Copy, Debug)]
struct FilePlace {
    owner: Ppn,
    name: FileName,
}

impl Display for FilePlace {
    fn fmt<W: fmt::Write>(&self, f: &mut Formatter<W>) -> fmt::Result {
        let name = text_of(self.name.name);
        write_part(f, &name)?;
        let extension = extension_text(self.name.ext);
        if self.name.ext.bits() != 0 {
            f.write_char('.')?;
            write_part(f, &extension)?;
        }
        write!(f, "{}", self.owner)
    }
}

/// Writes the characters of a name or of an extension, without the blanks at the end.
fn write_part<W: fmt::Write>(f: &mut Formatter<W>, part: &[u8]) -> fmt::Result {
    for character in part.trim_ascii_end() {
        f.write_char(char::from(*character))?;
    }
    Ok(())
}

/// Reports which file a fault costs, if it costs one.
fn report_loss<E: Write>(errors: &mut E, finding: Finding) {
    let Finding { fault, costs } = finding;
    let _ = match costs {
        Cost::File(owner, name) => {
            let place = FilePlace { owner, name };
            writeln!(errors, "filser: {place}: {fault}")
        }
        Cost::Unnamed(owner, name, _) => {
            let place = FilePlace { owner, name };
            writeln!(errors, "filser: {place}, in no directory: {fault}")
        }
        Cost::Directory(owner) => writeln!(errors, "filser: {owner}: {fault}"),
        Cost::Directories => writeln!(errors, "filser: all directories: {fault}"),
        Cost::Nothing => Ok(()),
    };
}

/// Reports which command shows more.
fn report_elsewhere<E: Write>(errors: &mut E, what: &str) {
    let _ = writeln!(errors, "filser: {what}: see filser salvage --list");
}

/// Reports which files these faults cost, up to `MOST_TOLD` of them.
fn report_findings<E: Write>(errors: &mut E, findings: &[Finding]) {
    let (told, others) = findings.split_at(findings.len().min(MOST_TOLD));
    for finding in told {
        report_loss(errors, *finding);
    }
    if !others.is_empty() {
        report_elsewhere(errors, "more is wrong");
    }
}

/// Finds what the faults of a disk cost. Nothing is written to it.
///
/// # Errors
///
/// `NotVolume` if neither it nor a home copy has a volume's size; `Device` if a block couldn't be read, or if the
/// faults lead to the same blocks again and again; `NoMemory` if there is no memory: the search takes twice what the
/// volume holds.
fn search<D: Disk>(alloc: Global, disk: &mut D) -> Result<Survey, SalvageError>
    ensures { IsSearched (D.state disk.old) (D.state disk.new) }
{
    let Copied {
        disk: copy,
        faults,
        ..
    } = Copied::of(alloc, disk, 0)?;
    if faults.unread > 0 {
        return Err(SalvageError::Device); // a cable that was pulled looks the same
    }
    let reads = READS_PER_BLOCK * u64::from(copy.blocks());
    let mut copy = FuseDisk::new(copy, reads, Fail::All);
    survey_disk(alloc, &mut copy, Search::Used)
}

/// Reports which files the faults of a disk cost.
fn report_losses<D: Disk, E: Write>(alloc: Global, disk: &mut D, errors: &mut E)
    ensures { IsSearched (D.state disk.old) (D.state disk.new) }
{
    match search(alloc, disk) {
        Ok(found) => report_findings(errors, found.findings.as_slice()),
        Err(SalvageError::Device) => report_elsewhere(errors, "which files are lost"),
        Err(SalvageError::NoMemory) => report_no_memory(errors),
        Err(SalvageError::NotVolume) => {}
    }
}

/// Returns whether the cause of a start's refusal may cost files.
fn may_cost_files(error: VolumeError) -> bool {
    match error {
        VolumeError::NotVolume
        | VolumeError::Device
        | VolumeError::NoMemory
        | VolumeError::Failed => false,
        VolumeError::BadHome
        | VolumeError::BadLog
        | VolumeError::BadDirectory(_)
        | VolumeError::BadRetrieval(_)
        | VolumeError::BlockTwice(_)
        | VolumeError::TableWrong(_)
        | VolumeError::BadData(_) => true,
    }
}

/// Returns whether a disk that a start refused is searched for lost files.
fn is_searched(task: Task, error: VolumeError) -> bool
    ensures { IsTrue result → task ≡ Check }
{
    match task {
        Task::Check => may_cost_files(error),
        _ => false,
    }
}

/// Hands back a disk that a start refused. If the task is to check it, the lost files are reported first.
pub(crate) fn give_back<D: Disk, E: Write>(
    alloc: Global,
    disk: D,
    task: Task,
    error: VolumeError,
    errors: &mut E,
) -> D
    ensures { IsGivenBack D.state task disk result }
{
    if !is_searched(task, error) {
        return disk;
    }
    let mut searched = disk;
    report_losses(alloc, &mut searched, errors);
    searched
}
