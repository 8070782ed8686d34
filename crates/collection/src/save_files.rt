//! The rescue of the files that a survey of a damaged disk found, to new files of the host.
ghost use Rattle.std.specs.Prelude.{◌≡◌, true, false, IfOk, IsErrOf, length, string_bytes};
ghost use Rattle.std.specs.List.{AllByRecursion};
ghost use Rattle.blockdisk.specs.Common.{memory_state};
ghost use Rattle.salvage.specs.Common.{FitsDisk};
ghost use Rattle.collection.specs.Common.{EachDone, Then, none_counted, AreApartSaved, AreFilesSaved, AreWordsStored};
ghost use Rattle.collection.specs.Common.{AreFindingsDone, IsFileDone, IsReadStored, IsSalvageRun, IsSavedAt};
ghost use Rattle.collection.specs.Common.{IsWantedDone, doubtful_folder as doubtful_text};
ghost use Rattle.collection.specs.Common.{saved_path, unnamed_folder as unnamed_text, words_read};
ghost use Rattle.salvage.specs.declared.error.SalvageError.TheVariants.{NotVolume};

use crate::exports::store;
use crate::faults::{is_wanted, report_copy, report_findings};
use crate::lines::{added, say_path, turn_down};
use crate::paths::{doubtful_folder, folder_of, numbered_path, path_of, unnamed_folder};
use crate::report::report;
use crate::{ExportTask, HostFiles};
use blockdisk::Disk;
use commands::{Exported, SessionError, Tally, export_words};
use salvage::{Copied, SalvageError, SavedFile, Survey, read_words};
use std::alloc::{AllocError, Global};
use std::io::Write;
use words36::Word;

/// Where files of one kind become files of the host.
#[derive(Clone, Copy)]
struct Target<'a> {
    task: &'a ExportTask<'a>,
    /// The folder in which the folder of each directory is made.
    folder: &'a str,
    /// Whether the name of each file has the number of its prime block.
    numbered: bool,
}

/// A file that will become one of the host, at a path.
#[derive(Clone, Copy)]
struct Saving<'a> {
    task: &'a ExportTask<'a>,
    path: &'a str,
    file: &'a SavedFile,
}

/// Makes a file of the host from its bytes, or refuses it if there was no memory for them, and writes its line.
fn store_words<H: HostFiles, W: Write, E: Write>(
    host: &mut H,
    alloc: Global,
    saving: &Saving<'_>,
    exported: Result<Exported, AllocError>,
    writer: &mut W,
    errors: &mut E,
) -> Result<Tally, SessionError>
    ensures { AreWordsStored saving.now.path.now saving.now.file.now exported (H.acts host.old) (H.acts host.new)
        (W.contents writer.old) (W.contents writer.new) result }
{
    let path = saving.path;
    let changed = Some(saving.file.stored.prime.moment);
    match exported {
        Ok(exported) => store(host, alloc, path, changed, Ok(exported), writer, errors),
        Err(_) => turn_down(alloc, writer, path, "?No memory", true),
    }
}

/// Makes a file of the host from what was read, and writes its line.
fn store_read<H: HostFiles, W: Write, E: Write>(
    host: &mut H,
    alloc: Global,
    saving: &Saving<'_>,
    read: Result<Option<Vec<Word>>, SalvageError>,
    writer: &mut W,
    errors: &mut E,
) -> Result<Tally, SessionError>
    requires { IsErrOf read NotVolume → ⊥ }
    ensures { IsReadStored saving.now.task.now saving.now.path.now saving.now.file.now (words_read (λ v. v.items) read)
        (H.acts host.old) (H.acts host.new) (W.contents writer.old) (W.contents writer.new) result }
{
    let Saving { task, path, file } = *saving;
    match read {
        Ok(Some(words)) => {
            let prime = &file.stored.prime;
            let mode = prime.mode.number() as u32;
            let exported = export_words(alloc, task.encoding, mode, &words);
            store_words(host, alloc, saving, exported, writer, errors)
        }
        Ok(None) => turn_down(alloc, writer, path, "?Damaged", false),
        Err(SalvageError::Device) => turn_down(alloc, writer, path, "?Device fault", true),
        Err(SalvageError::NoMemory) => turn_down(alloc, writer, path, "?No memory", true),
        Err(SalvageError::NotVolume) => unreachable!(), // the size was checked before
    }
}

/// Reads a file and makes one of the host from it.
fn save<H: HostFiles, W: Write, E: Write, D: Disk>(
    host: &mut H,
    alloc: Global,
    saving: &Saving<'_>,
    disk: &mut D,
    writer: &mut W,
    errors: &mut E,
) -> Result<Tally, SessionError>
    requires { FitsDisk (D.state disk.old).size saving.now.file.now }
    ensures { IsSavedAt D.state saving.now.task.now saving.now.path.now saving.now.file.now (W.contents writer.old)
        (W.contents writer.new) (H.acts host.old, disk.old) (H.acts host.new, disk.new) result }
{
    let read = read_words(alloc, disk, saving.file);
    store_read(host, alloc, saving, read, writer, errors)
}

/// Returns the path of the file of the host that a file becomes.
fn saved_path(alloc: Global, target: &Target<'_>, file: &SavedFile) -> Result<String, AllocError>
    ensures { IfOk result (λ path. string_bytes path
        ≡ saved_path target.now.folder.now target.now.numbered file.now) }
{
    let folder = target.folder;
    let prime = &file.stored.prime;
    if target.numbered {
        numbered_path(alloc, folder, prime.ppn, prime.file, file.at)
    } else {
        path_of(alloc, folder, prime.ppn, prime.file)
    }
}

/// Makes the folder of a file, and then a file of the host from it, or only lists its path.
fn save_wanted<H: HostFiles, W: Write, E: Write, D: Disk>(
    host: &mut H,
    alloc: Global,
    target: &Target<'_>,
    file: &SavedFile,
    disk: &mut D,
    writer: &mut W,
    errors: &mut E,
) -> Result<Tally, SessionError>
    requires { FitsDisk (D.state disk.old).size file.now }
    ensures { IsWantedDone D.state target.now.task.now target.now.folder.now target.now.numbered file.now
        (W.contents writer.old) (W.contents writer.new) (H.acts host.old, disk.old) (H.acts host.new, disk.new) result }
{
    let task = target.task;
    let Ok(folder) = folder_of(alloc, target.folder, file.stored.prime.ppn) else {
        return Err(SessionError::NoMemory);
    };
    let Ok(path) = saved_path(alloc, target, file) else {
        return Err(SessionError::NoMemory);
    };
    let (folder, path) = (folder.as_str(), path.as_str());
    if task.lists {
        return say_path(alloc, writer, path);
    }
    if let Err(error) = host.make_folder(folder) {
        report(errors, folder, &error);
        return turn_down(alloc, writer, folder, "?Can't make folder", false);
    }
    save(
        host,
        alloc,
        &Saving { task, path, file },
        disk,
        writer,
        errors,
    )
}

/// Saves a file, if it is of a directory that is wanted.
fn save_one<H: HostFiles, W: Write, E: Write, D: Disk>(
    host: &mut H,
    alloc: Global,
    target: &Target<'_>,
    file: &SavedFile,
    disk: &mut D,
    writer: &mut W,
    errors: &mut E,
) -> Result<Tally, SessionError>
    requires { FitsDisk (D.state disk.old).size file.now }
    ensures { IsFileDone D.state target.now.task.now target.now.folder.now target.now.numbered file.now
        (W.contents writer.old) (W.contents writer.new) (H.acts host.old, disk.old) (H.acts host.new, disk.new) result }
{
    if is_wanted(target.task.owner, file.stored.prime.ppn) {
        save_wanted(host, alloc, target, file, disk, writer, errors)
    } else {
        Ok(Tally::none())
    }
}

/// Saves these files, or only lists their paths.
fn save_each<H: HostFiles, W: Write, E: Write, D: Disk>(
    host: &mut H,
    alloc: Global,
    target: &Target<'_>,
    files: &[SavedFile],
    disk: &mut D,
    writer: &mut W,
    errors: &mut E,
) -> Result<Tally, SessionError>
    requires { AllByRecursion (FitsDisk (D.state disk.old).size) files.now }
    ensures { EachDone (IsFileDone D.state target.now.task.now target.now.folder.now target.now.numbered) files.now
        none_counted (W.contents writer.old) (W.contents writer.new) (H.acts host.old, disk.old)
        (H.acts host.new, disk.new) result }
{
    let mut tally = Tally::none();
    for file in files {
        let one = save_one(host, alloc, target, file, disk, writer, errors)?;
        tally = added(tally, one);
    }
    Ok(tally)
}

/// Makes the folder for all directories, unless paths are only listed, and saves these files.
fn save_files<H: HostFiles, W: Write, E: Write, D: Disk>(
    host: &mut H,
    alloc: Global,
    target: &Target<'_>,
    files: &[SavedFile],
    disk: &mut D,
    writer: &mut W,
    errors: &mut E,
) -> Result<Tally, SessionError>
    requires { AllByRecursion (FitsDisk (D.state disk.old).size) files.now }
    ensures { AreFilesSaved D.state target.now.task.now target.now.folder.now target.now.numbered files.now
        (W.contents writer.old) (W.contents writer.new) (H.acts host.old, disk.old) (H.acts host.new, disk.new) result }
{
    let folder = target.folder;
    if target.task.lists {
        return save_each(host, alloc, target, files, disk, writer, errors);
    }
    match host.make_folder(folder) {
        Ok(()) => save_each(host, alloc, target, files, disk, writer, errors),
        Err(error) => {
            report(errors, folder, &error);
            turn_down(alloc, writer, folder, "?Can't make folder", false)
        }
    }
}

/// Saves the files with a block that may not be theirs, if there are any.
fn save_doubtful<H: HostFiles, W: Write, E: Write, D: Disk>(
    host: &mut H,
    alloc: Global,
    task: &ExportTask<'_>,
    files: &[SavedFile],
    disk: &mut D,
    writer: &mut W,
    errors: &mut E,
) -> Result<Tally, SessionError>
    requires { AllByRecursion (FitsDisk (D.state disk.old).size) files.now }
    ensures { AreApartSaved D.state task.now (doubtful_text task.now.folder.now) false files.now (W.contents writer.old)
        (W.contents writer.new) (H.acts host.old, disk.old) (H.acts host.new, disk.new) result }
{
    if files.is_empty() {
        return Ok(Tally::none());
    }
    let Ok(folder) = doubtful_folder(alloc, task.folder) else {
        return Err(SessionError::NoMemory);
    };
    let target = Target {
        task,
        folder: folder.as_str(),
        numbered: false,
    };
    save_files(host, alloc, &target, files, disk, writer, errors)
}

/// Saves the files that no directory names, if there are any.
fn save_unnamed<H: HostFiles, W: Write, E: Write, D: Disk>(
    host: &mut H,
    alloc: Global,
    task: &ExportTask<'_>,
    files: &[SavedFile],
    disk: &mut D,
    writer: &mut W,
    errors: &mut E,
) -> Result<Tally, SessionError>
    requires { AllByRecursion (FitsDisk (D.state disk.old).size) files.now }
    ensures { AreApartSaved D.state task.now (unnamed_text task.now.folder.now) true files.now (W.contents writer.old)
        (W.contents writer.new) (H.acts host.old, disk.old) (H.acts host.new, disk.new) result }
{
    if files.is_empty() {
        return Ok(Tally::none());
    }
    let Ok(folder) = unnamed_folder(alloc, task.folder) else {
        return Err(SessionError::NoMemory);
    };
    let target = Target {
        task,
        folder: folder.as_str(),
        numbered: true,
    };
    save_files(host, alloc, &target, files, disk, writer, errors)
}

/// Saves the files that no directory names, and writes the lines of the faults.
fn save_last<H: HostFiles, W: Write, E: Write, D: Disk>(
    host: &mut H,
    alloc: Global,
    task: &ExportTask<'_>,
    found: &Survey,
    disk: &mut D,
    writer: &mut W,
    errors: &mut E,
) -> Result<Tally, SessionError>
    requires { AllByRecursion (FitsDisk (D.state disk.old).size) found.now.unnamed.items }
    ensures { Then (AreApartSaved D.state task.now (unnamed_text task.now.folder.now) true found.now.unnamed.items)
        (AreFindingsDone task.now found.now.findings.items) (W.contents writer.old) (W.contents writer.new)
        (H.acts host.old, disk.old) (H.acts host.new, disk.new) result }
{
    let files = found.unnamed.as_slice();
    let saved = save_unnamed(host, alloc, task, files, disk, writer, errors)?;
    let told = report_findings(alloc, task, found.findings.as_slice(), writer)?;
    Ok(added(saved, told))
}

/// Saves the doubtful files, and then those that no directory names, and writes the lines of the faults.
fn save_apart<H: HostFiles, W: Write, E: Write, D: Disk>(
    host: &mut H,
    alloc: Global,
    task: &ExportTask<'_>,
    found: &Survey,
    disk: &mut D,
    writer: &mut W,
    errors: &mut E,
) -> Result<Tally, SessionError>
    requires fit { AllByRecursion (FitsDisk (D.state disk.old).size) found.now.doubtful.items }
    requires fit_unnamed { AllByRecursion (FitsDisk (D.state disk.old).size) found.now.unnamed.items }
    ensures { Then (AreApartSaved D.state task.now (doubtful_text task.now.folder.now) false found.now.doubtful.items)
        (Then (AreApartSaved D.state task.now (unnamed_text task.now.folder.now) true found.now.unnamed.items)
        (AreFindingsDone task.now found.now.findings.items)) (W.contents writer.old) (W.contents writer.new)
        (H.acts host.old, disk.old) (H.acts host.new, disk.new) result }
{
    let files = found.doubtful.as_slice();
    let saved = save_doubtful(host, alloc, task, files, disk, writer, errors)?;
    let others = save_last(host, alloc, task, found, disk, writer, errors)?;
    Ok(added(saved, others))
}

/// Saves the files in their place, and then the others, and writes the lines of the faults.
fn save_found<H: HostFiles, W: Write, E: Write, D: Disk>(
    host: &mut H,
    alloc: Global,
    task: &ExportTask<'_>,
    found: &Survey,
    disk: &mut D,
    writer: &mut W,
    errors: &mut E,
) -> Result<Tally, SessionError>
    requires fit { AllByRecursion (FitsDisk (D.state disk.old).size) found.now.files.items }
    requires fit_doubtful { AllByRecursion (FitsDisk (D.state disk.old).size) found.now.doubtful.items }
    requires fit_unnamed { AllByRecursion (FitsDisk (D.state disk.old).size) found.now.unnamed.items }
    ensures { Then (AreFilesSaved D.state task.now task.now.folder.now false found.now.files.items) (Then (AreApartSaved
        D.state task.now (doubtful_text task.now.folder.now) false found.now.doubtful.items) (Then (AreApartSaved
        D.state task.now (unnamed_text task.now.folder.now) true found.now.unnamed.items)
        (AreFindingsDone task.now found.now.findings.items))) (W.contents writer.old) (W.contents writer.new)
        (H.acts host.old, disk.old) (H.acts host.new, disk.new) result }
{
    let target = Target {
        task,
        folder: task.folder,
        numbered: false,
    };
    let files = found.files.as_slice();
    let saved = save_files(host, alloc, &target, files, disk, writer, errors)?;
    let others = save_apart(host, alloc, task, found, disk, writer, errors)?;
    Ok(added(saved, others))
}

/// Makes a file of the host from each file that a survey of this copy found, at a path where there is none:
/// FOLDER/10,20/FOO.TXT for a file in its place, FOLDER/doubtful/10,20/FOO.TXT for one with a block that may not be
/// its own, and FOLDER/unnamed/10,20/FOO%1234.TXT, with the number of its prime block, for one that no directory
/// names. A line is written for each file of a directory that is wanted. Faults are told kind by kind: the first 1,000
/// of a kind have a line each, with the path that what it costs would have had, and if there are more, one line says
/// how many. None of these stops the others, nor does a file for which there is no memory. A task that only lists reads
/// no file and makes none: it writes the paths. Nothing is written to the copy.
///
/// # Errors
///
/// `Write` if the writer failed, `NoMemory` if there is no memory for a name or a line: what came before was done.
pub fn save_survey<H: HostFiles, W: Write, E: Write>(
    host: &mut H,
    alloc: Global,
    task: &ExportTask<'_>,
    found: &Survey,
    copied: &mut Copied,
    writer: &mut W,
    errors: &mut E,
) -> Result<Tally, SessionError>
    requires { AllByRecursion (FitsDisk (length copied.old.disk.blocks)) found.now.files.items
        × AllByRecursion (FitsDisk (length copied.old.disk.blocks)) found.now.doubtful.items
        × AllByRecursion (FitsDisk (length copied.old.disk.blocks)) found.now.unnamed.items }
    ensures { IsSalvageRun memory_state task.now copied.old.findings.items found.now.files.items
        found.now.doubtful.items found.now.unnamed.items found.now.findings.items (W.contents writer.old)
        (W.contents writer.new) (H.acts host.old, copied.old.disk) (H.acts host.new, copied.new.disk) result }
{
    let first = report_copy(alloc, task, copied, writer)?;
    let rest = save_found(host, alloc, task, found, &mut copied.disk, writer, errors)?;
    Ok(added(first, rest))
}
