//! Whole collections of files in and out of a volume: files of the host are put, and files of a volume become files of
//! the host. What the layer promises:
//!
//! 1. `name_for` returns the name of a file exactly if its path gives one: its own name in upper case or, if shorter
//!    names are allowed and its own is no name, a shorter one. (`IsNameFor`)
//! 2. `moment_of` returns the date and the minute that the calendar shows at a second in UTC, and none exactly if no
//!    file can have the date. `second_of` returns a second of the given minute, and none exactly if the calendar has no
//!    such day. (`IsAtSecond`)
//! 3. `import_files` takes the files in the order in which they are given: each has one line, and is either put as a
//!    file of its name that didn't exist, or refused for the cause that its line states. The directory is made, if it
//!    isn't there, before a file is put. A file without a name, or one that the host doesn't give, makes no call, and
//!    the files after it are done. A fault of the writer and a lack of memory end the run. The host reads each file
//!    that has a name once, and does nothing else. (`IsImportRun`)
//! 4. `export_files` takes the directories and their files in the order of the volume. Each file has one line: what the
//!    host stored at its path are the bytes of the file, with the moment that the volume has for it. If paths are only
//!    to be listed, no call is made for a file. The host makes the folders and these files in the order of their lines,
//!    and does nothing else. (`IsExportRun`)
//! 5. Both work by calls of job 1: what a crash leaves is stated as for a session, and the failure count rises by one
//!    for each call that is answered Device, and for nothing else. (`Goes`)
//! 6. `save_survey` takes the files that a survey of a disk found, in their order: those in their place, the doubtful
//!    ones, and those that no directory names, in a folder for each kind; and then its faults. Each file has one line:
//!    what the host stored at its path are bytes that spell its words, with the moment when it was written. Faults are
//!    told kind by kind: the first 1,000 of a kind have a line each, with the path of what it costs, and one line says
//!    how many more there are. A file for which there is no memory is refused, and ends nothing. (`IsSalvageRun`)
//! 7. The statements about the host hold for any host that puts each of its calls on record. (`HostFiles`) No clause is
//!    about lines for people, by which nothing is decided.
#![tactic(auto)]

mod clock;
mod exports;
mod faults;
mod file_record;
mod host_files;
mod host_names;
mod imports;
mod lines;
mod paths;
mod report;
mod save_files;
mod source;
mod task;

pub use clock::{moment_of, second_of};
pub use exports::export_files;
pub use file_record::{ActMade, FileRecord};
pub use host_files::HostFiles;
pub use host_names::{Named, name_for};
pub use imports::import_files;
pub use save_files::save_survey;
pub use source::Source;
pub use task::{ExportTask, ImportTask};
