//! The lines of a session and of a call script, and the texts that answer them. What the layer promises:
//!
//! 1. The lines of an input are those of the definition, in whatever pieces the reader returns it. (`PartialLine`,
//!    `Session`)
//! 2. `command_of` returns a command exactly if a text spells one, and none exactly if it spells none: LOGIN,
//!    DIRECTORY, COPY, RENAME, DELETE, TYPE, PROTECT, MAKDIR and QUOTA. A line has one command, or none.
//!    (`lines_have_one_meaning`)
//! 3. The greeting, the text of a refusal and the list of a directory, in columns and as a table, are the definition's,
//!    byte by byte.
//! 4. `session` reads to the end of the input, makes the calls of each line, each by the replies so far, and writes
//!    what they print: at Ok the writer got the text of all that the reader had, the service went by these calls and
//!    a RESET of job 1 that prints nothing, and the tally is that of the lines, with the numbers of those that were
//!    refused. (`ends`, `goes`, `served`, `IsNumberedTranscript`) COPY and TYPE move a whole body by INs and OUTs until
//!    an IN reports its end, and a refused line leaves nothing of it. (`Plan`, `FollowsPlan`) At the moment before the
//!    first call and after each, all that a crash may leave stands for the files after the calls so far; from one
//!    moment to the next a crash leaves these, or those after one call more. (`ActsBy`) On every disk the failure count
//!    rises by one for each call that is answered Device, and for nothing else. (`CountsFailures`)
//! 5. The text is a function of the lines, the state and the moment, if no call met a lack of memory or a fault of the
//!    disk. (`served_texts_are_functions`)
//! 6. The texts of all lines that end in one read are written before the next read, by one call if they are short. If
//!    the session breaks off, the writer has a beginning of the text. At `Read` it has all of it for the lines that had
//!    ended, and the bytes after them are not answered. At `NoMemory` it lacks the text of the last line that was
//!    answered, and no other. At `Write` it may lack the texts of several lines, whose calls were made. (`CutShort`,
//!    `Unfinished`, `CutOff`)
//! 7. The statements about calls hold over any service of files, as far as it keeps its promises; those about bytes
//!    hold for readers and writers that report theirs. A service may put or show words of a block at once, in place of
//!    the calls for each of them. (`AreShown`, `HasDone`)
//! 8. `parse_event` returns an event exactly if a text is a line of a call script, and none exactly if it isn't one; a
//!    line has one reading. `reply_line` writes the line of a reply. (`orders_have_one_reading`)
//! 9. `script` reads to the end of the input, serves the event of each line, and writes the line of its reply. The
//!    statements about a session hold for it too, but no job is reset. (`Script`)
//! 10. A start over what a crash left during a session or a script, or during later starts that were stopped
//!    themselves, finds the files after some of its acts, or after these and the one that was running.
//!    (`start_after_acts`)
//! 11. `put` reads and tests all of its input before its first call, and `get`, `delete` and `list` write nothing
//!    before their last one. Each carries out a plan by calls of job 1, which logs in for it, and writes the plan's
//!    text; what a crash leaves is stated as for a session. (`Delivery`, `Errand`, `Survey`) `list` of all directories
//!    reports that the service has stopped only if it has failed. (`AreAsked`) `check` writes how many blocks a volume
//!    has, and how many are left. (`Checked`) If the input of `put` can't be a file, the tally has the first byte or
//!    word that doesn't fit, or how much a file holds. (`IsMisfit`) Reading stops early only at bytes with which no
//!    file begins, or at more than one holds. (`BeginsNoFile`, `IsTooLong`, `long_inputs_fit_no_file`)
//! 12. A `put` that doesn't replace looks the name up first, and continues only if there is no such file.
//!    (`put_plan_new`) `import` does this for bytes in memory, and writes its answer after a label. (`Imported`)
//!    `entries` returns the files of a directory as they are listed for job 1. (`HasEntries`) `export` returns the
//!    bytes of a file. If no encoding is given, it takes the first of the file's mode in which any bytes spell its
//!    words, and a file that is made of these bytes has the very words. (`HasExported`, `exports_come_back`) They are
//!    those of the file that was found. (`errands_reach_files`)
#![tactic(auto)]

mod answer;
mod ask_events;
mod change_file;
mod conclude;
mod copy_file;
mod dates;
mod entry;
mod error;
mod existing;
mod export_file;
mod fields;
mod file_spec;
mod grammar;
mod import_file;
mod input;
mod input_words;
mod language;
mod laws;
mod list_directories;
mod make_dir;
mod names;
mod output_buffer;
mod parse_event;
mod put_file;
mod read_body;
mod reason;
mod requests;
mod restart;
mod ring_requests;
mod run;
mod run_event;
mod service;
mod set_quota;
mod stream;
mod text;
mod transfer;
mod tsv;
mod type_line;

pub use answer::{Tally, is_broken};
pub use dates::date_named;
pub use entry::{
    check, delete, entries, export, get, import, list, make_directory, put, script, session,
};
pub use error::SessionError;
pub use existing::Existing;
pub use export_file::{Export, Exported, export_words};
pub use import_file::Import;
pub use input_words::{encoding_of, most_bytes};
pub use laws::{
    errands_reach_files, exports_come_back, lines_have_one_meaning, long_inputs_fit_no_file,
    orders_have_one_reading, served_texts_are_functions,
};
pub use monitor::{CoreArea, Monitor, StartError};
pub use names::{file_named, owner_named};
pub use put_file::PutFile;
pub use reason::{Misfit, Reason, RefusedLines};
pub use restart::start_after_acts;
pub use service::FileService;
pub use spec_language::{Encoding, Style};
pub use stream::write_text;
pub use text::{extension_text, refusal};
pub use tsv::trimmed;
pub use volume::Volume;
