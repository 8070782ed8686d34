//! The program: what its arguments ask for, and a run of it. What this layer guarantees:
//!
//! 1. The command line is a value of `clap`'s, fixed by a definition. (`arguments`)
//! 2. `request` returns Ok only with what `clap` matches: the subcommand, its texts and its numbers are a function of
//!    the words, and each number is decimal and in its range. (`asked`, `range`, `taken`)
//! 3. `Usage` is returned only if `clap` refuses the words, or they ask for help or the version, and with that kind, or
//!    for a date that names no day; `BadArgument` only if the words are accepted and make no request, and the
//!    argument that it names isn't valid. (`usage`, `bad`)
//! 4. If a run ends before a line is served, the reason is shown as the definition requires, byte by byte, and the
//!    run's status is the definition's. (`specs/Refusals.antt`)
//! 5. `work` is a whole run: it ends, uses nothing but what it is handed, and returns a status from 0 to 4. `main`
//!    takes the numbers of the standard streams that are missing, checks whether the standard error is a terminal,
//!    hands `work` the streams and the host's files, drops what is left of the images, and does nothing else, except
//!    that it reports why there are no arguments or no numbers.
//! 6. Files are reached through `Host` alone: generic code can't truncate one, write to one except through its disk, or
//!    remove one that it didn't make. A call of the host can be shown only by making it. (`HostFacts`) A run can open
//!    one file and make one, and hands back the leave that it didn't use. (`Leaves`) Other files are read and made by a
//!    permit that records each call. Only a run that moves files between an image and the host makes such calls: an
//!    import reads each file that it names once, an export and a salvage make the files that have lines, in the order
//!    of the lines, and nothing else is done. (`FilesPermit`, `IsRequestRun`)
//! 7. The file of an image was opened at its path, doesn't have the number of a standard stream, and is locked.
//!    (`IsOpened`) That it may be written is required only if the request can change a file. (`access_of`) The disk
//!    that is served has been that file's since before its first call. (`IsOnImage`)
//! 8. Every task on an image is done by one function, `serve`: it starts a service on the disk, or reports why there is
//!    none, and hands the disk back. (`IsTaskRun`) Only a check reads a disk that was refused, and it writes nothing to
//!    it. (`IsGivenBack`) A new image has the requested layout. (`IsEmptyVolume`) A migration changes the home copies
//!    alone, besides gate and log, and its line is printed only if the volume has layout 2. (`IsMigrationRun`)
//! 9. A refusal has its cause (`IsDenied`, `IsDeniedCut`, `IsNotMade`), and its line is printed whole, or a beginning
//!    of it if the writer fails. (`IsExplained`, `IsLine`)
//! 10. A run hands back the images that it worked on, so that its contract states what became of them. (`WasRun`)
//! 11. Words that make no request print nothing into a file that one of them names. (`SparesNamed`) A request prints
//!    nothing into an image that it names, or into a file to import. (`IsHandled`) Nothing that a run reports lands in
//!    one of these, or in a file that one of its words names if they make no request. (`AreReportsSpared`)
//!
//! What an image stands for, and what a line does, is not known here.
#![tactic(auto)]

mod convert;
mod disks;
mod error;
mod escaped;
mod export_image;
mod fault;
mod free_streams;
mod host;
mod identity;
mod image;
mod import_image;
mod led_image;
mod lines;
mod losses;
mod message;
mod migrate_image;
mod outcome;
mod output;
mod parse_request;
mod program;
mod progress;
mod reasons;
mod refusal;
mod request;
mod salvage_image;
mod seen;
mod serve_image;
mod status;
mod streams;
mod system_files;
mod task;

pub use collection::{ExportTask, ImportTask};
pub use disks::Disks;
pub use error::{RequestError, WrongArgument};
pub use escaped::Escaped;
pub use fault::{HostFault, ImageFault};
pub use host::{
    Access, FilesPermit, FillingLeave, Host, MakingLeave, NewFile, OpeningLeave, RemovalRight,
    SystemHost,
};
pub use identity::FileId;
pub use lines::LineReader;
pub use message::Message;
pub use outcome::{Leaves, Run};
pub use output::{OutputFault, OutputWriter};
pub use parse_request::request;
pub use program::work;
pub use progress::Telling;
pub use refusal::Refusal;
pub use request::Request;
pub use seen::{Image, ImageDisks, NewDisks, Seen};
pub use status::Status;
use std::env::{self, FillError};
use std::fmt::Display;
use std::io::{self, ErrorKind, IsTerminal};
use std::process::ExitCode;
use std::rt::Env;
use streams::is_at_errors;
pub use streams::{MissingStreams, Streams};
pub use task::{NamedFile, SalvageTask, Task};

/// How many bytes the path of a file has at most, with its end.
const PATH_BYTES: usize = 4096;

/// Runs the program on its arguments and the standard streams. The numbers of missing streams are taken before anything
/// else is opened.
fn main(rt: HostRuntime) -> ExitCode {
    let code = match MissingStreams::hold(&rt) {
        Ok(missing) => match run(&rt, &missing) {
            Ok(code) => code,
            Err(error) => report_unread(&rt, &error),
        },
        Err(error) => {
            report(&rt, &format_args!("filser: /: {error}"));
            Status::Fault.code()
        }
    };
    ExitCode::from(code)
}

/// Reports why the arguments couldn't be read, and returns the status of a run without arguments.
fn report_unread(rt: &HostRuntime, error: &io::Error) -> u8 {
    if error.kind() == ErrorKind::OutOfMemory {
        report(rt, &"filser: out of memory");
        Status::Fault.code()
    } else {
        report(rt, &"?Bad argument\nfilser: an argument isn't UTF-8");
        Status::BadArguments.code()
    }
}

/// Reports why there is no run, unless that would land in a file that an argument names.
fn report<T: Display>(rt: &HostRuntime, what: &T) {
    if !leads_to_argument(rt) {
        let _ = eprintln!(rt; "{what}");
    }
}

/// Returns whether the standard error leads to a file that an argument names. The arguments are read one by one, into a
/// buffer that has room for any path, since there may be no memory for them.
fn leads_to_argument(rt: &HostRuntime) -> bool {
    let (host, _) = SystemHost::new(rt);
    let mut bytes = [0; PATH_BYTES];
    for place in 1..usize::MAX {
        match rt.arg(place, &mut bytes) {
            Ok(count) if names_errors(&host, &bytes[..count]) => return true,
            Ok(_) | Err(FillError::TooLong) => {}
            Err(FillError::NotPresent) => return false,
        }
    }
    false
}

/// Returns whether the standard error leads to the file that an argument of these bytes names. An argument that isn't
/// text names no file.
fn names_errors<H: Host>(host: &H, argument: &[u8]) -> bool {
    str::from_utf8(argument).is_ok_and(|path| is_at_errors(host, path))
}

/// Does a run and returns its status, or why there are no arguments: one isn't text, or memory ran out.
fn run(rt: &HostRuntime, missing: &MissingStreams) -> io::Result<u8> {
    let alloc = rt.alloc();
    let words: Vec<String> = env::args(rt)?.collect(alloc)?;
    let texts: Vec<&str> = words.iter().map(|word| word.as_str()).collect(alloc)?;
    let errors = rt.stderr();
    let telling = if errors.is_terminal() {
        Telling::Progress
    } else {
        Telling::Silent
    };
    let (host, leaves) = SystemHost::new(rt);
    let mut streams = Streams {
        reader: LineReader::new(rt.reader()),
        writer: OutputWriter::new(rt.stdout()),
        errors,
    };
    let texts = texts.as_slice();
    let run = work(&host, alloc, texts, missing, telling, leaves, &mut streams);
    Ok(run.code)
}
