//! The command line as a `clap` value. A subcommand is a function here, and a line of `with_making`, `with_serving`,
//! `with_filing`, `with_moving`, `with_looking` or `with_converting`.
ghost use Rattle.std.specs.Prelude.{◌≡◌, IfOk, codes, false};
ghost use Rattle.clap.specs.Words.{app_of, with_subcommand};
ghost use Rattle.clap.specs.declared.builder.command.Command.TheViews.{out-Command as fields_of};
ghost use Rattle.arguments.specs.CommandLine.{calls_app, check_app, command_line, convert_app, converting};
ghost use Rattle.arguments.specs.CommandLine.{delete_app, export_app, filing, get_app, import_app, init_app};
ghost use Rattle.arguments.specs.CommandLine.{list_app, looking, making, migrate_app, moving, put_app, run_app};
ghost use Rattle.arguments.specs.CommandLine.{salvage_app, serving, versioned, wire_app};

use crate::arguments::{
    about, adapted, dated, encoded, filed, formed, fresh, gathered, laid_out, located, place,
    searched, shown, sized, tsv, unloaded, wanted, with_argument,
};
use clap::Command;
use std::alloc::{AllocError, Global};

/// The version that `--version` prints.
const VERSION: &str = "0.1.0";

/// The text below the commands in the help.
const NOTES: &str = "\
Without a command, filser serves a session on a new volume of 64 blocks in
memory, at date 0 and minute 0. The volume is gone at the end.

Options of run, calls, put, get and import:
  --date DATE  date of the files that are written: a number from 0 to 32767,
               1975-01-04 or 4-Jan-1975 [default: 0]
  --minute N   minute of that day, 0 to 1439 [default: 0]
Option of every command:
  --form N     form of IMAGE: 1 has eight bytes to a word, 2 has nine bytes to
               two words [default: 1]

Exit status, the highest that applies:
  0  everything was done
  1  a line, a call, a file or the command was refused; of wire, a record was
     no order
  2  the arguments are wrong
  3  the image was refused, or there was no memory to start
  4  a device, the input or the output failed, another process has the
     image, or memory ran out

Example:
  filser init DISK.IMG 4096
  printf 'LOGIN [10,20]\\nMAKDIR [10,20]\\n' | filser run DISK.IMG
  filser put DISK.IMG 10,20 FOO.TXT < foo.txt
  filser list DISK.IMG
  filser get DISK.IMG 10,20 FOO.TXT > foo.txt

Every run first reads all files of the image, so one run over many lines is
faster than many runs. A run locks its image, and a second run on it is
refused. The lock does not stop editors or copies, nor, on some network file
systems, other machines.";

/// The text below the arguments of `list` in its help.
const LIST_NOTES: &str = "\
With --tsv the fields of a line are PPN, name, extension, protection, mode,
date, time, words and blocks. PPN, protection and mode are octal.

Example:
  filser list DISK.IMG 10,20
  filser list --tsv DISK.IMG | cut -f 2,3,8";

/// The text below the arguments of `import` in its help.
const IMPORT_NOTES: &str = "\
Without --text, --bytes or --words a file is text if all its bytes are
characters (1 to 127), else bytes. A file gets its own name in upper case.

Example:
  filser import DISK.IMG 10,20 --dates foo.txt bar.mac";

/// The text below the arguments of `export` in its help.
const EXPORT_NOTES: &str = "\
Without --text, --bytes or --words each file comes out so that import brings
back its words, with --bytes or --words if its line says bytes or words.

Example:
  filser export DISK.IMG backup 10,20";

/// The text below the arguments of `salvage` in its help.
const SALVAGE_NOTES: &str = "\
Nothing is written to the image. A fault costs the file that is named beside
it; all others are written, as export writes them:
  FOLDER/10,20/FOO.TXT               a file in its place
  FOLDER/doubtful/10,20/FOO.TXT      one with a block that may not be its own
  FOLDER/unnamed/10,20/FOO%1234.TXT  one that no directory names, and the
                                     number of its prime block
Without --named or --all the search for files that no directory names leaves
out the blocks that the allocation table says are free.

Example:
  filser salvage DISK.IMG saved";

/// Returns a command with one more subcommand.
fn with_one<'a>(command: Command<'a>, subcommand: Command<'a>) -> Result<Command<'a>, AllocError>
    requires { (fields_of subcommand).has_globals ≡ false }
    ensures app { IfOk result (λ c. app_of c ≡ with_subcommand (app_of command.entry) (app_of subcommand.entry).top) }
{
    command.subcommand(subcommand)
}

#[tactic(auto, unfolding(crate::specs::CommandLine::init_app))]
fn init_command<'a>(alloc: Global) -> Result<Command<'a>, AllocError>
    ensures app { IfOk result (λ c. app_of c ≡ init_app) }
    ensures local { IfOk result (λ c. (fields_of c).has_globals ≡ false) }
{
    let command = about(
        Command::new(alloc, "init"),
        "Make a new image, with no directory on it",
    );
    let command = shown(command, "Example:\n  filser init DISK.IMG 4096");
    let command = with_argument(command, wanted(alloc, "IMAGE", "The image file to make"))?;
    let command = sized(alloc, command)?;
    formed(alloc, laid_out(alloc, command)?)
}

#[tactic(auto, unfolding(crate::specs::CommandLine::run_app))]
fn run_command<'a>(alloc: Global) -> Result<Command<'a>, AllocError>
    ensures app { IfOk result (λ c. app_of c ≡ run_app) }
    ensures local { IfOk result (λ c. (fields_of c).has_globals ≡ false) }
{
    let command = about(
        Command::new(alloc, "run"),
        "Serve a session: command lines from standard input",
    );
    let command = shown(
        command,
        "Example:\n  printf 'LOGIN [10,20]\\nDIRECTORY\\n' | filser run DISK.IMG",
    );
    let command = with_argument(command, wanted(alloc, "IMAGE", "The image file"))?;
    formed(alloc, dated(alloc, command)?)
}

#[tactic(auto, unfolding(crate::specs::CommandLine::calls_app))]
fn calls_command<'a>(alloc: Global) -> Result<Command<'a>, AllocError>
    ensures app { IfOk result (λ c. app_of c ≡ calls_app) }
    ensures local { IfOk result (λ c. (fields_of c).has_globals ≡ false) }
{
    let command = about(
        Command::new(alloc, "calls"),
        "Serve a call script: one monitor call on each line of standard input",
    );
    let command = shown(
        command,
        "Example:\n  printf '1 LOGIN 10,20 1000\\n1 EXA 121\\n' | filser calls DISK.IMG",
    );
    let command = with_argument(command, wanted(alloc, "IMAGE", "The image file"))?;
    formed(alloc, dated(alloc, command)?)
}

#[tactic(auto, unfolding(crate::specs::CommandLine::wire_app))]
fn wire_command<'a>(alloc: Global) -> Result<Command<'a>, AllocError>
    ensures app { IfOk result (λ c. app_of c ≡ wire_app) }
    ensures local { IfOk result (λ c. (fields_of c).has_globals ≡ false) }
{
    let command = about(
        Command::new(alloc, "wire"),
        "Serve an emulator: orders and answers as records of bytes",
    );
    let command = shown(
        command,
        "Example:\n  (printf '\\5'; head -c 15 /dev/zero) | filser wire DISK.IMG | od -t x1",
    );
    let command = with_argument(command, wanted(alloc, "IMAGE", "The image file"))?;
    formed(alloc, command)
}

#[tactic(auto, unfolding(crate::specs::CommandLine::put_app))]
fn put_command<'a>(alloc: Global) -> Result<Command<'a>, AllocError>
    ensures app { IfOk result (λ c. app_of c ≡ put_app) }
    ensures local { IfOk result (λ c. (fields_of c).has_globals ≡ false) }
{
    let command = about(
        Command::new(alloc, "put"),
        "Store standard input as a file, replacing any file of that name",
    );
    let command = shown(
        command,
        "Example:\n  filser put DISK.IMG 10,20 FOO.TXT < foo.txt",
    );
    let command = with_argument(filed(alloc, command)?, fresh(alloc))?;
    formed(alloc, dated(alloc, command)?)
}

#[tactic(auto, unfolding(crate::specs::CommandLine::get_app))]
fn get_command<'a>(alloc: Global) -> Result<Command<'a>, AllocError>
    ensures app { IfOk result (λ c. app_of c ≡ get_app) }
    ensures local { IfOk result (λ c. (fields_of c).has_globals ≡ false) }
{
    let command = about(
        Command::new(alloc, "get"),
        "Write a file to standard output",
    );
    let command = shown(
        command,
        "Example:\n  filser get DISK.IMG 10,20 FOO.TXT > foo.txt",
    );
    let command = filed(alloc, command)?;
    formed(alloc, dated(alloc, command)?)
}

#[tactic(auto, unfolding(crate::specs::CommandLine::delete_app))]
fn delete_command<'a>(alloc: Global) -> Result<Command<'a>, AllocError>
    ensures app { IfOk result (λ c. app_of c ≡ delete_app) }
    ensures local { IfOk result (λ c. (fields_of c).has_globals ≡ false) }
{
    let command = about(Command::new(alloc, "delete"), "Delete a file");
    let command = shown(command, "Example:\n  filser delete DISK.IMG 10,20 FOO.TXT");
    formed(alloc, located(alloc, command)?)
}

#[tactic(auto, unfolding(crate::specs::CommandLine::import_app))]
fn import_command<'a>(alloc: Global) -> Result<Command<'a>, AllocError>
    ensures app { IfOk result (λ c. app_of c ≡ import_app) }
    ensures local { IfOk result (λ c. (fields_of c).has_globals ≡ false) }
{
    let command = about(
        Command::new(alloc, "import"),
        "Store files of the host, each one where no file has its name",
    );
    let command = gathered(alloc, shown(command, IMPORT_NOTES))?;
    let command = adapted(alloc, encoded(alloc, command)?)?;
    formed(alloc, dated(alloc, command)?)
}

#[tactic(auto, unfolding(crate::specs::CommandLine::export_app))]
fn export_command<'a>(alloc: Global) -> Result<Command<'a>, AllocError>
    ensures app { IfOk result (λ c. app_of c ≡ export_app) }
    ensures local { IfOk result (λ c. (fields_of c).has_globals ≡ false) }
{
    let command = about(
        Command::new(alloc, "export"),
        "Write files to new files of the host",
    );
    formed(alloc, unloaded(alloc, shown(command, EXPORT_NOTES))?)
}

#[tactic(auto, unfolding(crate::specs::CommandLine::salvage_app))]
fn salvage_command<'a>(alloc: Global) -> Result<Command<'a>, AllocError>
    ensures app { IfOk result (λ c. app_of c ≡ salvage_app) }
    ensures local { IfOk result (λ c. (fields_of c).has_globals ≡ false) }
{
    let command = about(
        Command::new(alloc, "salvage"),
        "Write the files that are whole on a damaged image to new files of the host",
    );
    let command = unloaded(alloc, shown(command, SALVAGE_NOTES))?;
    formed(alloc, searched(alloc, command)?)
}

#[tactic(auto, unfolding(crate::specs::CommandLine::list_app))]
fn list_command<'a>(alloc: Global) -> Result<Command<'a>, AllocError>
    ensures app { IfOk result (λ c. app_of c ≡ list_app) }
    ensures local { IfOk result (λ c. (fields_of c).has_globals ≡ false) }
{
    let command = about(Command::new(alloc, "list"), "List one directory, or all");
    let command = shown(command, LIST_NOTES);
    let command = with_argument(command, wanted(alloc, "IMAGE", "The image file"))?;
    let command = with_argument(command, place(alloc))?;
    formed(alloc, with_argument(command, tsv(alloc))?)
}

#[tactic(auto, unfolding(crate::specs::CommandLine::check_app))]
fn check_command<'a>(alloc: Global) -> Result<Command<'a>, AllocError>
    ensures app { IfOk result (λ c. app_of c ≡ check_app) }
    ensures local { IfOk result (λ c. (fields_of c).has_globals ≡ false) }
{
    let command = about(
        Command::new(alloc, "check"),
        "Finish an interrupted change, verify the whole image, report size and free blocks",
    );
    let command = shown(command, "Example:\n  filser check DISK.IMG");
    let command = with_argument(command, wanted(alloc, "IMAGE", "The image file"))?;
    formed(alloc, command)
}

#[tactic(auto, unfolding(crate::specs::CommandLine::convert_app))]
fn convert_command<'a>(alloc: Global) -> Result<Command<'a>, AllocError>
    ensures app { IfOk result (λ c. app_of c ≡ convert_app) }
    ensures local { IfOk result (λ c. (fields_of c).has_globals ≡ false) }
{
    let command = about(
        Command::new(alloc, "convert"),
        "Copy an image to a new one in the other form",
    );
    let command = shown(
        command,
        "Example:\n  filser convert DISK.IMG SMALL.IMG --form 1",
    );
    let command = with_argument(command, wanted(alloc, "IMAGE", "The image file to copy"))?;
    let command = with_argument(command, wanted(alloc, "NEW", "The image file to make"))?;
    formed(alloc, command)
}

#[tactic(auto, unfolding(crate::specs::CommandLine::migrate_app))]
fn migrate_command<'a>(alloc: Global) -> Result<Command<'a>, AllocError>
    ensures app { IfOk result (λ c. app_of c ≡ migrate_app) }
    ensures local { IfOk result (λ c. (fields_of c).has_globals ≡ false) }
{
    let command = about(
        Command::new(alloc, "migrate"),
        "Give the volume layout 2: dates up to 32767, and quotas. Its files stay",
    );
    let command = shown(command, "Example:\n  filser migrate DISK.IMG");
    let command = with_argument(command, wanted(alloc, "IMAGE", "The image file"))?;
    formed(alloc, command)
}

/// Adds the subcommand that makes an image.
#[tactic(auto, unfolding(crate::specs::CommandLine::making))]
fn with_making<'a>(alloc: Global, command: Command<'a>) -> Result<Command<'a>, AllocError>
    ensures { IfOk result (λ c. app_of c ≡ making (app_of command.entry)) }
{
    with_one(command, init_command(alloc)?)
}

/// Adds the subcommands that serve an input on an image.
#[tactic(auto, unfolding(crate::specs::CommandLine::serving))]
fn with_serving<'a>(alloc: Global, command: Command<'a>) -> Result<Command<'a>, AllocError>
    ensures { IfOk result (λ c. app_of c ≡ serving (app_of command.entry)) }
{
    let command = with_one(command, run_command(alloc)?)?;
    let command = with_one(command, calls_command(alloc)?)?;
    with_one(command, wire_command(alloc)?)
}

/// Adds the subcommands for one file.
#[tactic(auto, unfolding(crate::specs::CommandLine::filing))]
fn with_filing<'a>(alloc: Global, command: Command<'a>) -> Result<Command<'a>, AllocError>
    ensures { IfOk result (λ c. app_of c ≡ filing (app_of command.entry)) }
{
    let command = with_one(command, put_command(alloc)?)?;
    let command = with_one(command, get_command(alloc)?)?;
    with_one(command, delete_command(alloc)?)
}

/// Adds the subcommands that take files from the host and to it.
#[tactic(auto, unfolding(crate::specs::CommandLine::moving))]
fn with_moving<'a>(alloc: Global, command: Command<'a>) -> Result<Command<'a>, AllocError>
    ensures { IfOk result (λ c. app_of c ≡ moving (app_of command.entry)) }
{
    let command = with_one(command, import_command(alloc)?)?;
    let command = with_one(command, export_command(alloc)?)?;
    with_one(command, salvage_command(alloc)?)
}

/// Adds the subcommands that change no file.
#[tactic(auto, unfolding(crate::specs::CommandLine::looking))]
fn with_looking<'a>(alloc: Global, command: Command<'a>) -> Result<Command<'a>, AllocError>
    ensures { IfOk result (λ c. app_of c ≡ looking (app_of command.entry)) }
{
    let command = with_one(command, list_command(alloc)?)?;
    with_one(command, check_command(alloc)?)
}

/// Adds the subcommands that convert and migrate.
#[tactic(auto, unfolding(crate::specs::CommandLine::converting))]
fn with_converting<'a>(alloc: Global, command: Command<'a>) -> Result<Command<'a>, AllocError>
    ensures { IfOk result (λ c. app_of c ≡ converting (app_of command.entry)) }
{
    let command = with_one(command, convert_command(alloc)?)?;
    with_one(command, migrate_command(alloc)?)
}

/// Returns a command with the program's name, version and help.
fn program<'a>(alloc: Global) -> Command<'a>
    ensures { app_of result ≡ versioned (codes "filser") }
{
    about(
        Command::new(alloc, "filser"),
        "A TOPS-10 file service on one disk image",
    )
    .after_help(NOTES)
    .version(VERSION)
}

/// Returns the whole command line: its subcommands, the arguments of each with the ranges of their numbers, and the
/// texts of its help (this project's profile).
///
/// # Errors
///
/// `AllocError` if memory ran out.
#[tactic(auto, unfolding(crate::specs::CommandLine::command_line))]
pub fn command_line<'a>(alloc: Global) -> Result<Command<'a>, AllocError>
    ensures { IfOk result (λ c. app_of c ≡ command_line) }
{
    let command = with_making(alloc, program(alloc))?;
    let command = with_serving(alloc, command)?;
    let command = with_filing(alloc, command)?;
    let command = with_moving(alloc, command)?;
    let command = with_looking(alloc, command)?;
    with_converting(alloc, command)
}
