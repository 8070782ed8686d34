//! The arguments of subcommands, as `clap` values, and the texts of their help.
ghost use Rattle.std.specs.Prelude.{◌≡◌, IfOk, Some, codes, false};
ghost use Rattle.clap.specs.Words.{app_of, new_rule, rule_of, with_rule};
ghost use Rattle.clap.specs.declared.builder.command.Command.TheViews.{out-Command as fields_of};
ghost use Rattle.arguments.specs.CommandLine.{adapted, date_rule, dated, encoded, filed, flag, form_rule, formed};
ghost use Rattle.arguments.specs.CommandLine.{gathered, laid_out, layout_rule, located, numbered, optional};
ghost use Rattle.arguments.specs.CommandLine.{scattered, searched, several, sized, unloaded, wanted};

use clap::{Arg, ArgAction, Command};
use std::alloc::{AllocError, Global};

/// Returns a required argument.
pub(crate) fn wanted<'a>(alloc: Global, id: &'a str, help: &'a str) -> Arg<'a>
    ensures rule { rule_of result ≡ wanted id.entry.now }
    ensures local { result.global ≡ false }
    ensures help { result.help ≡ Some help.entry }
{
    Arg::new(alloc, id).required(true).help(help)
}

/// Returns the argument for the size of a new image.
fn blocks<'a>(alloc: Global) -> Arg<'a>
    ensures rule { rule_of result ≡ numbered (codes "BLOCKS") 64 131072 }
    ensures local { result.global ≡ false }
{
    Arg::new(alloc, "BLOCKS")
        .required(true)
        .help("Size of the volume in blocks of 128 words, 64 to 131072")
        .value_parser(clap::value_parser!(u32).range(64..=131072))
}

/// Returns the argument for the date, as a number or as the text of a day.
fn date<'a>(alloc: Global) -> Arg<'a>
    ensures rule { rule_of result ≡ date_rule }
    ensures local { result.global ≡ false }
{
    Arg::new(alloc, "date")
        .long("date")
        .value_name("DATE")
        .help("Date of the files that are written: 0 to 32767, 1975-01-04 or 4-Jan-1975")
        .default_value("0")
}

fn minute<'a>(alloc: Global) -> Arg<'a>
    ensures rule { rule_of result ≡ optional (codes "minute") 1439 }
    ensures local { result.global ≡ false }
{
    Arg::new(alloc, "minute")
        .long("minute")
        .value_name("N")
        .help("Minute of that day, 0 to 1439")
        .default_value("0")
        .value_parser(clap::value_parser!(u32).range(0..=1439))
}

/// Returns a command with one more argument.
pub(crate) fn with_argument<'a>(
    command: Command<'a>,
    argument: Arg<'a>,
) -> Result<Command<'a>, AllocError>
    requires { argument.global ≡ false }
    ensures app { IfOk result (λ c. app_of c ≡ with_rule (app_of command.entry) (rule_of argument.entry)) }
    ensures local { IfOk result (λ c. (fields_of c).has_globals ≡ (fields_of command.entry).has_globals) }
{
    command.arg(argument)
}

/// Returns a command with this sentence about what it does.
pub(crate) fn about<'a>(command: Command<'a>, text: &'a str) -> Command<'a>
    ensures app { app_of result ≡ app_of command.entry }
    ensures local { (fields_of result).has_globals ≡ (fields_of command.entry).has_globals }
    ensures text { (fields_of result).about ≡ Some text.entry }
{
    command.about(text)
}

/// Returns a command with the date and the minute of the files that it writes.
#[tactic(auto, unfolding(crate::specs::CommandLine::dated))]
pub(crate) fn dated<'a>(alloc: Global, command: Command<'a>) -> Result<Command<'a>, AllocError>
    ensures app { IfOk result (λ c. app_of c ≡ dated (app_of command.entry)) }
    ensures local { IfOk result (λ c. (fields_of c).has_globals ≡ (fields_of command.entry).has_globals) }
{
    let command = with_argument(command, date(alloc))?;
    with_argument(command, minute(alloc))
}

/// Returns a command with the size of a new image.
#[tactic(auto, unfolding(crate::specs::CommandLine::sized))]
pub(crate) fn sized<'a>(alloc: Global, command: Command<'a>) -> Result<Command<'a>, AllocError>
    ensures app { IfOk result (λ c. app_of c ≡ sized (app_of command.entry)) }
    ensures local { IfOk result (λ c. (fields_of c).has_globals ≡ (fields_of command.entry).has_globals) }
{
    with_argument(command, blocks(alloc))
}

/// Returns the argument for the form of an image.
fn form<'a>(alloc: Global) -> Arg<'a>
    ensures rule { rule_of result ≡ form_rule }
    ensures local { result.global ≡ false }
{
    Arg::new(alloc, "form")
        .long("form")
        .value_name("N")
        .help("Form of IMAGE: 1 has eight bytes to a word, 2 has nine bytes to two words")
        .default_value("1")
        .value_parser(clap::value_parser!(u32).range(1..=2))
}

/// Returns a command with the form of its image.
#[tactic(auto, unfolding(crate::specs::CommandLine::formed))]
pub(crate) fn formed<'a>(alloc: Global, command: Command<'a>) -> Result<Command<'a>, AllocError>
    ensures app { IfOk result (λ c. app_of c ≡ formed (app_of command.entry)) }
    ensures local { IfOk result (λ c. (fields_of c).has_globals ≡ (fields_of command.entry).has_globals) }
{
    with_argument(command, form(alloc))
}

/// Returns the argument for the layout of a new volume.
fn layout<'a>(alloc: Global) -> Arg<'a>
    ensures rule { rule_of result ≡ layout_rule }
    ensures local { result.global ≡ false }
{
    Arg::new(alloc, "layout")
        .long("layout")
        .value_name("N")
        .help("Layout of the volume: 1, or 2 with dates up to 32767 and quotas")
        .default_value("1")
        .value_parser(clap::value_parser!(u32).range(1..=2))
}

/// Returns a command with the layout of a new volume.
#[tactic(auto, unfolding(crate::specs::CommandLine::laid_out))]
pub(crate) fn laid_out<'a>(alloc: Global, command: Command<'a>) -> Result<Command<'a>, AllocError>
    ensures app { IfOk result (λ c. app_of c ≡ laid_out (app_of command.entry)) }
    ensures local { IfOk result (λ c. (fields_of c).has_globals ≡ (fields_of command.entry).has_globals) }
{
    with_argument(command, layout(alloc))
}

/// Returns a command with this text below its help.
pub(crate) fn shown<'a>(command: Command<'a>, example: &'a str) -> Command<'a>
    ensures app { app_of result ≡ app_of command.entry }
    ensures local { (fields_of result).has_globals ≡ (fields_of command.entry).has_globals }
    ensures about { (fields_of result).about ≡ (fields_of command.entry).about }
    ensures text { (fields_of result).after_help ≡ Some example.entry }
{
    command.after_help(example)
}

/// Returns the flag that bytes are words.
fn words<'a>(alloc: Global) -> Arg<'a>
    ensures rule { rule_of result ≡ flag (codes "words") }
    ensures local { result.global ≡ false }
{
    Arg::new(alloc, "words")
        .long("words")
        .action(ArgAction::SetTrue)
        .help("Read or write words, not text: eight bytes each, most significant first")
}

/// Returns the flag that bytes have eight bits.
fn octets<'a>(alloc: Global) -> Arg<'a>
    ensures rule { rule_of result ≡ flag (codes "bytes") }
    ensures local { result.global ≡ false }
{
    Arg::new(alloc, "bytes")
        .long("bytes")
        .action(ArgAction::SetTrue)
        .help("Read or write bytes of eight bits, not text: four to a word")
}

/// Returns a command with the arguments for one file of a directory.
#[tactic(auto, unfolding(crate::specs::CommandLine::located))]
pub(crate) fn located<'a>(alloc: Global, command: Command<'a>) -> Result<Command<'a>, AllocError>
    ensures app { IfOk result (λ c. app_of c ≡ located (app_of command.entry)) }
    ensures local { IfOk result (λ c. (fields_of c).has_globals ≡ (fields_of command.entry).has_globals) }
{
    let command = with_argument(command, wanted(alloc, "IMAGE", "The image file"))?;
    let owner = wanted(alloc, "PPN", "The directory, in octal, as 10,20 or [10,20]");
    let command = with_argument(command, owner)?;
    with_argument(command, wanted(alloc, "NAME", "The file, as FOO.TXT"))
}

/// Returns a command with the arguments for the bytes of one file.
#[tactic(auto, unfolding(crate::specs::CommandLine::filed))]
pub(crate) fn filed<'a>(alloc: Global, command: Command<'a>) -> Result<Command<'a>, AllocError>
    ensures app { IfOk result (λ c. app_of c ≡ filed (app_of command.entry)) }
    ensures local { IfOk result (λ c. (fields_of c).has_globals ≡ (fields_of command.entry).has_globals) }
{
    let command = with_argument(located(alloc, command)?, words(alloc))?;
    with_argument(command, octets(alloc))
}

/// Returns the flag that bytes are characters.
fn characters<'a>(alloc: Global) -> Arg<'a>
    ensures rule { rule_of result ≡ flag (codes "text") }
    ensures local { result.global ≡ false }
{
    Arg::new(alloc, "text")
        .long("text")
        .action(ArgAction::SetTrue)
        .help("Read or write text: characters 1 to 127, five to a word")
}

/// Returns a command with the flags for what the bytes of files are.
#[tactic(auto, unfolding(crate::specs::CommandLine::encoded))]
pub(crate) fn encoded<'a>(alloc: Global, command: Command<'a>) -> Result<Command<'a>, AllocError>
    ensures app { IfOk result (λ c. app_of c ≡ encoded (app_of command.entry)) }
    ensures local { IfOk result (λ c. (fields_of c).has_globals ≡ (fields_of command.entry).has_globals) }
{
    let command = with_argument(command, characters(alloc))?;
    let command = with_argument(command, octets(alloc))?;
    with_argument(command, words(alloc))
}

/// Returns the argument for the files of the host, one or more.
fn files<'a>(alloc: Global) -> Arg<'a>
    ensures rule { rule_of result ≡ several (codes "FILE") }
    ensures local { result.global ≡ false }
{
    Arg::new(alloc, "FILE")
        .required(true)
        .num_args(1usize..)
        .help("The files of the host")
}

/// Returns a command with the arguments for files of the host that go to a directory.
#[tactic(auto, unfolding(crate::specs::CommandLine::gathered))]
pub(crate) fn gathered<'a>(alloc: Global, command: Command<'a>) -> Result<Command<'a>, AllocError>
    ensures app { IfOk result (λ c. app_of c ≡ gathered (app_of command.entry)) }
    ensures local { IfOk result (λ c. (fields_of c).has_globals ≡ (fields_of command.entry).has_globals) }
{
    let command = with_argument(command, wanted(alloc, "IMAGE", "The image file"))?;
    let owner = wanted(alloc, "PPN", "The directory, in octal, as 10,20 or [10,20]");
    let command = with_argument(command, owner)?;
    with_argument(command, files(alloc))
}

/// Returns the flag that names may be cut.
fn shorten<'a>(alloc: Global) -> Arg<'a>
    ensures rule { rule_of result ≡ flag (codes "shorten") }
    ensures local { result.global ≡ false }
{
    Arg::new(alloc, "shorten")
        .long("shorten")
        .action(ArgAction::SetTrue)
        .help("Cut a name to six letters or digits, and an extension to three")
}

/// Returns the flag that each file keeps its date.
fn dates<'a>(alloc: Global) -> Arg<'a>
    ensures rule { rule_of result ≡ flag (codes "dates") }
    ensures local { result.global ≡ false }
{
    Arg::new(alloc, "dates")
        .long("dates")
        .action(ArgAction::SetTrue)
        .help("Give each file the date and time (UTC) of its last change")
}

/// Returns a command with the flags for the names and the dates of files of the host.
#[tactic(auto, unfolding(crate::specs::CommandLine::adapted))]
pub(crate) fn adapted<'a>(alloc: Global, command: Command<'a>) -> Result<Command<'a>, AllocError>
    ensures app { IfOk result (λ c. app_of c ≡ adapted (app_of command.entry)) }
    ensures local { IfOk result (λ c. (fields_of c).has_globals ≡ (fields_of command.entry).has_globals) }
{
    let command = with_argument(command, shorten(alloc))?;
    with_argument(command, dates(alloc))
}

/// Returns a command with the arguments for files of an image that it writes to a folder of the host.
#[tactic(auto, unfolding(crate::specs::CommandLine::scattered))]
fn scattered<'a>(alloc: Global, command: Command<'a>) -> Result<Command<'a>, AllocError>
    ensures app { IfOk result (λ c. app_of c ≡ scattered (app_of command.entry)) }
    ensures local { IfOk result (λ c. (fields_of c).has_globals ≡ (fields_of command.entry).has_globals) }
{
    let command = with_argument(command, wanted(alloc, "IMAGE", "The image file"))?;
    let folder = wanted(
        alloc,
        "FOLDER",
        "The folder of the host, for FOLDER/10,20/FOO.TXT",
    );
    with_argument(command, folder)
}

/// Returns a command with the arguments for files of an image that it writes to a folder of the host: of which
/// directory, what their bytes are, and whether they are only listed.
#[tactic(auto, unfolding(crate::specs::CommandLine::unloaded))]
pub(crate) fn unloaded<'a>(alloc: Global, command: Command<'a>) -> Result<Command<'a>, AllocError>
    ensures app { IfOk result (λ c. app_of c ≡ unloaded (app_of command.entry)) }
    ensures local { IfOk result (λ c. (fields_of c).has_globals ≡ (fields_of command.entry).has_globals) }
{
    let command = with_argument(scattered(alloc, command)?, place(alloc))?;
    with_argument(encoded(alloc, command)?, listed(alloc))
}

/// Returns the flag that files are only listed.
fn listed<'a>(alloc: Global) -> Arg<'a>
    ensures rule { rule_of result ≡ flag (codes "list") }
    ensures local { result.global ≡ false }
{
    Arg::new(alloc, "list")
        .long("list")
        .action(ArgAction::SetTrue)
        .help("Print what would be done, and write nothing")
}

/// Returns the flag that files without a name in a directory are left out.
fn named<'a>(alloc: Global) -> Arg<'a>
    ensures rule { rule_of result ≡ flag (codes "named") }
    ensures local { result.global ≡ false }
{
    Arg::new(alloc, "named")
        .long("named")
        .action(ArgAction::SetTrue)
        .help("Leave out files that no directory names")
}

/// Returns the flag that free blocks are searched too.
fn all<'a>(alloc: Global) -> Arg<'a>
    ensures rule { rule_of result ≡ flag (codes "all") }
    ensures local { result.global ≡ false }
{
    Arg::new(alloc, "all")
        .long("all")
        .action(ArgAction::SetTrue)
        .help("Search free blocks too: deleted files are found")
}

/// Returns a command with the flags for the blocks that are searched for files that no directory names.
#[tactic(auto, unfolding(crate::specs::CommandLine::searched))]
pub(crate) fn searched<'a>(alloc: Global, command: Command<'a>) -> Result<Command<'a>, AllocError>
    ensures app { IfOk result (λ c. app_of c ≡ searched (app_of command.entry)) }
    ensures local { IfOk result (λ c. (fields_of c).has_globals ≡ (fields_of command.entry).has_globals) }
{
    let command = with_argument(command, named(alloc))?;
    with_argument(command, all(alloc))
}

/// Returns the flag that an existing file stays.
pub(crate) fn fresh<'a>(alloc: Global) -> Arg<'a>
    ensures rule { rule_of result ≡ flag (codes "new") }
    ensures local { result.global ≡ false }
{
    Arg::new(alloc, "new")
        .long("new")
        .action(ArgAction::SetTrue)
        .help("Refuse if a file has that name, and replace nothing")
}

/// Returns the flag that lists are tables.
pub(crate) fn tsv<'a>(alloc: Global) -> Arg<'a>
    ensures rule { rule_of result ≡ flag (codes "tsv") }
    ensures local { result.global ≡ false }
{
    Arg::new(alloc, "tsv")
        .long("tsv")
        .action(ArgAction::SetTrue)
        .help("One line for each file, with tabs between its fields, and no totals")
}

/// Returns the argument for a directory, which may be left out.
pub(crate) fn place<'a>(alloc: Global) -> Arg<'a>
    ensures rule { rule_of result ≡ new_rule (codes "PPN") }
    ensures local { result.global ≡ false }
{
    Arg::new(alloc, "PPN").help("The directory, in octal, as 10,20 or [10,20] [default: all]")
}
