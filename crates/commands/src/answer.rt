//! The command of a line: its calls, its text, and the tally of all lines.
ghost use Rattle.std.specs.Prelude.{◌≡◌, ◌||◌, ℕ, IfOk, Some, codes, false, true};
ghost use Rattle.spec_language.specs.Common.{line, is_broken};
ghost use Rattle.spec_language.specs.declared.command.Command.TheVariants.{Login as LoginLine};
ghost use Rattle.spec_language.specs.declared.command.Command.TheVariants.{Directory as DirectoryLine};
ghost use Rattle.commands.specs.Common.{fresh, Fits, counts, CommandDone};

use crate::change_file::{delete, protect, rename};
use crate::copy_file::copy;
use crate::list_directories::show;
use crate::make_dir::make_dir;
use crate::reason::{Reason, with_line};
use crate::service::FileService;
use crate::set_quota::limit;
use crate::text;
use crate::type_line::type_out;
use spec_language::{Command, Spec, Style};
use spec_machine::{Event, Reply};
use std::alloc::{AllocError, Global};
use words36::{Moment, Ppn};

/// The job that a session acts as.
pub const SESSION_JOB: u32 = 1;

/// The number of words of its core.
pub const CORE_WORDS: u32 = 0o10000;

/// What is counted of a session's lines.
#[derive(Clone, Copy, Debug, PartialEq, Eq)]
pub struct Tally {
    /// Whether a line was refused.
    pub refused: bool,
    /// Whether a line met a fault of the disk, or came after one.
    pub broke: bool,
    /// Which lines were refused, or why the input can't be a file.
    pub reason: Option<Reason>,
}

impl Tally {
    /// Returns a tally of no lines.
    pub fn none() -> Tally
        ensures { result ≡ fresh }
    {
        Tally {
            refused: false,
            broke: false,
            reason: None,
        }
    }

    /// Returns the tally after one more line, which has this number, by what was counted of that line alone.
    pub(crate) fn with_line(self, line: Tally, number: u64) -> Tally
        ensures refused { result.refused ≡ self.refused || line.refused }
        ensures broke { result.broke ≡ self.broke || line.broke }
        ensures reason { result.reason ≡ counts self.reason number line.refused }
    {
        let reason = if line.refused {
            with_line(self.reason, number)
        } else {
            self.reason
        };
        Tally {
            refused: self.refused || line.refused,
            broke: self.broke || line.broke,
            reason,
        }
    }
}

/// Returns whether a reply reports a fault of the disk, in this call or before.
pub fn is_broken(reply: &Reply) -> bool
    ensures { result ≡ is_broken reply.now }
{
    match reply {
        Reply::Device | Reply::Failed => true,
        Reply::Done
        | Reply::Value(_)
        | Reply::Refused(_)
        | Reply::Stopped(_)
        | Reply::NoChannel
        | Reply::AddressCheck
        | Reply::NoJob
        | Reply::NoMemory
        | Reply::DateRange => false,
    }
}

/// Counts a refused line, and returns its text.
pub fn refuse(
    alloc: Global,
    tally: &mut Tally,
    text: &str,
    broke: bool,
) -> Result<Vec<u8>, AllocError>
    ensures refused { tally.new.refused ≡ true }
    ensures broke { tally.new.broke ≡ tally.old.broke || broke }
    ensures reason { tally.new.reason ≡ tally.old.reason }
    ensures text { IfOk result (λ bytes. bytes.items ≡ line text.now) }
{
    tally.refused = true;
    tally.broke |= broke;
    text::line(alloc, text)
}

/// Refuses a line that needs a job, and returns its text.
fn refuse_not_logged_in(alloc: Global, tally: &mut Tally) -> Result<Vec<u8>, AllocError>
    ensures refused { tally.new.refused ≡ true }
    ensures broke { tally.new.broke ≡ tally.old.broke || false }
    ensures reason { tally.new.reason ≡ tally.old.reason }
    ensures text { IfOk result (λ bytes. bytes.items ≡ line (codes "?Not logged in")) }
{
    refuse(alloc, tally, "?Not logged in", false)
}

/// Answers LOGIN.
fn log_in<S: FileService>(
    alloc: Global,
    service: &mut S,
    moment: Moment,
    user: &mut Option<Ppn>,
    tally: &mut Tally,
    owner: Ppn,
) -> Result<Vec<u8>, AllocError>
    ensures { CommandDone (λ bytes. bytes.items) result S.machine service.old service.new moment user.old user.new
        tally.old tally.new (Some (LoginLine owner)) }
{
    let reply = service.event(alloc, &Event::Login(SESSION_JOB, owner, CORE_WORDS));
    match reply {
        Reply::Done => {
            *user = Some(owner);
            text::greeting(alloc, owner)
        }
        _ => refuse(alloc, tally, text::refusal(&reply), is_broken(&reply)),
    }
}

/// Answers DIRECTORY, for a job that is logged in.
fn list<S: FileService>(
    alloc: Global,
    service: &mut S,
    moment: Moment,
    me: Ppn,
    tally: &mut Tally,
    place: Option<Ppn>,
) -> Result<Vec<u8>, AllocError>
    ensures { CommandDone (λ bytes. bytes.items) result S.machine service.old service.new moment (Some me)
        (Some me) tally.old tally.new (Some (DirectoryLine place)) }
{
    show(alloc, service, tally, Style::Columns, place.unwrap_or(me))
}

/// Makes the calls of a command of a job that is logged in, and returns the bytes that it prints.
fn serve_command<S: FileService>(
    alloc: Global,
    service: &mut S,
    moment: Moment,
    me: Ppn,
    tally: &mut Tally,
    command: Command,
) -> Result<Vec<u8>, AllocError>
    requires fits { Fits (Some command) }
    requires later { (owner : ℕ) → command ≡ LoginLine owner → ⊥ }
    ensures { CommandDone (λ bytes. bytes.items) result S.machine service.old service.new moment (Some me) (Some me)
        tally.old tally.new (Some command) }
{
    match command {
        Command::Login(_) => unreachable!(), // LOGIN needs no job
        Command::Directory(place) => list(alloc, service, moment, me, tally, place),
        Command::Copy(to, from) => copy(alloc, service, moment, me, tally, to, from),
        Command::Rename(to, from) => rename(alloc, service, moment, me, tally, to, from),
        Command::Delete(spec) => delete(alloc, service, moment, me, tally, spec),
        Command::TypeOut(spec) => type_out(alloc, service, moment, me, tally, spec),
        Command::Protect(spec, protection) => {
            protect(alloc, service, moment, me, tally, spec, protection)
        }
        Command::MakeDir(owner, protection) => {
            make_dir(alloc, service, moment, me, tally, owner, protection)
        }
        Command::Quota(owner, blocks) => limit(alloc, service, moment, me, tally, owner, blocks),
    }
}

/// Makes the calls of a line that has this command, or none, and returns the bytes that it prints.
pub fn answer<S: FileService>(
    alloc: Global,
    service: &mut S,
    moment: Moment,
    user: &mut Option<Ppn>,
    tally: &mut Tally,
    meant: Option<Command>,
) -> Result<Vec<u8>, AllocError>
    requires { Fits meant }
    ensures { CommandDone (λ bytes. bytes.items) result S.machine service.old service.new moment user.old user.new
        tally.old tally.new meant }
{
    let Some(command) = meant else {
        return refuse(alloc, tally, "?Command error", false);
    };
    if let Command::Login(owner) = command {
        return log_in(alloc, service, moment, user, tally, owner);
    }
    match *user {
        Some(me) => serve_command(alloc, service, moment, me, tally, command),
        None => refuse_not_logged_in(alloc, tally),
    }
}
