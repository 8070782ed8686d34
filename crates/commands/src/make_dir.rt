//! The command MAKDIR, and the making of a directory without a line.
ghost use Rattle.std.specs.Prelude.{◌<◌, Some};
ghost use Rattle.spec_language.specs.Common.{login_events, Plan, make_dir_events, each};
ghost use Rattle.spec_language.specs.declared.command.Command.TheVariants.{MakeDir as MakeLine};
ghost use Rattle.commands.specs.Common.{FollowsPlan, followed, CommandDone};

use crate::answer::Tally;
use crate::ask_events::ask_all;
use crate::conclude::conclude;
use crate::put_file::enter;
use crate::requests::make_dir_events;
use crate::service::FileService;
use spec_machine::Reply;
use std::alloc::{AllocError, Global};
use words36::{Moment, Ppn};

/// Answers MAKDIR, for a job that is logged in.
pub fn make_dir<S: FileService>(
    alloc: Global,
    service: &mut S,
    moment: Moment,
    me: Ppn,
    tally: &mut Tally,
    owner: Ppn,
    protection: u32,
) -> Result<Vec<u8>, AllocError>
    requires { protection < 512 }
    ensures { CommandDone (λ bytes. bytes.items) result S.machine service.old service.new moment (Some me)
        (Some me) tally.old tally.new (Some (MakeLine owner protection)) }
{
    let made = ask_all(alloc, service, &make_dir_events(moment, owner, protection));
    conclude(alloc, service, moment, tally, made)
}

/// Logs in as an owner, and makes the owner's directory, with protection 775. The error is the reply to the first event
/// that isn't done.
pub fn make_own<S: FileService>(
    alloc: Global,
    service: &mut S,
    moment: Moment,
    owner: Ppn,
) -> Result<(), Reply>
    ensures { (next : Plan) → FollowsPlan S.machine service.old service.new
        (each moment (login_events owner) (each moment (make_dir_events moment owner 0) next))
        (followed moment result (λ unit. next)) }
{
    enter(alloc, service, owner)?;
    ask_all(alloc, service, &make_dir_events(moment, owner, 0))
}
