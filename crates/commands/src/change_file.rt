//! The commands RENAME, DELETE and PROTECT.
ghost use Rattle.std.specs.Prelude.{◌<◌, ◌++◌, Some};
ghost use Rattle.spec_language.specs.Common.{Plan, delete_events, each, lookup_events};
ghost use Rattle.spec_language.specs.declared.command.Command.TheVariants.{Rename as RenameLine};
ghost use Rattle.spec_language.specs.declared.command.Command.TheVariants.{Delete as DeleteLine};
ghost use Rattle.spec_language.specs.declared.command.Command.TheVariants.{Protect as ProtectLine};
ghost use Rattle.commands.specs.Common.{FollowsPlan, followed, CommandDone};

use crate::answer::Tally;
use crate::ask_events::ask_all;
use crate::conclude::conclude;
use crate::requests::{delete_events, lookup_events, protect_events, rename_events};
use crate::service::FileService;
use spec_language::Spec;
use spec_machine::{Event, Reply};
use std::alloc::{AllocError, Global};
use words36::{Moment, Ppn};

/// Looks a file up, and then serves the events that change it.
fn change<S: FileService>(
    alloc: Global,
    service: &mut S,
    moment: Moment,
    spec: Spec,
    changes: &[Event],
) -> Result<(), Reply>
    ensures { (next : Plan) → FollowsPlan S.machine service.old service.new
        (each moment (lookup_events moment spec ++ changes.now) next) (followed moment result (λ unit. next)) }
{
    ask_all(alloc, service, &lookup_events(moment, spec))?;
    ask_all(alloc, service, changes)
}

/// Looks a file up, and deletes it.
pub fn remove<S: FileService>(
    alloc: Global,
    service: &mut S,
    moment: Moment,
    spec: Spec,
) -> Result<(), Reply>
    ensures { (next : Plan) → FollowsPlan S.machine service.old service.new
        (each moment (delete_events moment spec) next) (followed moment result (λ unit. next)) }
{
    change(alloc, service, moment, spec, &delete_events(moment))
}

/// Answers RENAME, for a job that is logged in.
pub fn rename<S: FileService>(
    alloc: Global,
    service: &mut S,
    moment: Moment,
    me: Ppn,
    tally: &mut Tally,
    to: Spec,
    from: Spec,
) -> Result<Vec<u8>, AllocError>
    ensures { CommandDone (λ bytes. bytes.items) result S.machine service.old service.new moment (Some me)
        (Some me) tally.old tally.new (Some (RenameLine to from)) }
{
    let renamed = change(alloc, service, moment, from, &rename_events(moment, to));
    conclude(alloc, service, moment, tally, renamed)
}

/// Answers DELETE, for a job that is logged in.
pub fn delete<S: FileService>(
    alloc: Global,
    service: &mut S,
    moment: Moment,
    me: Ppn,
    tally: &mut Tally,
    spec: Spec,
) -> Result<Vec<u8>, AllocError>
    ensures { CommandDone (λ bytes. bytes.items) result S.machine service.old service.new moment (Some me)
        (Some me) tally.old tally.new (Some (DeleteLine spec)) }
{
    let deleted = remove(alloc, service, moment, spec);
    conclude(alloc, service, moment, tally, deleted)
}

/// Answers PROTECT, for a job that is logged in.
pub fn protect<S: FileService>(
    alloc: Global,
    service: &mut S,
    moment: Moment,
    me: Ppn,
    tally: &mut Tally,
    spec: Spec,
    protection: u32,
) -> Result<Vec<u8>, AllocError>
    requires { protection < 512 }
    ensures { CommandDone (λ bytes. bytes.items) result S.machine service.old service.new moment (Some me)
        (Some me) tally.old tally.new (Some (ProtectLine spec protection)) }
{
    let changes = protect_events(moment, &spec, protection);
    let protected = change(alloc, service, moment, spec, &changes);
    conclude(alloc, service, moment, tally, protected)
}
