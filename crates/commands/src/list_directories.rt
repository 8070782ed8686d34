//! The lists of directories, as texts.
ghost use Rattle.std.specs.Prelude.{◌≡◌, [], IfOk, IfErr};
ghost use Rattle.spec_language.specs.Common.{Plan, Say, operator, directories_plan, list_plan};
ghost use Rattle.commands.specs.Common.{FollowsPlan, HasShown, Carries, fresh, spoken};

use crate::answer::{SESSION_JOB, Tally, is_broken, refuse};
use crate::conclude::conclude;
use crate::put_file::enter;
use crate::service::FileService;
use crate::text;
use spec_language::Style;
use std::alloc::{AllocError, Global};
use words36::{Moment, Ppn};

/// Returns the list of a directory in a style, or its refusal, for the job that is logged in.
pub fn show<S: FileService>(
    alloc: Global,
    service: &mut S,
    tally: &mut Tally,
    style: Style,
    owner: Ppn,
) -> Result<Vec<u8>, AllocError>
    ensures { HasShown (λ bytes. bytes.items) result S.machine service.old service.new style owner tally.old tally.new }
{
    match service.list(alloc, SESSION_JOB, owner) {
        Ok(entries) => text::list_text(alloc, style, owner, &entries),
        Err(reply) => refuse(alloc, tally, text::refusal(&reply), is_broken(&reply)),
    }
}

/// Returns the lists of directories, one after the other.
fn show_all<S: FileService>(
    alloc: Global,
    service: &mut S,
    tally: &mut Tally,
    style: Style,
    owners: &[Ppn],
) -> Result<Vec<u8>, AllocError>
    ensures ok { IfOk result (λ bytes. FollowsPlan S.machine service.old service.new
        (directories_plan style owners.now (spoken [] tally.old)) (Say (spoken bytes.items tally.new))) }
    ensures err { IfErr result (λ error. (rest : Plan) × FollowsPlan S.machine service.old service.new
        (directories_plan style owners.now (spoken [] tally.old)) rest) }
    ensures reason { tally.new.reason ≡ tally.old.reason }
{
    let mut bytes = Vec::new(alloc);
    for owner in owners {
        let list = show(alloc, service, tally, style, *owner)?;
        bytes.extend_from_slice(&list)?;
    }
    Ok(bytes)
}

/// Returns the owner who may list all directories: [1,2].
pub fn operator() -> Ppn
    ensures { result ≡ operator }
{
    Ppn::new(1, 2).unwrap()
}

/// Logs in as [1,2], who may list all directories, and returns the lists of some of them, one after the other.
pub fn survey<S: FileService>(
    alloc: Global,
    service: &mut S,
    moment: Moment,
    tally: &mut Tally,
    style: Style,
    owners: &[Ppn],
) -> Result<Vec<u8>, AllocError>
    requires { tally.old ≡ fresh }
    ensures { Carries (λ bytes. bytes.items) result S.machine service.old service.new
        (list_plan moment style owners.now) tally.new }
{
    match enter(alloc, service, operator()) {
        Ok(()) => show_all(alloc, service, tally, style, owners),
        Err(reply) => conclude(alloc, service, moment, tally, Err(reply)),
    }
}
