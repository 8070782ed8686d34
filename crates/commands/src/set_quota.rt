//! The command QUOTA.
ghost use Rattle.std.specs.Prelude.{◌<◌, ◌^◌, Some};
ghost use Rattle.spec_language.specs.declared.command.Command.TheVariants.{Quota as QuotaLine};
ghost use Rattle.commands.specs.Common.{CommandDone};

use crate::answer::Tally;
use crate::ask_events::ask_all;
use crate::conclude::conclude;
use crate::requests::quota_events;
use crate::service::FileService;
use std::alloc::{AllocError, Global};
use words36::{Moment, Ppn};

/// Answers QUOTA, for a job that is logged in.
pub fn limit<S: FileService>(
    alloc: Global,
    service: &mut S,
    moment: Moment,
    me: Ppn,
    tally: &mut Tally,
    owner: Ppn,
    blocks: u32,
) -> Result<Vec<u8>, AllocError>
    requires { blocks < 2 ^ 18 }
    ensures { CommandDone (λ bytes. bytes.items) result S.machine service.old service.new moment (Some me)
        (Some me) tally.old tally.new (Some (QuotaLine owner blocks)) }
{
    let limited = ask_all(alloc, service, &quota_events(moment, owner, blocks));
    conclude(alloc, service, moment, tally, limited)
}
