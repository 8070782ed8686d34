//! The end of a line that prints OK or a refusal.
ghost use Rattle.spec_language.specs.Common.{ends, ok};
ghost use Rattle.commands.specs.Common.{FinishesPlan, followed};

use crate::answer::{Tally, is_broken, refuse};
use crate::ask_events::reset;
use crate::service::FileService;
use crate::text;
use spec_machine::Reply;
use std::alloc::{AllocError, Global};
use words36::Moment;

/// Closes all channels at the end of a line, and returns what it prints: OK if it was done, and its refusal if not.
pub fn conclude<S: FileService>(
    alloc: Global,
    service: &mut S,
    moment: Moment,
    tally: &mut Tally,
    outcome: Result<(), Reply>,
) -> Result<Vec<u8>, AllocError>
    ensures { FinishesPlan (λ bytes. bytes.items) result S.machine service.old service.new
        (followed moment outcome (λ unit. ends moment ok)) tally.old tally.new }
{
    reset(alloc, service, moment);
    match outcome {
        Ok(()) => text::line(alloc, "OK"),
        Err(reply) => refuse(alloc, tally, text::refusal(&reply), is_broken(&reply)),
    }
}
