//! The event of a line of a call script: its reply, as text and in the tally.
ghost use Rattle.std.specs.Prelude.{◌≡◌, ◌||◌, ℕ, Option};
ghost use Rattle.words36.specs.declared.moment.Moment.{Moment};
ghost use Rattle.spec_language.specs.Common.{is_success, refused_unless, is_broken};
ghost use Rattle.commands.specs.Common.{LineDone};
ghost use Rattle.commands.specs.declared.run.ParsedLine.TheVariants.{EventLine};

use crate::answer::Tally;
use crate::service::FileService;
use crate::text::{line, reply_line};
use spec_machine::{Event, Reply};
use std::alloc::{AllocError, Global};

/// Counts a reply.
fn count(tally: &mut Tally, reply: &Reply)
    ensures refused { tally.new.refused ≡ tally.old.refused || refused_unless (is_success reply.now) }
    ensures broke { tally.new.broke ≡ tally.old.broke || is_broken reply.now }
{
    match reply {
        Reply::Done | Reply::Value(_) => {}
        Reply::Device | Reply::Failed => {
            tally.refused = true;
            tally.broke = true;
        }
        Reply::Refused(_)
        | Reply::Stopped(_)
        | Reply::NoChannel
        | Reply::AddressCheck
        | Reply::NoJob
        | Reply::NoMemory
        | Reply::DateRange => tally.refused = true,
    }
}

/// Serves the event of a line of a call script, and returns the bytes that it prints.
pub fn run_event<S: FileService>(
    alloc: Global,
    service: &mut S,
    tally: &mut Tally,
    order: Option<Event>,
) -> Result<Vec<u8>, AllocError>
    ensures { (moment : Moment) (user : Option ℕ)
        → LineDone (λ bytes. bytes.items) result S.machine service.old service.new moment user user tally.old tally.new
        (EventLine order) }
{
    let Some(event) = order else {
        tally.refused = true;
        return line(alloc, "SYNTAX");
    };
    let reply = service.event(alloc, &event);
    count(tally, &reply);
    reply_line(alloc, &reply)
}
