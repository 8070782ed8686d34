//! Events that must all be done, the words of the core, and the RESET at the end of a line.
ghost use Rattle.std.specs.Prelude.{ℕ};
ghost use Rattle.spec_language.specs.Common.{Plan, Say, each, examines, ends, Spoken};
ghost use Rattle.commands.specs.Common.{FollowsPlan, followed};
ghost use Rattle.words36.specs.declared.moment.Moment as moments;

use crate::answer::SESSION_JOB;
use crate::service::FileService;
use spec_machine::{Call, Event, Reply};
use std::alloc::Global;
use words36::{Moment, Word};

/// Serves events one after the other, as long as each is done; the error is the reply to the first that is not.
pub fn ask_all<S: FileService>(
    alloc: Global,
    service: &mut S,
    events: &[Event],
) -> Result<(), Reply>
    ensures { (moment : moments.Moment) (next : Plan) → FollowsPlan S.machine service.old service.new
        (each moment events.now next) (followed moment result (λ unit. next)) }
{
    for event in events {
        let reply = service.event(alloc, event);
        match reply {
            Reply::Done => (),
            _ => return Err(reply),
        }
    }
    Ok(())
}

/// Returns the word at an address of the session's core; the error is the reply if it isn't a word.
pub fn examine<S: FileService>(alloc: Global, service: &mut S, address: u32) -> Result<Word, Reply>
    ensures { (moment : moments.Moment) (next : ℕ → Plan) → FollowsPlan S.machine service.old service.new
        (examines moment address next) (followed moment result next) }
{
    let reply = service.event(alloc, &Event::Examine(SESSION_JOB, address));
    match reply {
        Reply::Value(word) => Ok(word),
        _ => Err(reply),
    }
}

/// Closes all channels, whatever the reply: the last step of a line whose text is already known.
pub fn reset<S: FileService>(alloc: Global, service: &mut S, moment: Moment)
    ensures { (said : Spoken) → FollowsPlan S.machine service.old service.new (ends moment said) (Say said) }
{
    service.event(alloc, &Event::Call(SESSION_JOB, Call::Reset, moment));
}
