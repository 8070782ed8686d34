//! One record of an exchange: its order, its answer, and the tally.
ghost use Rattle.std.specs.Prelude.{◌≡◌, ◌||◌, ◌++◌, [], OnOk, OnErr, true};
ghost use Rattle.spec_language.specs.Common.{is_broken};
ghost use Rattle.wire.specs.Frames.{IsFrame};
ghost use Rattle.wire.specs.declared.answer.Answer.TheVariants.{Wrong};
ghost use Rattle.exchange.specs.Turns.{is_wrong, is_fault, answer_of};
ghost use Rattle.exchange.specs.Exchanges.{HasTurned};

use crate::room::{answer_room, areas_told};
use crate::serve_order::serve_order;
use commands::{FileService, Tally, is_broken};
use std::alloc::{AllocError, Global};
use wire::{Answer, Header, parse_order, push_answer};

/// Counts an answer.
fn count(tally: &mut Tally, answer: &Answer)
    ensures refused { tally.new.refused ≡ tally.old.refused || is_wrong answer.now }
    ensures broke { tally.new.broke ≡ tally.old.broke || is_fault answer.now }
    ensures reason { tally.new.reason ≡ tally.old.reason }
{
    match answer {
        Answer::Wrong => tally.refused = true,
        Answer::Reply(reply) => tally.broke |= is_broken(reply),
        Answer::Room(_) => {}
    }
}

/// Answers a record that spells no order, and counts it.
pub(crate) fn refuse(answers: &mut Vec<u8>, tally: &mut Tally) -> Result<(), AllocError>
    ensures ok { OnOk result (answers.new.items ≡ answers.old.items ++ answer_of Wrong []) }
    ensures refused { OnOk result (tally.new.refused ≡ true) }
    ensures broke { tally.new.broke ≡ tally.old.broke }
    ensures reason { tally.new.reason ≡ tally.old.reason }
    ensures err { OnErr result (answers.new.items ≡ answers.old.items) }
    ensures kept { OnErr result (tally.new ≡ tally.old) }
{
    answers.reserve(wire::HEADER_BYTES)?;
    let Ok(()) = push_answer(answers, &Answer::Wrong, &[]) else {
        unreachable!()
    };
    tally.refused = true;
    Ok(())
}

/// Serves a record with the bytes after it, and appends the answer to those that wait.
///
/// # Errors
///
/// `AllocError` if the answer found no room: then nothing was done.
pub(crate) fn take_turn<S: FileService>(
    alloc: Global,
    service: &mut S,
    header: &Header,
    body: &[u8],
    answers: &mut Vec<u8>,
    tally: &mut Tally,
) -> Result<(), AllocError>
    requires { IsFrame (record { header = header.now; body = body.now }) }
    ensures ok { OnOk result (HasTurned S.machine service.old service.new
        (record { header = header.now; body = body.now }) answers.old.items answers.new.items tally.old tally.new) }
    ensures undone { OnErr result (service.new ≡ service.old) }
    ensures unanswered { OnErr result (answers.new.items ≡ answers.old.items) }
    ensures uncounted { OnErr result (tally.new ≡ tally.old) }
{
    let Some(order) = parse_order(header, body) else {
        return refuse(answers, tally);
    };
    let areas = areas_told(alloc, service, &order)?;
    let mut groups = answer_room(alloc, &areas, answers)?;
    let answer = serve_order(alloc, service, &order, body, &areas, &mut groups);
    let Ok(()) = push_answer(answers, &answer, &groups) else {
        unreachable!()
    };
    count(tally, &answer);
    Ok(())
}
