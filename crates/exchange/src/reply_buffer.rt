//! The whole records of an input, and the answers that wait to be written.
ghost use Rattle.std.specs.Prelude.{◌≡◌, ◌≤◌, [], take, drop, length, OnOk, IfOk, IfErr};
ghost use Rattle.wire.specs.Frames.{IsFrame, frame_bytes};
ghost use Rattle.exchange.specs.Exchanges.{StepsOn, BreaksOff, IsNotWhole, IsFlushed, IsGivenUp};

use crate::turns::take_turn;
use commands::{FileService, SessionError, Tally, write_text};
use std::alloc::Global;
use std::io::Write;
use wire::{Front, HEADER_BYTES, Header, split_record};

/// The most bytes of answers that wait while more records are answered.
const MOST_WAITING: usize = 1 << 16;

/// Writes the answers that wait, if they are many.
fn flush_full<W: Write>(writer: &mut W, answers: &mut Vec<u8>) -> Result<(), SessionError>
    ensures { IsFlushed (W.contents writer.old) (W.contents writer.new) answers.old.items answers.new.items result }
{
    if answers.len() < MOST_WAITING {
        return Ok(());
    }
    flush(writer, answers)
}

/// Writes the answers that wait.
pub(crate) fn flush<W: Write>(writer: &mut W, answers: &mut Vec<u8>) -> Result<(), SessionError>
    ensures written { IsFlushed (W.contents writer.old) (W.contents writer.new) answers.old.items answers.new.items
        result }
    ensures all { OnOk result (answers.new.items ≡ []) }
{
    write_text(writer, answers)?;
    answers.clear();
    Ok(())
}

/// Writes the answers that wait, since there is no memory for one more, and returns the error.
fn give_up<W: Write>(writer: &mut W, answers: &[u8]) -> SessionError
    ensures { IsGivenUp (W.contents writer.old) (W.contents writer.new) answers.now result }
{
    match write_text(writer, answers) {
        Ok(()) => SessionError::NoMemory,
        Err(error) => error,
    }
}

/// Serves a record with the bytes after it.
fn serve_record<S: FileService, W: Write>(
    alloc: Global,
    service: &mut S,
    writer: &mut W,
    header: &Header,
    body: &[u8],
    answers: &mut Vec<u8>,
    tally: &mut Tally,
) -> Result<(), SessionError>
    requires { IsFrame (record { header = header.now; body = body.now }) }
    ensures ok { OnOk result (StepsOn S.machine service.old service.new (W.contents writer.old) (W.contents writer.new)
        answers.old.items answers.new.items tally.old tally.new
        (frame_bytes (record { header = header.now; body = body.now }))) }
    ensures err { IfErr result (λ error. BreaksOff S.machine service.old service.new (W.contents writer.old)
        (W.contents writer.new) answers.old.items error
        (frame_bytes (record { header = header.now; body = body.now }))) }
{
    match take_turn(alloc, service, header, body, answers, tally) {
        Ok(()) => flush_full(writer, answers),
        Err(_) => Err(give_up(writer, answers)),
    }
}

/// Serves the whole records at the beginning of these bytes, and returns their number of bytes.
fn serve_whole<S: FileService, W: Write>(
    alloc: Global,
    service: &mut S,
    writer: &mut W,
    held: &[u8],
    answers: &mut Vec<u8>,
    tally: &mut Tally,
) -> Result<usize, SessionError>
    ensures place { IfOk result (λ place. place ≤ length held.now) }
    ensures ok { IfOk result (λ place. StepsOn S.machine service.old service.new (W.contents writer.old)
        (W.contents writer.new) answers.old.items answers.new.items tally.old tally.new (take place held.now)) }
    ensures rest { IfOk result (λ place. IsNotWhole (drop place held.now)) }
    ensures err { IfErr result (λ error. BreaksOff S.machine service.old service.new (W.contents writer.old)
        (W.contents writer.new) answers.old.items error held.now) }
{
    let mut place = 0;
    while let Front::Whole(header, body) = split_record(&held[place..]) {
        serve_record(alloc, service, writer, &header, body, answers, tally)?;
        place += HEADER_BYTES + body.len();
    }
    Ok(place)
}

/// Serves the whole records at the beginning of these bytes, writes the answers, and returns the records' number of
/// bytes.
pub(crate) fn answer_whole<S: FileService, W: Write>(
    alloc: Global,
    service: &mut S,
    writer: &mut W,
    held: &[u8],
    answers: &mut Vec<u8>,
    tally: &mut Tally,
) -> Result<usize, SessionError>
    ensures place { IfOk result (λ place. place ≤ length held.now) }
    ensures ok { IfOk result (λ place. StepsOn S.machine service.old service.new (W.contents writer.old)
        (W.contents writer.new) answers.old.items [] tally.old tally.new (take place held.now)) }
    ensures rest { IfOk result (λ place. IsNotWhole (drop place held.now)) }
    ensures written { OnOk result (answers.new.items ≡ []) }
    ensures err { IfErr result (λ error. BreaksOff S.machine service.old service.new (W.contents writer.old)
        (W.contents writer.new) answers.old.items error held.now) }
{
    let place = serve_whole(alloc, service, writer, held, answers, tally)?;
    flush(writer, answers)?;
    Ok(place)
}
