//! The service of an exchange until the end of its input.
ghost use Rattle.std.specs.Prelude.{◌≡◌, ◌<◌, ◌≤◌, ◌++◌, [], IsTrue, IsFalse, drop, length, OnOk, IfErr};
ghost use Rattle.wire.specs.Frames.{IsPart, IsTooLong};
ghost use Rattle.exchange.specs.Exchanges.{Exchange, HasClosed, HasTaken, BreaksOff, IsNotWhole};

use crate::reply_buffer::{answer_whole, flush};
use crate::turns::refuse;
use commands::{FileService, SessionError, Tally};
use std::alloc::Global;
use std::io::{Read, Write};
use wire::{Front, split_record};

/// The number of bytes that are read at a time.
const PIECE_BYTES: usize = 8192;

/// Bytes that aren't a whole record yet, answers that aren't written yet, and what was counted.
#[derive(Drop)]
pub struct Waiting {
    held: Vec<u8>,
    answers: Vec<u8>,
    tally: Tally,
}

/// Returns whether bytes that begin with no whole record announce more words than a core can have.
fn announces_too_much(bytes: &[u8]) -> bool
    ensures yes { IsTrue result → IsTooLong bytes.now }
    ensures no { IsFalse result → IsNotWhole bytes.now → IsPart bytes.now }
{
    match split_record(bytes) {
        Front::TooLong => true,
        _ => false,
    }
}

/// Removes the first `count` bytes.
fn remove_first(bytes: &mut Vec<u8>, count: usize)
    requires { count ≤ length bytes.old.items }
    ensures { bytes.new.items ≡ drop count bytes.old.items }
{
    bytes.drain(..count);
}

/// Takes bytes of the input, and answers each record that is whole now.
fn take_piece<S: FileService, W: Write>(
    alloc: Global,
    service: &mut S,
    writer: &mut W,
    waiting: &mut Waiting,
    piece: &[u8],
) -> Result<(), SessionError>
    requires piece { 0 < length piece.now }
    requires written { waiting.old.answers.items ≡ [] }
    ensures ok { OnOk result (HasTaken S.machine service.old service.new (W.contents writer.old)
        (W.contents writer.new) waiting.old waiting.new piece.now) }
    ensures err { IfErr result (λ error. BreaksOff S.machine service.old service.new (W.contents writer.old)
        (W.contents writer.new) [] error (waiting.old.held.items ++ piece.now)) }
{
    let Ok(()) = waiting.held.extend_from_slice(piece) else {
        return Err(SessionError::NoMemory);
    };
    let place = answer_whole(
        alloc,
        service,
        writer,
        &waiting.held,
        &mut waiting.answers,
        &mut waiting.tally,
    )?;
    remove_first(&mut waiting.held, place);
    Ok(())
}

/// Answers what is left of the input, and returns the tally.
fn finish<W: Write>(writer: &mut W, waiting: &mut Waiting) -> Result<Tally, SessionError>
    requires { waiting.old.answers.items ≡ [] }
    ensures { HasClosed (W.contents writer.old) (W.contents writer.new) waiting.old.held.items waiting.old.tally
        result }
{
    if !waiting.held.is_empty() {
        if refuse(&mut waiting.answers, &mut waiting.tally).is_err() {
            return Err(SessionError::NoMemory);
        }
        flush(writer, &mut waiting.answers)?;
    }
    Ok(waiting.tally)
}

/// Serves the orders of a reader until its end, or up to a record that announces more words than a core can have, and
/// writes the answers. Records are answered before more is read, so that a program may wait for each answer. The tally
/// has whether a record was no order, and whether a reply was Device or Failed.
///
/// # Errors
///
/// `Read` or `Write` if the reader or the writer failed, `NoMemory` if a record or its answer found no room: nothing
/// was done for that one.
pub fn serve_wire<R: Read, W: Write, S: FileService>(
    alloc: Global,
    reader: &mut R,
    writer: &mut W,
    service: &mut S,
) -> Result<Tally, SessionError>
    ensures { Exchange (R.remaining reader.old) (R.remaining reader.new) (W.contents writer.old) (W.contents writer.new)
        S.machine service.old service.new result }
{
    let mut waiting = Waiting {
        held: Vec::new(alloc),
        answers: Vec::new(alloc),
        tally: Tally::none(),
    };
    let mut piece = [0u8; PIECE_BYTES];
    for _ in 0..u64::MAX {
        let Ok(count) = reader.read(&mut piece) else {
            return Err(SessionError::Read);
        };
        if count == 0 {
            return finish(writer, &mut waiting);
        }
        take_piece(alloc, service, writer, &mut waiting, &piece[..count])?;
        if announces_too_much(&waiting.held) {
            return finish(writer, &mut waiting);
        }
    }
    Err(SessionError::Read)
}
