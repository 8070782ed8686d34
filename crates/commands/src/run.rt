//! The service of an input until its end: a session or a call script, with its lines and their texts.
ghost use Rattle.std.specs.Prelude.{◌≡◌, ◌∷◌, [], OnOk, IfOk, IfErr};
ghost use Rattle.commands.specs.Common.{line_list, IsParsedLine, FitsIn, WritesText, ReplyWritten, Closed, StepsOn};
ghost use Rattle.commands.specs.Common.{BreaksOff, EndsWell, LinesServed, Session, Script};

use crate::SessionError;
use crate::answer::{SESSION_JOB, Tally, answer};
use crate::grammar::parse_command;
use crate::input::{InputLine, PartialLine};
use crate::language::Language;
use crate::output_buffer::{flush, say};
use crate::parse_event::parse_event_line;
use crate::run_event::run_event;
use crate::service::FileService;
use crate::stream::write_text;
use spec_language::Command;
use spec_machine::{Call, Event};
use std::alloc::{AllocError, Global};
use std::io::{Read, Write};
use words36::{Moment, Ppn};

/// The number of bytes that are read at a time.
const PIECE_BYTES: usize = 4096;

/// The result of parsing at a place at which a line might have ended.
#[derive(Clone, Copy, Debug, PartialEq, Eq)]
pub enum ParsedLine {
    /// No line.
    NoLine,
    /// A line of commands, and its command, if it has one.
    CommandLine(Option<Command>),
    /// A line of a call script, and its event, if it has one.
    EventLine(Option<Event>),
}

/// The state of an input so far: its unfinished line, its tally, and the texts of answered lines that aren't written
/// yet.
#[derive(Drop)]
pub struct SessionState {
    held: PartialLine,
    line: u64,
    user: Option<Ppn>,
    tally: Tally,
    waiting: Vec<u8>,
}

/// Parses a line, if there is one.
fn parse_line(language: Language, moment: Moment, line: Option<InputLine<'_>>) -> ParsedLine
    ensures { IsParsedLine language moment (line_list line.entry) result }
{
    let Some(line) = line else {
        return ParsedLine::NoLine;
    };
    match language {
        Language::Commands => ParsedLine::CommandLine(parse_command(line)),
        Language::Events => ParsedLine::EventLine(parse_event_line(line, moment)),
    }
}

/// Writes a text, if there was memory for it.
pub fn print<W: Write>(
    writer: &mut W,
    text: Result<Vec<u8>, AllocError>,
) -> Result<(), SessionError>
    ensures { WritesText (λ bytes. bytes.items) result (W.contents writer.old) (W.contents writer.new) text }
{
    match text {
        Ok(text) => write_text(writer, &text),
        Err(_) => Err(SessionError::NoMemory),
    }
}

/// Answers the parsed line of this number: makes its calls, adds what it prints to the texts that wait, and counts it.
fn execute<S: FileService, W: Write>(
    alloc: Global,
    service: &mut S,
    writer: &mut W,
    moment: Moment,
    session: &mut SessionState,
    number: u64,
    parsed: ParsedLine,
) -> Result<(), SessionError>
    requires { FitsIn parsed }
    ensures held { session.new.held ≡ session.old.held }
    ensures line { session.new.line ≡ session.old.line }
    ensures told { ReplyWritten result S.machine service.old service.new (W.contents writer.old) (W.contents writer.new)
        moment session.old.user session.new.user session.old.tally session.new.tally number parsed
        session.old.waiting.items session.new.waiting.items }
{
    match parsed {
        ParsedLine::NoLine => Ok(()),
        ParsedLine::CommandLine(meant) => {
            let mut line = Tally::none();
            let text = answer(alloc, service, moment, &mut session.user, &mut line, meant);
            session.tally = session.tally.with_line(line, number);
            say(writer, &mut session.waiting, text)
        }
        ParsedLine::EventLine(order) => {
            let mut line = Tally::none();
            let text = run_event(alloc, service, &mut line, order);
            session.tally = session.tally.with_line(line, number);
            say(writer, &mut session.waiting, text)
        }
    }
}

/// Takes a byte of the input, and answers the line that it ends.
fn take_byte<S: FileService, W: Write>(
    alloc: Global,
    service: &mut S,
    writer: &mut W,
    moment: Moment,
    language: Language,
    session: &mut SessionState,
    byte: u8,
) -> Result<(), SessionError>
    ensures ok { OnOk result (StepsOn language S.machine service.old service.new (W.contents writer.old)
        (W.contents writer.new) moment session.old session.new (byte ∷ [])) }
    ensures err { IfErr result (λ error. BreaksOff language ⊥ S.machine service.old service.new (W.contents writer.old)
        (W.contents writer.new) moment session.old error (byte ∷ [])) }
{
    if byte != b'\n' {
        session.held.push(byte);
        return Ok(());
    }
    let parsed = parse_line(language, moment, session.held.ended());
    let number = session.line;
    session.held = PartialLine::new();
    session.line = number.saturating_add(1);
    execute(alloc, service, writer, moment, session, number, parsed)
}

/// Takes some bytes of the input, and answers each line that ends in them.
fn take_bytes<S: FileService, W: Write>(
    alloc: Global,
    service: &mut S,
    writer: &mut W,
    moment: Moment,
    language: Language,
    session: &mut SessionState,
    piece: &[u8],
) -> Result<(), SessionError>
    ensures ok { OnOk result (StepsOn language S.machine service.old service.new (W.contents writer.old)
        (W.contents writer.new) moment session.old session.new piece.now) }
    ensures err { IfErr result (λ error. BreaksOff language ⊥ S.machine service.old service.new (W.contents writer.old)
        (W.contents writer.new) moment session.old error piece.now) }
{
    for byte in piece {
        take_byte(alloc, service, writer, moment, language, session, *byte)?;
    }
    Ok(())
}

/// Takes the bytes that were read by one call, answers each line that ends in them, and writes the texts.
fn take_piece<S: FileService, W: Write>(
    alloc: Global,
    service: &mut S,
    writer: &mut W,
    moment: Moment,
    language: Language,
    session: &mut SessionState,
    piece: &[u8],
) -> Result<(), SessionError>
    ensures ok { OnOk result (StepsOn language S.machine service.old service.new (W.contents writer.old)
        (W.contents writer.new) moment session.old session.new piece.now) }
    ensures written { OnOk result (session.new.waiting.items ≡ []) }
    ensures err { IfErr result (λ error. BreaksOff language ⊥ S.machine service.old service.new (W.contents writer.old)
        (W.contents writer.new) moment session.old error piece.now) }
{
    take_bytes(alloc, service, writer, moment, language, session, piece)?;
    flush(writer, &mut session.waiting)
}

/// Closes an input: if it has commands, the job is reset.
fn close<S: FileService>(alloc: Global, service: &mut S, moment: Moment, language: Language)
    ensures { Closed language S.machine service.old service.new moment }
{
    match language {
        Language::Commands => {
            service.event(alloc, &Event::Call(SESSION_JOB, Call::Reset, moment));
        }
        Language::Events => {}
    }
}

/// Answers the line that the end of the input ends, writes all texts, and closes the input.
fn finish<S: FileService, W: Write>(
    alloc: Global,
    service: &mut S,
    writer: &mut W,
    moment: Moment,
    language: Language,
    session: &mut SessionState,
) -> Result<Tally, SessionError>
    ensures ok { IfOk result (λ tally. EndsWell language S.machine service.old service.new (W.contents writer.old)
        (W.contents writer.new) moment session.old tally) }
    ensures err { IfErr result (λ error. BreaksOff language (Unit {0}) S.machine service.old service.new
        (W.contents writer.old) (W.contents writer.new) moment session.old error []) }
{
    let parsed = parse_line(language, moment, session.held.last());
    let number = session.line;
    execute(alloc, service, writer, moment, session, number, parsed)?;
    flush(writer, &mut session.waiting)?;
    close(alloc, service, moment, language);
    Ok(session.tally)
}

/// Serves the lines of a reader until its end, and writes what they print before it reads more.
fn serve_lines<R: Read, W: Write, S: FileService>(
    alloc: Global,
    reader: &mut R,
    writer: &mut W,
    service: &mut S,
    moment: Moment,
    language: Language,
) -> Result<Tally, SessionError>
    ensures { LinesServed language (R.remaining reader.old) (R.remaining reader.new) (W.contents writer.old)
        (W.contents writer.new)
        S.machine service.old service.new moment result }
{
    let mut session = SessionState {
        held: PartialLine::new(),
        line: 1,
        user: None,
        tally: Tally::none(),
        waiting: Vec::new(alloc),
    };
    let mut piece = [0u8; PIECE_BYTES];
    for _ in 0..u64::MAX {
        let Ok(count) = reader.read(&mut piece) else {
            return Err(SessionError::Read);
        };
        if count == 0 {
            return finish(alloc, service, writer, moment, language, &mut session);
        }
        take_piece(
            alloc,
            service,
            writer,
            moment,
            language,
            &mut session,
            &piece[..count],
        )?;
    }
    Err(SessionError::Read)
}

/// Serves the lines of a reader until its end, as job 1 at a moment, and writes what they print; at the end
/// of the input the job is reset.
///
/// # Errors
///
/// `Read` or `Write` if the reader or the writer failed, `NoMemory` if a text found no room. A line that a fault of the
/// reader cuts short isn't answered, and no job is reset then. If the writer failed, it may lack the texts of several
/// lines, whose calls were made.
pub fn run_session<R: Read, W: Write, S: FileService>(
    alloc: Global,
    reader: &mut R,
    writer: &mut W,
    service: &mut S,
    moment: Moment,
) -> Result<Tally, SessionError>
    ensures { Session (R.remaining reader.old) (R.remaining reader.new) (W.contents writer.old) (W.contents writer.new)
        S.machine service.old service.new moment result }
{
    serve_lines(alloc, reader, writer, service, moment, Language::Commands)
}

/// Serves the events of a reader until its end, at a moment, and writes a line for each reply.
///
/// # Errors
///
/// The same as those of `run_session`.
pub fn run_script<R: Read, W: Write, S: FileService>(
    alloc: Global,
    reader: &mut R,
    writer: &mut W,
    service: &mut S,
    moment: Moment,
) -> Result<Tally, SessionError>
    ensures { Script (R.remaining reader.old) (R.remaining reader.new) (W.contents writer.old) (W.contents writer.new)
        S.machine service.old service.new moment result }
{
    serve_lines(alloc, reader, writer, service, moment, Language::Events)
}
