//! The lines that a run prints.
ghost use Rattle.std.specs.Prelude.{◌≡◌, ◌⊎◌, ◌∷◌, ◌++◌, []};
ghost use Rattle.std.specs.Fmt.{decimal};
ghost use Rattle.spec_language.specs.Common.{feed};
ghost use Rattle.filser.specs.Common.{IsLine, Puts, message_text, status_code};
ghost use Rattle.filser.specs.declared.status.Status.TheVariants.{Fault};

use crate::Status;
use commands::{SessionError, write_text};
use itoa::Buffer;
use std::io::Write;

/// A line that a run prints, without its end. Numbers are decimal.
#[derive(Clone, Copy, Debug, PartialEq, Eq)]
pub enum Message {
    /// This text.
    Plain(&'static str),
    /// A number between two texts.
    Numbered(&'static str, u32, &'static str),
}

/// Writes a number in decimal.
fn write_number<W: Write>(writer: &mut W, number: u32) -> Result<(), SessionError>
    ensures { Puts result (W.contents writer.old) (W.contents writer.new) (decimal number) }
{
    let mut digits = Buffer::new();
    write_text(writer, digits.format(number).as_bytes())
}

/// Writes a text, a number and a text.
fn write_numbered<W: Write>(
    writer: &mut W,
    before: &str,
    number: u32,
    after: &str,
) -> Result<(), SessionError>
    ensures { Puts result (W.contents writer.old) (W.contents writer.new) (before.now ++ decimal number ++ after.now) }
{
    write_text(writer, before.as_bytes())?;
    write_number(writer, number)?;
    write_text(writer, after.as_bytes())
}

/// Writes a line, without its end.
fn write_message<W: Write>(writer: &mut W, message: &Message) -> Result<(), SessionError>
    ensures { Puts result (W.contents writer.old) (W.contents writer.new) (message_text message.now) }
{
    match *message {
        Message::Plain(text) => write_text(writer, text.as_bytes()),
        Message::Numbered(before, number, after) => write_numbered(writer, before, number, after),
    }
}

/// Writes a line with its end.
fn write_line<W: Write>(writer: &mut W, message: &Message) -> Result<(), SessionError>
    ensures { Puts result (W.contents writer.old) (W.contents writer.new) (message_text message.now ++ feed ∷ []) }
{
    write_message(writer, message)?;
    write_text(writer, b"\n")
}

/// Prints a line, and returns the status of a run that prints nothing more: this one, or a fault if the writer failed,
/// which then holds a beginning of the line. It takes no memory.
pub(crate) fn print_line<W: Write>(writer: &mut W, message: &Message, status: Status) -> Status
    ensures printed { IsLine (W.contents writer.old) (W.contents writer.new) result (status_code status)
        (message_text message.now) }
    ensures either { (result ≡ status) ⊎ (result ≡ Fault) }
{
    match write_line(writer, message) {
        Ok(()) => status,
        Err(_) => Status::Fault,
    }
}
