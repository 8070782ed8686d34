//! The texts of answered lines that wait to be written.
ghost use Rattle.std.specs.Prelude.{◌≡◌, ◌++◌, [], ℕ, List, IsTrue, IsFalse, OnOk, IfOk};
ghost use Rattle.commands.specs.Common.{IsFlushed, IsGivenUp, AddsText};

use crate::SessionError;
use crate::stream::write_text;
use std::alloc::AllocError;
use std::io::Write;

/// The most bytes of text that wait while more lines are answered.
const MOST_WAITING: usize = 1 << 16;

/// Writes the texts that wait.
pub fn flush<W: Write>(writer: &mut W, waiting: &mut Vec<u8>) -> Result<(), SessionError>
    ensures written { IsFlushed (W.contents writer.old) (W.contents writer.new) waiting.old.items waiting.new.items
        result }
    ensures all { OnOk result (waiting.new.items ≡ []) }
{
    write_text(writer, waiting)?;
    waiting.clear();
    Ok(())
}

/// Writes the texts that wait, if they are long.
fn flush_full<W: Write>(writer: &mut W, waiting: &mut Vec<u8>) -> Result<(), SessionError>
    ensures { IsFlushed (W.contents writer.old) (W.contents writer.new) waiting.old.items waiting.new.items result }
{
    if waiting.len() < MOST_WAITING {
        return Ok(());
    }
    flush(writer, waiting)
}

/// Writes the texts that wait, since there is no memory for one more, and returns the error.
fn give_up<W: Write>(writer: &mut W, waiting: &[u8]) -> SessionError
    ensures { IsGivenUp (W.contents writer.old) (W.contents writer.new) waiting.now result }
{
    match write_text(writer, waiting) {
        Ok(()) => SessionError::NoMemory,
        Err(error) => error,
    }
}

/// Adds a text to those that wait. Returns false if it didn't: the text is long, or there is no memory for it.
fn keep(waiting: &mut Vec<u8>, text: &[u8]) -> bool
    ensures yes { IsTrue result → waiting.new.items ≡ waiting.old.items ++ text.now }
    ensures no { IsFalse result → waiting.new.items ≡ waiting.old.items }
{
    if text.len() >= MOST_WAITING {
        return false;
    }
    waiting.extend_from_slice(text).is_ok()
}

/// Adds a text to those that wait, and writes them if they are long. A text that can't wait is written at once, after
/// those that do.
fn add<W: Write>(writer: &mut W, waiting: &mut Vec<u8>, text: &[u8]) -> Result<(), SessionError>
    ensures { AddsText (W.contents writer.old) (W.contents writer.new) waiting.old.items waiting.new.items text.now
        result }
{
    if keep(waiting, text) {
        return flush_full(writer, waiting);
    }
    flush(writer, waiting)?;
    write_text(writer, text)
}

/// Adds a line's text to those that wait. If there was no memory for it, writes those.
pub fn say<W: Write>(
    writer: &mut W,
    waiting: &mut Vec<u8>,
    text: Result<Vec<u8>, AllocError>,
) -> Result<(), SessionError>
    ensures { (said : List ℕ) → IfOk text (λ bytes. bytes.items ≡ said)
        → AddsText (W.contents writer.old) (W.contents writer.new) waiting.old.items waiting.new.items said result }
{
    match text {
        Ok(text) => add(writer, waiting, &text),
        Err(_) => Err(give_up(writer, waiting)),
    }
}
