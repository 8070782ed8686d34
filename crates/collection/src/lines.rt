//! The line of each file, and its tally.
ghost use Rattle.std.specs.Prelude.{◌≡◌, ◌+◌, ◌++◌, ◌<◌, OnOk, IfOk, drop, length, slice_index};
ghost use Rattle.spec_language.specs.Common.{line as line_of};
ghost use Rattle.collection.specs.Common.{added as added_to, none_counted, IsLineWritten, IsCounted};
ghost use Rattle.collection.specs.Common.{IsRefusedLine, label_of, refused_tally};
ghost use Rattle.collection.specs.HostNames.{hidden as hidden_bytes, shown as shown_text, shown_after};
ghost use Rattle.collection.specs.HostNames.{shown_byte as byte_shown};

use commands::{SessionError, Tally, write_text};
use std::alloc::{AllocError, Global};
use std::io::Write;

/// Returns the byte at a place of a path, or 0 if it has none.
fn byte_at(path: &[u8], place: usize) -> u8
    ensures { result ≡ slice_index path.now place }
{
    match path.get(place) {
        Some(byte) => *byte,
        None => 0,
    }
}

/// Returns how many bytes the character has that begins with these bytes, if it isn't shown, else 0. A control
/// character isn't, nor a mark that turns the direction of writing, since a terminal acts on them.
fn hidden(first: u8, second: u8, third: u8) -> usize
    ensures { result ≡ hidden_bytes first second third }
{
    if first < b' ' || first == 127 {
        1
    } else if first == 0xc2 && (0x80..=0x9f).contains(&second) {
        2
    } else if first == 0xe2 && second == 0x80 && (0xaa..=0xae).contains(&third) {
        3
    } else if first == 0xe2 && second == 0x81 && (0xa6..=0xa9).contains(&third) {
        3
    } else {
        0
    }
}

/// Returns a byte of a path as it is shown: a question mark, if it begins a character of this many bytes that isn't.
fn shown_byte(hidden: usize, byte: u8) -> u8
    ensures { result ≡ byte_shown hidden byte }
{
    if hidden == 0 { byte } else { b'?' }
}

/// Appends the byte at a place of a path as it is shown, unless it is one of these next ones that aren't. Returns how
/// many of the bytes after it aren't.
fn push_shown_byte(
    text: &mut Vec<u8>,
    path: &[u8],
    place: usize,
    skipped: usize,
) -> Result<usize, AllocError>
    requires { place < length path.now }
    ensures { IfOk result (λ rest. text.new.items ++ shown_after rest (drop (place + 1) path.now)
        ≡ text.old.items ++ shown_after skipped (drop place path.now)) }
{
    if skipped > 0 {
        return Ok(skipped - 1);
    }
    let first = byte_at(path, place);
    let second = byte_at(path, place + 1);
    let third = byte_at(path, place + 2);
    let hidden = hidden(first, second, third);
    text.push(shown_byte(hidden, first))?;
    Ok(hidden.saturating_sub(1))
}

/// Appends a path as it is shown in a line.
fn push_shown(text: &mut Vec<u8>, path: &[u8]) -> Result<(), AllocError>
    ensures { OnOk result (text.new.items ≡ text.old.items ++ shown_text path.now) }
{
    let mut skipped = 0;
    for place in 0..path.len() {
        skipped = push_shown_byte(text, path, place, skipped)?;
    }
    Ok(())
}

/// Returns the beginning of a file's line: its path, and then this text and a blank, if it isn't empty.
pub(crate) fn label(alloc: Global, path: &str, text: &[u8]) -> Result<Vec<u8>, AllocError>
    ensures { IfOk result (λ label. label.items ≡ label_of path.now text.now) }
{
    let mut label = Vec::new(alloc);
    push_shown(&mut label, path.as_bytes())?;
    label.extend_from_slice(b": ")?;
    if !text.is_empty() {
        label.extend_from_slice(text)?;
        label.push(b' ')?;
    }
    Ok(label)
}

/// Returns the line of a file: its beginning, and an answer.
fn line(alloc: Global, path: &str, text: &[u8], answer: &str) -> Result<Vec<u8>, AllocError>
    ensures { IfOk result (λ bytes. bytes.items ≡ label_of path.now text.now ++ line_of answer.now) }
{
    let mut line = label(alloc, path, text)?;
    line.extend_from_slice(answer.as_bytes())?;
    line.push(b'\n')?;
    Ok(line)
}

/// Writes the line of a file, and returns what it counts for.
///
/// # Errors
///
/// `Write` if the writer failed, `NoMemory` if there is no memory for the line: then nothing is written.
pub(crate) fn say<W: Write>(
    alloc: Global,
    writer: &mut W,
    path: &str,
    text: &[u8],
    answer: &str,
    tally: Tally,
) -> Result<Tally, SessionError>
    ensures written { IsLineWritten (W.contents writer.old) (W.contents writer.new)
        (label_of path.now text.now ++ line_of answer.now) result }
    ensures counted { IsCounted tally result }
{
    let Ok(line) = line(alloc, path, text, answer) else {
        return Err(SessionError::NoMemory);
    };
    write_text(writer, &line)?;
    Ok(tally)
}

/// Writes the line of a refused file with this answer, and counts it.
///
/// # Errors
///
/// The same as those of `say`.
pub(crate) fn turn_down<W: Write>(
    alloc: Global,
    writer: &mut W,
    path: &str,
    answer: &str,
    broke: bool,
) -> Result<Tally, SessionError>
    ensures { IsRefusedLine path.now answer.now broke (W.contents writer.old) (W.contents writer.new) result }
{
    say(alloc, writer, path, b"", answer, refused(broke))
}

/// Writes a path as it is shown in a line, which counts for nothing.
///
/// # Errors
///
/// The same as those of `say`.
pub(crate) fn say_path<W: Write>(
    alloc: Global,
    writer: &mut W,
    path: &str,
) -> Result<Tally, SessionError>
    ensures written { IsLineWritten (W.contents writer.old) (W.contents writer.new) (line_of (shown_text path.now))
        result }
    ensures counted { IsCounted none_counted result }
{
    let mut line = Vec::new(alloc);
    if push_shown(&mut line, path.as_bytes()).is_err() || line.push(b'\n').is_err() {
        return Err(SessionError::NoMemory);
    }
    write_text(writer, &line)?;
    Ok(Tally::none())
}

/// Returns what is counted for a file that was refused.
fn refused(broke: bool) -> Tally
    ensures { result ≡ refused_tally broke }
{
    Tally {
        refused: true,
        broke,
        reason: None,
    }
}

/// Returns what was counted so far, with what was counted for one file more.
pub(crate) fn added(tally: Tally, one: Tally) -> Tally
    ensures { result ≡ added_to tally one }
{
    Tally {
        refused: tally.refused || one.refused,
        broke: tally.broke || one.broke,
        reason: None,
    }
}
