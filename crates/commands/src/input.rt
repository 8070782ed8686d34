//! The lines of an input, byte by byte.
ghost use Rattle.std.specs.Prelude.{◌≡◌, ◌++◌, ◌∷◌, [], List, ℕ, if◌then◌else◌};
ghost use Rattle.spec_language.specs.Common.{fitting, without_return, upper, TooLong};
ghost use Rattle.commands.specs.Common.{IsPartialLine, line_list, text_line};

use arrayvec::ArrayVec;

/// The most bytes that a line may have: a carriage return before its line feed counts, the feed doesn't.
const LINE_BYTES: usize = 255;

/// A line of an input.
#[derive(Clone, Copy, Debug, PartialEq, Eq)]
pub enum InputLine<'a> {
    /// Its bytes, at least one, with letters in upper case.
    Text(&'a [u8]),
    /// It has more than 255 bytes.
    TooLong,
}

/// A line that hasn't ended: its bytes so far, or the fact that there are too many of them.
#[derive(Drop)]
pub struct PartialLine {
    bytes: ArrayVec<u8, LINE_BYTES>,
    is_too_long: bool,
}

impl Default for PartialLine {
    fn default() -> Self {
        PartialLine::new()
    }
}

impl PartialLine {
    /// Returns a line with no byte yet.
    pub fn new() -> Self
        ensures { IsPartialLine result [] }
    {
        PartialLine {
            bytes: ArrayVec::new(),
            is_too_long: false,
        }
    }

    /// Adds one more byte to the line, which is no line feed.
    pub fn push(&mut self, byte: u8)
        ensures { (seen : List ℕ) → IsPartialLine self.old seen → IsPartialLine self.new (seen ++ byte ∷ []) }
    {
        if self.bytes.try_push(upper(byte)).is_err() {
            self.is_too_long = true;
        }
    }

    /// Returns the line that a line feed ends here, without a carriage return just before the feed, or None if it is
    /// empty.
    pub fn ended(&self) -> Option<InputLine<'_>>
        ensures { (seen : List ℕ) → IsPartialLine self.now seen
            → line_list result ≡ fitting seen (without_return seen) }
    {
        input_line(self.is_too_long, without_return(self.bytes.as_slice()))
    }

    /// Returns the line that the end of the input ends here, with all its bytes, or None if it is empty.
    pub fn last(&self) -> Option<InputLine<'_>>
        ensures { (seen : List ℕ) → IsPartialLine self.now seen → line_list result ≡ fitting seen seen }
    {
        input_line(self.is_too_long, self.bytes.as_slice())
    }
}

/// Returns a letter in upper case, and any other byte unchanged.
fn upper(byte: u8) -> u8
    ensures { result ≡ upper byte }
{
    if b'a' <= byte && byte <= b'z' {
        byte - 32
    } else {
        byte
    }
}

/// Returns the bytes without a carriage return at their end.
fn without_return(text: &[u8]) -> &[u8]
    ensures { result.now ≡ without_return text.now }
{
    match text.split_last() {
        Some((last, front)) if *last == b'\r' => front,
        _ => text,
    }
}

/// Returns the line of these bytes, which are in upper case, or None if there are none.
fn input_line(is_too_long: bool, text: &[u8]) -> Option<InputLine<'_>>
    ensures { line_list result ≡ (if is_too_long then TooLong ∷ [] else text_line text.now) }
{
    if is_too_long {
        return Some(InputLine::TooLong);
    }
    if text.is_empty() {
        return None;
    }
    Some(InputLine::Text(text))
}
