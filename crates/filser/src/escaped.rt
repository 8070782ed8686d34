//! Texts with their control characters escaped.
use std::fmt::{self, Display, Formatter, Write};

/// A text of one line, in which a control character is shown as `\n` or `\u{1b}`, and a mark that turns the direction
/// of writing as `\u{202e}`: so a name can't act on a terminal, nor look like another one or like a line of its own.
#[derive(Clone, Copy, Debug)]
pub struct Escaped<'a>(pub &'a str);

/// A text of several lines that contains words of the command line. Its line feeds stay.
#[derive(Clone, Copy, Debug)]
pub(crate) struct EscapedLines<'a, T: Display>(pub(crate) &'a T);

impl Display for Escaped<'_> {
    fn fmt<W: fmt::Write>(&self, f: &mut Formatter<W>) -> fmt::Result {
        let mut writer = Escaper { f, keeps: None };
        write!(writer, "{}", self.0)
    }
}

impl<T: Display> Display for EscapedLines<'_, T> {
    fn fmt<W: fmt::Write>(&self, f: &mut Formatter<W>) -> fmt::Result {
        let keeps = Some('\n');
        let mut writer = Escaper { f, keeps };
        write!(writer, "{}", self.0)
    }
}

/// Returns whether a character turns the direction in which the text around it is shown.
fn turns_direction(c: char) -> bool {
    matches!(c, '\u{202a}'..='\u{202e}' | '\u{2066}'..='\u{2069}')
}

/// A writer that escapes the control characters of texts, except one, and passes them on.
#[derive(Drop)]
struct Escaper<'a, W: fmt::Write> {
    f: &'a mut Formatter<W>,
    keeps: Option<char>,
}

impl<W: fmt::Write> Escaper<'_, W> {
    /// Returns whether a character is escaped.
    fn escapes(&self, c: char) -> bool {
        (c.is_control() || turns_direction(c)) && self.keeps != Some(c)
    }
}

impl<W: fmt::Write> fmt::Write for Escaper<'_, W> {
    fn write_str(&mut self, s: &str) -> fmt::Result {
        // A text without such characters is written in one call, since the standard error has no buffer.
        if !s.chars().any(|c| self.escapes(c)) {
            return self.f.write_str(s);
        }
        for c in s.chars() {
            if self.escapes(c) {
                write!(self.f, "{}", c.escape_default())?;
            } else {
                self.f.write_char(c)?;
            }
        }
        Ok(())
    }
}
