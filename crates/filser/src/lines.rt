//! A reader that counts lines and remembers its fault.
ghost use Rattle.std.specs.Io.{ReadsAtMost};
ghost use Rattle.std.specs.Io.KnownBytes.{ReadConsumes};
ghost use Rattle.std.specs.Prelude.{◌≡◌, ◌==◌, ◌+◌, ◌-◌, ◌^◌, MatchResult, None, Some, count_by, min, option_map, take};

use std::io::{self, Read};

/// A reader that knows the number of its line, and why it failed.
#[derive(Drop)]
pub struct LineReader<R: Read> {
    reader: R,
    line: u64,
    fault: Option<io::Error>,
}

impl<R: Read> LineReader<R> {
    /// Returns the lines of this reader, from the first one.
    pub fn new(reader: R) -> Self
        ensures { (result.reader ≡ reader) × (result.fault ≡ None) }
    {
        LineReader {
            reader,
            line: 1,
            fault: None,
        }
    }

    /// Returns why the input broke off, if it did, and the number of the line in which it did: decimal, from 1.
    pub(crate) fn fault(&self) -> Option<(u64, io::Error)>
        ensures { result ≡ option_map (λ fault. (self.now.line, fault)) self.now.fault }
    {
        match self.fault {
            Some(fault) => Some((self.line, fault)),
            None => None,
        }
    }
}

/// Returns how many lines end in these bytes.
fn ends_in(bytes: &[u8]) -> u64
    ensures { result ≡ count_by (λ byte. byte == 10) bytes.now }
{
    bytes.iter().filter(|byte| **byte == b'\n').count() as u64
}

impl<R: Read> Read for LineReader<R> {
    ghost remaining = { λ lines. R.remaining lines.reader };

    fn read(&mut self, buf: &mut [u8]) -> io::Result<usize>
        ensures bound { ReadsAtMost result buf.new }
        ensures bytes { ReadConsumes (R.remaining self.old.reader) (R.remaining self.new.reader) result buf.new }
        ensures line { MatchResult result (λ count. self.new.line
            ≡ min (self.old.line + count_by (λ byte. byte == 10) (take count buf.new)) (2 ^ 64 - 1))
            (λ fault. self.new.line ≡ self.old.line) }
        ensures fault { MatchResult result (λ count. self.new.fault ≡ self.old.fault)
            (λ fault. self.new.fault ≡ Some fault) }
    {
        let count = self.reader.read(buf);
        match count {
            Ok(count) => self.line = self.line.saturating_add(ends_in(&buf[..count])),
            Err(fault) => self.fault = Some(fault),
        }
        count
    }
}
