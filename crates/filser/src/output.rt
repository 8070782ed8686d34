//! A writer that remembers its first fault.
ghost use Rattle.std.specs.Prelude.{◌≡◌, IfOk, None, Some, false, length, true};
ghost use Rattle.std.specs.Option.{option_or};
ghost use Rattle.std.specs.Io.{WritesAtMost};
ghost use Rattle.std.specs.Io.KnownBytes.{Keeps, WriteAppends};
ghost use Rattle.filser.specs.Common.{fault_of_flush, fault_of_write};

use std::io::{self, Write};
use thiserror::Error;

/// Why the standard output failed, as reported on the standard error.
#[derive(Clone, Copy, Debug, Error)]
pub enum OutputFault {
    /// A system call failed.
    #[error(transparent)]
    System(io::Error),
    /// It was given bytes and took none.
    #[error("it can't be written")]
    NoByte,
}

/// A writer that knows why it first failed.
#[derive(Drop)]
pub struct OutputWriter<W: Write> {
    writer: W,
    fault: Option<OutputFault>,
    /// Whether all that it took was flushed.
    is_flushed: bool,
}

impl<W: Write> OutputWriter<W> {
    /// Returns a writer that passes what it takes to this one. It has not failed yet.
    pub fn new(writer: W) -> Self
        ensures { (result.writer ≡ writer) × (result.fault ≡ None) }
    {
        OutputWriter {
            writer,
            fault: None,
            is_flushed: true,
        }
    }

    /// Returns why it first failed, if it did.
    pub(crate) fn fault(&self) -> Option<OutputFault>
        ensures { result ≡ self.now.fault }
    {
        self.fault
    }

    /// Records a fault, unless there was one before.
    fn keep(&mut self, fault: OutputFault)
        ensures writer { self.new.writer ≡ self.old.writer }
        ensures flushed { self.new.is_flushed ≡ self.old.is_flushed }
        ensures kept { self.new.fault ≡ option_or self.old.fault (Some fault) }
    {
        self.fault = self.fault.or(Some(fault));
    }
}

impl<W: Write> Write for OutputWriter<W> {
    ghost contents = { λ output. W.contents output.writer };

    fn write(&mut self, buf: &[u8]) -> io::Result<usize>
        ensures bound { WritesAtMost result buf.now }
        ensures bytes { WriteAppends (W.contents self.old.writer) (W.contents self.new.writer) result buf.now }
        ensures first { self.new.fault ≡ option_or self.old.fault (fault_of_write (length buf.now) result) }
        ensures held { self.new.is_flushed ≡ false }
    {
        self.is_flushed = false;
        let count = self.writer.write(buf);
        match count {
            Ok(0) if !buf.is_empty() => self.keep(OutputFault::NoByte),
            Ok(_) => {}
            Err(error) => self.keep(OutputFault::System(error)),
        }
        count
    }

    fn flush(&mut self) -> io::Result<()>
        ensures bytes { Keeps (W.contents self.old.writer) (W.contents self.new.writer) }
        ensures first { self.new.fault ≡ option_or self.old.fault (fault_of_flush result) }
        ensures flushed { IfOk result (λ unit. self.new.is_flushed ≡ true) }
    {
        let flushed = self.writer.flush();
        match flushed {
            Ok(()) => self.is_flushed = true,
            Err(error) => self.keep(OutputFault::System(error)),
        }
        flushed
    }
}
