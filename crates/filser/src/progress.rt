//! The progress of a conversion, as reported on a terminal.
ghost use Rattle.std.specs.Prelude.{◌≡◌};

use blockdisk::{Disk, Fault};
use std::io::Write;
use words36::Block;

/// Work on fewer blocks ends before anybody looks.
const TOLD_BLOCKS: u32 = 8192;

/// Whether the progress of a run is reported.
#[derive(Clone, Copy, Debug, PartialEq, Eq)]
pub enum Telling {
    /// It isn't: perhaps nobody is looking.
    Silent,
    /// It is, by a line of a terminal that is overwritten.
    Progress,
}

/// The progress of the work on a number of blocks, as reported on the standard error. What can't be written there is
/// dropped.
#[derive(Drop)]
struct Progress<'a, E: Write> {
    telling: Telling,
    blocks: u32,
    errors: &'a mut E,
    done: u32,
    percent: u64,
}

impl<'a, E: Write> Progress<'a, E> {
    /// Returns the progress of work on `blocks` blocks, none of which is done yet. It isn't reported if they are few.
    fn new(telling: Telling, blocks: u32, errors: &'a mut E) -> Self {
        let telling = if blocks < TOLD_BLOCKS {
            Telling::Silent
        } else {
            telling
        };
        let mut progress = Progress {
            telling,
            blocks,
            errors,
            done: 0,
            percent: 0,
        };
        progress.report_progress();
        progress
    }

    /// Returns how many hundredths of the blocks are done.
    fn hundredths(&self) -> u64 {
        let done = u64::from(self.done) * 100;
        done.checked_div(u64::from(self.blocks)).unwrap_or(100)
    }

    /// Counts a block that is done. Each hundredth is reported once.
    fn advance(&mut self) {
        self.done = self.done.saturating_add(1);
        let percent = self.hundredths();
        if percent > self.percent {
            self.percent = percent;
            self.report_progress();
        }
    }

    /// Overwrites the line of the report. It names no file, so that it is never wider than the terminal.
    fn report_progress(&mut self) {
        if self.telling == Telling::Progress {
            let _ = write!(self.errors, "\rfilser: convert: {} %", self.percent);
        }
    }

    /// Ends that line, so that the next text begins a new one.
    fn end(&mut self) {
        if self.telling == Telling::Progress {
            let _ = writeln!(self.errors);
        }
    }
}

/// A disk that passes each call to another disk, and reports how many of its blocks are written.
#[derive(Drop)]
pub(crate) struct Watched<'a, D: Disk, E: Write> {
    /// The disk under it.
    pub(crate) inner: D,
    progress: Progress<'a, E>,
}

impl<'a, D: Disk, E: Write> Watched<'a, D, E> {
    /// Returns the same disk, with reports of its writes.
    pub(crate) fn new(inner: D, telling: Telling, errors: &'a mut E) -> Self
        ensures { result.inner ≡ inner }
    {
        let blocks = inner.blocks();
        Watched {
            inner,
            progress: Progress::new(telling, blocks, errors),
        }
    }

    /// Ends the line of the report.
    pub(crate) fn end(&mut self)
        ensures { self.new.inner ≡ self.old.inner }
    {
        self.progress.end();
    }
}

impl<D: Disk, E: Write> Disk for Watched<'_, D, E> {
    ghost state = { λ disk. D.state disk.inner };

    ghost counts_now = { λ disk t c h le left. D.counts_now disk.inner t c h le left };

    ghost only_now = { λ disk c h left. D.only_now disk.inner c h left };

    ghost reaches_back = { λ disk t u c h le left. D.reaches_back disk.inner t u c h le left };

    fn blocks(&self) -> u32 {
        self.inner.blocks()
    }

    fn read(&mut self, n: u32) -> Result<Block, Fault> {
        self.inner.read(n)
    }

    fn write(&mut self, n: u32, block: &Block) -> Result<(), Fault> {
        let written = self.inner.write(n, block);
        if written.is_ok() {
            self.progress.advance();
        }
        written
    }

    fn sync(&mut self) -> Result<(), Fault> {
        self.inner.sync()
    }
}
