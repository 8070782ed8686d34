//! The state of a row while it is played, and its expectations.
use anyhow::Result;
use std::alloc::{AllocError, Global};
use std::io;
use words36::Moment;

/// The state of a row while it is played.
#[derive(Drop)]
pub struct Desk {
    /// The allocator of texts.
    pub alloc: Global,
    /// The number of the alternatives that are played.
    pub alternative: usize,
    /// The moment of its calls.
    pub moment: Moment,
    /// The lines of a session that isn't played yet.
    pub asked: String,
    /// The text that it must print.
    pub wanted: String,
    /// The number of lines that came out otherwise.
    pub mistakes: u64,
    /// The number of events that came out as wanted.
    pub answered: usize,
    /// Whether an event met the fault of the disk, so that each one after it finds a service that has failed.
    pub has_failed: bool,
    /// Whether the disk may fail.
    may_fail: bool,
    /// Whether mistakes are counted and not printed.
    is_silent: bool,
}

impl Desk {
    /// Returns the state before the first line is played.
    pub fn new(alloc: Global, alternative: usize) -> Result<Desk> {
        Ok(Desk {
            alloc,
            alternative,
            moment: Moment::new(0, 0)?,
            asked: String::new(alloc),
            wanted: String::new(alloc),
            mistakes: 0,
            answered: 0,
            has_failed: false,
            may_fail: false,
            is_silent: false,
        })
    }

    /// Returns such a state with which nothing is printed.
    pub fn silent(alloc: Global, alternative: usize) -> Result<Desk> {
        let mut desk = Desk::new(alloc, alternative)?;
        desk.is_silent = true;
        Ok(desk)
    }

    /// Returns such a state for a disk that may fail: after the event that meets the fault the service has failed.
    pub fn failing(alloc: Global) -> Result<Desk> {
        let mut desk = Desk::silent(alloc, 0)?;
        desk.may_fail = true;
        Ok(desk)
    }

    /// Adds a line to the session.
    pub fn ask(&mut self, line: &str) -> Result<(), AllocError> {
        push_line(&mut self.asked, line)
    }

    /// Adds a line to the text that the session must print.
    pub fn want(&mut self, line: &str) -> Result<(), AllocError> {
        push_line(&mut self.wanted, line)
    }

    /// Counts and prints a mistake if something isn't as a line wants it.
    pub fn expect(
        &mut self,
        rt: &impl Print,
        line: &str,
        wanted: &str,
        found: &str,
    ) -> io::Result<()> {
        if self.comes_out(wanted, found) {
            return Ok(());
        }
        self.mistakes = self.mistakes.saturating_add(1);
        if self.is_silent {
            return Ok(());
        }
        let alternative = self.alternative;
        println!(rt; "? {line}: {found} in place of {wanted} (alternative {alternative})")
    }

    /// Returns whether an event or a session comes out as is wanted, or as it must if the disk fails.
    fn comes_out(&mut self, wanted: &str, found: &str) -> bool {
        let asked = self.asked.lines().count();
        if self.has_failed {
            return is_failed(found, asked);
        }
        if wanted == found {
            self.answered = self.answered.saturating_add(1);
            return true;
        }
        self.has_failed = self.may_fail && meets_fault(wanted, found, asked);
        self.has_failed
    }
}

/// Returns whether an event, a session of `asked` lines or a start answers that the device failed. A session does so
/// after a part of the text that it must print, in which each line before printed one or more, and each line after it
/// stops.
fn meets_fault(wanted: &str, found: &str, asked: usize) -> bool {
    match found.split_once("?Device fault\n") {
        Some((printed, behind)) => {
            let before = printed.lines().count();
            let after = behind.lines().count();
            wanted.starts_with(printed)
                && behind.lines().all(|line| line == "?Service stopped")
                && after < asked
                && asked.saturating_sub(after) <= before.saturating_add(1)
        }
        None => found == "DEVICE" || found == "REFUSED device fault",
    }
}

/// Returns whether a service that has failed answers an event, or a session of `asked` lines: nobody logs in any more.
fn is_failed(found: &str, asked: usize) -> bool {
    if asked == 0 {
        return found == "FAILED";
    }
    found.starts_with("?Service stopped\n")
        && found.lines().all(is_line_of_failed)
        && found.lines().count() == asked
}

/// Returns whether a line is what a session prints then.
fn is_line_of_failed(line: &str) -> bool {
    line == "?Service stopped" || line == "?Not logged in"
}

/// Appends a line to a text. At its end `\r` means a carriage return, and `\c` means that no line feed follows.
fn push_line(text: &mut String, line: &str) -> Result<(), AllocError> {
    if let Some(line) = line.strip_suffix("\\c") {
        return text.push_str(line);
    }
    match line.strip_suffix("\\r") {
        Some(line) => {
            text.push_str(line)?;
            text.push('\r')?;
        }
        None => text.push_str(line)?,
    }
    text.push('\n')?;
    Ok(())
}
