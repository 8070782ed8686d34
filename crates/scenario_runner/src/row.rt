//! A worked row: its title, its lines and their alternatives.
use anyhow::{Context, Result};
use std::alloc::Global;

/// A worked row: its title, and its lines.
#[derive(Drop)]
pub struct Row {
    title: String,
    lines: Vec<String>,
}

impl Row {
    /// Returns a row without a title, which isn't played.
    pub fn new(alloc: Global) -> Row {
        Row {
            title: String::new(alloc),
            lines: Vec::new(alloc),
        }
    }

    /// Returns a row with a title and no lines yet.
    pub fn titled(alloc: Global, title: &str) -> Result<Row> {
        Ok(Row {
            title: String::from_str(alloc, title)?,
            lines: Vec::new(alloc),
        })
    }

    /// Adds a line.
    pub fn push(&mut self, line: String) -> Result<()> {
        self.lines.push(line)?;
        Ok(())
    }

    /// Adds the lines of the part of this name.
    pub fn push_part(&mut self, parts: &Vec<Row>, name: &str) -> Result<()> {
        let part = parts
            .iter()
            .find(|part| part.title().strip_prefix("PART ") == Some(name));
        let part = part.context(format_args!("there is no part {name:?}"))?;
        for line in &part.lines {
            self.lines.push(line.clone()?)?;
        }
        Ok(())
    }

    pub fn title(&self) -> &str {
        self.title.as_str()
    }

    pub fn lines(&self) -> &[String] {
        self.lines.as_slice()
    }

    /// Returns how many times the row is played: its lines have numbered alternatives, counted from 0.
    pub fn alternatives(&self) -> usize {
        let mut most = 0;
        for line in &self.lines {
            for other in line.split(" ~").skip(1) {
                most = most.max(number_of(other));
            }
        }
        most.saturating_add(1)
    }
}

/// Returns the number of an alternative: what follows a `~` is this number and its step.
fn number_of(other: &str) -> usize {
    let number = match other.split_once(' ') {
        Some((number, _step)) => number,
        None => other,
    };
    number.parse::<usize>().unwrap_or(0)
}

/// Returns the step of a line: of several alternatives the last one with a number up to this.
pub fn step(line: &str, alternative: usize) -> &str {
    let mut chosen = line.split(" ~").next().unwrap_or("");
    for other in line.split(" ~").skip(1) {
        if number_of(other) <= alternative {
            chosen = match other.split_once(' ') {
                Some((_number, step)) => step,
                None => "",
            };
        }
    }
    chosen
}

/// Returns a step without its remark, which follows a `#`.
pub fn without_remark(step: &str) -> &str {
    match step.split_once('#') {
        Some((step, _remark)) => step.trim(),
        None => step.trim(),
    }
}
