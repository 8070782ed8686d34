//! Plays texts of worked rows: each row is played over a disk in memory, from a start to the next; lines of calls go
//! through `script`, and lines of commands through `session`. The meaning of a line is described at the top of the text
//! that the program `scenarios` plays, next to its sources. This crate promises nothing: it tests and measures the
//! crates below.
#![tactic(auto)]

mod counting_disk;
mod desk;
mod disks;
mod fields;
mod row;
mod steps;
mod stops;

use anyhow::Result;
use row::Row;
use std::alloc::Global;
use std::mem;
use stops::{Manner, Stops, play_stops};

/// Plays each row of the input, and prints what comes out otherwise. Returns how many lines did.
pub fn play_all(rt: &(impl Print + Input), alloc: Global) -> Result<u64> {
    let mut parts = Vec::new(alloc);
    let mut row = Row::new(alloc);
    let mut mistakes = 0u64;
    for line in rt.lines(alloc) {
        let line = line?;
        if is_title(&line) {
            let begun = mem::replace(&mut row, Row::titled(alloc, &line)?);
            mistakes = mistakes.saturating_add(run_row(rt, alloc, &begun)?);
            parts.push(begun)?;
        } else if let Some(name) = line.strip_prefix('@') {
            row.push_part(&parts, name)?;
        } else {
            row.push(line)?;
        }
    }
    Ok(mistakes.saturating_add(run_row(rt, alloc, &row)?))
}

/// Returns whether a row begins with a line.
fn is_title(line: &str) -> bool {
    let (word, _title) = line.split_once(' ').unwrap_or((line, ""));
    matches!(word, "ROW" | "STOPS" | "FAULTS" | "PART")
}

/// Plays a row with each of its alternatives, and prints its title. A part is played only in rows.
fn run_row(rt: &impl Print, alloc: Global, row: &Row) -> Result<u64> {
    if let Some(title) = row.title().strip_prefix("STOPS ") {
        return play_stopped(rt, alloc, row, title, Manner::Stops);
    }
    if let Some(title) = row.title().strip_prefix("FAULTS ") {
        return play_stopped(rt, alloc, row, title, Manner::Faults);
    }
    let Some(title) = row.title().strip_prefix("ROW ") else {
        return Ok(0);
    };
    let mut mistakes = 0u64;
    let times = row.alternatives();
    for alternative in 0..times {
        mistakes = mistakes.saturating_add(disks::play_once(rt, alloc, row, alternative)?);
    }
    match mistakes {
        0 => println!(rt; "{title}: {times} played")?,
        _ => println!(rt; "{title}: {mistakes} lines came out otherwise")?,
    }
    Ok(mistakes)
}

/// Plays a row that is stopped at each call of its disk, and prints its title.
fn play_stopped(
    rt: &impl Print,
    alloc: Global,
    row: &Row,
    title: &str,
    manner: Manner,
) -> Result<u64> {
    let Stops { starts, mistakes } = play_stops(rt, alloc, row, manner)?;
    match mistakes {
        0 => println!(rt; "{title}: started {starts} times, as before or after")?,
        _ => println!(rt; "{title}: {mistakes} of {starts} starts came out otherwise")?,
    }
    Ok(mistakes)
}
