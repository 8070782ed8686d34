//! The steps of a row: sessions, events, and words of a core.
use crate::desk::Desk;
use crate::fields::{decimal, decimal_or, field, octal, owner};
use crate::row::{step, without_remark};
use anyhow::Result;
use blockdisk::Disk;
use commands::{Monitor, script, session};
use std::alloc::Global;
use std::str;
use words36::Moment;

/// Plays the lines of a row.
pub fn play_steps<D: Disk>(
    rt: &impl Print,
    monitor: &mut Monitor<D>,
    desk: &mut Desk,
    lines: &[String],
) -> Result<()> {
    for line in lines {
        let line = step(line, desk.alternative);
        if let Some(asked) = line.strip_prefix("> ") {
            if !desk.wanted.is_empty() {
                end_session(rt, monitor, desk)?;
            }
            desk.ask(asked)?;
        } else if let Some(wanted) = line.strip_prefix("| ") {
            desk.want(wanted)?;
        } else {
            end_session(rt, monitor, desk)?;
            play_step(rt, monitor, desk, without_remark(line))?;
        }
    }
    end_session(rt, monitor, desk)
}

/// Plays the session whose lines were read, if there is one, and checks what it prints.
fn end_session<D: Disk>(rt: &impl Print, monitor: &mut Monitor<D>, desk: &mut Desk) -> Result<()> {
    if desk.asked.is_empty() {
        return Ok(());
    }
    let printed = talk(desk.alloc, monitor, desk.moment, desk.asked.as_bytes())?;
    let wanted = desk.wanted.clone()?;
    desk.expect(rt, "a session", wanted.as_str(), str::from_utf8(&printed)?)?;
    desk.asked.clear();
    desk.wanted.clear();
    Ok(())
}

/// Returns what a session prints.
fn talk<D: Disk>(
    alloc: Global,
    monitor: &mut Monitor<D>,
    moment: Moment,
    lines: &[u8],
) -> Result<Vec<u8>> {
    let mut reader = lines;
    let mut writer = Vec::new(alloc);
    session(alloc, &mut reader, &mut writer, monitor, moment)?;
    Ok(writer)
}

/// Returns the answer to a line of a call script.
fn answer<D: Disk>(
    alloc: Global,
    monitor: &mut Monitor<D>,
    moment: Moment,
    line: &[u8],
) -> Result<Vec<u8>> {
    let mut reader = line;
    let mut writer = Vec::new(alloc);
    script(alloc, &mut reader, &mut writer, monitor, moment)?;
    Ok(writer)
}

/// Checks the answer to an event.
fn expect_answer<D: Disk>(
    rt: &impl Print,
    monitor: &mut Monitor<D>,
    desk: &mut Desk,
    event: &str,
    wanted: &str,
) -> Result<()> {
    let reply = answer(desk.alloc, monitor, desk.moment, event.as_bytes())?;
    desk.expect(rt, event, wanted, str::from_utf8(&reply)?.trim())?;
    Ok(())
}

/// Plays a line that isn't part of a session.
fn play_step<D: Disk>(
    rt: &impl Print,
    monitor: &mut Monitor<D>,
    desk: &mut Desk,
    line: &str,
) -> Result<()> {
    let Some((times, events)) = line.split_once(" TIMES ") else {
        return play_event(rt, monitor, desk, line);
    };
    for turn in 1..=times.parse::<u32>()? {
        let turn = format!(in desk.alloc; "{turn:o}")?;
        let events = events.replace(desk.alloc, "%", &turn)?;
        for event in events.split(" ; ") {
            play_event(rt, monitor, desk, event)?;
        }
    }
    Ok(())
}

/// Plays a step of a line.
fn play_event<D: Disk>(
    rt: &impl Print,
    monitor: &mut Monitor<D>,
    desk: &mut Desk,
    line: &str,
) -> Result<()> {
    let (event, wanted) = line.split_once(" = ").unwrap_or((line, "DONE"));
    if let Some((event, _)) = event
        .strip_prefix('"')
        .and_then(|event| event.split_once('"'))
    {
        return expect_answer(rt, monitor, desk, event, wanted);
    }
    let fields: Vec<&str> = event.split_whitespace().collect(desk.alloc)?;
    match fields.first().copied() {
        None | Some("RAW" | "VOLUME" | "WRITTEN" | "BLOCK" | "ALL" | "DAMAGE" | "LEFT" | "COST") =>
            Ok(()),
        Some("REFUSED") => {
            desk.expect(rt, "a start", line, "an accepted disk")?;
            Ok(())
        }
        Some("AT") => {
            desk.moment = Moment::new(decimal(&fields, 1)?, decimal(&fields, 2)?)?;
            Ok(())
        }
        Some("ROOM") => {
            let room = format!(in desk.alloc; "ROOM {}", monitor.room())?;
            desk.expect(rt, line, line, room.as_str())?;
            Ok(())
        }
        Some("BLOCKS") => {
            let blocks = format!(in desk.alloc; "BLOCKS {}", monitor.blocks())?;
            desk.expect(rt, line, line, blocks.as_str())?;
            Ok(())
        }
        Some("CHARGE") => expect_charge(rt, monitor, desk, &fields, wanted),
        Some(_) => play_words(rt, monitor, desk, &fields, (event, wanted)),
    }
}

/// Plays `CHARGE [p,n]`: checks which quota and which charge a directory has, or that there is none.
fn expect_charge<D: Disk>(
    rt: &impl Print,
    monitor: &Monitor<D>,
    desk: &mut Desk,
    fields: &[&str],
    wanted: &str,
) -> Result<()> {
    let found = match monitor.charge(owner(fields, 1)?) {
        Some(charge) => format!(in desk.alloc; "{} {}", charge.quota, charge.used)?,
        None => String::from_str(desk.alloc, "None")?,
    };
    desk.expect(rt, "CHARGE", wanted, found.as_str())?;
    Ok(())
}

/// Plays a step about several words, or one event.
fn play_words<D: Disk>(
    rt: &impl Print,
    monitor: &mut Monitor<D>,
    desk: &mut Desk,
    fields: &[&str],
    (event, wanted): (&str, &str),
) -> Result<()> {
    match fields.get(1).copied() {
        Some("DEPS") => deposit_words(rt, monitor, desk, fields),
        Some("EXAS") => examine_words(rt, monitor, desk, fields),
        Some("FILL") => fill(rt, monitor, desk, fields),
        Some("HAS") => expect_words(rt, monitor, desk, fields),
        _ => expect_answer(rt, monitor, desk, event, wanted),
    }
}

/// Plays `J DEPS ADDR WORD ..`: deposits these words in a core from an address.
fn deposit_words<D: Disk>(
    rt: &impl Print,
    monitor: &mut Monitor<D>,
    desk: &mut Desk,
    fields: &[&str],
) -> Result<()> {
    let mut address = octal(fields, 2)?;
    for word in fields.iter().skip(3) {
        let event = format!(in desk.alloc; "{} DEP {address:o} {word}", field(fields, 0))?;
        expect_answer(rt, monitor, desk, event.as_str(), "DONE")?;
        address = address.saturating_add(1);
    }
    Ok(())
}

/// Plays `J EXAS ADDR WORD ..`: examines the words of a core from an address, and checks that they are these.
fn examine_words<D: Disk>(
    rt: &impl Print,
    monitor: &mut Monitor<D>,
    desk: &mut Desk,
    fields: &[&str],
) -> Result<()> {
    let mut address = octal(fields, 2)?;
    for place in 3..fields.len() {
        let event = format!(in desk.alloc; "{} EXA {address:o}", field(fields, 0))?;
        let wanted = format!(in desk.alloc; "VALUE {:012o}", octal(fields, place)?)?;
        expect_answer(rt, monitor, desk, event.as_str(), wanted.as_str())?;
        address = address.saturating_add(1);
    }
    Ok(())
}

/// Plays `J FILL ADDR COUNT FIRST STEP`: deposits COUNT words, each by STEP more than the one before it, in decimal. If
/// STEP is missing, it is 1.
fn fill<D: Disk>(
    rt: &impl Print,
    monitor: &mut Monitor<D>,
    desk: &mut Desk,
    fields: &[&str],
) -> Result<()> {
    let (address, first) = (octal(fields, 2)?, decimal(fields, 4)?);
    let step = decimal_or(fields, 5, 1)?;
    for place in 0..decimal(fields, 3)? {
        let address = address.wrapping_add(u64::from(place));
        let word = first.wrapping_add(place.wrapping_mul(step));
        let event = format!(in desk.alloc; "{} DEP {address:o} {word:o}", field(fields, 0))?;
        expect_answer(rt, monitor, desk, event.as_str(), "DONE")?;
    }
    Ok(())
}

/// Plays `J HAS ADDR COUNT FIRST STEP`: checks that these words are in a core from an address.
fn expect_words<D: Disk>(
    rt: &impl Print,
    monitor: &mut Monitor<D>,
    desk: &mut Desk,
    fields: &[&str],
) -> Result<()> {
    let (address, first) = (octal(fields, 2)?, decimal(fields, 4)?);
    let step = decimal_or(fields, 5, 1)?;
    for place in 0..decimal(fields, 3)? {
        let address = address.wrapping_add(u64::from(place));
        let word = first.wrapping_add(place.wrapping_mul(step));
        let event = format!(in desk.alloc; "{} EXA {address:o}", field(fields, 0))?;
        let wanted = format!(in desk.alloc; "VALUE {word:012o}")?;
        expect_answer(rt, monitor, desk, event.as_str(), wanted.as_str())?;
    }
    Ok(())
}
