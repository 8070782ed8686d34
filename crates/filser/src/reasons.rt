//! The reports of why lines or an input were refused.
use crate::Status;
use crate::fault::{report, report_no_memory};
use commands::{Misfit, Reason, RefusedLines, SessionError, Tally};
use std::io::Write;
use volume::Layout;
use words36::Moment;

/// Where lines and files come from, as reported.
const INPUT: &str = "standard input";

/// Reports that every call will be refused, if the requested date is past those of the volume. No date is past those of
/// layout 2, so the day that is reported is the last one of layout 1.
pub(crate) fn report_late_date<E: Write>(errors: &mut E, moment: Option<Moment>, layout: Layout) {
    let Some(at) = moment else {
        return;
    };
    let date = at.date;
    let last = layout.last_date();
    if date > last {
        let _ = writeln!(
            errors,
            "filser: --date {date}: this volume has dates up to {last} (4-Jan-1975)"
        );
    }
}

/// Reports why a run was refused, if it was and nothing worse happened, or that it broke off for lack of memory.
pub(crate) fn report_ending<E: Write>(
    errors: &mut E,
    status: Status,
    talked: &Result<Tally, SessionError>,
) {
    match talked {
        Ok(tally) if status == Status::Refused => report_refusal(errors, tally.reason),
        Err(SessionError::NoMemory) => report_no_memory(errors),
        // The file of an image reports its own fault, and a run that of a stream at its end.
        Ok(_) | Err(SessionError::Read | SessionError::Write) => {}
    }
}

/// Reports why lines or an input were refused.
fn report_refusal<E: Write>(errors: &mut E, reason: Option<Reason>) {
    match reason {
        Some(Reason::Lines(lines)) => report_lines(errors, lines),
        Some(Reason::Input(misfit)) => report_misfit(errors, misfit),
        None => {}
    }
}

/// Reports how many lines were refused, and which is the first.
fn report_lines<E: Write>(errors: &mut E, lines: RefusedLines) {
    let RefusedLines { count, first } = lines;
    if count == 1 {
        report(errors, INPUT, &format_args!("line {first} was refused"));
    } else {
        report(
            errors,
            INPUT,
            &format_args!("{count} lines were refused, the first is line {first}"),
        );
    }
}

/// Reports why the input can't be a file.
fn report_misfit<E: Write>(errors: &mut E, misfit: Misfit) {
    match misfit {
        Misfit::Byte(byte, place) => report(
            errors,
            INPUT,
            &format_args!("byte {byte} at {place} isn't text (1 to 127); --bytes stores any bytes"),
        ),
        Misfit::Length(count) => report(
            errors,
            INPUT,
            &format_args!("{count} bytes, which is no multiple of eight"),
        ),
        Misfit::Word(place) => report(
            errors,
            INPUT,
            &format_args!("word {place} has bits above its 36"),
        ),
        Misfit::Excess(most) => report(
            errors,
            INPUT,
            &format_args!("more than {most} bytes, which no file can hold"),
        ),
    }
}
