//! The moments of files and the seconds of the host's calendar, in UTC.
ghost use Rattle.std.specs.Prelude.{◌≡◌, ◌≤◌, ◌+◌, ◌*◌, IfSome, IfNone, ℕ, ℤ, pos, ◌*ℤ◌};
ghost use Rattle.jiff_core.specs.Timestamp.{IsTimestampNanos};
ghost use Rattle.collection.specs.Common.{IsAtSecond, IsDayAt, IsShownAt, IsUndated, at_first};

use jiff_core::civil::{Date, DateTime, Time};
use jiff_core::{Offset, Timestamp};
use words36::{Moment, date_of, day_of};

/// The number of nanoseconds in a second.
const NANOSECONDS: i128 = 1_000_000_000;

/// The number of minutes in an hour.
const HOUR: u32 = 60;

/// Returns what the calendar shows at a second, if that is near enough.
fn shown_at(second: i64) -> Option<DateTime>
    ensures some { IfSome result (IsShownAt second) }
    ensures none { IfNone result (IsTimestampNanos (second *ℤ pos 1_000_000_000) → ⊥) }
{
    match Timestamp::from_nanosecond(i128::from(second) * NANOSECONDS) {
        Ok(instant) => Some(Offset::UTC.to_datetime(instant)),
        Err(_) => None,
    }
}

/// Returns the second at which the calendar shows this, if it is the beginning of one, and near enough.
fn second_at(shown: DateTime) -> Option<i64>
    ensures some { IfSome result (λ second. IsShownAt second shown) }
    ensures none { IfNone result ((second : ℤ) → IsShownAt second shown
        → IsTimestampNanos (second *ℤ pos 1_000_000_000) → ⊥) }
{
    let instant = Offset::UTC.to_timestamp(shown).ok()?;
    let second = i64::try_from(instant.nanosecond / NANOSECONDS).ok()?;
    if i128::from(second) * NANOSECONDS == instant.nanosecond {
        Some(second)
    } else {
        None
    }
}

/// Returns the number of a day of the calendar, if a file can have it.
fn number_of(day: Date) -> Option<u32>
    ensures some { IfSome result (IsDayAt day) }
    ensures none { IfNone result ((number : ℕ) → IsDayAt day number → ⊥) }
{
    if day.year < 0 {
        return None;
    }
    match date_of(day.year as u32, u32::from(day.month), u32::from(day.day)) {
        Ok(number) => Some(number),
        Err(_) => None,
    }
}

/// Returns the day of the calendar that has this number, if there is one.
fn calendar_day(number: u32) -> Option<Date>
    ensures some { IfSome result (λ day. IsDayAt day number) }
    ensures none { IfNone result ((day : Date) → IsDayAt day number → ⊥) }
{
    let day = day_of(number).ok()?;
    match Date::new(day.year as i16, day.month as i8, day.day as i8) {
        Ok(day) => Some(day),
        Err(_) => None,
    }
}

/// Returns the minute of a time of day.
fn minute_of(time: Time) -> u32
    ensures value { result ≡ 60 * time.hour + time.minute }
    ensures few { result ≤ 1439 }
{
    HOUR * u32::from(time.hour) + u32::from(time.minute)
}

/// Returns the moment of a date and a minute.
fn moment_at(date: u32, minute: u32) -> Moment
    requires date { date ≤ 32767 }
    requires minute { minute ≤ 1439 }
    ensures date { result.date ≡ date }
    ensures minute { result.minute ≡ minute }
{
    Moment::new(date, minute).unwrap()
}

/// Returns the moment of a second, counted from the beginning of 1970 in UTC, if a file can have its date.
pub fn moment_of(second: i64) -> Option<Moment>
    ensures some { IfSome result (IsAtSecond second) }
    ensures none { IfNone result (IsUndated second) }
{
    let shown = shown_at(second)?;
    match number_of(shown.date) {
        Some(date) => Some(moment_at(date, minute_of(shown.time))),
        None => None,
    }
}

/// Returns the time of day at the beginning of a minute.
fn time_of(minute: u32) -> Time
    requires { minute ≤ 1439 }
    ensures minute { minute ≡ 60 * result.hour + result.minute }
    ensures begins { (result.second ≡ 0) × (result.subsec_nanosecond ≡ 0) }
{
    Time::new((minute / HOUR) as i8, (minute % HOUR) as i8, 0, 0).unwrap()
}

/// Returns the first second of a moment, counted from the beginning of 1970 in UTC, if its date is a day of the
/// calendar.
pub fn second_of(moment: Moment) -> Option<i64>
    ensures some { IfSome result (λ second. IsAtSecond second moment) }
    ensures none { IfNone result ((second : ℤ) → IsAtSecond second moment → ⊥) }
{
    let date = calendar_day(moment.date)?;
    let time = time_of(moment.minute);
    let second = second_at(DateTime { date, time })?;
    Some(second)
}

/// Returns the moment for calls whose moment doesn't matter: date 0, minute 0.
pub(crate) fn first_moment() -> Moment
    ensures { at_first result }
{
    Moment::new(0, 0).unwrap()
}
