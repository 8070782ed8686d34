//! The days that texts name.
ghost use Rattle.std.specs.Prelude.{IfSome, IfNone, ℕ, List};
ghost use Rattle.commands.specs.Common.{AreDayFirst, AreDayParts, AreYearFirst, IsDayText, IsHyphened, IsAtHyphen};
ghost use Rattle.commands.specs.Common.{IsMonthName};

use crate::fields::{decimal_number, length_before};
use crate::text::month_text;
use words36::date_of;

/// The number of months in a year.
const MONTHS: u32 = 12;

/// Returns the month that a text names, counted from 1: `Jan` to `Dec`, with letters of either case.
fn month_named(text: &[u8]) -> Option<u32>
    ensures some { IfSome result (λ month. IsMonthName text.now month) }
    ensures none { IfNone result ((month : ℕ) → IsMonthName text.now month → ⊥) }
{
    for month in 0..MONTHS {
        if text.eq_ignore_ascii_case(month_text(month).as_bytes()) {
            return Some(month + 1);
        }
    }
    None
}

/// Returns what a text has before its first hyphen, and after it.
fn at_hyphen(text: &[u8]) -> Option<(&[u8], &[u8])>
    ensures some { IfSome result (λ parts. IsAtHyphen text.now parts.0.now parts.1.now) }
    ensures none { IfNone result ((before after : List ℕ) → IsAtHyphen text.now before after → ⊥) }
{
    let (before, rest) = text.split_at(length_before(text, b'-'));
    let (_, after) = rest.split_first()?;
    Some((before, after))
}

/// Returns the three parts of a text, with hyphens between them.
fn hyphened(text: &[u8]) -> Option<(&[u8], &[u8], &[u8])>
    ensures some { IfSome result (λ parts. IsHyphened text.now parts.0.now parts.1.now parts.2.now) }
    ensures none { IfNone result ((first second third : List ℕ) → IsHyphened text.now first second third → ⊥) }
{
    let (first, rest) = at_hyphen(text)?;
    let (second, third) = at_hyphen(rest)?;
    Some((first, second, third))
}

/// Returns the year, the month and the day of `1975-01-04`, whose parts these are.
fn year_first(first: &[u8], second: &[u8], third: &[u8]) -> Option<(u32, u32, u32)>
    ensures some { IfSome result (λ day. AreYearFirst first.now second.now third.now day.0 day.1 day.2) }
    ensures none { IfNone result ((year month day : ℕ)
        → AreYearFirst first.now second.now third.now year month day → ⊥) }
{
    let year = decimal_number(first, 4, 4)?;
    let month = decimal_number(second, 2, 2)?;
    let day = decimal_number(third, 2, 2)?;
    Some((year, month, day))
}

/// Returns the year, the month and the day of `4-Jan-1975`, whose parts these are.
fn day_first(first: &[u8], second: &[u8], third: &[u8]) -> Option<(u32, u32, u32)>
    ensures some { IfSome result (λ day. AreDayFirst first.now second.now third.now day.0 day.1 day.2) }
    ensures none { IfNone result ((year month day : ℕ)
        → AreDayFirst first.now second.now third.now year month day → ⊥) }
{
    let day = decimal_number(first, 1, 2)?;
    let month = month_named(second)?;
    let year = decimal_number(third, 4, 4)?;
    Some((year, month, day))
}

/// Returns the year, the month and the day that three parts name.
fn day_parts(first: &[u8], second: &[u8], third: &[u8]) -> Option<(u32, u32, u32)>
    ensures some { IfSome result (λ day. AreDayParts first.now second.now third.now day.0 day.1 day.2) }
    ensures none { IfNone result ((year month day : ℕ)
        → AreDayParts first.now second.now third.now year month day → ⊥) }
{
    match year_first(first, second, third) {
        Some(day) => Some(day),
        None => day_first(first, second, third),
    }
}

/// Returns the number of the day that a text names: `1975-01-04`, or `4-Jan-1975` with a day of one or two digits.
pub fn date_named(text: &[u8]) -> Option<u32>
    ensures some { IfSome result (λ date. IsDayText text.now date) }
    ensures none { IfNone result ((date : ℕ) → IsDayText text.now date → ⊥) }
{
    let (first, second, third) = hyphened(text)?;
    let (year, month, day) = day_parts(first, second, third)?;
    date_of(year, month, day).ok()
}
