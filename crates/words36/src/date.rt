//! The machine's dates: days as numbers.
ghost use Rattle.std.specs.Prelude.{◌≡◌, ◌≤◌, ◌↔◌, IfOk, IfErr, IsOk};
ghost use Rattle.words36.specs.Common.{date_number, IsDate, IsDayOf};

use crate::WordError;

/// A day of the calendar. Every month has days 1 to 31.
#[derive(Clone, Copy, Debug, PartialEq, Eq)]
pub struct Day {
    /// 1964 to 2052.
    pub year: u32,
    /// 1 to 12.
    pub month: u32,
    /// 1 to 31.
    pub day: u32,
}

/// Returns the number of a day.
///
/// # Errors
///
/// `DateRange` for a year before 1964, a month that isn't 1 to 12, a day that isn't 1 to 31, or a day
/// after 1 February 2052, whose number is 32767.
pub fn date_of(year: u32, month: u32, day: u32) -> Result<u32, WordError>
    ensures value { IfOk result (λ date. date ≡ date_number year month day) }
    ensures reads_back { IfOk result (λ date. IsDayOf date year month day) }
    ensures accepts { IsOk result ↔ IsDate year month day }
    ensures refused { IfErr result (λ error. error ≡ WordError.DateRange) }
{
    if !(1964..=2052).contains(&year) || !(1..=12).contains(&month) || !(1..=31).contains(&day) {
        return Err(WordError::DateRange);
    }
    let date = ((year - 1964) * 12 + (month - 1)) * 31 + (day - 1);
    if date > 32767 {
        return Err(WordError::DateRange);
    }
    Ok(date)
}

/// Returns the day that has this number.
///
/// # Errors
///
/// `DateRange` for a number above 32767.
pub fn day_of(number: u32) -> Result<Day, WordError>
    ensures value { IfOk result (λ day. IsDayOf number day.year day.month day.day) }
    ensures counts_back { IfOk result (λ day. date_number day.year day.month day.day ≡ number) }
    ensures date { IfOk result (λ day. IsDate day.year day.month day.day) }
    ensures accepts { IsOk result ↔ (number ≤ 32767) }
    ensures refused { IfErr result (λ error. error ≡ WordError.DateRange) }
{
    if number > 32767 {
        return Err(WordError::DateRange);
    }
    Ok(Day {
        year: number / 372 + 1964,
        month: number / 31 % 12 + 1,
        day: number % 31 + 1,
    })
}
