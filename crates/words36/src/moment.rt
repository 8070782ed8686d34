//! Moments of the machine: a date and a minute.
ghost use Rattle.std.specs.Prelude.{◌≡◌, ◌<◌, ◌≤◌, ◌↔◌, IfOk, IfErr, IsOk};
ghost use Rattle.words36.specs.declared.error.WordError.TheVariants.{DateRange};

use crate::WordError;

/// A day and a minute of it, as the machine writes them.
#[derive(Clone, Copy, Debug, PartialEq, Eq)]
pub struct Moment {
    /// The day, as `date_of` numbers it: 0 to 32767.
    pub date: u32,
    /// The minute since midnight: 0 to 1439.
    pub minute: u32,
    pub ghost date_in_range: { date ≤ 32767 },
    pub ghost minute_in_range: { minute ≤ 1439 },
}

impl Moment {
    /// Returns the moment of this date and minute.
    ///
    /// # Errors
    ///
    /// `DateRange` for a date above 32767 or a minute above 1439.
    pub fn new(date: u32, minute: u32) -> Result<Moment, WordError>
        ensures date { IfOk result (λ moment. moment.date ≡ date) }
        ensures minute { IfOk result (λ moment. moment.minute ≡ minute) }
        ensures in_range { IsOk result ↔ ((date ≤ 32767) × (minute ≤ 1439)) }
        ensures refused { IfErr result (λ error. error ≡ WordError.DateRange) }
    {
        if date > 32767 || minute > 1439 {
            return Err(WordError::DateRange);
        }
        Ok(Moment { date, minute })
    }
}
