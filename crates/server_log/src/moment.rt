//! Moments of the calendar.
ghost use Rattle.std.specs.Prelude.{◌≡◌, Some};
ghost use Rattle.server_log.specs.Lines.{moment_text, IsMoment};

use jiff_core::civil::Date;
use std::fmt;

/// Seconds of a day.
const DAY_S: u64 = 86_400;

/// The last second of the year 9999, since 1970: four digits show no later year.
const LAST_S: u64 = 253_402_300_799;

/// Days from the first date of the calendar's crate to the first of 1970.
const DAYS_TO_1970: u32 = 4_371_587;

/// A second of the calendar, in universal time.
#[derive(Clone, Copy)]
pub(crate) struct Moment {
    pub(crate) date: Date,
    /// Seconds of the day that have passed.
    pub(crate) second: u64,
}

impl Moment {
    /// Returns the moment that is so many seconds after the first of 1970, or the last one of the year 9999 if that is earlier.
    pub(crate) fn after(seconds: u64) -> Moment
        ensures { IsMoment seconds result }
    {
        let seconds = seconds.min(LAST_S);
        let days = (seconds / DAY_S) as u32;
        Moment {
            date: Date::from_days_since_min(days + DAYS_TO_1970),
            second: seconds % DAY_S,
        }
    }
}

impl fmt::Display for Moment {
    ghost output = { λ moment. Some (moment_text moment) };

    fn fmt<W: fmt::Write>(&self, f: &mut fmt::Formatter<W>) -> fmt::Result {
        let year = self.date.year.unsigned_abs();
        let month = self.date.month;
        let day = self.date.day;
        let hour = self.second / 3600;
        let minute = self.second / 60 % 60;
        let second = self.second % 60;
        write!(
            f,
            "{year:04}-{month:02}-{day:02}T{hour:02}:{minute:02}:{second:02}Z"
        )
    }
}
