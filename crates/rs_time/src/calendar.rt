//! The civil date of a day, counted from 1 January 1970.

ghost use Rattle.std.specs.Prelude.{◌≡◌, ◌≤◌, pos};
ghost use Rattle.rs_time.specs.Calendar.{date_of};
ghost use Rattle.jiff.specs.Words.{epoch_day};

use jiff::ToSpan;
use jiff::civil::Date;

/// A date of the Gregorian calendar.
#[derive(Clone, Copy)]
pub struct CivilDate {
    /// From 1970 to 9999.
    pub year: u16,
    /// From 1, which is January, to 12.
    pub month: u8,
    /// From 1 to 31.
    pub day: u8,
}

/// Returns the date of day `days`. Day 0 is 1 January 1970, and day 2,932,896 is 31 December 9999.
pub fn civil_date(days: u32) -> CivilDate
    requires { days ≤ 2932896 }
    ensures { result ≡ date_of days }
{
    let date = day_after_epoch(days);
    CivilDate {
        year: date.year() as u16,
        month: date.month() as u8,
        day: date.day() as u8,
    }
}

/// Returns 1 January 1970 plus some days.
fn day_after_epoch(days: u32) -> Date
    requires { days ≤ 2932896 }
    ensures { epoch_day result ≡ pos days }
{
    let epoch = jiff::civil::date(1970, 1, 1);
    match epoch.checked_add((days as i64).days()) {
        Ok(date) => date,
        Err(_) => unreachable!(),
    }
}
