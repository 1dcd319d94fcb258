//! A moment, and the one after it.

ghost use Rattle.std.specs.Prelude.{◌≡◌};
ghost use Rattle.rs_time.specs.Moment.{moment_of, moment_after, moment_text, IsMoment, last_digit as digit_of};

use crate::calendar::civil_date;
use std::marker::Model;
use std::{fmt, str};

/// A moment of UTC: whole milliseconds since 1970-01-01T00:00:00.000Z, up to 9999-12-31T23:59:59.999Z.
///
/// Earlier moments are less than later ones. There are no leap seconds: all days have 86,400,000 milliseconds.
#[derive(Clone, Copy, Debug, PartialEq, Eq, PartialOrd, Ord)]
pub struct Moment {
    ms: u64,
}

impl Model for Moment {
    ghost use Rattle.std.specs.Prelude.{ℕ};
    ghost use Rattle.rs_time.specs.Moment.{IsMoment};

    ghost Value = { ℕ };

    ghost view = { λ m. m.ms };

    ghost invariant = { λ m. IsMoment m.ms };

    ghost inverse = { λ n. record { ms = n } };
}

impl Moment {
    /// The milliseconds of the greatest moment, 9999-12-31T23:59:59.999Z.
    pub const GREATEST: u64 = 253_402_300_799_999;

    /// Returns the first moment, 1970-01-01T00:00:00.000Z.
    pub fn first() -> Moment
        ensures { result ≡ 0 }
    {
        Moment { ms: 0 }
    }

    /// Returns the moment `ms` milliseconds after 1970-01-01T00:00:00.000Z, or `None` if `ms` is above
    /// [`Moment::GREATEST`].
    pub fn new(ms: u64) -> Option<Moment>
        ensures { result ≡ moment_of ms }
    {
        if ms <= Moment::GREATEST {
            Some(Moment { ms })
        } else {
            None
        }
    }

    /// Returns its milliseconds since 1970-01-01T00:00:00.000Z, at most [`Moment::GREATEST`].
    pub fn ms(self) -> u64
        ensures value { result ≡ self }
        ensures bound { IsMoment self }
    {
        self.ms
    }

    /// Returns the first moment after `last` that is not before `now`, or `None` if `last` is the greatest moment.
    pub fn after(last: Moment, now: Moment) -> Option<Moment>
        ensures { result ≡ moment_after last now }
    {
        if last.ms < Moment::GREATEST {
            Some(Moment {
                ms: now.ms.max(last.ms + 1),
            })
        } else {
            None
        }
    }

    /// Returns its text, `YYYY-MM-DDThh:mm:ss.mmmZ`, as `2000-02-29T00:00:00.000Z`: a W3C Datetime in UTC with three
    /// digits of a second's fraction. The date is of the Gregorian calendar.
    #[tactic(auto, unfolding(crate::specs::Moment::moment_text))]
    pub fn text(self) -> [u8; 24]
        ensures { result ≡ moment_text self }
    {
        let date = civil_date((self.ms / 86_400_000) as u32);
        let year = u32::from(date.year);
        let month = u32::from(date.month);
        let day = u32::from(date.day);
        let ms = (self.ms % 86_400_000) as u32;
        let hour = ms / 3_600_000;
        let minute = ms / 60_000 % 60;
        let second = ms / 1000 % 60;
        let fraction = ms % 1000;
        [
            last_digit(year / 1000),
            last_digit(year / 100),
            last_digit(year / 10),
            last_digit(year),
            b'-',
            last_digit(month / 10),
            last_digit(month),
            b'-',
            last_digit(day / 10),
            last_digit(day),
            b'T',
            last_digit(hour / 10),
            last_digit(hour),
            b':',
            last_digit(minute / 10),
            last_digit(minute),
            b':',
            last_digit(second / 10),
            last_digit(second),
            b'.',
            last_digit(fraction / 100),
            last_digit(fraction / 10),
            last_digit(fraction),
            b'Z',
        ]
    }
}

/// Prints the text. A width or other options of the placeholder have no effect.
impl fmt::Display for Moment {
    ghost use Rattle.std.specs.Prelude.{Some};
    ghost use Rattle.rs_time.specs.Moment.{moment_text};

    ghost output = { λ moment. Some (moment_text moment) };

    fn fmt<W: fmt::Write>(&self, f: &mut fmt::Formatter<W>) -> fmt::Result {
        let bytes = self.text();
        let Ok(text) = str::from_utf8(&bytes) else {
            unreachable!();
        };
        f.write_str(text)
    }
}

/// Returns the last decimal digit.
fn last_digit(n: u32) -> u8
    ensures { result ≡ digit_of n }
{
    b'0' + (n % 10) as u8
}
