//! Moments and the days on which they fall.
ghost use Rattle.std.specs.Prelude.{◌≡◌, ◌≤◌};

use jiff::tz::Offset;
use jiff::{Timestamp, civil};

/// The first moment of a clock, 1 January 2000, in seconds since 1970.
pub const FIRST_MOMENT: u64 = 946_684_800;

/// The last moment of a clock, the last second of 2099.
pub const LAST_MOMENT: u64 = 4_102_444_799;

/// A day of the Gregorian calendar, in UTC.
#[derive(Clone, Copy, Debug, PartialEq, Eq)]
pub struct Date {
    /// 2000 to 2099.
    pub year: u16,
    /// 1 to 12.
    pub month: u8,
    /// 1 to 31.
    pub day: u8,
}

ghost use Rattle.soc_raw.specs.Day.{IsMoment, IsDay, day_of, is_civil};

/// The UTC date of a moment, a time of a clock in seconds since 1970.
pub fn day_of(moment: u64) -> Date
    requires { IsMoment moment }
    ensures value { result ≡ day_of moment }
    ensures real { IsDay result }
{
    let Ok(timestamp) = Timestamp::from_second(moment as i64) else {
        unreachable!()
    };
    let date = Offset::UTC.to_datetime(timestamp).date();
    Date {
        year: date.year().unsigned_abs(),
        month: date.month().unsigned_abs(),
        day: date.day().unsigned_abs(),
    }
}

/// Whether the calendar has this day of a year up to 9999.
pub fn is_civil(year: u64, month: u64, day: u64) -> bool
    requires { year ≤ 9999 }
    ensures { result ≡ is_civil year month day }
{
    month <= 12 && day <= 31 && civil::Date::new(year as i16, month as i8, day as i8).is_ok()
}
