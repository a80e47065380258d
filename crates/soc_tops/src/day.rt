//! Days and limits as parameters have them.
ghost use Rattle.std.specs.Prelude.{◌≡◌, ◌≤◌};
ghost use Rattle.soc_tops.specs.Asked.{has_dash, is_day, is_in_calendar, limit_of, number_at, number_of};

use soc_raw::is_civil;
use soc_text::{after, before};

/// Whether the text is a civil day of the years 2000 to 2099, `YYYY-MM-DD`.
pub(crate) fn is_day(text: &str) -> bool
    ensures { result ≡ is_day text.now }
{
    let text = text.as_bytes();
    text.len() == 10
        && (has_dash(text, 4) && has_dash(text, 7))
        && is_in_calendar(
            number_at(text, 0, 4),
            number_at(text, 5, 2),
            number_at(text, 8, 2),
        )
}

/// The limit of 1 to 1,000 that 1 to 4 digits write.
pub(crate) fn limit_of(text: &str) -> Option<u64>
    ensures { result ≡ limit_of text.now }
{
    let limit = number_of(text.as_bytes(), 1, 4)?;
    if 1 <= limit && limit <= 1000 {
        Some(limit)
    } else {
        None
    }
}

/// The number that `least` to `most` digits write.
fn number_of(text: &[u8], least: usize, most: usize) -> Option<u64>
    requires some { 1 ≤ least }
    requires fits { most ≤ 19 }
    ensures { result ≡ number_of least most text.now }
{
    if text.len() < least {
        return None;
    }
    soc_text::number(text, most)
}

/// The number that so many digits from a place on write.
fn number_at(text: &[u8], place: usize, count: usize) -> Option<u64>
    requires some { 1 ≤ count }
    requires fits { count ≤ 19 }
    ensures { result ≡ number_at text.now place count }
{
    number_of(before(after(text, place), count), count, count)
}

fn has_dash(text: &[u8], place: usize) -> bool
    ensures { result ≡ has_dash text.now place }
{
    before(after(text, place), 1) == b"-".as_slice()
}

/// Whether it is a civil day of the years 2000 to 2099.
fn is_in_calendar(year: Option<u64>, month: Option<u64>, day: Option<u64>) -> bool
    ensures { result ≡ is_in_calendar year month day }
{
    match (year, month, day) {
        (Some(year), Some(month), Some(day)) => {
            (2000 <= year && year <= 2099) && is_civil(year, month, day)
        }
        _ => false,
    }
}
