//! What a crash's annotations say.
ghost use Rattle.std.specs.Prelude.{◌≡◌};
ghost use Rattle.std.specs.Option.{option_copied};
ghost use Rattle.soc_raw.specs.RawCrash.{crash_of};
ghost use Rattle.soc_report.specs.Annotations as spec;

use soc_raw::RawCrash;
use soc_text::number;

/// The most digits that a number has.
const NUMBER_DIGITS: usize = 18;

/// What sets a flag.
const ONE: &str = "1";

/// The name of the browser's process.
const BROWSER: &str = "browser";

/// An annotation, as it is.
pub fn text_at<'a>(raw: &'a RawCrash, name: &str) -> Option<&'a str>
    ensures { option_copied result ≡ spec.text_at (crash_of raw.now) name.now }
{
    raw.annotations.get(name)
}

/// The number that 1 to 18 digits write.
fn number_of(text: &str) -> Option<u64>
    ensures { result ≡ spec.number_of text.now }
{
    number(text.as_bytes(), NUMBER_DIGITS)
}

/// The number that an annotation writes.
pub fn number_at(raw: &RawCrash, name: &str) -> Option<u64>
    ensures { result ≡ spec.number_at (crash_of raw.now) name.now }
{
    number_of(text_at(raw, name)?)
}

/// Whether an annotation is `1`.
pub fn flag_at(raw: &RawCrash, name: &str) -> Option<bool>
    ensures { result ≡ spec.flag_at (crash_of raw.now) name.now }
{
    match text_at(raw, name) {
        Some(text) => Some(text == ONE),
        None => None,
    }
}

/// Whether there is such an annotation, and it is `1`.
pub fn is_set(raw: &RawCrash, name: &str) -> bool
    ensures { result ≡ spec.is_set (crash_of raw.now) name.now }
{
    match text_at(raw, name) {
        Some(text) => text == ONE,
        None => false,
    }
}

/// The time in seconds from the moment that an annotation tells to that of the crash.
pub fn age_since(raw: &RawCrash, name: &str) -> Option<u64>
    ensures { result ≡ spec.age_since (crash_of raw.now) name.now }
{
    let finish = number_at(raw, "CrashTime")?;
    let start = number_at(raw, name)?;
    if start <= finish {
        Some(finish - start)
    } else {
        None
    }
}

/// Whether the browser's process is an item of a list that commas part.
pub fn lists_browser(text: &str) -> bool
    ensures { result ≡ spec.lists_browser text.now }
{
    let mut rest = text;
    while let Some((item, others)) = rest.split_once(',') {
        if item == BROWSER {
            return true;
        }
        rest = others;
    }
    rest == BROWSER
}
