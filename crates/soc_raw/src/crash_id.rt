//! Crash ids.
ghost use Rattle.std.specs.Prelude.{◌≡◌, ◌+◌, ◌-◌, ◌<◌, ◌≤◌, ◌++◌, ◌∷◌, List, length, take, slice_index, MatchOption, true};
ghost use Rattle.std.specs.Bool.{OnTrue};
ghost use Rattle.std.specs.List.{list_all, enumerate_from};
ghost use Rattle.soc_raw.specs.Day.{IsMoment, IsDay, is_civil, day_of};
ghost use Rattle.soc_raw.specs.Digit.{digit_code, digit_of};
ghost use Rattle.soc_raw.specs.CrashId.{IsId, is_id, id_text, day_number, day_text, may_stand, pair_at};

use crate::day::{Date, day_of, is_civil};
use crate::digit::Digit;
use soc_text::{is_lower_hex, two_digits};
use std::marker::Model;
use uuid::{Builder, Uuid};

const LENGTH: usize = 36;

const DIGIT_PLACE: usize = 29;

const YEAR_PLACE: usize = 30;

const MONTH_PLACE: usize = 32;

const DAY_PLACE: usize = 34;

/// The id of a crash: a UUID of version 4 (RFC 9562, 5.4) in lower case, whose last seven characters are the digit
/// and the day as YYMMDD. Contracts see its 36 characters.
#[derive(Clone, Copy, Debug, PartialEq, Eq, PartialOrd, Ord)]
pub struct CrashId {
    text: [u8; 36],
}

impl Model for CrashId {
    ghost use Rattle.std.specs.Prelude.{◌≡◌, List, ℕ, true};
    ghost use Rattle.soc_raw.specs.CrashId.{is_id};

    ghost Value = { List ℕ };

    ghost view = { λ id. id.text };

    ghost invariant = { λ id. is_id id.text ≡ true };

    ghost inverse = { λ text. record { text = text } };
}

impl CrashId {
    /// The id of a draw: version and variant are set, and the last seven characters replaced by the digit and the
    /// UTC day of the moment, a time of a clock in seconds since 1970. It takes no memory.
    pub fn make(draw: [u8; 16], digit: Digit, moment: u64) -> CrashId
        requires { IsMoment moment }
        ensures { result ≡ id_text draw digit (day_of moment) }
    {
        let uuid = Builder::from_random_bytes(draw).into_uuid();
        let mut buffer = Uuid::encode_buffer();
        let text = uuid.hyphenated().encode_lower(&mut buffer);
        CrashId {
            text: stamped(text.as_bytes(), digit, day_of(moment)),
        }
    }

    /// The id that the text is.
    pub fn parse(s: &str) -> Option<CrashId>
        ensures { MatchOption result (¬ (IsId s.now)) (λ id. IsId s.now × (id ≡ s.now)) }
    {
        CrashId::of_bytes(s.as_bytes())
    }

    /// The id that the bytes are.
    pub fn of_bytes(bytes: &[u8]) -> Option<CrashId>
        ensures { MatchOption result (¬ (IsId bytes.now))
            (λ id. IsId bytes.now × (id ≡ bytes.now)) }
    {
        if !is_id(bytes) {
            return None;
        }
        let mut text = [0; LENGTH];
        text.copy_from_slice(bytes);
        Some(CrashId { text })
    }

    /// Whether a report was due at once.
    pub fn digit(&self) -> Digit
        ensures { result ≡ digit_of (slice_index self.now 29) }
    {
        if self.text[DIGIT_PLACE] == b'0' {
            Digit::Accepted
        } else {
            Digit::Deferred
        }
    }

    /// The day as a number: YYMMDD.
    pub fn day(&self) -> u32
        ensures { result ≡ day_number self.now }
    {
        let year = pair_at(&self.text, YEAR_PLACE);
        let month = pair_at(&self.text, MONTH_PLACE);
        let day = pair_at(&self.text, DAY_PLACE);
        (year * 10_000 + month * 100 + day) as u32
    }

    /// The 36 characters.
    pub fn as_str(&self) -> &str
        ensures text { result.now ≡ self.now }
        ensures id { IsId self.now }
    {
        match str::from_utf8(&self.text) {
            Ok(text) => text,
            Err(_) => unreachable!(),
        }
    }
}

/// The text with the digit and the day in place of its last seven characters.
fn stamped(text: &[u8], digit: Digit, day: Date) -> [u8; 36]
    requires sized { length text.now ≡ 36 }
    requires real { IsDay day }
    ensures { result ≡ take 29 text.now ++ (digit_code digit ∷ day_text day) }
{
    let tail = stamp(digit, day);
    let mut stamped = [0; LENGTH];
    stamped.copy_from_slice(text);
    stamped[DIGIT_PLACE..].copy_from_slice(&tail);
    stamped
}

/// The digit and the day as YYMMDD.
fn stamp(digit: Digit, day: Date) -> [u8; 7]
    requires { IsDay day }
    ensures { result ≡ digit_code digit ∷ day_text day }
{
    let year = two_digits(year_of_century(day.year));
    let month = two_digits(day.month);
    let number = two_digits(day.day);
    [
        digit.code(),
        year[0],
        year[1],
        month[0],
        month[1],
        number[0],
        number[1],
    ]
}

fn year_of_century(year: u16) -> u8
    requires low { 2000 ≤ year }
    requires high { year ≤ 2099 }
    ensures value { result ≡ year - 2000 }
    ensures small { result < 100 }
{
    (year - 2000) as u8
}

/// Whether the text is an id.
#[tactic(auto, unfolding(crate::specs::CrashId::is_id))]
fn is_id(text: &[u8]) -> bool
    ensures value { result ≡ is_id text.now }
    ensures sized { OnTrue result (length text.now ≡ 36) }
{
    text.len() == LENGTH && each_may_stand(text) && has_day(text)
}

fn each_may_stand(text: &[u8]) -> bool
    ensures { result ≡ list_all (λ p. may_stand p.0 p.1) (enumerate_from 0 text.now) }
{
    for place in 0..text.len() {
        if !may_stand(place, text[place]) {
            return false;
        }
    }
    true
}

/// Whether the byte may stand at the place of an id.
fn may_stand(place: usize, byte: u8) -> bool
    ensures { result ≡ may_stand place byte }
{
    match place {
        8 | 13 | 18 | 23 => byte == b'-',
        0..29 => is_lower_hex(byte),
        29 => byte == b'0' || byte == b'1',
        _ => byte.is_ascii_digit(),
    }
}

fn has_day(text: &[u8]) -> bool
    requires { length text.now ≡ 36 }
    ensures { result ≡ is_civil (2000 + pair_at text.now 30) (pair_at text.now 32)
        (pair_at text.now 34) }
{
    let year = 2000 + pair_at(text, YEAR_PLACE);
    is_civil(year, pair_at(text, MONTH_PLACE), pair_at(text, DAY_PLACE))
}

/// The number that two digits write; a byte below `0` counts as 0.
fn pair_at(text: &[u8], place: usize) -> u64
    requires { place + 1 < length text.now }
    ensures value { result ≡ pair_at text.now place }
    ensures small { result ≤ 2277 }
{
    let tens = text[place].saturating_sub(b'0');
    let ones = text[place + 1].saturating_sub(b'0');
    u64::from(tens) * 10 + u64::from(ones)
}
