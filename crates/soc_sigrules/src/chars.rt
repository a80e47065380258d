//! Texts cut by their characters.
ghost use Rattle.std.specs.Prelude.{◌≡◌, ◌≤◌, true, false, length, take, MatchOption, IfOk, if◌then◌else◌};
ghost use Rattle.std.specs.Str.{IsCharBoundary};
ghost use Rattle.soc_sigrules.specs.Chars.{begins_char, char_count, first_chars, is_longer, at_most, cut};

use soc_base::{NoMemory, Text};
use std::alloc::Global;

/// What ends a text that was cut.
const DOTS: &str = "...";

/// Whether a character begins with this byte.
fn begins_char(byte: u8) -> bool
    ensures { result ≡ begins_char byte }
{
    byte < 0x80 || byte >= 0xC0
}

/// How many characters a text has.
pub fn char_count(text: &str) -> usize
    ensures { result ≡ char_count text.now }
{
    let mut count = 0;
    for byte in text.as_bytes() {
        if begins_char(*byte) {
            count += 1;
        }
    }
    count
}

/// Where the characters behind the first `count` begin, in a text that has more of them.
fn chars_end(text: &[u8], count: usize) -> Option<usize>
    ensures { MatchOption result ((is_longer count text.now ≡ false)
        × (first_chars count text.now ≡ text.now))
        (λ end. (is_longer count text.now ≡ true) × (take end text.now ≡ first_chars count text.now)
        × IsCharBoundary text.now end) }
{
    let mut left = count;
    for (place, byte) in text.iter().enumerate() {
        if begins_char(*byte) {
            if left == 0 {
                return Some(place);
            }
            left -= 1;
        }
    }
    None
}

/// The first `count` characters of a text; all where it has no more.
pub fn first_chars(text: &str, count: usize) -> &str
    ensures { result.now ≡ first_chars count text.now }
{
    match chars_end(text.as_bytes(), count) {
        Some(end) => &text[..end],
        None => text,
    }
}

/// Whether the text has more characters than these.
pub fn is_longer(text: &str, count: usize) -> bool
    ensures { result ≡ is_longer count text.now }
{
    chars_end(text.as_bytes(), count).is_some()
}

/// The text with its end cut off, so that it has `most` characters with the `...` in place of that.
pub fn cut(alloc: Global, text: &str, most: usize) -> Result<Text, NoMemory>
    ensures { IfOk result (λ short. short ≡ cut most text.now) }
{
    let front = first_chars(text, most.saturating_sub(DOTS.len()));
    Ok(Text::from(format!(in alloc; "{front}{DOTS}")?))
}

/// The text, cut where it has more characters than `most`.
pub fn at_most(alloc: Global, text: &str, most: usize) -> Result<Text, NoMemory>
    ensures { IfOk result (λ short. short ≡ at_most most text.now) }
{
    if is_longer(text, most) {
        cut(alloc, text, most)
    } else {
        Text::of(alloc, text)
    }
}
