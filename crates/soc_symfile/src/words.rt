//! The words and texts of a line.
ghost use Rattle.std.specs.Prelude.{◌≡◌, ◌≤◌, length, option_map};
ghost use Rattle.std.specs.List.{position_or_len};
ghost use Rattle.soc_symfile.specs.Words.{is_space, word, rest, unmarked, text_of};

use soc_text::{after, before};

const SPACE: u8 = b' ';

const MARK: &[u8] = b"m";

/// Where the first space stands, or the length.
fn space_place(bytes: &[u8]) -> usize
    ensures value { result ≡ position_or_len is_space bytes.now }
    ensures bound { result ≤ length bytes.now }
{
    for (place, byte) in bytes.iter().enumerate() {
        if *byte == SPACE {
            return place;
        }
    }
    bytes.len()
}

/// What stands before the first space, and what stands behind it. Where there is none, all is one
/// word, and nothing follows.
pub fn split_word(bytes: &[u8]) -> (&[u8], &[u8])
    ensures word { result.0.now ≡ word bytes.now }
    ensures rest { result.1.now ≡ rest bytes.now }
{
    let place = space_place(bytes);
    (before(bytes, place), after(bytes, place + 1))
}

/// The items behind the word `m`, which may stand before them.
pub fn unmarked(items: &[u8]) -> &[u8]
    ensures { result.now ≡ unmarked items.now }
{
    let (word, rest) = split_word(items);
    if word == MARK { rest } else { items }
}

/// The bytes as a name or as rules: at least one byte, and UTF-8.
pub fn text_of(bytes: &[u8]) -> Option<&str>
    ensures { option_map (λ text. text.now) result ≡ text_of bytes.now }
{
    if bytes.is_empty() {
        return None;
    }
    match str::from_utf8(bytes) {
        Ok(text) => Some(text),
        Err(_) => None,
    }
}
