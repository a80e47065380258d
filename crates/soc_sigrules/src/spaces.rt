//! Blanks in signatures.
ghost use Rattle.std.specs.Prelude.{◌≡◌, [], IfOk, MatchOption};
ghost use Rattle.std.specs.List.{prefix_len, position_or_len};
ghost use Rattle.soc_sigrules.specs.Spaces.{is_gap, words, spaced};
ghost use Rattle.soc_sigrules.specs.inner.Words.{IsFirstWord};

use soc_base::{NoMemory, Text};
use soc_text::is_blank;
use std::alloc::Global;

/// What stands between words.
pub const SPACE: &str = " ";

/// Whether the byte is a space, a tab, a carriage return or a line feed.
fn is_gap(byte: u8) -> bool
    ensures { result ≡ is_gap byte }
{
    is_blank(byte) || byte == b'\r' || byte == b'\n'
}

/// How many blanks the text begins with.
fn gaps_len(text: &[u8]) -> usize
    ensures { result ≡ prefix_len is_gap text.now }
{
    text.iter().take_while(|byte| is_gap(**byte)).count()
}

/// How long the word is with which the text begins.
fn word_len(text: &[u8]) -> usize
    ensures { result ≡ position_or_len is_gap text.now }
{
    text.iter().take_while(|byte| !is_gap(**byte)).count()
}

/// The first word, and what stands behind it.
pub fn next_word(text: &str) -> Option<(&str, &str)>
    ensures { MatchOption result (words text.now ≡ [])
        (λ parts. IsFirstWord text.now parts.0.now parts.1.now) }
{
    let behind = &text[gaps_len(text.as_bytes())..];
    if behind.is_empty() {
        return None;
    }
    let end = word_len(behind.as_bytes());
    Some((&behind[..end], &behind[end..]))
}

/// The words of a text, with one space between each and the next.
pub fn spaced(alloc: Global, text: &str) -> Result<Text, NoMemory>
    ensures { IfOk result (λ new. new ≡ spaced text.now) }
{
    let mut out = String::new(alloc);
    let mut rest = text;
    while let Some((word, others)) = next_word(rest) {
        if !out.as_str().is_empty() {
            out.push_str(SPACE)?;
        }
        out.push_str(word)?;
        rest = others;
    }
    Ok(Text::from(out))
}
