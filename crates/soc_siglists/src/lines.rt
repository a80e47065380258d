//! The lines of a list file.
ghost use Rattle.std.specs.Prelude.{◌≡◌, ◌≤◌, length};
ghost use Rattle.std.specs.List.{before_first, after_first, position_or_len, suffix_len};
ghost use Rattle.soc_siglists.specs.Entries.{is_line_feed, is_end_blank, text_of, is_entry};

use memchr::memchr;
use soc_text::{after, before, is_blank};

const LINE_FEED: u8 = b'\n';

const CARRIAGE_RETURN: u8 = b'\r';

const COMMENT: &[u8] = b"#";

/// Where the first line ends.
fn line_len(bytes: &[u8]) -> usize
    ensures value { result ≡ position_or_len is_line_feed bytes.now }
    ensures bound { result ≤ length bytes.now }
{
    match memchr(LINE_FEED, bytes) {
        Some(end) => end,
        None => bytes.len(),
    }
}

/// The first line, and what stands behind its end.
pub fn split_line(bytes: &[u8]) -> (&[u8], &[u8])
    ensures line { result.0.now ≡ before_first is_line_feed bytes.now }
    ensures others { result.1.now ≡ after_first is_line_feed bytes.now }
{
    let end = line_len(bytes);
    (before(bytes, end), after(bytes, end + 1))
}

fn is_end_blank(byte: u8) -> bool
    ensures { result ≡ is_end_blank byte }
{
    is_blank(byte) || byte == CARRIAGE_RETURN
}

/// How many blanks the line ends with.
fn end_blanks_len(line: &[u8]) -> usize
    ensures { result ≡ suffix_len is_end_blank line.now }
{
    line.iter()
        .rev()
        .take_while(|byte| is_end_blank(**byte))
        .count()
}

/// The line without the blanks at its end.
pub fn text_of(line: &[u8]) -> &[u8]
    ensures { result.now ≡ text_of line.now }
{
    &line[..line.len() - end_blanks_len(line)]
}

/// Whether the text is neither empty nor a comment.
pub fn is_entry(text: &[u8]) -> bool
    ensures { result ≡ is_entry text.now }
{
    !text.is_empty() && !text.starts_with(COMMENT)
}
