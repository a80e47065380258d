//! The lines of a text.
ghost use Rattle.std.specs.Prelude.{◌≡◌, ◌∷◌, ◌<◌, [], length, MatchOption};
ghost use Rattle.std.specs.Str.Lines.{lines, strip_carriage_return};

use memchr::memchr;
use soc_text::{after, before};

const CARRIAGE_RETURN: u8 = b'\r';

const LINE_FEED: u8 = b'\n';

/// The line without the carriage return at its end, if it has one.
fn strip_carriage_return(line: &[u8]) -> &[u8]
    ensures { result.now ≡ strip_carriage_return line.now }
{
    match line {
        [front @ .., CARRIAGE_RETURN] => front,
        _ => line,
    }
}

/// The first line, without its end, and what stands behind it. An empty text has none.
pub fn split_line(text: &[u8]) -> Option<(&[u8], &[u8])>
    ensures { MatchOption result (lines text.now ≡ [])
        (λ parts. (lines text.now ≡ parts.0.now ∷ lines parts.1.now)
        × (length parts.1.now < length text.now)) }
{
    if text.is_empty() {
        return None;
    }
    match memchr(LINE_FEED, text) {
        Some(end) => Some((
            strip_carriage_return(before(text, end)),
            after(text, end + 1),
        )),
        None => Some((text, after(text, text.len()))),
    }
}
