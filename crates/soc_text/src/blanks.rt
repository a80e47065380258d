//! Blanks: spaces and tabs.
ghost use Rattle.std.specs.Prelude.{◌≡◌, ◌+◌, ◌≤◌, length};
ghost use Rattle.std.specs.List.{prefix_len, suffix_len};
ghost use Rattle.soc_text.specs.Blanks.{is_blank, trimmed};

use crate::parts::after;

/// Whether the byte is a space or a tab.
pub fn is_blank(byte: u8) -> bool
    ensures { result ≡ is_blank byte }
{
    byte == b' ' || byte == b'\t'
}

/// How many blanks the text begins with.
pub fn blanks_len(text: &[u8]) -> usize
    ensures { result ≡ prefix_len is_blank text.now }
{
    let mut count = 0;
    while count < text.len() {
        if !is_blank(text[count]) {
            return count;
        }
        count += 1;
    }
    count
}

/// Where the blanks begin that the text ends with.
fn blanks_start(text: &[u8]) -> usize
    ensures bound { result ≤ length text.now }
    ensures value { result + suffix_len is_blank text.now ≡ length text.now }
{
    let mut start = text.len();
    while start > 0 {
        if !is_blank(text[start - 1]) {
            return start;
        }
        start -= 1;
    }
    start
}

/// The text without the blanks around it.
pub fn trim_blanks(text: &[u8]) -> &[u8]
    ensures { result.now ≡ trimmed text.now }
{
    let behind = after(text, blanks_len(text));
    &behind[..blanks_start(behind)]
}
