//! Delimiters of a multipart body: which bytes are one, and where the next one stands.
ghost use Rattle.std.specs.Prelude.{◌≡◌, ◌++◌, ◌↔◌, List, ℕ, IsTrue, MatchOption, ◌<◌, length};
ghost use Rattle.std.specs.List.{prefix_len};
ghost use Rattle.soc_multipart.specs.Delimiters.{BeginsAt, EndsAs, EndsClosing, EndsLine, EndsNowise, EndsOpening, HasNoDelimiter, IsAt, IsAtDelimiter, IsBoundary, MeetsFirst, PartsRun, is_boundary_byte as passes_boundary, mark_of};
ghost use Rattle.soc_text.specs.Blanks.{is_blank};
ghost use Rattle.soc_text.specs.Lines.{crlf};

use memchr::memmem::Finder;
use soc_text::{CRLF, after, blanks_len, strip_back, strip_front};

/// The longest boundary, in bytes.
const BOUNDARY_LIMIT: usize = 70;

/// How a delimiter ends.
#[derive(Clone, Copy, Debug)]
pub enum Ending<'a> {
    /// It opens a part, which begins with these bytes.
    Opening(&'a [u8]),
    /// It closes the body.
    Closing,
}

/// The first delimiter of a text.
#[derive(Clone, Copy, Debug)]
pub struct Found<'a> {
    /// What stands before it.
    pub front: &'a [u8],
    pub end: Ending<'a>,
}

/// Whether these bytes are a boundary: 1 to 70 letters, digits, spaces and `'()+_,-./:=?`, of which
/// the last is no space (RFC 2046, section 5.1.1).
pub fn is_boundary(boundary: &[u8]) -> bool
    ensures { IsTrue result ↔ IsBoundary boundary.now }
{
    !boundary.is_empty()
        && boundary.len() <= BOUNDARY_LIMIT
        && boundary.iter().all(|c| is_boundary_byte(*c))
        && strip_back(boundary, b" ").is_none()
}

fn is_boundary_byte(byte: u8) -> bool
    ensures { result ≡ passes_boundary byte }
{
    byte.is_ascii_alphanumeric() || b" '()+_,-./:=?".contains(&byte)
}

/// The first delimiter of `text`, by the mark that the finder looks for: CRLF, two dashes and the
/// boundary.
pub fn next_delimiter<'a>(finder: &Finder<'_>, text: &'a [u8]) -> Option<Found<'a>>
    requires { 0 < length finder.now }
    ensures { MatchOption result (HasNoDelimiter finder.now text.now)
        (λ found. MeetsFirst finder.now text.now found.front.now found.end) }
{
    let mut from = 0;
    while let Some(at) = finder.find(after(text, from)) {
        let place = from + at;
        if let Some(end) = end_of(after(text, place + finder.needle().len())) {
            return Some(Found {
                front: &text[..place],
                end,
            });
        }
        from = place + 1;
    }
    None
}

/// How the first delimiter of a body ends, where it has one. The body is looked at as if CRLF stood
/// before it.
pub fn first_delimiter<'a>(
    finder: &Finder<'_>,
    boundary: &[u8],
    body: &'a [u8],
) -> Option<Ending<'a>>
    requires { finder.now ≡ mark_of boundary.now }
    ensures { MatchOption result (HasNoDelimiter (mark_of boundary.now) (crlf ++ body.now))
        (λ end. BeginsAt (mark_of boundary.now) (crlf ++ body.now) end) }
{
    if let Some(end) = delimiter_at_start(boundary, body) {
        return Some(end);
    }
    match next_delimiter(finder, body) {
        Some(Found { end, .. }) => Some(end),
        None => None,
    }
}

/// How the delimiter ends that a body begins with, where it does.
pub fn delimiter_at_start<'a>(boundary: &[u8], body: &'a [u8]) -> Option<Ending<'a>>
    ensures { MatchOption result (¬ (IsAtDelimiter (mark_of boundary.now) (crlf ++ body.now)))
        (λ end. IsAt (mark_of boundary.now) (crlf ++ body.now) end) }
{
    let after = strip_front(strip_front(body, b"--")?, boundary)?;
    end_of(after)
}

/// How a delimiter ends whose mark stands before `after`, where it is one.
pub fn end_of(after: &[u8]) -> Option<Ending<'_>>
    ensures { MatchOption result (EndsNowise after.now) (λ end. EndsAs after.now end) }
{
    if let Some(rest) = strip_opening(after) {
        return Some(Ending::Opening(rest));
    }
    if is_closing(after) {
        return Some(Ending::Closing);
    }
    None
}

fn strip_opening(after: &[u8]) -> Option<&[u8]>
    ensures { MatchOption result ((rest : List ℕ) → ¬ (EndsOpening after.now rest))
        (λ rest. EndsOpening after.now rest.now) }
{
    let (_pad, tail) = split_blanks(after);
    strip_front(tail, &CRLF)
}

fn is_closing(after: &[u8]) -> bool
    ensures { IsTrue result ↔ EndsClosing after.now }
{
    let Some(rest) = strip_front(after, b"--") else {
        return false;
    };
    let (_pad, tail) = split_blanks(rest);
    ends_line(tail)
}

fn ends_line(text: &[u8]) -> bool
    ensures { IsTrue result ↔ EndsLine text.now }
{
    text.is_empty() || strip_front(text, &CRLF).is_some()
}

/// The blanks that `text` begins with, and the rest.
pub fn split_blanks(text: &[u8]) -> (&[u8], &[u8])
    ensures { PartsRun is_blank text.now result.0.now result.1.now }
{
    text.split_at(blanks_len(text))
}
