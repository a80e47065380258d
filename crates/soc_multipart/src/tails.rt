//! What has come of a body behind a delimiter, line by line: its last line alone may be a delimiter, or begin one.
ghost use Rattle.std.specs.Prelude.{◌≡◌, ◌≢◌, ◌++◌, ◌-◌, ◌<◌, ⊤, [], List, ℕ, codes, length, IfOk, MatchBool, MatchOption};
ghost use Rattle.soc_text.specs.Lines.{crlf};
ghost use Rattle.soc_multipart.specs.Delimiters.{HasNoDelimiter, IsBoundary, mark_of};
ghost use Rattle.soc_multipart.specs.inner.Tails.{ClosesIn, EndsLineIn, IsClear, IsKindOf, IsOfLine, MeetsIn, PassesLineIn, Watches};

use crate::delimiters::{Ending, delimiter_at_start};
use memchr::memchr;
use soc_base::NoMemory;
use soc_text::{CRLF, after, before, strip_back, strip_front};
use std::alloc::Global;

/// What a delimiter does.
#[derive(Clone, Copy)]
pub enum Kind {
    /// It opens a part.
    Opening,
    /// It closes the body.
    Closing,
}

/// A delimiter at the end of what has come.
#[derive(Clone, Copy)]
pub struct Met {
    /// Where its line begins.
    pub place: usize,
    pub kind: Kind,
}

/// What has come behind a delimiter.
#[derive(Drop)]
pub struct Tail {
    pub bytes: Vec<u8>,
    /// Where the last line begins, if a line end stands before it, so that it may be a delimiter.
    pub line: Option<usize>,
}

/// The front of a piece, and the rest.
#[derive(Clone, Copy)]
pub struct Split<'a> {
    /// It goes to the first line feed, or holds none.
    pub front: &'a [u8],
    /// Whether a line feed ends it.
    pub ended: bool,
    pub rest: &'a [u8],
}

/// The piece up to its first line feed, and the rest.
pub fn split_line(piece: &[u8]) -> Split<'_>
    ensures whole { piece.now ≡ result.front.now ++ result.rest.now }
    ensures line { IsOfLine result.front.now result.ended }
    ensures shorter { 0 < length piece.now → length result.rest.now < length piece.now }
{
    match memchr(b'\n', piece) {
        Some(at) => Split {
            front: before(piece, at + 1),
            ended: true,
            rest: after(piece, at + 1),
        },
        None => Split {
            front: piece,
            ended: false,
            rest: after(piece, piece.len()),
        },
    }
}

/// Nothing has come yet.
pub fn empty(alloc: Global, line: Option<usize>) -> Tail
    ensures bytes { result.bytes.items ≡ [] }
    ensures line { result.line ≡ line }
{
    Tail {
        bytes: Vec::new(alloc),
        line,
    }
}

/// The tail with bytes more.
pub fn grown(tail: Tail, bytes: &[u8]) -> Result<Tail, NoMemory>
    ensures bytes { IfOk result (λ new. new.bytes.items ≡ tail.bytes.items ++ bytes.now) }
    ensures line { IfOk result (λ new. new.line ≡ tail.line) }
{
    let mut new = tail;
    new.bytes.extend_from_slice(bytes)?;
    Ok(new)
}

/// The delimiter that the line is which a line feed has just ended.
pub fn delimiter_in(boundary: &[u8], tail: &Tail) -> Option<Met>
    ensures { (before : List ℕ) → IsBoundary boundary.now
        → EndsLineIn (mark_of boundary.now) before tail.now.bytes.items tail.now.line
        → MatchOption result (IsClear (mark_of boundary.now) (before ++ tail.now.bytes.items)
        (length (before ++ tail.now.bytes.items) - 2))
        (λ met. MeetsIn (mark_of boundary.now) before tail.now.bytes.items met.place met.kind) }
{
    let Some(place) = tail.line else {
        return None;
    };
    let line = after(tail.bytes.as_slice(), place);
    let Some(end) = delimiter_at_start(boundary, line) else {
        return None;
    };
    Some(Met {
        place,
        kind: kind_of(end),
    })
}

/// Where the line begins that the body's end makes a closing delimiter.
pub fn closing_in(boundary: &[u8], tail: &Tail) -> Option<usize>
    ensures { (before : List ℕ) → Watches
        (mark_of boundary.now) before tail.now.bytes.items tail.now.line
        → MatchOption result (HasNoDelimiter (mark_of boundary.now)
        (before ++ tail.now.bytes.items))
        (λ place. ClosesIn (mark_of boundary.now) before tail.now.bytes.items place) }
{
    let Some(place) = tail.line else {
        return None;
    };
    let line = after(tail.bytes.as_slice(), place);
    let Some(end) = delimiter_at_start(boundary, line) else {
        return None;
    };
    match end {
        Ending::Opening(_) => None,
        Ending::Closing => Some(place),
    }
}

fn kind_of(end: Ending<'_>) -> Kind
    ensures { IsKindOf end.entry result }
{
    match end {
        Ending::Opening(_) => Kind::Opening,
        Ending::Closing => Kind::Closing,
    }
}

/// The tail, without the place of a line that can't become a delimiter.
pub fn narrowed(boundary: &[u8], tail: Tail) -> Tail
    ensures bytes { result.bytes.items ≡ tail.bytes.items }
    ensures watches { (before : List ℕ)
        → Watches (mark_of boundary.now) before tail.bytes.items tail.line
        → Watches (mark_of boundary.now) before tail.bytes.items result.line }
{
    let Some(place) = tail.line else {
        return tail;
    };
    if may_begin(boundary, after(tail.bytes.as_slice(), place)) {
        return tail;
    }
    let Tail { bytes, line: _ } = tail;
    Tail { bytes, line: None }
}

/// Whether a line may begin as a delimiter's does.
fn may_begin(boundary: &[u8], line: &[u8]) -> bool
    ensures { MatchBool result ⊤ ((x y : List ℕ) → line.now ++ x ≢ codes "--" ++ (boundary.now ++ y)) }
{
    match strip_front(line, b"--") {
        Some(rest) => agree(rest, boundary),
        None => agree(line, b"--"),
    }
}

/// Whether one of two texts begins with the other.
fn agree(one: &[u8], other: &[u8]) -> bool
    ensures { MatchBool result ⊤ ((x y : List ℕ) → one.now ++ x ≢ other.now ++ y) }
{
    match strip_front(one, other) {
        Some(_) => true,
        None => strip_front(other, one).is_some(),
    }
}

/// The tail behind a line that is no delimiter.
pub fn moved_on(tail: Tail) -> Tail
    ensures bytes { result.bytes.items ≡ tail.bytes.items }
    ensures watches { (boundary before : List ℕ)
        → PassesLineIn (mark_of boundary) before tail.bytes.items tail.line
        → Watches (mark_of boundary) before result.bytes.items result.line }
{
    let Tail { bytes, line: _ } = tail;
    if !ends_in_line_end(bytes.as_slice()) {
        return Tail { bytes, line: None };
    }
    let line = Some(bytes.len());
    Tail { bytes, line }
}

/// The same, where what came before is needed no longer.
pub fn renewed(tail: Tail) -> Tail
    ensures bytes { result.bytes.items ≡ [] }
    ensures watches { (boundary before : List ℕ)
        → PassesLineIn (mark_of boundary) before tail.bytes.items tail.line
        → Watches (mark_of boundary) (before ++ tail.bytes.items) [] result.line }
{
    let Tail { mut bytes, line: _ } = tail;
    if ends_in_line_end(bytes.as_slice()) {
        bytes.clear();
        return Tail {
            bytes,
            line: Some(0),
        };
    }
    bytes.clear();
    Tail { bytes, line: None }
}

fn ends_in_line_end(bytes: &[u8]) -> bool
    ensures { MatchBool result ((front : List ℕ) × (bytes.now ≡ front ++ crlf))
        ((front : List ℕ) → bytes.now ≢ front ++ crlf) }
{
    strip_back(bytes, &CRLF).is_some()
}
