//! The head of a part: its lines, and where it ends.
ghost use Rattle.std.specs.Prelude.{◌≡◌, ◌++◌, ◌∷◌, [], List, ℕ, IfOk, MatchOption, take};
ghost use Rattle.std.specs.List.{prefix_len, suffix_len};
ghost use Rattle.soc_multipart.specs.Chains.{Chain, HasNoStep};
ghost use Rattle.soc_multipart.specs.Delimiters.{PartsRun};
ghost use Rattle.soc_text.specs.Blanks.{is_blank};
ghost use Rattle.soc_multipart.specs.Heads.{IsHeadEnd, LineText, ReadsLine, head_limit, is_line_byte, values_of};
ghost use Rattle.soc_text.specs.Blanks.{trimmed};
ghost use Rattle.soc_multipart.specs.inner.Views.{EndsSo, HasValues, line_text, line_texts};

use crate::params::split_token;
use soc_base::NoMemory;
use soc_text::{CRLF, after, strip_front, trim_blanks};
use std::alloc::Global;

/// The most bytes that a head has, its empty line counted.
pub const HEAD_LIMIT: usize = 1024;

/// A line of a head.
#[derive(Clone, Copy, Debug)]
pub struct Line<'a> {
    pub name: &'a [u8],
    /// The value, with the blanks around it.
    pub raw: &'a [u8],
}

/// How a head ends.
#[derive(Clone, Copy, Debug)]
pub enum HeadEnd<'a> {
    /// By an empty line within the limit, which this content follows.
    Content(&'a [u8]),
    /// Not so: these bytes follow the lines that were read.
    Open(&'a [u8]),
}

/// The lines of a head, and how it ends.
#[derive(Debug, Drop)]
pub struct HeadLines<'a> {
    pub lines: Vec<Line<'a>>,
    pub end: HeadEnd<'a>,
}

/// Lines, and what follows them.
#[derive(Debug, Drop)]
struct ReadLines<'a> {
    lines: Vec<Line<'a>>,
    rest: &'a [u8],
}

/// The values of the lines of one name.
#[derive(Clone, Copy, Debug)]
pub enum Named<'a> {
    Never,
    Once(&'a [u8]),
    Often,
}

/// The lines of the head of `piece`, and how the head ends.
pub fn head_lines<'a>(alloc: Global, piece: &'a [u8]) -> Result<HeadLines<'a>, NoMemory>
    ensures { IfOk result (λ head. IsHeadEnd piece.now (line_texts head.lines.items) head.end) }
{
    let window = first_bytes(piece);
    let ReadLines { lines, rest } = read_lines(alloc, window)?;
    let tail = after(piece, window.len() - rest.len());
    Ok(HeadLines {
        lines,
        end: head_end(rest, tail),
    })
}

/// How a head ends, of which `rest` is left in the first bytes and `tail` in the whole.
fn head_end<'a>(rest: &[u8], tail: &'a [u8]) -> HeadEnd<'a>
    requires { (more : List ℕ) × (tail.now ≡ rest.now ++ more) }
    ensures { EndsSo rest.now tail.now result }
{
    if strip_front(rest, &CRLF).is_none() {
        return HeadEnd::Open(tail);
    }
    HeadEnd::Content(after(tail, 2))
}

fn first_bytes(piece: &[u8]) -> &[u8]
    ensures { result.now ≡ take head_limit piece.now }
{
    if piece.len() < HEAD_LIMIT {
        piece
    } else {
        &piece[..HEAD_LIMIT]
    }
}

fn read_lines<'a>(alloc: Global, text: &'a [u8]) -> Result<ReadLines<'a>, NoMemory>
    ensures { IfOk result (λ read.
        Chain ReadsLine text.now (line_texts read.lines.items) read.rest.now
        × HasNoStep ReadsLine read.rest.now) }
{
    let mut lines = Vec::new(alloc);
    let mut rest = text;
    while let Some((line, later)) = read_line(rest) {
        lines.push(line)?;
        rest = later;
    }
    Ok(ReadLines { lines, rest })
}

fn read_line(text: &[u8]) -> Option<(Line<'_>, &[u8])>
    ensures { MatchOption result ((line : LineText) (rest : List ℕ)
        → ¬ (ReadsLine text.now line rest))
        (λ read. ReadsLine text.now (line_text read.0) read.1.now) }
{
    let (name, tail) = split_token(text);
    if name.is_empty() {
        return None;
    }
    let tail = strip_front(tail, b":")?;
    let (raw, tail) = split_line_bytes(tail);
    let rest = strip_front(tail, &CRLF)?;
    Some((Line { name, raw }, rest))
}

fn split_line_bytes(text: &[u8]) -> (&[u8], &[u8])
    ensures { PartsRun is_line_byte text.now result.0.now result.1.now }
{
    text.split_at(line_bytes_len(text))
}

fn line_bytes_len(text: &[u8]) -> usize
    ensures { result ≡ prefix_len is_line_byte text.now }
{
    text.iter()
        .take_while(|byte| !(**byte == b'\r' || **byte == b'\n'))
        .count()
}

/// The values of the lines of this name, without regard to ASCII case.
pub fn values_named<'a>(lines: &[Line<'a>], name: &[u8]) -> Named<'a>
    ensures { HasValues (values_of name.now (line_texts lines.now)) result }
{
    let mut found = Named::Never;
    for line in lines {
        if line.name.eq_ignore_ascii_case(name) {
            found = one_more(found, line.raw);
        }
    }
    found
}

fn one_more<'a>(found: Named<'a>, raw: &'a [u8]) -> Named<'a>
    ensures { (values : List (List ℕ)) → HasValues values found.entry
        → HasValues (values ++ trimmed raw.now ∷ []) result }
{
    match found {
        Named::Never => Named::Once(trim_blanks(raw)),
        Named::Once(_) => Named::Often,
        Named::Often => Named::Often,
    }
}
