//! The parts of a whole multipart body.
ghost use Rattle.std.specs.Prelude.{◌≡◌, ◌<◌, ◌↔◌, ◌⊎◌, List, ℕ, length, IsTrue, IfOk, IfErr, MatchBool, MatchOption};
ghost use Rattle.soc_multipart.specs.declared.parts.PartsError.TheVariants.{NoMemory as WantsMemory};
ghost use Rattle.soc_multipart.specs.Delimiters.{mark_of};
ghost use Rattle.soc_multipart.specs.Heads.{IsHeadEnd, LineText};
ghost use Rattle.soc_multipart.specs.Parts.{Cut, CutFault, HasNoLineEnd, HoldsHead, IsOneCut, IsOneFault, IsPart, MayBePart, PartFault, PartText, parts_limit};
ghost use Rattle.soc_multipart.specs.PartViews.{part_text, part_texts};
ghost use Rattle.soc_multipart.specs.inner.Meeting.{MeetsPart};

use crate::delimiters::{Ending, Found, first_delimiter, is_boundary, next_delimiter};
use crate::dispositions::{Head, head_of, may_be_head};
use crate::heads::{HEAD_LIMIT, HeadEnd, HeadLines, head_lines};
use memchr::memmem::{Finder, find};
use soc_base::{NoMemory, Text};
use std::alloc::{AllocError, AllocFailed, Global};
use thiserror::Error;

/// The most parts that a body has.
pub const PARTS_LIMIT: usize = 512;

/// A part of a body.
#[derive(Debug, Drop)]
pub struct Part<'a> {
    /// The name of its field.
    pub name: Text,
    /// The name of its file, where it has one.
    pub file: Option<Text>,
    /// The value of its `Content-Type`, or nothing.
    pub kind: Text,
    /// The bytes of the body that are its content.
    pub content: &'a [u8],
}

/// Why a body has no parts.
#[derive(Clone, Copy, Debug, Error, PartialEq, Eq)]
pub enum PartsError {
    #[error("the boundary is not one of RFC 2046")]
    BadBoundary,
    #[error("no delimiter stands in the body")]
    NoFirst,
    /// The part's number counts from 0.
    #[error("part {part} has a bad head")]
    BadPartHead { part: u32 },
    #[error("no closing delimiter stands in the body")]
    NoClose,
    #[error("the body has more than 512 parts")]
    TooManyParts,
    #[error("out of memory")]
    NoMemory,
}

impl From<NoMemory> for PartsError {
    ghost use Rattle.std.specs.Prelude.{◌≡◌};
    ghost use Rattle.soc_multipart.specs.declared.parts.PartsError.TheVariants.{NoMemory};

    ghost from_gives = { λ _ error. error ≡ NoMemory };

    fn from(_error: NoMemory) -> PartsError {
        PartsError::NoMemory
    }
}

impl From<AllocError> for PartsError {
    ghost use Rattle.std.specs.Prelude.{◌≡◌};
    ghost use Rattle.soc_multipart.specs.declared.parts.PartsError.TheVariants.{NoMemory};

    ghost from_gives = { λ _ error. error ≡ NoMemory };

    fn from(_error: AllocError) -> PartsError {
        PartsError::NoMemory
    }
}

impl<T: Drop> From<AllocFailed<T>> for PartsError {
    ghost use Rattle.std.specs.Prelude.{◌≡◌};
    ghost use Rattle.soc_multipart.specs.declared.parts.PartsError.TheVariants.{NoMemory};

    ghost from_gives = { λ _ error. error ≡ NoMemory };

    fn from(_error: AllocFailed<T>) -> PartsError {
        PartsError::NoMemory
    }
}

/// The parts of a body, in order.
pub type Parts<'a> = Vec<Part<'a>>;

/// The parts of `body`, which is a message's whole body, by its boundary (RFC 2046, section 5.1.1).
/// Each content is a slice of the body. The refusal that stands first in the body decides.
pub fn read_whole<'a>(
    alloc: Global,
    boundary: &[u8],
    body: &'a [u8],
) -> Result<Parts<'a>, PartsError>
    ensures found { IfOk result (λ parts. Cut boundary.now body.now (part_texts parts.items)) }
    // Want of memory is free.
    ensures refused { IfErr result
        (λ error. (error ≡ WantsMemory) ⊎ CutFault boundary.now body.now error) }
{
    if !is_boundary(boundary) {
        return Err(PartsError::BadBoundary);
    }
    let mark = mark(alloc, boundary)?;
    let finder = Finder::new(mark.as_slice());
    let Some(first) = first_delimiter(&finder, boundary, body) else {
        return Err(PartsError::NoFirst);
    };
    let mut parts = Vec::new(alloc);
    let mut end = first;
    while let Ending::Opening(rest) = end {
        if parts.len() >= PARTS_LIMIT {
            return Err(PartsError::TooManyParts);
        }
        let read = read_part(alloc, &finder, rest, parts.len())?;
        let ReadPart { part, end: next } = read;
        parts.push(part)?;
        end = next;
    }
    Ok(parts)
}

/// At most one list of parts is the body's.
pub fn cut_is_one()
    ensures { IsOneCut }
{}

/// A body has parts or a refusal, never both, and one refusal at most.
pub fn fault_is_one()
    ensures { IsOneFault }
{}

/// A part, and how the delimiter ends that follows it.
#[derive(Debug, Drop)]
struct ReadPart<'a> {
    part: Part<'a>,
    end: Ending<'a>,
}

/// The part that `rest` begins with, which so many parts come before.
fn read_part<'a>(
    alloc: Global,
    finder: &Finder<'_>,
    rest: &'a [u8],
    count: usize,
) -> Result<ReadPart<'a>, PartsError>
    requires mark { 0 < length finder.now }
    requires few { count < parts_limit }
    ensures found { IfOk result (λ read.
        MeetsPart finder.now rest.now (part_text read.part) read.end) }
    ensures refused { IfErr result
        (λ error. (error ≡ WantsMemory) ⊎ PartFault finder.now rest.now count error) }
{
    let Some(found) = next_delimiter(finder, rest) else {
        let may = may_be_part(alloc, rest)?;
        return Err(if may {
            PartsError::NoClose
        } else {
            PartsError::BadPartHead { part: count as u32 }
        });
    };
    let Found { front, end } = found;
    let Some(part) = part_of(alloc, front)? else {
        return Err(PartsError::BadPartHead { part: count as u32 });
    };
    Ok(ReadPart { part, end })
}

fn mark(alloc: Global, boundary: &[u8]) -> Result<Vec<u8>, NoMemory>
    ensures { IfOk result (λ mark. mark.items ≡ mark_of boundary.now) }
{
    let mut mark = Vec::from_slice(alloc, b"\r\n--")?;
    mark.extend_from_slice(boundary)?;
    Ok(mark)
}

/// The piece as a part, where it is one.
pub fn part_of<'a>(alloc: Global, piece: &'a [u8]) -> Result<Option<Part<'a>>, NoMemory>
    ensures { IfOk result (λ found.
        MatchOption found ((part : PartText) → ¬ (IsPart piece.now part))
        (λ part. IsPart piece.now (part_text part))) }
{
    let HeadLines { lines, end } = head_lines(alloc, piece)?;
    let Some(content) = content_of(piece, end) else {
        return Ok(None);
    };
    let Some(head) = head_of(alloc, lines.as_slice())? else {
        return Ok(None);
    };
    let Head { name, file, kind } = head;
    Ok(Some(Part {
        name,
        file,
        kind,
        content,
    }))
}

/// The content of a piece whose head ends so.
fn content_of<'a>(piece: &[u8], end: HeadEnd<'a>) -> Option<&'a [u8]>
    ensures { (lines : List LineText) → IsHeadEnd piece.now lines end.entry
        → MatchOption result ((lines : List LineText) (content : List ℕ)
        → ¬ (HoldsHead piece.now lines content))
        (λ content. HoldsHead piece.now lines content.now) }
{
    match end {
        HeadEnd::Content(content) => Some(content),
        HeadEnd::Open(tail) => {
            if !tail.is_empty() {
                return None;
            }
            if piece.len() > HEAD_LIMIT {
                return None;
            }
            Some(tail)
        }
    }
}

/// Whether a piece that the body's end cuts off is no bad part yet.
pub fn may_be_part(alloc: Global, piece: &[u8]) -> Result<bool, NoMemory>
    ensures { IfOk result (λ may. IsTrue may ↔ MayBePart piece.now) }
{
    let HeadLines { lines, end } = head_lines(alloc, piece)?;
    match end {
        HeadEnd::Content(_) => {
            let head = head_of(alloc, lines.as_slice())?;
            Ok(head.is_some())
        }
        HeadEnd::Open(tail) => {
            if piece.len() >= HEAD_LIMIT {
                return Ok(false);
            }
            if has_line_end(tail) {
                return Ok(false);
            }
            let may = may_be_head(alloc, lines.as_slice())?;
            Ok(may)
        }
    }
}

pub fn has_line_end(text: &[u8]) -> bool
    ensures { MatchBool result (¬ (HasNoLineEnd text.now)) (HasNoLineEnd text.now) }
{
    find(text, b"\r\n").is_some()
}
