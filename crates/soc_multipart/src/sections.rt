//! The sections of a body that comes in pieces, and how a reader goes from one to the next.
ghost use Rattle.std.specs.Prelude.{◌≡◌, ◌≢◌, ◌++◌, ◌<◌, ◌≤◌, List, ℕ, [], length, IfOk, IfErr, IsTrue};
ghost use Rattle.soc_multipart.specs.declared.parts.PartsError.TheVariants.{BadPartHead as BadHead};
ghost use Rattle.soc_multipart.specs.declared.sections.Section.TheVariants.{Closed as Done};
ghost use Rattle.soc_multipart.specs.Delimiters.{IsBoundary, mark_of};
ghost use Rattle.soc_multipart.specs.Heads.{head_limit};
ghost use Rattle.soc_text.specs.Lines.{crlf};
ghost use Rattle.soc_multipart.specs.OwnedViews.{owned_texts};
ghost use Rattle.soc_multipart.specs.Parts.{Cut, HoldsParts, parts_limit};
ghost use Rattle.soc_multipart.specs.inner.Sections.{BeginsNoPart, EndsSection, GoesOnBehind, IsClosed, IsCutOff, IsOfHead, Judges, JudgesLines, MeetsFor, Stands};
ghost use Rattle.soc_multipart.specs.Readers.{RefusesBody, RefusesFor};
ghost use Rattle.soc_multipart.specs.inner.Tails.{EndsLineIn, IsClear, IsOfLine, PassesLineIn, Watches};

use crate::dispositions::{Head, head_of};
use crate::heads::{HEAD_LIMIT, HeadEnd, HeadLines, head_lines};
use crate::owned_parts::{OwnedPart, owned, with_content};
use crate::parts::{PARTS_LIMIT, PartsError, has_line_end, may_be_part, part_of};
use crate::tails::{
    Kind, Split, Tail, closing_in, delimiter_in, empty, grown, moved_on, narrowed, renewed,
    split_line,
};
use soc_base::{Bytes, NoMemory};
use soc_text::{CRLF, before, strip_back};
use std::alloc::Global;
use std::cmp::min;

/// What the bytes belong to that came last.
#[derive(Drop)]
pub enum Section {
    /// What stands before the first delimiter.
    Preamble,
    /// The head of a part.
    InHead,
    /// The content of the part of this head.
    InContent(Head),
    /// What stands behind the closing delimiter.
    Closed,
}

/// How far a body has been read.
#[derive(Drop)]
pub struct State {
    /// The parts that have ended.
    pub parts: Vec<OwnedPart>,
    pub section: Section,
    /// The section's bytes: of a preamble the last line alone, of a content those behind the head.
    pub tail: Tail,
}

/// A good head, and what has come of the content.
#[derive(Drop)]
pub struct GoodHead {
    pub head: Head,
    pub content: Vec<u8>,
}

/// What lines say of a head that they begin.
#[derive(Drop)]
pub enum Verdict {
    Undecided,
    Bad,
    Good(GoodHead),
}

/// Nothing has been read yet: the body is looked at as if a line end stood before it.
pub fn at_start(alloc: Global) -> State
    ensures { (boundary : List ℕ) → IsBoundary boundary → Stands Watches boundary [] result }
{
    State {
        parts: Vec::new(alloc),
        section: Section::Preamble,
        tail: empty(alloc, Some(0)),
    }
}

/// The state after a piece more.
pub fn fed(alloc: Global, boundary: &[u8], state: State, piece: &[u8]) -> Result<State, PartsError>
    ensures found { (fed : List ℕ) → Stands Watches boundary.now fed state
        → IfOk result (λ new. Stands Watches boundary.now (fed ++ piece.now) new) }
    ensures refused { (fed : List ℕ) → Stands Watches boundary.now fed state
        → IfErr result (λ error. RefusesFor boundary.now (fed ++ piece.now) error) }
{
    let mut new = state;
    let mut left = piece;
    while !left.is_empty() {
        let split = split_line(left);
        new = fed_line(alloc, boundary, new, split.front, split.ended)?;
        left = split.rest;
    }
    Ok(new)
}

/// The state after bytes more, in which no line feed stands but at their end.
fn fed_line(
    alloc: Global,
    boundary: &[u8],
    state: State,
    bytes: &[u8],
    ended: bool,
) -> Result<State, PartsError>
    requires { IsOfLine bytes.now ended }
    ensures found { (fed : List ℕ) → Stands Watches boundary.now fed state
        → IfOk result (λ new. Stands Watches boundary.now (fed ++ bytes.now) new) }
    ensures refused { (fed : List ℕ) → Stands Watches boundary.now fed state
        → IfErr result (λ error. RefusesFor boundary.now (fed ++ bytes.now) error) }
{
    if is_closed(&state.section) {
        return Ok(state);
    }
    let State {
        parts,
        section,
        tail,
    } = state;
    let tail = grown(tail, bytes)?;
    if ended {
        let new = State {
            parts,
            section,
            tail,
        };
        return end_line(alloc, boundary, new);
    }
    let new = State {
        parts,
        section,
        tail: narrowed(boundary, tail),
    };
    judge_head(alloc, new)
}

fn is_closed(section: &Section) -> bool
    ensures { IsClosed section.now result }
{
    match section {
        Section::Closed => true,
        _ => false,
    }
}

/// The state behind the line feed that ends its bytes.
fn end_line(alloc: Global, boundary: &[u8], state: State) -> Result<State, PartsError>
    ensures found { (fed : List ℕ) → state.section ≢ Done → Stands EndsLineIn boundary.now fed state
        → IfOk result (λ new. Stands Watches boundary.now fed new) }
    ensures refused { (fed : List ℕ) → state.section ≢ Done
        → Stands EndsLineIn boundary.now fed state
        → IfErr result (λ error. RefusesFor boundary.now fed error) }
{
    let Some(met) = delimiter_in(boundary, &state.tail) else {
        return pass_line(alloc, state);
    };
    let State {
        parts,
        section,
        tail,
    } = state;
    let parts = end_section(alloc, parts, section, tail, met.place)?;
    begin_section(alloc, parts, met.kind)
}

/// The parts, where a delimiter ends the section whose line begins at that place.
fn end_section(
    alloc: Global,
    parts: Vec<OwnedPart>,
    section: Section,
    tail: Tail,
    place: usize,
) -> Result<Vec<OwnedPart>, PartsError>
    ensures found { (boundary body next : List ℕ)
        → EndsSection boundary body (owned_texts parts.items) section tail.bytes.items place next
        → IfOk result (λ new. HoldsParts boundary body (owned_texts new.items) next
        × length new.items ≤ parts_limit) }
    ensures refused { (boundary body next : List ℕ) → IsBoundary boundary
        → EndsSection boundary body (owned_texts parts.items) section tail.bytes.items place next
        → IfErr result (RefusesBody boundary body) }
{
    let mut new = parts;
    match section {
        Section::Preamble => Ok(new),
        Section::InHead => {
            let piece = before(tail.bytes.as_slice(), place.saturating_sub(2));
            let Some(part) = part_of(alloc, piece)? else {
                return Err(bad_part(new.len()));
            };
            let own = owned(alloc, part)?;
            new.push(own)?;
            Ok(new)
        }
        Section::InContent(head) => {
            let Tail { mut bytes, line: _ } = tail;
            bytes.truncate(place.saturating_sub(2));
            let whole = with_content(head, Bytes::from(bytes));
            new.push(whole)?;
            Ok(new)
        }
        Section::Closed => Ok(new),
    }
}

/// The refusal of the part that so many come before.
fn bad_part(count: usize) -> PartsError
    ensures { count < parts_limit → result ≡ BadHead count }
{
    PartsError::BadPartHead {
        part: min(count, PARTS_LIMIT) as u32,
    }
}

/// The state behind a delimiter.
fn begin_section(alloc: Global, parts: Vec<OwnedPart>, kind: Kind) -> Result<State, PartsError>
    ensures found { (boundary fed : List ℕ) → IsBoundary boundary → length parts.items ≤ parts_limit
        → MeetsFor boundary fed (owned_texts parts.items) kind
        → IfOk result (λ new. Stands Watches boundary fed new) }
    ensures refused { (boundary fed : List ℕ) → IsBoundary boundary
        → length parts.items ≤ parts_limit → MeetsFor boundary fed (owned_texts parts.items) kind
        → IfErr result (λ error. RefusesFor boundary fed error) }
{
    let tail = empty(alloc, None);
    match kind {
        Kind::Opening => {
            if parts.len() >= PARTS_LIMIT {
                return Err(PartsError::TooManyParts);
            }
            Ok(State {
                parts,
                section: Section::InHead,
                tail,
            })
        }
        Kind::Closing => Ok(State {
            parts,
            section: Section::Closed,
            tail,
        }),
    }
}

/// The state behind a line that is no delimiter.
fn pass_line(alloc: Global, state: State) -> Result<State, PartsError>
    ensures found { (boundary fed : List ℕ) → Stands PassesLineIn boundary fed state
        → IfOk result (λ new. Stands Watches boundary fed new) }
    ensures refused { (boundary fed : List ℕ) → Stands PassesLineIn boundary fed state
        → IfErr result (λ error. RefusesFor boundary fed error) }
{
    let State {
        parts,
        section,
        tail,
    } = state;
    match section {
        Section::Preamble => Ok(State {
            parts,
            section: Section::Preamble,
            tail: renewed(tail),
        }),
        Section::InHead => judge_head(
            alloc,
            State {
                parts,
                section: Section::InHead,
                tail: moved_on(tail),
            },
        ),
        Section::InContent(head) => Ok(State {
            parts,
            section: Section::InContent(head),
            tail: moved_on(tail),
        }),
        Section::Closed => Ok(State {
            parts,
            section: Section::Closed,
            tail,
        }),
    }
}

/// The state, where what has come of a head may show that it is a good or a bad one.
fn judge_head(alloc: Global, state: State) -> Result<State, PartsError>
    ensures found { (boundary fed : List ℕ) → Stands Watches boundary fed state
        → IfOk result (λ new. Stands Watches boundary fed new) }
    ensures refused { (boundary fed : List ℕ) → Stands Watches boundary fed state
        → IfErr result (λ error. RefusesFor boundary fed error) }
{
    if !is_in_head(&state.section) {
        return Ok(state);
    }
    match judge(alloc, &state.tail)? {
        Verdict::Undecided => Ok(state),
        Verdict::Bad => Err(bad_part(state.parts.len())),
        Verdict::Good(good) => Ok(in_content(state.parts, good)),
    }
}

fn is_in_head(section: &Section) -> bool
    ensures { IsOfHead section.now result }
{
    match section {
        Section::InHead => true,
        _ => false,
    }
}

/// The state behind a good head.
fn in_content(parts: Vec<OwnedPart>, good: GoodHead) -> State
    ensures { GoesOnBehind parts.items good result }
{
    let GoodHead { head, content } = good;
    let line = Some(content.len());
    State {
        parts,
        section: Section::InContent(head),
        tail: Tail {
            bytes: content,
            line,
        },
    }
}

/// What the bytes of a head say of it.
fn judge(alloc: Global, tail: &Tail) -> Result<Verdict, NoMemory>
    ensures { (boundary : List ℕ) → Watches (mark_of boundary) [] tail.now.bytes.items tail.now.line
        → IfOk result (Judges (mark_of boundary) tail.now.bytes.items) }
{
    let bytes = tail.bytes.as_slice();
    let decided = decided_len(tail);
    if decided > HEAD_LIMIT {
        let front = before(bytes, decided);
        let bad = is_too_long(alloc, front)?;
        if bad {
            return Ok(Verdict::Bad);
        }
        return Ok(Verdict::Undecided);
    }
    if bytes.len() > HEAD_LIMIT {
        return Ok(Verdict::Undecided);
    }
    if !ends_in_empty_line(bytes) {
        return Ok(Verdict::Undecided);
    }
    judge_lines(alloc, bytes)
}

/// How many bytes stand before each delimiter that may still come.
fn decided_len(tail: &Tail) -> usize
    ensures clear { (mark : List ℕ) → Watches mark [] tail.now.bytes.items tail.now.line
        → IsClear mark tail.now.bytes.items result }
    ensures inside { result ≤ length tail.now.bytes.items }
{
    match tail.line {
        Some(place) => min(place, tail.bytes.len()).saturating_sub(2),
        None => tail.bytes.len().saturating_sub(1),
    }
}

/// Whether the bytes, more than a head may have, hold no end of one.
fn is_too_long(alloc: Global, bytes: &[u8]) -> Result<bool, NoMemory>
    requires { head_limit < length bytes.now }
    ensures { IfOk result (λ bad. IsTrue bad → BeginsNoPart bytes.now) }
{
    let HeadLines { lines: _, end } = head_lines(alloc, bytes)?;
    match end {
        HeadEnd::Content(_) => Ok(false),
        HeadEnd::Open(_) => Ok(true),
    }
}

/// Whether an empty line stands at the end.
fn ends_in_empty_line(bytes: &[u8]) -> bool
    ensures { IsTrue result → (front : List ℕ) × (bytes.now ≡ front ++ crlf) }
{
    match strip_back(bytes, &CRLF) {
        Some(lines) => lines.is_empty() || strip_back(lines, &CRLF).is_some(),
        None => false,
    }
}

/// What the lines up to an empty one say of a head.
fn judge_lines(alloc: Global, bytes: &[u8]) -> Result<Verdict, NoMemory>
    requires { length bytes.now ≤ head_limit }
    ensures { (front : List ℕ) → bytes.now ≡ front ++ crlf
        → IfOk result (JudgesLines bytes.now front) }
{
    let HeadLines { lines, end } = head_lines(alloc, bytes)?;
    match end {
        HeadEnd::Content(content) => {
            let Some(head) = head_of(alloc, lines.as_slice())? else {
                return Ok(Verdict::Bad);
            };
            let content = Vec::from_slice(alloc, content)?;
            Ok(Verdict::Good(GoodHead { head, content }))
        }
        HeadEnd::Open(tail) => {
            if has_line_end(tail) {
                return Ok(Verdict::Bad);
            }
            Ok(Verdict::Undecided)
        }
    }
}

/// The parts of the body that ends here.
pub fn finished(alloc: Global, boundary: &[u8], state: State) -> Result<Vec<OwnedPart>, PartsError>
    ensures found { (fed : List ℕ) → Stands Watches boundary.now fed state
        → IfOk result (λ parts. Cut boundary.now fed (owned_texts parts.items)) }
    ensures refused { (fed : List ℕ) → Stands Watches boundary.now fed state
        → IfErr result (RefusesBody boundary.now fed) }
{
    if is_closed(&state.section) {
        return Ok(state.parts);
    }
    let Some(place) = closing_in(boundary, &state.tail) else {
        return Err(cut_off(alloc, state));
    };
    let State {
        parts,
        section,
        tail,
    } = state;
    end_section(alloc, parts, section, tail, place)
}

/// Why a body has no parts that ends in this section.
fn cut_off(alloc: Global, state: State) -> PartsError
    ensures { (boundary body : List ℕ) → IsBoundary boundary
        → IsCutOff boundary body (owned_texts state.parts.items) state.section
        state.tail.bytes.items → RefusesBody boundary body result }
{
    let State {
        parts,
        section,
        tail,
    } = state;
    match section {
        Section::Preamble => PartsError::NoFirst,
        Section::InHead => match may_be_part(alloc, tail.bytes.as_slice()) {
            Ok(true) => PartsError::NoClose,
            Ok(false) => bad_part(parts.len()),
            Err(NoMemory) => PartsError::NoMemory,
        },
        Section::InContent(_) => PartsError::NoClose,
        Section::Closed => PartsError::NoClose,
    }
}
