//! Head blocks: what one says, or why it is refused.
ghost use Rattle.std.specs.Prelude.{◌≡◌, ◌==◌, length, map, count_by, IfOk, IfErr, MatchOption, IsUtf8};
ghost use Rattle.std.specs.List.{All, before_first, after_first};
ghost use Rattle.httparse.specs.Spans.{IsRequestWithin, IsHeaderWithin, header_bytes};
ghost use Rattle.soc_text.specs.Lines.{line_feed};
ghost use Rattle.soc_http.specs.Block.{HasFewLines};
ghost use Rattle.soc_http.specs.Request.{verb_of, is_query_mark, lossy_line};
ghost use Rattle.soc_http.specs.inner.Framing.{IsWholeRequest};
ghost use Rattle.soc_http.specs.Message.{HeadOf, HasNoHead, RefusesBlock, OrNoMemory};

use crate::framing::Framing;
use crate::head::{Head, HeadError};
use crate::verb::Verb;
use httparse::Status;
use httparse::spans::{EMPTY_HEADER_SPAN, HeaderSpan, RequestSpans, parse_request};
use soc_base::{NoMemory, Pairs, Text};
use std::alloc::Global;

/// How many lines may stand between the first and the empty one.
const LINE_LIMIT: usize = 64;

fn count_lines(block: &[u8]) -> usize
    ensures { result ≡ count_by (λ b. b == line_feed) block.now }
{
    block.iter().filter(|b| **b == b'\n').count()
}

/// Reads the block as one request head, with no byte left.
fn parse_whole(block: &[u8], headers: &mut [HeaderSpan]) -> Option<RequestSpans>
    requires few { HasFewLines block.now }
    requires room { length headers.old ≡ 64 }
    ensures { MatchOption result (HasNoHead block.now)
        (λ spans. IsRequestWithin block.now headers.new spans
        × IsWholeRequest block.now headers.new spans) }
{
    match parse_request(block, headers) {
        Ok(Status::Complete(spans)) if spans.len == block.len() => Some(spans),
        _ => None,
    }
}

fn verb_of(method: &[u8]) -> Verb
    ensures { result ≡ verb_of method.now }
{
    if method == b"GET".as_slice() {
        Verb::Get
    } else if method == b"POST".as_slice() {
        Verb::Post
    } else {
        Verb::Other
    }
}

/// The parts of a target.
#[derive(Drop)]
struct Target {
    path: Text,
    query: Text,
}

/// The target up to a first `?`, and behind it.
fn split_target(alloc: Global, target: &[u8]) -> Result<Target, NoMemory>
    requires { IsUtf8 target.now }
    ensures path { IfOk result (λ t. t.path ≡ before_first is_query_mark target.now) }
    ensures query { IfOk result (λ t. t.query ≡ after_first is_query_mark target.now) }
{
    let Ok(target) = std::str::from_utf8(target) else {
        unreachable!();
    };
    let (path, query) = target.split_once('?').unwrap_or((target, ""));
    Ok(Target {
        path: Text::of(alloc, path)?,
        query: Text::of(alloc, query)?,
    })
}

fn lines_of(alloc: Global, block: &[u8], headers: &[HeaderSpan]) -> Result<Pairs, NoMemory>
    requires { All (IsHeaderWithin (length block.now)) headers.now }
    ensures { IfOk result (λ pairs. pairs
        ≡ map lossy_line (map (header_bytes block.now) headers.now)) }
{
    let mut lines = Pairs::new(alloc);
    for header in headers {
        let name = Text::lossy(alloc, header.name.of(block))?;
        let value = Text::lossy(alloc, header.value.of(block))?;
        lines.push(name, value)?;
    }
    Ok(lines)
}

/// Reads a head block.
pub(crate) fn read_block(alloc: Global, block: &[u8]) -> Result<Head, HeadError>
    ensures few { IfOk result (λ _. HasFewLines block.now) }
    ensures says { IfOk result (HeadOf block.now) }
    ensures refused { IfErr result (λ error. OrNoMemory error (RefusesBlock block.now error)) }
{
    if count_lines(block) > LINE_LIMIT + 2 {
        return Err(HeadError::HeadTooLarge);
    }
    let mut headers = [EMPTY_HEADER_SPAN; LINE_LIMIT];
    let Some(spans) = parse_whole(block, &mut headers) else {
        return Err(HeadError::BadHead);
    };
    head_at(alloc, block, &headers, spans)
}

/// The head whose parts the parser found.
fn head_at(
    alloc: Global,
    block: &[u8],
    headers: &[HeaderSpan],
    spans: RequestSpans,
) -> Result<Head, HeadError>
    requires few { HasFewLines block.now }
    requires within { IsRequestWithin block.now headers.now spans }
    requires whole { IsWholeRequest block.now headers.now spans }
    ensures says { IfOk result (HeadOf block.now) }
    ensures refused { IfErr result (λ error. OrNoMemory error (RefusesBlock block.now error)) }
{
    let headers = &headers[..spans.headers];
    let framing = Framing::of(block, headers);
    let verb = verb_of(spans.method.of(block));
    let length = framing.length(verb)?;
    let target = split_target(alloc, spans.path.of(block))?;
    Ok(Head {
        verb,
        path: target.path,
        query: target.query,
        lines: lines_of(alloc, block, headers)?,
        length,
        bytes: block.len() as u64,
        last: spans.version == 0 || framing.close,
    })
}
