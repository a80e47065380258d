//! What sessions write, and how they end.
use crate::drip::Drip;
use crate::ordered::{OrderedClock, OrderedDraws};
use crate::runs::{AMPLE, rules, served, served_with};
use crate::sample::{Choice, choice_of};
use crate::texts::{joined, text_of};
use crate::watched::Watched;
use soc_base::Bytes;
use soc_edge::{Both, MemSink, MemSource, Numbers};
use soc_session::SessionEnd;
use soc_tables::{Fault, Row};
use soc_text::before;
use std::alloc::Global;
use std::cell::Cell;

/// A session: what its desk answers, how many bytes its messages may have, and its input.
#[derive(Clone, Copy)]
struct Run<'a> {
    texts: &'a str,
    choice: Choice,
    session_bytes: u64,
    input: &'a [u8],
}

/// A session whose desk gives each command's own reply.
fn own<'a>(texts: &'a str, input: &'a [u8]) -> Run<'a> {
    Run {
        texts,
        choice: Choice::Own,
        session_bytes: AMPLE,
        input,
    }
}

fn link(
    alloc: Global,
    input: &[u8],
    reads: &[u64],
    writes: &[u64],
) -> Result<Both<MemSource, MemSink>, Fault> {
    Ok(Both {
        source: MemSource::new(Bytes::of(alloc, input)?, Numbers::new(reads.to_vec(alloc)?)),
        sink: MemSink::new(alloc, 32_768, Numbers::new(writes.to_vec(alloc)?))?,
    })
}

/// How a session ends whose reads and writes with these numbers fail, and what it writes.
fn ended(
    alloc: Global,
    run: Run<'_>,
    reads: &[u64],
    writes: &[u64],
) -> Result<(SessionEnd, MemSink), Fault> {
    let mut link = link(alloc, run.input, reads, writes)?;
    let end = served(alloc, run.texts, run.choice, run.session_bytes, &mut link)?;
    Ok((end, link.sink))
}

/// How a session ended, and what it wrote where that isn't as wanted.
fn outcome(
    alloc: Global,
    end: SessionEnd,
    written: &[u8],
    replies: &[u8],
) -> Result<String, Fault> {
    if written == replies {
        return Ok(format!(in alloc; "{end:?}")?);
    }
    let written = str::from_utf8(written)?;
    Ok(format!(in alloc; "{end:?}, and writes {written}")?)
}

fn answer(alloc: Global, run: Run<'_>, replies: &[u8]) -> Result<String, Fault> {
    let (end, sink) = ended(alloc, run, &[], &[])?;
    outcome(alloc, end, sink.bytes(), replies)
}

/// How a session ends, if it writes the replies.
pub fn session_of(alloc: Global, texts: &str, row: &Row<'_>) -> Result<String, Fault> {
    let input = joined(alloc, texts, row, "messages")?;
    let replies = joined(alloc, texts, row, "replies")?;
    session_over(alloc, texts, row, input.as_slice(), replies.as_slice())
}

fn session_over(
    alloc: Global,
    texts: &str,
    row: &Row<'_>,
    input: &[u8],
    replies: &[u8],
) -> Result<String, Fault> {
    let run = Run {
        texts,
        choice: choice_of(row.cell("desk")?),
        session_bytes: row.number("session_bytes")?,
        input,
    };
    answer(alloc, run, replies)
}

/// Adds an answer to the ones before, unless it is the same.
fn agree(answers: &mut String, other: &str) -> Result<(), Fault> {
    if answers.as_str() == other {
        return Ok(());
    }
    if !answers.is_empty() {
        answers.push_str(", and ")?;
    }
    answers.push_str(other)?;
    Ok(())
}

/// How a session over each front of a message ends, if it writes the replies.
pub fn cuts(alloc: Global, texts: &str, row: &Row<'_>) -> Result<String, Fault> {
    let input = joined(alloc, texts, row, "messages")?;
    let replies = joined(alloc, texts, row, "replies")?;
    cuts_of(alloc, texts, input.as_slice(), replies.as_slice())
}

fn cuts_of(alloc: Global, texts: &str, input: &[u8], replies: &[u8]) -> Result<String, Fault> {
    let mut answers = String::new(alloc);
    for length in 1..input.len() {
        let run = own(texts, before(input, length));
        agree(&mut answers, answer(alloc, run, replies)?.as_str())?;
    }
    Ok(answers)
}

/// How a session ends, if it writes the replies, whatever pieces its messages come in.
pub fn pieces(alloc: Global, texts: &str, row: &Row<'_>) -> Result<String, Fault> {
    let input = joined(alloc, texts, row, "messages")?;
    let replies = joined(alloc, texts, row, "replies")?;
    pieces_of(alloc, texts, input.as_slice(), replies.as_slice())
}

fn pieces_of(alloc: Global, texts: &str, input: &[u8], replies: &[u8]) -> Result<String, Fault> {
    let mut answers = String::new(alloc);
    for size in [1, 2, 3, 5, 7, 1_000] {
        let source = Drip { rest: input, size };
        agree(
            &mut answers,
            in_pieces(alloc, texts, source, replies)?.as_str(),
        )?;
    }
    Ok(answers)
}

fn in_pieces(
    alloc: Global,
    texts: &str,
    source: Drip<'_>,
    replies: &[u8],
) -> Result<String, Fault> {
    let sink = MemSink::new(alloc, 32_768, Numbers::new(Vec::new(alloc)))?;
    let mut link = Both { source, sink };
    let end = served(alloc, texts, Choice::Own, AMPLE, &mut link)?;
    outcome(alloc, end, link.sink.bytes(), replies)
}

/// What sessions write of the replies of which one read or write fails.
pub fn faults(alloc: Global, texts: &str, row: &Row<'_>) -> Result<String, Fault> {
    let input = joined(alloc, texts, row, "messages")?;
    let replies = joined(alloc, texts, row, "replies")?;
    faults_of(alloc, own(texts, input.as_slice()), replies.as_slice())
}

fn faults_of(alloc: Global, run: Run<'_>, replies: &[u8]) -> Result<String, Fault> {
    let mut answers = String::new(alloc);
    for number in 0..32 {
        agree(&mut answers, read_fault(alloc, run, number, replies)?)?;
        agree(&mut answers, write_fault(alloc, run, number, replies)?)?;
    }
    Ok(answers)
}

fn read_fault(
    alloc: Global,
    run: Run<'_>,
    number: u64,
    replies: &[u8],
) -> Result<&'static str, Fault> {
    let (end, sink) = ended(alloc, run, &[number], &[])?;
    match end {
        SessionEnd::ReadFault if replies.starts_with(sink.bytes()) => Ok("a front"),
        _ => Ok(whole(end, number, sink.bytes(), replies)),
    }
}

fn write_fault(
    alloc: Global,
    run: Run<'_>,
    number: u64,
    replies: &[u8],
) -> Result<&'static str, Fault> {
    let (end, sink) = ended(alloc, run, &[], &[number])?;
    let is_short = sink.bytes().len() < replies.len();
    match end {
        SessionEnd::WriteFault if is_short && replies.starts_with(sink.bytes()) => Ok("a front"),
        _ => Ok(whole(end, number, sink.bytes(), replies)),
    }
}

/// A session may write all replies where no call has the number; the first calls are always made.
fn whole(end: SessionEnd, number: u64, written: &[u8], replies: &[u8]) -> &'static str {
    if end == SessionEnd::Ended && number > 0 && written == replies {
        "a front"
    } else {
        "something else"
    }
}

/// The texts that a column's cell names.
fn each(alloc: Global, texts: &str, row: &Row<'_>, name: &str) -> Result<Vec<Vec<u8>>, Fault> {
    let mut all = Vec::new(alloc);
    for item in row.items(alloc, name)? {
        all.push(text_of(alloc, texts, item.as_str())?)?;
    }
    Ok(all)
}

/// Whether a session over a link that hands out one message a read asks for none before the reply to the last is written.
pub fn in_time(alloc: Global, texts: &str, row: &Row<'_>) -> Result<String, Fault> {
    let messages = each(alloc, texts, row, "messages")?;
    let replies = each(alloc, texts, row, "replies")?;
    watched(alloc, texts, messages.as_slice(), replies.as_slice())
}

fn watched(
    alloc: Global,
    texts: &str,
    messages: &[Vec<u8>],
    replies: &[Vec<u8>],
) -> Result<String, Fault> {
    let mut link = Watched::new(messages, replies);
    let end = served(alloc, texts, Choice::Own, AMPLE, &mut link)?;
    let missing = link.due.abs_diff(link.written);
    let early = if link.early { ", a read too early" } else { "" };
    let given = link.given;
    Ok(format!(in alloc; "{end:?} after {given} messages, {missing} bytes missing{early}")?)
}

/// The numbers of the calls by which a session asks for the moment and the draws.
pub fn draws(alloc: Global, texts: &str, row: &Row<'_>) -> Result<String, Fault> {
    let input = joined(alloc, texts, row, "messages")?;
    drawn(alloc, texts, input.as_slice())
}

fn drawn(alloc: Global, texts: &str, input: &[u8]) -> Result<String, Fault> {
    let calls = Cell::new(0);
    let mut clock = OrderedClock {
        calls: &calls,
        asked: None,
    };
    let mut draws = OrderedDraws {
        calls: &calls,
        throttle: None,
        id: None,
    };
    let mut link = link(alloc, input, &[], &[])?;
    let rules = rules(alloc, texts, AMPLE)?;
    let end = served_with(
        alloc,
        Choice::Own,
        &mut link,
        &rules,
        &mut clock,
        &mut draws,
    )?;
    ordered(alloc, end, &clock, &draws)
}

fn ordered(
    alloc: Global,
    end: SessionEnd,
    clock: &OrderedClock<'_>,
    draws: &OrderedDraws<'_>,
) -> Result<String, Fault> {
    let (moment, throttle, id) = (clock.asked, draws.throttle, draws.id);
    let calls = clock.calls.get();
    Ok(format!(in alloc;
        "{end:?}: moment {moment:?}, throttle {throttle:?}, id {id:?}, {calls} calls"
    )?)
}

/// The reply to a message of one request line, by its status, kind and body.
pub fn route(alloc: Global, texts: &str, row: &Row<'_>) -> Result<String, Fault> {
    let message = message_of(alloc, row)?;
    let mut run = own(texts, message.as_bytes());
    run.choice = choice_of(row.cell("desk")?);
    routed(alloc, run)
}

fn message_of(alloc: Global, row: &Row<'_>) -> Result<String, Fault> {
    let request = row.text(alloc, "request")?;
    let form = row.text(alloc, "form")?;
    let token = row.cell("token")?;
    let length = form.as_str().len();
    Ok(format!(in alloc;
        "{request} HTTP/1.1\r\nHost: h\r\nAuth-Token: {token}\r\nContent-Length: {length}\r\n\r\n{form}"
    )?)
}

fn routed(alloc: Global, run: Run<'_>) -> Result<String, Fault> {
    let (end, sink) = ended(alloc, run, &[], &[])?;
    shown(alloc, end, str::from_utf8(sink.bytes())?)
}

/// The status, kind and body of a reply that has nothing else, and after which the session goes on.
fn shown(alloc: Global, end: SessionEnd, reply: &str) -> Result<String, Fault> {
    let (head, body) = reply.split_once("\r\n\r\n").unwrap_or((reply, ""));
    let (status, fields) = head.split_once("\r\nContent-Type: ").unwrap_or((head, ""));
    let (kind, _) = fields.split_once("\r\n").unwrap_or((fields, ""));
    let length = body.len();
    let whole = format!(in alloc;
        "{status}\r\nContent-Type: {kind}\r\nContent-Length: {length}\r\n\r\n{body}"
    )?;
    match (status.strip_prefix("HTTP/1.1 "), end) {
        (Some(status), SessionEnd::Ended) if whole.as_str() == reply => {
            Ok(format!(in alloc; "{status}, {kind}: {body}")?)
        }
        _ => Ok(format!(in alloc; "{end:?}: {reply}")?),
    }
}
