//! Messages over a connection: heads, bodies, replies, routes and queries.
ghost use Rattle.std.specs.Prelude.{◌<◌};

use crate::stand_ins::fails;
use soc_base::{Bytes, Pairs};
use soc_edge::{Failed, MemSink, MemSource, Numbers, Source, Tells};
use soc_http::{
    Answered, Buffer, Head, Kind, Route, Routes, Verb, body_piece, pairs_of, read_body, read_head,
    write_reply,
};
use soc_tables::{Fault, Row, append, copy, number_of, shown, told};
use std::alloc::Global;

/// Gives the bytes of a text in pieces of `size`.
#[derive(Drop)]
struct Drip<'a> {
    rest: &'a [u8],
    size: usize,
}

impl Tells for Drip<'_> {}

impl Source for Drip<'_> {
    fn read(&mut self, into: &mut [u8]) -> Result<usize, Failed> {
        let count = into.len().min(self.rest.len()).min(self.size);
        into[..count].copy_from_slice(&self.rest[..count]);
        self.rest = &self.rest[count..];
        Ok(count)
    }
}

/// A source of a row's text, whose calls with its numbers fail.
fn source_of(alloc: Global, row: &Row<'_>) -> Result<MemSource, Fault> {
    let text = Bytes::from(row.bytes(alloc, "text")?);
    Ok(MemSource::new(text, fails(alloc, row)?))
}

/// What calls give that read a text one after the other; where no call of the source fails, also in small pieces.
pub fn read(alloc: Global, row: &Row<'_>) -> Result<String, Fault> {
    let calls = row.cell("calls")?;
    let whole = read_from(alloc, &mut source_of(alloc, row)?, calls)?;
    if row.cell("fails")? != "-" {
        return Ok(whole);
    }
    let text = row.bytes(alloc, "text")?;
    read_in_pieces(alloc, text.as_slice(), calls, whole)
}

fn read_in_pieces(alloc: Global, text: &[u8], calls: &str, whole: String) -> Result<String, Fault> {
    for size in [1, 7, 1_000] {
        let mut source = Drip { rest: text, size };
        let pieces = read_from(alloc, &mut source, calls)?;
        if pieces.as_str() != whole.as_str() {
            return Ok(format!(in alloc; "in pieces of {size} {}", pieces.as_str())?);
        }
    }
    Ok(whole)
}

fn read_from<S: Source>(alloc: Global, source: &mut S, calls: &str) -> Result<String, Fault> {
    let mut buffer = Buffer::new(alloc)?;
    read_answers(alloc, source, &mut buffer, calls)
}

fn read_answers<S: Source>(
    alloc: Global,
    source: &mut S,
    buffer: &mut Buffer,
    calls: &str,
) -> Result<String, Fault> {
    let mut answers = String::new(alloc);
    for call in calls.split(';') {
        let answer = told(alloc, read_by(alloc, source, buffer, call.trim()))?;
        append(&mut answers, answer.as_str())?;
    }
    Ok(answers)
}

fn read_by<S: Source>(
    alloc: Global,
    source: &mut S,
    buffer: &mut Buffer,
    call: &str,
) -> Result<String, Fault> {
    match (read_head(alloc, source, buffer)?, call) {
        (None, _) => copy(alloc, "none"),
        (Some(head), "message") => message_text(alloc, source, buffer, &head),
        (Some(head), _) => head_text(alloc, &head),
    }
}

fn message_text<S: Source>(
    alloc: Global,
    source: &mut S,
    buffer: &mut Buffer,
    head: &Head,
) -> Result<String, Fault> {
    let body = told(alloc, body_text(alloc, source, buffer, head))?;
    let mut text = head_text(alloc, head)?;
    append(&mut text, body.as_str())?;
    Ok(text)
}

fn body_text<S: Source>(
    alloc: Global,
    source: &mut S,
    buffer: &mut Buffer,
    head: &Head,
) -> Result<String, Fault> {
    let body = read_body(alloc, source, buffer, head)?;
    Ok(format!(in alloc; "body {:?}", str::from_utf8(body.as_slice())?)?)
}

fn head_text(alloc: Global, head: &Head) -> Result<String, Fault> {
    let mut text = format!(in alloc;
        "{:?} {:?} {:?} {} {} {}",
        head.verb,
        head.path.as_str(),
        head.query.as_str(),
        head.length,
        head.bytes,
        if head.last { "last" } else { "more" }
    )?;
    append_pairs(&mut text, &head.lines)?;
    Ok(text)
}

fn append_pairs(text: &mut String, pairs: &Pairs) -> Result<(), Fault> {
    for (name, value) in pairs.iter() {
        write!(text, "; {name}={value}")?;
    }
    Ok(())
}

/// The pieces of bodies of a row's lengths, and how many bytes are left behind each.
pub fn pieces(alloc: Global, row: &Row<'_>) -> Result<String, Fault> {
    let mut source = source_of(alloc, row)?;
    let mut buffer = Buffer::new(alloc)?;
    piece_answers(alloc, &mut source, &mut buffer, row.cell("lengths")?)
}

fn piece_answers(
    alloc: Global,
    source: &mut MemSource,
    buffer: &mut Buffer,
    lengths: &str,
) -> Result<String, Fault> {
    let mut answers = String::new(alloc);
    for length in lengths.split(';') {
        let length = number_of(length.trim())?;
        append_pieces(alloc, &mut answers, source, buffer, length)?;
    }
    Ok(answers)
}

fn append_pieces(
    alloc: Global,
    answers: &mut String,
    source: &mut MemSource,
    buffer: &mut Buffer,
    length: u64,
) -> Result<(), Fault> {
    let mut left = length;
    for _ in 0..length {
        if left == 0 {
            break;
        }
        let is_piece = append_piece(alloc, answers, source, buffer, &mut left)?;
        write!(answers, ", {left} left")?;
        if !is_piece {
            break;
        }
    }
    Ok(())
}

/// Appends the next piece of a body, or why there is none.
fn append_piece(
    alloc: Global,
    answers: &mut String,
    source: &mut MemSource,
    buffer: &mut Buffer,
    left: &mut u64,
) -> Result<bool, Fault>
    requires { 0 < left.old }
{
    match body_piece(buffer, source, left) {
        Ok(piece) => {
            append(answers, shown(alloc, piece)?.as_str())?;
            Ok(true)
        }
        Err(error) => {
            append(answers, format!(in alloc; "{error:?}")?.as_str())?;
            Ok(false)
        }
    }
}

/// A reply as it is written.
pub fn reply(alloc: Global, row: &Row<'_>) -> Result<String, Fault> {
    let answered = Answered {
        status: u16::try_from(row.number("status")?)?,
        kind: kind_of(row)?,
        allow: allow_of(row)?,
        last: row.cell("last")? == "yes",
        body: Bytes::from(row.bytes(alloc, "body")?),
    };
    reply_text(alloc, &answered)
}

fn kind_of(row: &Row<'_>) -> Result<Kind, Fault> {
    match row.cell("kind")? {
        "plain" => Ok(Kind::Plain),
        "json" => Ok(Kind::Json),
        "octets" => Ok(Kind::Octets),
        "html" => Ok(Kind::Html),
        "own page" => Ok(Kind::OwnPage),
        _ => Err(Fault::new("no kind")),
    }
}

fn allow_of(row: &Row<'_>) -> Result<Option<Verb>, Fault> {
    match row.cell("allow")? {
        "GET" => Ok(Some(Verb::Get)),
        "POST" => Ok(Some(Verb::Post)),
        _ => Ok(None),
    }
}

fn reply_text(alloc: Global, answered: &Answered) -> Result<String, Fault> {
    let mut sink = MemSink::new(alloc, 4_096, Numbers::new(Vec::new(alloc)))?;
    write_reply(&mut sink, answered)?;
    shown(alloc, sink.bytes())
}

/// The route of a path by GET, by POST and by another method.
pub fn route(alloc: Global, row: &Row<'_>) -> Result<String, Fault> {
    let path = row.text(alloc, "path")?;
    let mut answers = String::new(alloc);
    for verb in [Verb::Get, Verb::Post, Verb::Other] {
        let answer = told(alloc, route_text(alloc, verb, path.as_str()))?;
        append(&mut answers, answer.as_str())?;
    }
    Ok(answers)
}

fn route_text(alloc: Global, verb: Verb, path: &str) -> Result<String, Fault> {
    match Routes::new(alloc)?.find(alloc, verb, path)? {
        Route::Report(id) => Ok(format!(in alloc; "Report {}", id.as_str())?),
        route => Ok(format!(in alloc; "{route:?}")?),
    }
}

/// The pairs of a query.
pub fn query(alloc: Global, row: &Row<'_>) -> Result<String, Fault> {
    let query = row.bytes(alloc, "query")?;
    let pairs = pairs_of(alloc, query.as_slice())?;
    let mut text = format!(in alloc; "{}", pairs.len())?;
    append_pairs(&mut text, &pairs)?;
    Ok(text)
}
