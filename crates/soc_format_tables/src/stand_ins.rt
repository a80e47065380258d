//! What stands in memory for the outside, call by call.
ghost use Rattle.std.specs.Prelude.{◌≡◌, ◌↔◌, ◌<◌, All, IfOk, IsTrue, length};
ghost use Rattle.soc_raw.specs.Day.{IsMoment};

use soc_base::{Blobs, Bytes, Text};
use soc_edge::{
    Both, BytesList, Clock, Draws, Ids16, MemClock, MemDraws, MemSink, MemSource, MemTree, Numbers,
    Sink, Source, Steps, Tree, write_all,
};
use soc_raw::{FIRST_MOMENT, LAST_MOMENT};
use soc_tables::{Fault, Row, append, copy, done, number_at, number_of, shown, told, word};
use std::alloc::Global;
use std::marker::Brand;
use std::sync::ledger::{Blank, Ledger};

/// The numbers of the calls that fail, counted from 0.
pub fn fails(alloc: Global, row: &Row<'_>) -> Result<Numbers, Fault> {
    Ok(Numbers::new(row.numbers(alloc, "fails")?))
}

/// The longest read of a row.
const MOST_READ: usize = 8;

/// What a read of so many bytes gives.
fn read_text<S: Source>(alloc: Global, source: &mut S, count: u64) -> Result<String, Fault> {
    let mut into = [0; MOST_READ];
    let room = (count as usize).min(MOST_READ);
    let count = source.read(&mut into[..room])?;
    shown(alloc, into.get(..count).unwrap_or(&[]))
}

/// What a source gives in reads of these sizes.
pub fn source(alloc: Global, row: &Row<'_>) -> Result<String, Fault> {
    let mut source = MemSource::new(Bytes::from(row.bytes(alloc, "bytes")?), fails(alloc, row)?);
    let mut answers = String::new(alloc);
    for size in row.cell("sizes")?.split(';') {
        let count = number_of(size.trim())?;
        let answer = told(alloc, read_text(alloc, &mut source, count))?;
        append(&mut answers, answer.as_str())?;
    }
    Ok(answers)
}

fn sink_of(alloc: Global, row: &Row<'_>) -> Result<MemSink, Fault> {
    let room = row.number("room")? as usize;
    Ok(MemSink::new(alloc, room, fails(alloc, row)?)?)
}

/// How many bytes a sink takes of each of these, and what it holds then.
pub fn sink(alloc: Global, row: &Row<'_>) -> Result<String, Fault> {
    let mut sink = sink_of(alloc, row)?;
    let mut answers = String::new(alloc);
    for piece in row.cell("pieces")?.split(';') {
        let answer = told(alloc, write_text(alloc, &mut sink, piece.trim()))?;
        append(&mut answers, answer.as_str())?;
    }
    append(&mut answers, shown(alloc, sink.bytes())?.as_str())?;
    Ok(answers)
}

fn write_text(alloc: Global, sink: &mut MemSink, piece: &str) -> Result<String, Fault> {
    let count = sink.write(piece.as_bytes())?;
    Ok(format!(in alloc; "{count}")?)
}

/// What calls give of a source and a sink that are one link, and what was written then.
pub fn link(alloc: Global, row: &Row<'_>) -> Result<String, Fault> {
    let source = MemSource::new(
        Bytes::from(row.bytes(alloc, "bytes")?),
        Numbers::new(Vec::new(alloc)),
    );
    let mut link = Both {
        source,
        sink: sink_of(alloc, row)?,
    };
    link_answers(alloc, &mut link, row.cell("calls")?)
}

fn link_answers(
    alloc: Global,
    link: &mut Both<MemSource, MemSink>,
    calls: &str,
) -> Result<String, Fault> {
    let mut answers = String::new(alloc);
    for call in calls.split(';') {
        let answer = told(alloc, link_answer(alloc, link, call))?;
        append(&mut answers, answer.as_str())?;
    }
    append(&mut answers, shown(alloc, link.sink.bytes())?.as_str())?;
    Ok(answers)
}

fn link_answer(
    alloc: Global,
    link: &mut Both<MemSource, MemSink>,
    call: &str,
) -> Result<String, Fault> {
    match word(call, 0) {
        "read" => read_text(alloc, link, number_at(call, 1)?),
        _ => done(alloc, write_all(link, word(call, 1).as_bytes())),
    }
}

/// What a clock tells that has a row's moments.
pub fn clock(alloc: Global, row: &Row<'_>) -> Result<String, Fault> {
    let mut clock = MemClock::new(moments_of(alloc, row)?);
    let mut answers = String::new(alloc);
    for _ in 0..row.number("calls")? {
        append(&mut answers, format!(in alloc; "{}", clock.now())?.as_str())?;
    }
    Ok(answers)
}

fn moments_of(alloc: Global, row: &Row<'_>) -> Result<Numbers, Fault>
    ensures { IfOk result (λ moments. All IsMoment moments × (0 < length moments)) }
{
    let moments = row.numbers(alloc, "moments")?;
    if moments.is_empty() || !moments.iter().all(|moment| is_moment(*moment)) {
        return Err(Fault::new("no moments"));
    }
    Ok(Numbers::new(moments))
}

fn is_moment(moment: u64) -> bool
    ensures { IsTrue result ↔ IsMoment moment }
{
    FIRST_MOMENT <= moment && moment <= LAST_MOMENT
}

/// What draws give that have a row's numbers and ids, of which each is one byte sixteen times.
pub fn draws(alloc: Global, row: &Row<'_>) -> Result<String, Fault> {
    let throttles = row.numbers(alloc, "throttles")?;
    let ids = ids_of(alloc, row)?;
    if throttles.is_empty() || ids.is_empty() {
        return Err(Fault::new("no draws"));
    }
    let mut draws = MemDraws::new(Numbers::new(throttles), Ids16::new(ids));
    draw_answers(alloc, &mut draws, row.cell("calls")?)
}

fn ids_of(alloc: Global, row: &Row<'_>) -> Result<Vec<[u8; 16]>, Fault> {
    let mut ids = Vec::new(alloc);
    for number in row.numbers(alloc, "ids")?.iter() {
        ids.push([u8::try_from(*number)?; 16])?;
    }
    Ok(ids)
}

fn draw_answers(alloc: Global, draws: &mut MemDraws, calls: &str) -> Result<String, Fault> {
    let mut answers = String::new(alloc);
    for call in calls.split(';') {
        let answer = match call.trim() {
            "throttle" => format!(in alloc; "{}", draws.throttle())?,
            _ => shown(alloc, draws.id().as_slice())?,
        };
        append(&mut answers, answer.as_str())?;
    }
    Ok(answers)
}

/// The items of a list of bytes.
pub fn list(alloc: Global, row: &Row<'_>) -> Result<String, Fault> {
    let mut items = Vec::new(alloc);
    for item in row.items(alloc, "items")? {
        items.push(Bytes::of(alloc, item.as_bytes())?)?;
    }
    list_text(alloc, &BytesList::new(items))
}

fn list_text(alloc: Global, list: &BytesList) -> Result<String, Fault> {
    let mut text = String::new(alloc);
    for item in list.as_slice() {
        append(&mut text, shown(alloc, item.as_slice())?.as_str())?;
    }
    Ok(text)
}

fn files_of(alloc: Global, row: &Row<'_>) -> Result<Blobs, Fault> {
    let mut files = Blobs::new(alloc);
    for item in row.items(alloc, "files")? {
        let (name, content) = item.as_str().split_once('=').unwrap_or((item.as_str(), ""));
        put_file(alloc, &mut files, name, content)?;
    }
    Ok(files)
}

fn put_file(alloc: Global, files: &mut Blobs, name: &str, content: &str) -> Result<(), Fault> {
    let content = Bytes::of(alloc, content.as_bytes())?;
    files.set(Text::of(alloc, name)?, content)?;
    Ok(())
}

/// What a tree gives for names.
pub fn tree(alloc: Global, row: &Row<'_>) -> Result<String, Fault> {
    let mut tree = MemTree::new(files_of(alloc, row)?, fails(alloc, row)?);
    let mut answers = String::new(alloc);
    for name in row.cell("asked")?.split(';') {
        let answer = told(alloc, file_text(alloc, &mut tree, name.trim()))?;
        append(&mut answers, answer.as_str())?;
    }
    Ok(answers)
}

fn file_text(alloc: Global, tree: &mut MemTree, name: &str) -> Result<String, Fault> {
    match tree.file(alloc, name)? {
        Some(content) => shown(alloc, content.as_slice()),
        None => copy(alloc, "none"),
    }
}

/// Steps that are counted.
pub fn steps(alloc: Global, row: &Row<'_>) -> Result<String, Fault> {
    let steps = count::<Brand>(Blank::new(1), row.number("ticks")?);
    Ok(format!(in alloc; "{steps}")?)
}

fn count<L: Ledger>(blank: Blank, ticks: u64) -> u64
    requires name { blank.name ≡ L.name }
    requires parts { blank.parts ≡ L.parts }
    requires some { 0 < blank.parts }
{
    let mut steps: Steps<L> = Steps::new(blank);
    for _ in 0..ticks {
        steps.tick();
    }
    ticks
}
