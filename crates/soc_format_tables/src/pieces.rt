//! Bodies of parts that come in pieces.
use crate::bodies::{append_part, name_or_none};
use soc_multipart::{OwnedPart, Reader};
use soc_tables::{Fault, Row, append, copy, done, told, unescape};
use soc_text::{after, before};
use std::alloc::Global;

fn part_into(alloc: Global, text: &mut String, part: &OwnedPart) -> Result<(), Fault> {
    let file = match &part.file {
        Some(file) => file.as_str(),
        None => "-",
    };
    let names = [part.name.as_str(), file, name_or_none(part.kind.as_str())];
    append_part(alloc, text, names, part.content.as_slice())
}

/// The parts that a reader has read.
fn finished(alloc: Global, reader: Reader) -> Result<String, Fault> {
    let parts = reader.finish()?;
    let mut text = String::new(alloc);
    for part in &parts {
        part_into(alloc, &mut text, part)?;
    }
    Ok(text)
}

/// The parts of a body in two pieces.
pub fn cut_text(alloc: Global, boundary: &[u8], body: &[u8], at: usize) -> Result<String, Fault> {
    let mut reader = Reader::new(alloc, boundary)?;
    let _ = reader.feed(before(body, at));
    let _ = reader.feed(after(body, at));
    finished(alloc, reader)
}

/// The parts of a body in pieces of this size.
pub fn pieces_text(
    alloc: Global,
    boundary: &[u8],
    body: &[u8],
    size: usize,
) -> Result<String, Fault> {
    let mut reader = Reader::new(alloc, boundary)?;
    for piece in body.chunks(size.max(1)) {
        if reader.feed(piece).is_err() {
            break;
        }
    }
    finished(alloc, reader)
}

/// What a reader answers to each piece, and at the end.
pub fn fed(alloc: Global, row: &Row<'_>) -> Result<String, Fault> {
    let boundary = row.bytes(alloc, "boundary")?;
    fed_text(alloc, boundary.as_slice(), row.cell("pieces")?)
}

fn fed_text(alloc: Global, boundary: &[u8], pieces: &str) -> Result<String, Fault> {
    let mut reader = Reader::new(alloc, boundary)?;
    let mut answers = String::new(alloc);
    feed_each(alloc, &mut reader, pieces, &mut answers)?;
    let end = told(alloc, finished(alloc, reader))?;
    append(&mut answers, end.as_str())?;
    Ok(answers)
}

fn feed_each(
    alloc: Global,
    reader: &mut Reader,
    pieces: &str,
    answers: &mut String,
) -> Result<(), Fault> {
    for piece in pieces.split(';') {
        let piece = unescape(alloc, piece.trim())?;
        let answer = told(alloc, done(alloc, reader.feed(piece.as_slice())))?;
        append(answers, answer.as_str())?;
    }
    Ok(())
}
