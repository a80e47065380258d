//! Forms as crash reporters send them, each read whole and in pieces of several sizes.
use soc_base::{Pairs, Text};
use soc_forms::{Form, FormError, Submission, read_submission};
use soc_tables::{Fault, Row, append, copy, shown, told};
use std::alloc::Global;

/// The `Content-Type` lines of a row.
fn kinds_of(alloc: Global, row: &Row<'_>) -> Result<Pairs, Fault> {
    let mut kinds = Pairs::new(alloc);
    if let Some(kind) = row.optional(alloc, "kind")? {
        kinds.push(Text::of(alloc, "Content-Type")?, Text::from(kind))?;
    }
    Ok(kinds)
}

/// The submission that a body is, or why it is none, where each way to read it gives the same.
pub fn form(alloc: Global, row: &Row<'_>) -> Result<String, Fault> {
    let kinds = kinds_of(alloc, row)?;
    let body = row.bytes(alloc, "body")?;
    let encoding = match row.cell("encoding")? {
        "-" => None,
        encoding => Some(encoding),
    };
    form_text(alloc, encoding, &kinds, body.as_slice())
}

fn form_text(
    alloc: Global,
    encoding: Option<&str>,
    kinds: &Pairs,
    body: &[u8],
) -> Result<String, Fault> {
    let whole = answer(alloc, read_submission(alloc, encoding, kinds, body))?;
    for size in [1, 2, 3, 5, 7, 1_000] {
        let pieces = answer(alloc, in_pieces(alloc, encoding, kinds, body, size))?;
        if pieces.as_str() != whole.as_str() {
            return Ok(format!(in alloc; "in pieces of {size} {}", pieces.as_str())?);
        }
    }
    Ok(whole)
}

fn in_pieces(
    alloc: Global,
    encoding: Option<&str>,
    kinds: &Pairs,
    body: &[u8],
    size: usize,
) -> Result<Submission, FormError> {
    let mut form = Form::new(alloc, encoding, kinds)?;
    for piece in body.chunks(size.max(1)) {
        form.feed(piece)?;
    }
    form.finish()
}

/// What a submission says, or the reason why a message is none.
fn answer(alloc: Global, read: Result<Submission, FormError>) -> Result<String, Fault> {
    match read {
        Ok(said) => said_text(alloc, &said),
        Err(FormError::Malformed(reason)) => copy(alloc, reason.text()),
        Err(FormError::NoMemory) => copy(alloc, "no memory"),
    }
}

fn said_text(alloc: Global, said: &Submission) -> Result<String, Fault> {
    let mut text = String::new(alloc);
    for (name, value) in said.annotations.iter() {
        append(&mut text, format!(in alloc; "{name}={value}")?.as_str())?;
    }
    append_dumps(alloc, &mut text, said)?;
    if let Some(id) = said.sent_id {
        write!(text, "; id {}", id.as_str())?;
    }
    Ok(text)
}

fn append_dumps(alloc: Global, text: &mut String, said: &Submission) -> Result<(), Fault> {
    for (name, content) in said.dumps.iter() {
        let length = content.len();
        let content = shown(alloc, content)?;
        write!(text, "; dump {name} {length}: {}", content.as_str())?;
    }
    Ok(())
}
