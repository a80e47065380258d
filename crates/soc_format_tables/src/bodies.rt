//! Bodies of parts, each read whole, at each cut and in pieces of several sizes.
use crate::pieces::{cut_text, pieces_text};
use soc_multipart::{Part, read_whole};
use soc_tables::{Fault, Row, append, shown, told};
use std::alloc::Global;

/// The longest body that is cut at each place.
const MOST_CUT: usize = 900;

/// Appends what a part says: the name of its field, of its file, its kind, and its content behind its length.
pub fn append_part(
    alloc: Global,
    text: &mut String,
    names: [&str; 3],
    content: &[u8],
) -> Result<(), Fault> {
    let length = content.len();
    let content = shown(alloc, content)?;
    let [name, file, kind] = names;
    let part = format!(in alloc; "{name} {file} {kind} {length}: {}", content.as_str())?;
    append(text, part.as_str())
}

/// A name, or `-` where there is none.
pub fn name_or_none(name: &str) -> &str {
    if name.is_empty() { "-" } else { name }
}

fn part_into(alloc: Global, text: &mut String, part: &Part<'_>) -> Result<(), Fault> {
    let file = match &part.file {
        Some(file) => file.as_str(),
        None => "-",
    };
    let names = [part.name.as_str(), file, name_or_none(part.kind.as_str())];
    append_part(alloc, text, names, part.content)
}

/// The parts of a whole body.
fn whole_text(alloc: Global, boundary: &[u8], body: &[u8]) -> Result<String, Fault> {
    let parts = read_whole(alloc, boundary, body)?;
    let mut text = String::new(alloc);
    for part in &parts {
        part_into(alloc, &mut text, part)?;
    }
    Ok(text)
}

/// The parts of a body, or why it has none, where each way to read it gives the same.
pub fn parts(alloc: Global, row: &Row<'_>) -> Result<String, Fault> {
    let boundary = row.bytes(alloc, "boundary")?;
    let body = row.bytes(alloc, "body")?;
    parts_text(alloc, boundary.as_slice(), body.as_slice())
}

fn parts_text(alloc: Global, boundary: &[u8], body: &[u8]) -> Result<String, Fault> {
    let whole = told(alloc, whole_text(alloc, boundary, body))?;
    match other_text(alloc, boundary, body, whole.as_str())? {
        Some(other) => Ok(other),
        None => Ok(whole),
    }
}

/// What a way to read a body gives that is not this text, if there is one.
fn other_text(
    alloc: Global,
    boundary: &[u8],
    body: &[u8],
    whole: &str,
) -> Result<Option<String>, Fault> {
    if body.len() <= MOST_CUT {
        if let Some(other) = other_cut(alloc, boundary, body, whole)? {
            return Ok(Some(other));
        }
    }
    other_pieces(alloc, boundary, body, whole)
}

fn other_cut(
    alloc: Global,
    boundary: &[u8],
    body: &[u8],
    whole: &str,
) -> Result<Option<String>, Fault> {
    for at in 0..=body.len() {
        let text = told(alloc, cut_text(alloc, boundary, body, at))?;
        if text.as_str() != whole {
            return Ok(Some(format!(in alloc; "cut at {at} {}", text.as_str())?));
        }
    }
    Ok(None)
}

fn other_pieces(
    alloc: Global,
    boundary: &[u8],
    body: &[u8],
    whole: &str,
) -> Result<Option<String>, Fault> {
    for size in [1, 2, 3, 5, 7, 1_000] {
        let text = told(alloc, pieces_text(alloc, boundary, body, size))?;
        if text.as_str() != whole {
            return Ok(Some(format!(in alloc; "in pieces of {size} {}", text.as_str())?));
        }
    }
    Ok(None)
}

/// What the fronts of a body give, each behind the length from which on they give it.
pub fn fronts(alloc: Global, row: &Row<'_>) -> Result<String, Fault> {
    let boundary = row.bytes(alloc, "boundary")?;
    let body = row.bytes(alloc, "body")?;
    fronts_text(alloc, boundary.as_slice(), body.as_slice())
}

fn fronts_text(alloc: Global, boundary: &[u8], body: &[u8]) -> Result<String, Fault> {
    let mut answers = String::new(alloc);
    let mut last = String::new(alloc);
    for length in 0..=body.len() {
        let answer = told(alloc, whole_text(alloc, boundary, &body[..length]))?;
        if answer.as_str() != last.as_str() {
            append(
                &mut answers,
                format!(in alloc; "from {length} {}", answer.as_str())?.as_str(),
            )?;
            last = answer;
        }
    }
    Ok(answers)
}

/// At how many of 65 places of a dump what is almost a delimiter is content.
pub fn almost(alloc: Global, row: &Row<'_>) -> Result<String, Fault> {
    let almost = row.bytes(alloc, "almost")?;
    let mut kept = 0u64;
    for place in 0..=64 {
        let is_kept = is_kept(alloc, almost.as_slice(), place)?;
        kept = kept.saturating_add(u64::from(is_kept));
    }
    Ok(format!(in alloc; "{kept}")?)
}

/// Whether a dump is the one part of its body that has what is almost a delimiter at this place.
fn is_kept(alloc: Global, almost: &[u8], place: usize) -> Result<bool, Fault> {
    let dump = dump_with(alloc, almost, place)?;
    let body = body_of(alloc, dump.as_slice())?;
    is_one_part(alloc, body.as_slice(), dump.as_slice())
}

fn is_one_part(alloc: Global, body: &[u8], dump: &[u8]) -> Result<bool, Fault> {
    match read_whole(alloc, b"b", body)?.as_slice() {
        [part] => Ok(part.content == dump),
        _ => Ok(false),
    }
}

/// So many bytes, then what is almost a delimiter, then bytes up to 64 beside it.
fn dump_with(alloc: Global, almost: &[u8], place: usize) -> Result<Vec<u8>, Fault> {
    let mut dump = vec![in alloc; b'?'; place]?;
    dump.extend_from_slice(almost)?;
    for _ in place..64 {
        dump.push(b'?')?;
    }
    Ok(dump)
}

/// A body whose one part is this dump.
fn body_of(alloc: Global, dump: &[u8]) -> Result<Vec<u8>, Fault> {
    let mut body = Vec::from_slice(
        alloc,
        b"--b\r\nContent-Disposition: form-data; name=a; filename=b\r\n\r\n",
    )?;
    body.extend_from_slice(dump)?;
    body.extend_from_slice(b"\r\n--b--\r\n")?;
    Ok(body)
}

/// What random bodies are made of.
const WORDS: [&[u8]; 16] = [
    b"\r\n",
    b"\r",
    b"\n",
    b"-",
    b"--b",
    b"--b\r\n",
    b"\r\n--b\r\n",
    b"\r\n--b--",
    b"\r\n--b--\r\n",
    b" ",
    b"x",
    b"\r\n\r\n",
    b"Content-Disposition: form-data; name=a\r\n",
    b"Content-Disposition: form-data; name=a; filename=b\r\n\r\n",
    b"Content-Type: x\r\n",
    b"\r\n--b \t\r\nContent-Disposition: form-data; name=c\r\n\r\n",
];

/// The next number of a linear congruential sequence.
fn step(seed: u64) -> u64 {
    seed.wrapping_mul(6_364_136_223_846_793_005)
        .wrapping_add(1_442_695_040_888_963_407)
}

fn random_body(alloc: Global, seed: u64) -> Result<Vec<u8>, Fault> {
    let mut body = Vec::from_slice(alloc, b"--b\r\n")?;
    let mut state = step(seed);
    for _ in 0..=seed % 14 {
        state = step(state);
        let place = (state >> 33) % 16;
        body.extend_from_slice(WORDS[place as usize])?;
    }
    Ok(body)
}

/// How many random bodies there are of which each way to read them gives the same.
pub fn random(alloc: Global, row: &Row<'_>) -> Result<String, Fault> {
    let mut same = 0u64;
    for seed in 0..row.number("bodies")? {
        let body = random_body(alloc, seed)?;
        same = same.saturating_add(u64::from(is_agreed(alloc, body.as_slice())?));
    }
    Ok(format!(in alloc; "{same}")?)
}

fn is_agreed(alloc: Global, body: &[u8]) -> Result<bool, Fault> {
    let whole = told(alloc, whole_text(alloc, b"b", body))?;
    Ok(other_text(alloc, b"b", body, whole.as_str())?.is_none())
}
