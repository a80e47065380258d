//! Crash ids, days, raw crashes and what reads them.
ghost use Rattle.std.specs.Prelude.{IfOk};
ghost use Rattle.soc_raw.specs.Day.{IsMoment};

use soc_base::{Cursor, Text, TextList};
use soc_raw::{CrashId, Digit, FIRST_MOMENT, LAST_MOMENT, RawCrash, RecordError, day_of};
use soc_tables::{Fault, Row, append, copy, shown};
use std::alloc::Global;

/// The moment of a row.
fn moment_of(row: &Row<'_>) -> Result<u64, Fault>
    ensures { IfOk result (λ moment. IsMoment moment) }
{
    let moment = row.number("moment")?;
    if FIRST_MOMENT <= moment && moment <= LAST_MOMENT {
        Ok(moment)
    } else {
        Err(Fault::new("no moment"))
    }
}

fn digit_of(row: &Row<'_>) -> Result<Digit, Fault> {
    match row.cell("digit")? {
        "0" => Ok(Digit::Accepted),
        "1" => Ok(Digit::Deferred),
        _ => Err(Fault::new("no digit")),
    }
}

fn draw_of(alloc: Global, row: &Row<'_>) -> Result<[u8; 16], Fault> {
    let bytes = row.bytes(alloc, "draw")?;
    let mut draw = [0; 16];
    if bytes.len() != 16 {
        return Err(Fault::new("no draw"));
    }
    draw.copy_from_slice(bytes.as_slice());
    Ok(draw)
}

/// An id that is made, its digit and its day.
pub fn id(alloc: Global, row: &Row<'_>) -> Result<String, Fault> {
    let digit = digit_of(row)?;
    let id = CrashId::make(draw_of(alloc, row)?, digit, moment_of(row)?);
    Ok(format!(in alloc; "{} {:?} {}", id.as_str(), id.digit(), id.day())?)
}

/// Whether a text is an id.
pub fn parse(alloc: Global, row: &Row<'_>) -> Result<String, Fault> {
    match CrashId::parse(row.text(alloc, "text")?.as_str()) {
        Some(id) => copy(alloc, id.as_str()),
        None => copy(alloc, "none"),
    }
}

/// The day of a moment.
pub fn day(alloc: Global, row: &Row<'_>) -> Result<String, Fault> {
    let day = day_of(moment_of(row)?);
    Ok(format!(in alloc; "{}-{}-{}", day.year, day.month, day.day)?)
}

/// What a record holds, where it is the record of that.
pub fn record(alloc: Global, row: &Row<'_>) -> Result<String, Fault> {
    let record = row.bytes(alloc, "record")?;
    record_text(alloc, record.as_slice())
}

fn record_text(alloc: Global, record: &[u8]) -> Result<String, Fault> {
    let raw = RawCrash::decode(alloc, record)?;
    if is_record_of(alloc, record, &raw)? {
        crash_text(alloc, &raw)
    } else {
        copy(alloc, "another record")
    }
}

/// Whether this is the record of a crash, alone and behind other bytes, and of a copy of it.
fn is_record_of(alloc: Global, record: &[u8], raw: &RawCrash) -> Result<bool, Fault> {
    let encoded = raw.encode(alloc)?;
    Ok(encoded.as_slice() == record && is_behind(alloc, record, raw)? && is_copied(alloc, raw)?)
}

fn is_behind(alloc: Global, record: &[u8], raw: &RawCrash) -> Result<bool, Fault> {
    let mut buffer = Vec::from_slice(alloc, b"head")?;
    raw.encode_into(&mut buffer)?;
    Ok(buffer.as_slice().strip_prefix(b"head") == Some(record))
}

fn is_copied(alloc: Global, raw: &RawCrash) -> Result<bool, Fault> {
    Ok(raw.copy(alloc)?.same_content(raw))
}

fn crash_text(alloc: Global, raw: &RawCrash) -> Result<String, Fault> {
    let mut text = format!(in alloc;
        "{} {} {} {}, content at {}",
        raw.id.as_str(),
        raw.moment,
        raw.draw,
        raw.rule.as_str(),
        raw.content_place()
    )?;
    for (name, value) in raw.annotations.iter() {
        write!(text, "; {name}={value}")?;
    }
    append_dumps(alloc, &mut text, raw)?;
    Ok(text)
}

fn append_dumps(alloc: Global, text: &mut String, raw: &RawCrash) -> Result<(), Fault> {
    for (name, content) in raw.dumps.iter() {
        let content = shown(alloc, content)?;
        write!(text, "; {name}: {}", content.as_str())?;
    }
    Ok(())
}

/// How many fronts of a record are bad records.
pub fn fronts(alloc: Global, row: &Row<'_>) -> Result<String, Fault> {
    let record = row.bytes(alloc, "record")?;
    let bad = bad_fronts(alloc, record.as_slice());
    Ok(format!(in alloc; "{bad} of {} are bad records", record.len())?)
}

fn bad_fronts(alloc: Global, record: &[u8]) -> usize {
    let mut bad = 0usize;
    for end in 0..record.len() {
        let read = RawCrash::decode(alloc, &record[..end]);
        if matches!(read, Err(RecordError::BadRecord)) {
            bad = bad.saturating_add(1);
        }
    }
    bad
}

/// What a cursor reads.
pub fn cursor(alloc: Global, row: &Row<'_>) -> Result<String, Fault> {
    let bytes = row.bytes(alloc, "bytes")?;
    let mut cursor = Cursor::new(bytes.as_slice());
    let mut answers = String::new(alloc);
    for read in row.cell("reads")?.split(';') {
        let answer = read_by(alloc, &mut cursor, read.trim())?;
        append(&mut answers, answer.as_str())?;
    }
    Ok(answers)
}

fn read_by(alloc: Global, cursor: &mut Cursor<'_>, read: &str) -> Result<String, Fault> {
    match read {
        "text" => Ok(format!(in alloc; "{:?}", cursor.text())?),
        "counted" => Ok(format!(in alloc; "{:?}", cursor.counted())?),
        "byte" => Ok(format!(in alloc; "{:?}", cursor.byte())?),
        "u32" => Ok(format!(in alloc; "{:?}", cursor.u32())?),
        "u64" => Ok(format!(in alloc; "{:?}", cursor.u64())?),
        "is_empty" => Ok(format!(in alloc; "{}", cursor.is_empty())?),
        _ => Err(Fault::new("no read")),
    }
}

/// How many bytes a list of texts has in all, and which texts it holds.
pub fn list(alloc: Global, row: &Row<'_>) -> Result<String, Fault> {
    let list = list_of(alloc, row)?;
    list_answers(alloc, &list, row)
}

fn list_of(alloc: Global, row: &Row<'_>) -> Result<TextList, Fault> {
    let mut list = TextList::new(alloc);
    for item in row.items(alloc, "items")? {
        list.push(Text::from(item))?;
    }
    Ok(list)
}

fn list_answers(alloc: Global, list: &TextList, row: &Row<'_>) -> Result<String, Fault> {
    let mut answers = format!(in alloc; "{}", bytes_in(list))?;
    for item in row.items(alloc, "asked")? {
        write!(answers, "; {}", list.contains(item.as_str()))?;
    }
    Ok(answers)
}

fn bytes_in(list: &TextList) -> usize {
    let mut bytes = 0usize;
    for text in list {
        bytes = bytes.saturating_add(text.len());
    }
    bytes
}
