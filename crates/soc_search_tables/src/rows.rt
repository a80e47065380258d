//! Rows of reports, and their texts.
use crate::tokens::field_of;
use soc_raw::{RawCrash, RecordError};
use soc_schema::{Bare, Field, FieldKind, Processed, Reporter, Row as Report, Value, product_of};
use soc_tables::{Fault, Row, append, copy, number_of, shown};
use std::alloc::Global;

/// The value of a field's kind that a text stands for.
pub fn value_of(alloc: Global, field: Field, text: &str) -> Result<Value, Fault> {
    match field.kind() {
        FieldKind::Text => text_value(alloc, text),
        FieldKind::Number => Ok(Value::Number(number_of(text)?)),
        FieldKind::Flag => Ok(Value::Flag(text == "true")),
    }
}

/// A text as a value.
pub fn text_value(alloc: Global, text: &str) -> Result<Value, Fault> {
    Ok(Value::text(alloc, text)?)
}

/// Sets a field.
pub fn set(report: &mut Report, field: Field, value: Value) -> Result<(), Fault> {
    if value.kind() != field.kind() {
        return Err(Fault::new("no value of the field's kind"));
    }
    report.set(field, value)?;
    Ok(())
}

/// Sets the field of a pair.
fn set_pair(alloc: Global, report: &mut Report, pair: &str) -> Result<(), Fault> {
    let (name, text) = pair.split_once('=').unwrap_or((pair, ""));
    let field = field_of(name)?;
    set(report, field, value_of(alloc, field, text)?)
}

/// The row of these pairs.
pub fn report_of(alloc: Global, pairs: &str, part: char) -> Result<Report, Fault> {
    let mut report = Report::new(alloc);
    for pair in pairs.split(part) {
        set_pair(alloc, &mut report, pair.trim())?;
    }
    Ok(report)
}

/// A value as a text.
pub fn value_text(alloc: Global, value: &Value) -> Result<String, Fault> {
    match value {
        Value::Text(text) => copy(alloc, text.as_str()),
        Value::Number(number) => Ok(format!(in alloc; "{number}")?),
        Value::Flag(flag) => Ok(format!(in alloc; "{flag}")?),
    }
}

fn cells_text(alloc: Global, report: &Report) -> Result<String, Fault> {
    let mut text = String::new(alloc);
    for place in 0..report.len() {
        let (field, value) = report.at(place);
        let value = value_text(alloc, value)?;
        append(
            &mut text,
            format!(in alloc; "{}={}", field.name(), value.as_str())?.as_str(),
        )?;
    }
    Ok(text)
}

/// The fields of a row and the text that it is written as, where it fits so many bytes.
pub fn row(alloc: Global, row: &Row<'_>) -> Result<String, Fault> {
    let report = report_of(alloc, row.cell("fields")?, ';')?;
    row_text(alloc, &report, u32::try_from(row.number("most")?)?)
}

fn row_text(alloc: Global, report: &Report, most: u32) -> Result<String, Fault> {
    let mut text = cells_text(alloc, report)?;
    append(&mut text, written_text(alloc, report, most)?.as_str())?;
    Ok(text)
}

fn written_text(alloc: Global, report: &Report, most: u32) -> Result<String, Fault> {
    let Some(bytes) = encoded(alloc, report, most)? else {
        return copy(alloc, "more bytes");
    };
    if is_read_back(alloc, bytes.as_slice())? {
        shown(alloc, bytes.as_slice())
    } else {
        copy(alloc, "another row is read back")
    }
}

/// The text of a row that has at most so many bytes.
fn encoded(alloc: Global, report: &Report, most: u32) -> Result<Option<Vec<u8>>, Fault> {
    if !report.fits(u64::from(most)) {
        return Ok(None);
    }
    let bytes = report.encode(alloc)?;
    Ok(Some(Vec::from_slice(alloc, bytes.as_slice())?))
}

/// Whether the row that is read from a text is written as that text.
fn is_read_back(alloc: Global, bytes: &[u8]) -> Result<bool, Fault> {
    let report = Report::decode(alloc, bytes)?;
    match encoded(alloc, &report, u32::try_from(bytes.len())?)? {
        Some(again) => Ok(again.as_slice() == bytes),
        None => Ok(false),
    }
}

/// How many fronts of a row's text are bad records.
pub fn fronts(alloc: Global, row: &Row<'_>) -> Result<String, Fault> {
    let report = report_of(alloc, row.cell("fields")?, ';')?;
    match encoded(alloc, &report, u32::MAX)? {
        Some(bytes) => fronts_text(alloc, bytes.as_slice()),
        None => copy(alloc, "more bytes"),
    }
}

fn fronts_text(alloc: Global, bytes: &[u8]) -> Result<String, Fault> {
    let mut bad = 0usize;
    for end in 0..bytes.len() {
        let read = Report::decode(alloc, &bytes[..end]);
        if matches!(read, Err(RecordError::BadRecord)) {
            bad = bad.saturating_add(1);
        }
    }
    Ok(format!(in alloc; "{bad} of {} are bad records", bytes.len())?)
}

/// What a reporter without lists and symbols makes of a record: the crash's product, the lists' digest and the crash's rule,
/// and the fields.
pub fn processed(alloc: Global, row: &Row<'_>) -> Result<String, Fault> {
    let record = row.bytes(alloc, "record")?;
    let raw = RawCrash::decode(alloc, record.as_slice())?;
    let mut text = format!(in alloc; "{:?} {:?}", product_of(&raw), Bare.digest())?;
    append_report(alloc, &mut text, raw)?;
    Ok(text)
}

fn append_report(alloc: Global, text: &mut String, raw: RawCrash) -> Result<(), Fault> {
    let Ok(processed) = Processed::make(alloc, &Bare, raw) else {
        return Err(Fault::new("no memory"));
    };
    write!(text, " {}", processed.raw().rule.as_str())?;
    let fields = cells_text(alloc, &processed.into_row())?;
    append(text, fields.as_str())
}
