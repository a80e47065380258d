//! Replies of a desk in a few words.
use soc_base::Texts;
use soc_desk::{Counts, Refusal, Reply};
use soc_raw::RawCrash;
use soc_schema::{Permission, Row};
use soc_tables::{Fault, copy, shown};
use std::alloc::Global;

/// A reply in a few words.
pub fn reply_text(alloc: Global, reply: &Reply) -> Result<String, Fault> {
    match reply {
        Reply::Raw(texts) => raw_text(alloc, texts),
        Reply::Row(row) => row_text(alloc, row),
        Reply::Dump(bytes) => dump_text(alloc, bytes.as_slice()),
        Reply::Record(raw) => record_text(alloc, raw),
        Reply::Counted(counts) => counts_text(alloc, counts),
        Reply::Found(answer) => counted(alloc, "found", answer.total),
        Reply::Tops(tops) => counted(alloc, "tops", tops.total),
        Reply::Drained(count) => counted(alloc, "drained", *count),
        Reply::Kept(count) => counted(alloc, "kept", *count),
        Reply::Refused(refusal) => copy(alloc, refusal_word(refusal)),
        other => copy(alloc, reply_word(other)),
    }
}

fn counted(alloc: Global, word: &str, count: u64) -> Result<String, Fault> {
    Ok(format!(in alloc; "{word} {count}")?)
}

fn raw_text(alloc: Global, texts: &Texts) -> Result<String, Fault> {
    let mut text = copy(alloc, "raw")?;
    for (name, value) in texts.iter() {
        write!(text, " {name}={value}")?;
    }
    Ok(text)
}

fn row_text(alloc: Global, row: &Row) -> Result<String, Fault> {
    let mut text = copy(alloc, "row")?;
    for place in 0..row.len() {
        let (field, _) = row.at(place);
        write!(text, " {}", field.name())?;
    }
    Ok(text)
}

fn dump_text(alloc: Global, bytes: &[u8]) -> Result<String, Fault> {
    let bytes = shown(alloc, bytes)?;
    Ok(format!(in alloc; "dump {}", bytes.as_str())?)
}

/// A raw crash by how many annotations and dumps it has.
fn record_text(alloc: Global, raw: &RawCrash) -> Result<String, Fault> {
    let (annotations, dumps) = (raw.annotations.len(), raw.dumps.len());
    Ok(format!(in alloc; "record of {annotations} annotations and {dumps} dumps")?)
}

/// Counts in the order of their names.
fn counts_text(alloc: Global, counts: &Counts) -> Result<String, Fault> {
    let doubt = if counts.in_doubt { ", in doubt" } else { "" };
    Ok(format!(in alloc;
        "counts {} {} {} {} {} {}{doubt}",
        counts.asks,
        counts.crashes,
        counts.due,
        counts.journal_size,
        counts.reports,
        counts.withdrawn
    )?)
}

fn reply_word(reply: &Reply) -> &'static str {
    match reply {
        Reply::Stored { due: true, .. } => "stored, due",
        Reply::Stored { due: false, .. } => "stored",
        Reply::Repeated { .. } => "repeated",
        Reply::Asked { asked: true, .. } => "asked",
        Reply::Asked { asked: false, .. } => "not asked",
        Reply::Withdrawn => "withdrawn",
        Reply::Turned(Some(_)) => "turned",
        Reply::Turned(None) => "none to turn",
        Reply::Stopping => "stopping",
        Reply::Fetched(Some(_)) => "fetched",
        Reply::Fetched(None) => "not due",
        Reply::Finished { changed: true } => "finished",
        Reply::Finished { changed: false } => "not changed",
        _ => "another reply",
    }
}

fn refusal_word(refusal: &Refusal) -> &'static str {
    match refusal {
        Refusal::StoreFault => "store fault",
        Refusal::JournalFull => "journal full",
        Refusal::OtherContent { .. } => "other content",
        Refusal::NoCrash => "no crash",
        Refusal::NotProcessed => "not processed",
        Refusal::TooManyCrashes => "too many crashes",
        Refusal::NoPermission { name } => lacking(*name),
        Refusal::Altered { .. } => "altered",
        Refusal::Withdrawn { .. } => "gone",
        Refusal::NoMemory => "no memory",
    }
}

fn lacking(permission: Permission) -> &'static str {
    match permission {
        Permission::ViewRawdump => "needs view_rawdump",
        Permission::ReprocessCrashes => "needs reprocess_crashes",
        Permission::Operate => "needs operate",
        _ => "needs another",
    }
}
