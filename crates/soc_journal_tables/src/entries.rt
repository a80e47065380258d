//! Entries.
use soc_edge::{MemDisk, Numbers};
use soc_journal::{ACCEPT, ASK, EntryText, Journal, MAX_BODY, REPORT, WITHDRAW};
use soc_raw::RawCrash;
use soc_tables::{Fault, Row, copy, unescape, word};
use std::alloc::Global;

/// An entry of a kind by its letter.
fn entry_of(alloc: Global, kind: &str, body: &[u8]) -> Result<EntryText, Fault> {
    if body.len() > MAX_BODY as usize {
        return Err(Fault::new("a body that is too long"));
    }
    match kind {
        "A" => Ok(EntryText::new(alloc, ACCEPT, body)?),
        "Q" => Ok(EntryText::new(alloc, ASK, body)?),
        "R" => Ok(EntryText::new(alloc, REPORT, body)?),
        "W" => Ok(EntryText::new(alloc, WITHDRAW, body)?),
        _ => Err(Fault::new("no kind")),
    }
}

/// The entry whose kind and body are words of a step, from this place on.
pub fn entry_at(alloc: Global, step: &str, place: usize) -> Result<EntryText, Fault> {
    let body = unescape(alloc, word(step, place.saturating_add(1)))?;
    entry_of(alloc, word(step, place), body.as_slice())
}

/// The entries of a step, each a kind and a body after the first word.
pub fn entries_of(alloc: Global, step: &str) -> Result<Vec<EntryText>, Fault> {
    let mut entries = Vec::new(alloc);
    for number in 0..step.split_whitespace().count() / 2 {
        let place = number.saturating_mul(2).saturating_add(1);
        entries.push(entry_at(alloc, step, place)?)?;
    }
    Ok(entries)
}

/// Whether the entry of a crash is that of its record.
pub fn crash_entry(alloc: Global, row: &Row<'_>) -> Result<String, Fault> {
    let record = row.bytes(alloc, "record")?;
    let of_crash = entry_of_crash(alloc, record.as_slice())?;
    let of_record = entry_of(alloc, "A", record.as_slice())?;
    let is_same = written(alloc, &of_crash)?.bytes() == written(alloc, &of_record)?.bytes();
    copy(
        alloc,
        if is_same {
            "the record"
        } else {
            "another text"
        },
    )
}

fn entry_of_crash(alloc: Global, record: &[u8]) -> Result<EntryText, Fault> {
    let raw = RawCrash::decode(alloc, record)?;
    Ok(EntryText::of_crash(alloc, &raw)?)
}

/// A disk with a journal of one entry.
fn written(alloc: Global, entry: &EntryText) -> Result<MemDisk, Fault> {
    let mut disk = MemDisk::new(alloc, 1_000, 40, Numbers::new(Vec::new(alloc)))?;
    let mut journal = Journal::create(&mut disk, 1_000)?;
    journal.append(&mut disk, entry)?;
    Ok(disk)
}
