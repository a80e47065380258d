//! Journals, step by step.
use crate::disks::{add, body_text, empty_disk, stops_of};
use crate::entries::{entries_of, entry_at};
use crate::openings::marks;
use crate::spoilt::{Spoilt, torn_disk};
use soc_edge::{Counted, Disk, MemDisk};
use soc_journal::Journal;
use soc_tables::{Fault, Row, append, copy, number_at, shown, told, unescape, word};
use std::alloc::Global;

/// What a new journal answers to each step, and what its disk holds then, or the entries that a row's stops leave.
pub fn journal(alloc: Global, row: &Row<'_>) -> Result<String, Fault> {
    let mut text = String::new(alloc);
    for stop in &stops_of(alloc, row)? {
        let other = run(alloc, row, *stop)?;
        add(&mut text, other.as_str())?;
    }
    Ok(text)
}

fn run(alloc: Global, row: &Row<'_>, stop: Option<u64>) -> Result<String, Fault> {
    let mut disk = empty_disk(alloc, row)?;
    let mut journal = Journal::create(&mut disk, row.number("limit")?)?;
    let mut answers = answers(alloc, &mut disk, &mut journal, row.cell("steps")?)?;
    append(&mut answers, left(alloc, disk, stop)?.as_str())?;
    Ok(answers)
}

/// What a disk holds, or the entries that a stop leaves.
fn left(alloc: Global, disk: MemDisk, stop: Option<u64>) -> Result<String, Fault> {
    match stop {
        Some(choice) => told(alloc, marks(alloc, &mut disk.stop(choice), u64::MAX)),
        None => body_text(alloc, disk.bytes()),
    }
}

/// The same over a disk that tears the write that is its call of this number.
pub fn torn(alloc: Global, row: &Row<'_>) -> Result<String, Fault> {
    let mut disk = torn_disk(empty_disk(alloc, row)?, row.number("call")?);
    let mut journal = Journal::create(&mut disk, row.number("limit")?)?;
    torn_answers(alloc, &mut disk, &mut journal, row.cell("steps")?)
}

fn torn_answers(
    alloc: Global,
    disk: &mut Counted<Spoilt>,
    journal: &mut Journal,
    steps: &str,
) -> Result<String, Fault> {
    let mut text = String::new(alloc);
    for step in steps.split(';') {
        let answer = told(alloc, answer(alloc, disk, journal, step))?;
        append(&mut text, answer.as_str())?;
        append(
            &mut text,
            shown(alloc, disk.device().disk.bytes())?.as_str(),
        )?;
    }
    Ok(text)
}

fn answers<D: Disk>(
    alloc: Global,
    disk: &mut D,
    journal: &mut Journal,
    steps: &str,
) -> Result<String, Fault> {
    let mut text = String::new(alloc);
    for step in steps.split(';') {
        let answer = told(alloc, answer(alloc, disk, journal, step))?;
        append(&mut text, answer.as_str())?;
    }
    Ok(text)
}

fn answer<D: Disk>(
    alloc: Global,
    disk: &mut D,
    journal: &mut Journal,
    step: &str,
) -> Result<String, Fault> {
    match word(step, 0) {
        "append" => append_entry(alloc, disk, journal, step),
        "together" => append_together(alloc, disk, journal, step),
        "mend" => Ok(format!(in alloc; "{:?}", journal.mend(disk)?)?),
        "doubt" => copy(
            alloc,
            if journal.in_doubt() {
                "doubt"
            } else {
                "no doubt"
            },
        ),
        "len" => Ok(format!(in alloc; "{}", disk.len()?)?),
        "open" => marks(alloc, disk, u64::MAX),
        _ => read(alloc, disk, journal, step),
    }
}

fn append_entry<D: Disk>(
    alloc: Global,
    disk: &mut D,
    journal: &mut Journal,
    step: &str,
) -> Result<String, Fault> {
    if journal.in_doubt() {
        return copy(alloc, "doubt");
    }
    let entry = entry_at(alloc, step, 1)?;
    Ok(format!(in alloc; "{}", journal.append(disk, &entry)?)?)
}

fn append_together<D: Disk>(
    alloc: Global,
    disk: &mut D,
    journal: &mut Journal,
    step: &str,
) -> Result<String, Fault> {
    if journal.in_doubt() {
        return copy(alloc, "doubt");
    }
    let entries = entries_of(alloc, step)?;
    if entries.is_empty() {
        return Err(Fault::new("no entries"));
    }
    Ok(format!(in alloc; "{}", journal.append_all(disk, entries.as_slice())?)?)
}

fn read<D: Disk>(
    alloc: Global,
    disk: &mut D,
    journal: &Journal,
    step: &str,
) -> Result<String, Fault> {
    let place = number_at(step, 1)?;
    match word(step, 0) {
        "read" => body_text(alloc, journal.read(alloc, disk, place)?.as_slice()),
        "holds" => holds(alloc, disk, journal, place, word(step, 2)),
        _ => Err(Fault::new("no step")),
    }
}

fn holds<D: Disk>(
    alloc: Global,
    disk: &mut D,
    journal: &Journal,
    place: u64,
    text: &str,
) -> Result<String, Fault> {
    let text = unescape(alloc, text)?;
    Ok(format!(in alloc; "{}", journal.holds(disk, place, text.as_slice())?)?)
}
