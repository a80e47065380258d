//! Openings of journals.
use crate::disks::{body_text, disk_of};
use soc_edge::{Disk, MemDisk};
use soc_journal::{Journal, Mark, Opening};
use soc_tables::{Fault, Row, append, copy, shown, told};
use std::alloc::Global;

/// The most entries of a row.
const MOST: u32 = 9;

/// The entries that an opening hands out, with their places and bodies.
pub fn marks<D: Disk>(alloc: Global, disk: &mut D, limit: u64) -> Result<String, Fault> {
    let mut opening = Journal::open(disk, limit)?;
    let mut text = String::new(alloc);
    for _ in 0..=MOST {
        let Some(mark) = opening.next(disk)? else {
            let _ = opening.finish(disk)?;
            return none_or(alloc, text);
        };
        let body = opening.body(alloc, disk, &mark)?;
        append(&mut text, mark_text(alloc, mark, body.as_slice())?.as_str())?;
    }
    Err(Fault::new("more entries"))
}

fn none_or(alloc: Global, text: String) -> Result<String, Fault> {
    if text.is_empty() {
        copy(alloc, "no entries")
    } else {
        Ok(text)
    }
}

fn mark_text(alloc: Global, mark: Mark, body: &[u8]) -> Result<String, Fault> {
    let kind = char::from(mark.kind);
    let body = body_text(alloc, body)?;
    Ok(format!(in alloc; "{} {kind} {}: {}", mark.place, mark.length, body.as_str())?)
}

/// The entries of a disk, and what the disk holds then.
pub fn opening(alloc: Global, row: &Row<'_>) -> Result<String, Fault> {
    let mut disk = disk_of(alloc, row)?;
    opening_text(alloc, &mut disk, row.number("limit")?)
}

fn opening_text(alloc: Global, disk: &mut MemDisk, limit: u64) -> Result<String, Fault> {
    let mut text = told(alloc, marks(alloc, disk, limit))?;
    append(&mut text, shown(alloc, disk.bytes())?.as_str())?;
    Ok(text)
}
