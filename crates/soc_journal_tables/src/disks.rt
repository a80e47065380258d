//! Disks in memory.
ghost use Rattle.std.specs.Prelude.{◌≡◌, [], IfOk};
ghost use Rattle.soc_edge.specs.DiskLog.{content_of};

use soc_edge::{Disk, MemDisk, Numbers};
use soc_tables::{Fault, Row, number_of, shown};
use std::alloc::Global;

/// How many calls a disk can take.
const CALLS: u32 = 900;

/// An empty disk of a row's room, whose calls with its numbers fail.
pub fn empty_disk(alloc: Global, row: &Row<'_>) -> Result<MemDisk, Fault>
    ensures { IfOk result (λ disk. content_of disk ≡ []) }
{
    let room = row.number("room")?;
    let fails = Numbers::new(row.numbers(alloc, "fails")?);
    Ok(MemDisk::new(alloc, room, CALLS, fails)?)
}

/// A disk that holds a row's bytes, after two calls, or an empty one.
pub fn disk_of(alloc: Global, row: &Row<'_>) -> Result<MemDisk, Fault> {
    let mut disk = empty_disk(alloc, row)?;
    if row.cell("bytes")? != "-" {
        let bytes = row.bytes(alloc, "bytes")?;
        disk.write_at(0, bytes.as_slice())?;
        disk.sync()?;
    }
    Ok(disk)
}

/// Of a long text of one byte again and again how often it is there, and else the text.
pub fn body_text(alloc: Global, bytes: &[u8]) -> Result<String, Fault> {
    if bytes.len() > 100 && bytes.iter().all(|byte| *byte == b'x') {
        Ok(format!(in alloc; "{} times x", bytes.len())?)
    } else {
        shown(alloc, bytes)
    }
}

/// The choices of a row's stops, each alone or as `0..8`, or one run without a stop.
pub fn stops_of(alloc: Global, row: &Row<'_>) -> Result<Vec<Option<u64>>, Fault> {
    let mut stops = Vec::new(alloc);
    let cell = row.cell("stops")?;
    if cell == "-" {
        stops.push(None)?;
        return Ok(stops);
    }
    for item in cell.split(';') {
        push_stops(&mut stops, item.trim())?;
    }
    Ok(stops)
}

fn push_stops(stops: &mut Vec<Option<u64>>, item: &str) -> Result<(), Fault> {
    match item.split_once("..") {
        None => stops.push(Some(number_of(item)?))?,
        Some((first, end)) => {
            for stop in number_of(first)?..number_of(end)? {
                stops.push(Some(stop))?;
            }
        }
    }
    Ok(())
}

/// Adds what a run gives, after ` or `, unless a run before gave the same.
pub fn add(text: &mut String, other: &str) -> Result<(), Fault> {
    if text.is_empty() {
        text.push_str(other)?;
    } else if !text.split(" or ").any(|one| one == other) {
        write!(text, " or {other}")?;
    }
    Ok(())
}
