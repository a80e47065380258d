//! Disks in memory, step by step, alone and behind a window that reads ahead.
use crate::stand_ins::fails;
use soc_edge::{Disk, MemDisk, ReadAhead};
use soc_tables::{Fault, Row, append, done, number_at, number_of, shown, told, unescape, word};
use std::alloc::Global;

/// The longest read whose bytes are told.
const MOST_TOLD: usize = 8;

/// What a disk answers to each step, and what it holds then, or what a stop leaves of it.
pub fn disk(alloc: Global, row: &Row<'_>) -> Result<String, Fault> {
    let stop = stop_of(row)?;
    let calls = u32::try_from(row.number("calls")?)?;
    let mut disk = MemDisk::new(alloc, row.number("room")?, calls, fails(alloc, row)?)?;
    let mut answers = step_answers(alloc, &mut disk, row.cell("steps")?)?;
    let image = match stop {
        Some(choice) => disk.stop(choice),
        None => disk,
    };
    append(&mut answers, shown(alloc, image.bytes())?.as_str())?;
    Ok(answers)
}

fn stop_of(row: &Row<'_>) -> Result<Option<u64>, Fault> {
    match row.cell("stop")? {
        "-" => Ok(None),
        choice => Ok(Some(number_of(choice)?)),
    }
}

/// The byte that a disk is made with at a place.
fn made(place: u64) -> u8 {
    (place % 251) as u8
}

/// A disk with so many bytes, after two calls.
fn made_disk(alloc: Global, row: &Row<'_>) -> Result<MemDisk, Fault> {
    let size = row.number("size")?;
    let mut bytes = Vec::new(alloc);
    for place in 0..size {
        bytes.push(made(place))?;
    }
    let mut disk = MemDisk::new(alloc, size.saturating_mul(2), 40, fails(alloc, row)?)?;
    disk.write_at(0, bytes.as_slice())?;
    disk.sync()?;
    Ok(disk)
}

/// What a disk behind a window answers to each step, and how many bytes the disk holds then.
pub fn ahead(alloc: Global, row: &Row<'_>) -> Result<String, Fault> {
    let mut disk = ReadAhead::new(alloc, made_disk(alloc, row)?)?;
    let mut answers = step_answers(alloc, &mut disk, row.cell("steps")?)?;
    write!(answers, "; {}", disk.into_disk().bytes().len())?;
    Ok(answers)
}

fn step_answers<D: Disk>(alloc: Global, disk: &mut D, steps: &str) -> Result<String, Fault> {
    let mut answers = String::new(alloc);
    for step in steps.split(';') {
        let answer = told(alloc, step_answer(alloc, disk, step))?;
        append(&mut answers, answer.as_str())?;
    }
    Ok(answers)
}

fn step_answer<D: Disk>(alloc: Global, disk: &mut D, step: &str) -> Result<String, Fault> {
    match word(step, 0) {
        "len" => Ok(format!(in alloc; "{}", disk.len()?)?),
        "sync" => done(alloc, disk.sync()),
        "read" => read_text(alloc, disk, number_at(step, 1)?, number_at(step, 2)?),
        "reads" => reads_text(alloc, disk, number_at(step, 1)?, number_at(step, 2)?),
        "write" => write_text(alloc, disk, step),
        _ => Err(Fault::new("no step")),
    }
}

fn write_text<D: Disk>(alloc: Global, disk: &mut D, step: &str) -> Result<String, Fault> {
    let bytes = unescape(alloc, word(step, 2))?;
    done(alloc, disk.write_at(number_at(step, 1)?, bytes.as_slice()))
}

/// What a read gives: its bytes, or of a long one how many they are, and whether the disk was made with them.
fn read_text<D: Disk>(
    alloc: Global,
    disk: &mut D,
    place: u64,
    count: u64,
) -> Result<String, Fault> {
    let mut into = vec![in alloc; 0u8; count as usize]?;
    let count = disk.read_at(place, into.as_mut_slice())?;
    bytes_text(alloc, place, into.get(..count).unwrap_or(&[]))
}

fn bytes_text(alloc: Global, place: u64, bytes: &[u8]) -> Result<String, Fault> {
    if bytes.len() <= MOST_TOLD {
        return shown(alloc, bytes);
    }
    let are = if are_made(place, bytes) {
        "as made"
    } else {
        "others"
    };
    Ok(format!(in alloc; "{} {are}", bytes.len())?)
}

fn are_made(place: u64, bytes: &[u8]) -> bool {
    let mut next = place;
    for byte in bytes {
        if *byte != made(next) {
            return false;
        }
        next = next.saturating_add(1);
    }
    true
}

/// How many reads of this size, one behind the other, give bytes that the disk was made with.
fn reads_text<D: Disk>(
    alloc: Global,
    disk: &mut D,
    reads: u64,
    size: u64,
) -> Result<String, Fault> {
    let mut into = vec![in alloc; 0u8; size as usize]?;
    let mut made = 0u64;
    for read in 0..reads {
        let is_made = is_read(disk, read.saturating_mul(size), into.as_mut_slice())?;
        made = made.saturating_add(u64::from(is_made));
    }
    Ok(format!(in alloc; "{made} as made")?)
}

fn is_read<D: Disk>(disk: &mut D, place: u64, into: &mut [u8]) -> Result<bool, Fault> {
    Ok(disk.read_at(place, into)? == into.len() && are_made(place, into))
}
