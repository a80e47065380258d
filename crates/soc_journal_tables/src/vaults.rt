//! Vaults, step by step.
ghost use Rattle.std.specs.Prelude.{None, ⊤};

use crate::disks::{add, body_text, disk_of, empty_disk, stops_of};
use crate::entries::entry_at;
use crate::spoilt::zeroed_disk;
use soc_edge::{Disk, MemDisk, Numbers, ReadAhead};
use soc_journal::OpenError;
use soc_tables::{Fault, Row, append, copy, number_at, shown, told, unescape, word};
use soc_vault::{Found, Recover, Vault, open};
use std::alloc::Global;

/// The bodies of the entries that were found, each with a bar after it. An entry at the refused place is refused.
#[derive(Drop)]
struct Gathered {
    text: Vec<u8>,
    refused: u64,
}

impl Recover for Gathered {
    ghost was_given = { λ bodies start entries. ⊤ };

    ghost name = { λ bodies. None };

    ghost refuses = { λ entries entry. ⊤ };

    fn recover(&mut self, _alloc: Global, found: Found) -> Result<(), OpenError> {
        if found.place == self.refused {
            return Err(OpenError::BadEntry { place: found.place });
        }
        let body = self.text.extend_from_slice(found.body.as_slice());
        if body.is_err() || self.text.push(b'|').is_err() {
            return Err(OpenError::NoMemory);
        }
        Ok(())
    }
}

/// The bodies on a disk, where no entry at this place is taken.
fn bodies_on<D: Disk>(alloc: Global, disk: &mut D, refused: u64) -> Result<String, Fault> {
    let text = Vec::new(alloc);
    let mut bodies = Gathered { text, refused };
    let _ = open(alloc, disk, u64::MAX, &mut bodies)?;
    body_text(alloc, bodies.text.as_slice())
}

/// The bodies on a disk, and what the disk holds then, or the bodies that a row's stops leave.
pub fn bodies(alloc: Global, row: &Row<'_>) -> Result<String, Fault> {
    let mut text = String::new(alloc);
    for stop in &stops_of(alloc, row)? {
        let other = opened(alloc, row, *stop)?;
        add(&mut text, other.as_str())?;
    }
    Ok(text)
}

fn opened(alloc: Global, row: &Row<'_>, stop: Option<u64>) -> Result<String, Fault> {
    let mut disk = disk_of(alloc, row)?;
    let mut text = told(alloc, bodies_on(alloc, &mut disk, row.number("refused")?))?;
    append(&mut text, left(alloc, disk, stop)?.as_str())?;
    Ok(text)
}

/// What a disk holds, or the bodies that a stop leaves.
fn left(alloc: Global, disk: MemDisk, stop: Option<u64>) -> Result<String, Fault> {
    match stop {
        Some(choice) => told(alloc, bodies_on(alloc, &mut disk.stop(choice), 0)),
        None => shown(alloc, disk.bytes()),
    }
}

/// A vault over a disk.
fn vault_over<'a, D: Disk>(
    alloc: Global,
    disk: &'a mut D,
    limit: u64,
) -> Result<Vault<'a, D>, Fault> {
    let text = Vec::new(alloc);
    let mut bodies = Gathered { text, refused: 0 };
    let journal = open(alloc, disk, limit, &mut bodies)?;
    Ok(Vault::new(disk, journal))
}

/// What a vault answers to each step, and what its disk holds then, or the bodies that a row's stops leave.
pub fn vault(alloc: Global, row: &Row<'_>) -> Result<String, Fault> {
    let mut text = String::new(alloc);
    for stop in &stops_of(alloc, row)? {
        let other = vault_run(alloc, row, *stop)?;
        add(&mut text, other.as_str())?;
    }
    Ok(text)
}

fn vault_run(alloc: Global, row: &Row<'_>, stop: Option<u64>) -> Result<String, Fault> {
    let mut disk = disk_of(alloc, row)?;
    let mut text = told(alloc, vault_text(alloc, &mut disk, row))?;
    append(&mut text, left(alloc, disk, stop)?.as_str())?;
    Ok(text)
}

fn vault_text<D: Disk>(alloc: Global, disk: &mut D, row: &Row<'_>) -> Result<String, Fault> {
    let mut vault = vault_over(alloc, disk, row.number("limit")?)?;
    answers(alloc, &mut vault, row.cell("steps")?)
}

fn answers<D: Disk>(alloc: Global, vault: &mut Vault<'_, D>, steps: &str) -> Result<String, Fault> {
    let mut text = String::new(alloc);
    for step in steps.split(';') {
        let answer = told(alloc, answer(alloc, vault, step))?;
        append(&mut text, answer.as_str())?;
    }
    Ok(text)
}

fn answer<D: Disk>(alloc: Global, vault: &mut Vault<'_, D>, step: &str) -> Result<String, Fault> {
    match word(step, 0) {
        "keep" => keep(alloc, vault, step),
        "settle" => Ok(format!(in alloc; "{:?}", vault.settle()?)?),
        "doubt" => copy(
            alloc,
            if vault.is_in_doubt() {
                "doubt"
            } else {
                "no doubt"
            },
        ),
        "read" => body_text(alloc, vault.read(alloc, number_at(step, 1)?)?.as_slice()),
        "holds" => holds(alloc, vault, step),
        _ => Err(Fault::new("no step")),
    }
}

/// Keeps an entry, where there is no doubt, and answers its place.
fn keep<D: Disk>(alloc: Global, vault: &mut Vault<'_, D>, step: &str) -> Result<String, Fault> {
    if vault.is_in_doubt() {
        return copy(alloc, "doubt");
    }
    let entry = entry_at(alloc, step, 1)?;
    Ok(format!(in alloc; "{}", vault.keep(&entry)?)?)
}

fn holds<D: Disk>(alloc: Global, vault: &mut Vault<'_, D>, step: &str) -> Result<String, Fault> {
    let text = unescape(alloc, word(step, 2))?;
    Ok(format!(in alloc; "{}", vault.holds(number_at(step, 1)?, text.as_slice())?)?)
}

/// What a vault answers over a disk that tells nothing and gives zeros from a call on, and what an opening finds then.
pub fn zeroed(alloc: Global, row: &Row<'_>) -> Result<String, Fault> {
    let mut disk = zeroed_disk(disk_of(alloc, row)?, row.number("from")?);
    let mut text = told(alloc, vault_text(alloc, &mut disk, row))?;
    let found = told(alloc, bodies_on(alloc, &mut disk, 0))?;
    append(&mut text, found.as_str())?;
    Ok(text)
}

/// The bodies that an opening finds of so many entries over a disk that reads ahead, and what the disk answers next.
pub fn one_pass(alloc: Global, row: &Row<'_>) -> Result<String, Fault> {
    let image = disk_of_many(alloc, row.number("entries")?)?;
    let mut disk = empty_disk(alloc, row)?;
    disk.write_at(0, image.bytes())?;
    disk.sync()?;
    let mut ahead = ReadAhead::new(alloc, disk)?;
    let mut text = bodies_on(alloc, &mut ahead, 0)?;
    let next = format!(in alloc; "{:?}", ahead.into_disk().len())?;
    append(&mut text, next.as_str())?;
    Ok(text)
}

/// A disk with a journal of so many entries.
fn disk_of_many(alloc: Global, count: u64) -> Result<MemDisk, Fault> {
    let mut disk = MemDisk::new(alloc, 4_000, 900, Numbers::new(Vec::new(alloc)))?;
    let mut vault = vault_over(alloc, &mut disk, 4_000)?;
    for _ in 0..count {
        let _ = keep(alloc, &mut vault, "keep Q xxxxx")?;
    }
    Ok(disk)
}
