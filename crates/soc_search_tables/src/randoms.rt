//! Stores and answers beside plain lists, over many random steps.
use crate::queries::{answer_over, ids_text};
use crate::rows::{report_of, text_value};
use crate::stores::{put, versioned};
use soc_schema::Field;
use soc_store::Store;
use soc_tables::{Fault, Row, copy};
use std::alloc::Global;

/// The next number of a linear congruential sequence.
fn after(number: u64) -> u64 {
    number
        .wrapping_mul(6_364_136_223_846_793_005)
        .wrapping_add(1_442_695_040_888_963_407)
}

fn product_of(number: u64) -> &'static str {
    match number % 4 {
        0 => "-",
        1 => "Fenix",
        2 => "Firefox",
        _ => "Thunderbird",
    }
}

fn version_of(number: u64) -> &'static str {
    match number % 3 {
        0 => "1",
        1 => "10",
        _ => "2",
    }
}

/// The versions that the places have.
type Versions = [Option<u64>; 32];

/// How many of a row's steps, each of which puts a row or takes one, leave the places of its version, their counts and the
/// number of rows as a plain list has them.
pub fn store(alloc: Global, row: &Row<'_>) -> Result<String, Fault> {
    let mut store = Store::new(alloc);
    let mut versions: Versions = [None; 32];
    let mut drawn = 7;
    let mut same = 0u64;
    for _ in 0..row.number("steps")? {
        drawn = after(drawn);
        change(alloc, &mut store, &mut versions, drawn)?;
        let is = is_same(alloc, &store, &versions, (drawn >> 45) % 3)?;
        same = same.saturating_add(u64::from(is));
    }
    Ok(format!(in alloc; "{same}")?)
}

/// Takes or puts the row that a number says.
fn change(
    alloc: Global,
    store: &mut Store,
    versions: &mut Versions,
    drawn: u64,
) -> Result<(), Fault> {
    let place = (drawn >> 33) % 32;
    let version = (drawn >> 45) % 3;
    if (drawn >> 50) % 4 == 0 {
        let is_taken = store.take(place as u32).is_some();
        if is_taken != versions[place as usize].is_some() {
            return Err(Fault::new("another row is taken"));
        }
        versions[place as usize] = None;
        return Ok(());
    }
    let report = versioned(alloc, product_of(drawn >> 40), version_of(version))?;
    versions[place as usize] = Some(version);
    put(alloc, store, place as u32, report)
}

fn is_same(alloc: Global, store: &Store, versions: &Versions, version: u64) -> Result<bool, Fault> {
    let places = places_with(alloc, versions, version)?;
    let value = text_value(alloc, version_of(version))?;
    let mut sum = 0u64;
    for one in &store.counts(alloc, Field::VERSION, &value)? {
        sum = sum.saturating_add(one.count);
    }
    let rows = versions.iter().filter(|had| had.is_some()).count();
    Ok(
        store.places(Field::VERSION, &value) == places.as_slice()
            && sum == places.len() as u64
            && store.len() == rows,
    )
}

/// The places that have this version.
fn places_with(alloc: Global, versions: &Versions, version: u64) -> Result<Vec<u32>, Fault> {
    let mut places = Vec::new(alloc);
    for (place, had) in versions.iter().enumerate() {
        if *had == Some(version) {
            places.push(place as u32)?;
        }
    }
    Ok(places)
}

const PLACES: u32 = 40;

/// What a plain list keeps of a row.
#[derive(Clone, Copy)]
struct Plain {
    place: u32,
    uptime: u64,
    product: &'static str,
}

/// The row that a number says.
fn plain_of(drawn: u64) -> Plain {
    Plain {
        place: (drawn >> 40) as u32 % PLACES,
        uptime: (drawn >> 50) % 8,
        product: product_of(1 + (drawn >> 60) % 3),
    }
}

/// How many of a row's turns, each of which puts a row or takes one, leave a store that gives the ids that a plain filter
/// gives.
pub fn filtered(alloc: Global, row: &Row<'_>) -> Result<String, Fault> {
    let mut store = Store::new(alloc);
    let mut rows = Vec::new(alloc);
    let mut drawn = 1;
    let mut same = 0u64;
    for _ in 0..row.number("turns")? {
        drawn = after(drawn);
        let plain = plain_of(drawn);
        rows.retain(|row: &Plain| row.place != plain.place);
        if (drawn >> 56) % 4 == 0 {
            let _ = store.take(plain.place);
        } else {
            put_plain(alloc, &mut store, plain)?;
            rows.push(plain)?;
        }
        let is = gives_plain_ids(alloc, &store, rows.as_slice(), plain)?;
        same = same.saturating_add(u64::from(is));
    }
    Ok(format!(in alloc; "{same}")?)
}

fn put_plain(alloc: Global, store: &mut Store, plain: Plain) -> Result<(), Fault> {
    let pairs = format!(in alloc;
        "uuid={:04}&uptime={}&product={}",
        plain.place, plain.uptime, plain.product
    )?;
    put(
        alloc,
        store,
        plain.place,
        report_of(alloc, pairs.as_str(), '&')?,
    )
}

/// Whether the rows are found whose uptime is at least that of a row, and whose product is another one.
fn gives_plain_ids(
    alloc: Global,
    store: &Store,
    rows: &[Plain],
    plain: Plain,
) -> Result<bool, Fault> {
    let query = format!(in alloc; "uptime=>={}&product=!{}", plain.uptime, plain.product)?;
    let answer = answer_over(alloc, store, query.as_str())?;
    let found = ids_text(alloc, &answer)?;
    Ok(found.as_str() == plain_ids(alloc, rows, plain)?.as_str())
}

fn plain_ids(alloc: Global, rows: &[Plain], plain: Plain) -> Result<String, Fault> {
    let mut ids = String::new(alloc);
    for place in 0..PLACES {
        for row in rows {
            if row.place == place && row.uptime >= plain.uptime && row.product != plain.product {
                write!(ids, "{place:04}")?;
            }
        }
    }
    if ids.is_empty() {
        return copy(alloc, "none");
    }
    Ok(ids)
}
