//! Stores of rows, step by step.
use crate::rows::{report_of, set, text_value};
use soc_schema::{Field, Row as Report};
use soc_store::{ProductCount, Store};
use soc_tables::{Fault, Row, append, copy, number_at, word};
use std::alloc::Global;

/// Puts a row at a place.
pub fn put(alloc: Global, store: &mut Store, place: u32, report: Report) -> Result<(), Fault> {
    match store.put(alloc, place, report) {
        Ok(()) => Ok(()),
        Err(_) => Err(Fault::new("no memory")),
    }
}

/// The row of a version and a product, if there is one.
pub fn versioned(alloc: Global, product: &str, version: &str) -> Result<Report, Fault> {
    let mut report = Report::new(alloc);
    if product != "-" {
        set(&mut report, Field::PRODUCT, text_value(alloc, product)?)?;
    }
    set(&mut report, Field::VERSION, text_value(alloc, version)?)?;
    Ok(report)
}

/// What a store answers to each step.
pub fn store(alloc: Global, row: &Row<'_>) -> Result<String, Fault> {
    let mut store = Store::new(alloc);
    store_answers(alloc, &mut store, row.cell("steps")?)
}

fn store_answers(alloc: Global, store: &mut Store, steps: &str) -> Result<String, Fault> {
    let mut answers = String::new(alloc);
    for step in steps.split(';') {
        append(&mut answers, store_answer(alloc, store, step)?.as_str())?;
    }
    Ok(answers)
}

fn store_answer(alloc: Global, store: &mut Store, step: &str) -> Result<String, Fault> {
    match word(step, 0) {
        "put" => put_version(alloc, store, step),
        "take" => take(alloc, store, u32::try_from(number_at(step, 1)?)?),
        "counts" => counts(alloc, store, word(step, 1)),
        "places" => places(alloc, store, word(step, 1)),
        "values" => Ok(format!(in alloc; "{}", store.values(Field::VERSION))?),
        "len" => Ok(format!(in alloc; "{}", store.len())?),
        _ => Err(Fault::new("no step")),
    }
}

fn put_version(alloc: Global, store: &mut Store, step: &str) -> Result<String, Fault> {
    let report = versioned(alloc, word(step, 2), word(step, 3))?;
    put(alloc, store, u32::try_from(number_at(step, 1)?)?, report)?;
    copy(alloc, "done")
}

fn take(alloc: Global, store: &mut Store, place: u32) -> Result<String, Fault> {
    copy(
        alloc,
        if store.take(place).is_some() {
            "a row"
        } else {
            "none"
        },
    )
}

fn push_count(text: &mut String, one: &ProductCount) -> Result<(), Fault> {
    let product = match &one.product {
        Some(product) => product.as_str(),
        None => "-",
    };
    if !text.is_empty() {
        text.push_str(", ")?;
    }
    write!(text, "{product} {}", one.count)?;
    Ok(())
}

/// The counts of the products of a version.
fn counts(alloc: Global, store: &Store, version: &str) -> Result<String, Fault> {
    let version = text_value(alloc, version)?;
    let mut text = String::new(alloc);
    for one in &store.counts(alloc, Field::VERSION, &version)? {
        push_count(&mut text, one)?;
    }
    Ok(text)
}

fn places(alloc: Global, store: &Store, version: &str) -> Result<String, Fault> {
    let version = text_value(alloc, version)?;
    Ok(format!(in alloc; "{:?}", store.places(Field::VERSION, &version))?)
}

/// A store of rows: the items of a cell at places three apart, or made ones.
pub fn store_of(alloc: Global, row: &Row<'_>) -> Result<Store, Fault> {
    let rows = row.cell("rows")?;
    let mut store = Store::new(alloc);
    match word(rows, 0) {
        "many" => put_many(alloc, &mut store, u32::try_from(number_at(rows, 1)?)?)?,
        "products" => put_products(alloc, &mut store)?,
        _ => put_items(alloc, &mut store, row)?,
    }
    Ok(store)
}

fn put_items(alloc: Global, store: &mut Store, row: &Row<'_>) -> Result<(), Fault> {
    let mut place = 0u32;
    for item in row.items(alloc, "rows")? {
        put(alloc, store, place, report_of(alloc, item.as_str(), '&')?)?;
        place = place.saturating_add(3);
    }
    Ok(())
}

/// Puts rows with rising ids, of one product and five signatures, whose uptime is the last digit of the number, and none for the
/// digit 9.
fn put_many(alloc: Global, store: &mut Store, count: u32) -> Result<(), Fault> {
    for number in 0..count {
        let mut pairs = format!(in alloc;
            "uuid={number:04}&product=Made&signature=made{}.dll",
            number % 5
        )?;
        if number % 10 != 9 {
            write!(pairs, "&uptime={}", number % 10)?;
        }
        put(alloc, store, number, report_of(alloc, pairs.as_str(), '&')?)?;
    }
    Ok(())
}

/// Puts rows of 20 products: of the first one three, of the second one two, and one of each other.
fn put_products(alloc: Global, store: &mut Store) -> Result<(), Fault> {
    for place in 0..23u32 {
        let number = if place < 20 { place } else { (place - 20) / 2 };
        let pairs = format!(in alloc; "product={}&uptime={number}", number + 10)?;
        put(alloc, store, place, report_of(alloc, pairs.as_str(), '&')?)?;
    }
    Ok(())
}
