//! Top crashers over stores of rows of one product and version.
ghost use Rattle.std.specs.Prelude.{◌≡◌, ◌<◌};

use crate::queries::pairs;
use crate::rows::{set, text_value};
use crate::stores::put;
use soc_base::{Text, TextList};
use soc_edge::Steps;
use soc_schema::{Caller, Field, Permissions, ProductNames, Products, Row as Report};
use soc_search::tops_of;
use soc_store::Store;
use soc_tables::{Fault, Row, number_at, shown, word};
use soc_tops::{Tops, TopsQuery};
use std::alloc::Global;
use std::marker::Brand;
use std::sync::ledger::{Blank, Ledger};

fn caller(products: Products) -> Caller {
    Caller {
        permissions: Permissions::public(),
        products,
    }
}

/// The limit of a query, or why it isn't read.
pub fn query(alloc: Global, row: &Row<'_>) -> Result<String, Fault> {
    let pairs = pairs(alloc, row.text(alloc, "query")?.as_str())?;
    match TopsQuery::read(alloc, &pairs, caller(Products::All)) {
        Ok(query) => Ok(format!(in alloc; "read with limit {}", query.limit)?),
        Err(error) => Ok(format!(in alloc; "{error}")?),
    }
}

/// A row of the product Firefox and the version 1, of a day, and of a signature before a blank, if there is one.
fn report_of(alloc: Global, text: &str) -> Result<Report, Fault> {
    let mut report = Report::new(alloc);
    let day = match text.split_once(' ') {
        Some((signature, day)) => {
            set(&mut report, Field::SIGNATURE, text_value(alloc, signature)?)?;
            day
        }
        None => text,
    };
    set_rest(alloc, &mut report, day)?;
    Ok(report)
}

fn set_rest(alloc: Global, report: &mut Report, day: &str) -> Result<(), Fault> {
    let date = format!(in alloc; "{day}T23:59:59Z")?;
    set(report, Field::DATE, text_value(alloc, date.as_str())?)?;
    set(report, Field::PRODUCT, text_value(alloc, "Firefox")?)?;
    set(report, Field::VERSION, text_value(alloc, "1")?)
}

/// A store of rows: the items of a cell, or so many with a signature each.
fn store_of(alloc: Global, row: &Row<'_>) -> Result<Store, Fault> {
    let rows = row.cell("rows")?;
    let mut store = Store::new(alloc);
    if word(rows, 0) == "many" {
        put_many(alloc, &mut store, u32::try_from(number_at(rows, 1)?)?)?;
    } else {
        put_items(alloc, &mut store, row)?;
    }
    Ok(store)
}

fn put_items(alloc: Global, store: &mut Store, row: &Row<'_>) -> Result<(), Fault> {
    let mut place = 0u32;
    for item in row.items(alloc, "rows")? {
        place = place.saturating_add(1);
        put(alloc, store, place, report_of(alloc, item.as_str())?)?;
    }
    Ok(())
}

fn put_many(alloc: Global, store: &mut Store, count: u32) -> Result<(), Fault> {
    for place in 0..count {
        let text = format!(in alloc; "{place:04} 2016-09-18")?;
        put(alloc, store, place, report_of(alloc, text.as_str())?)?;
    }
    Ok(())
}

/// The top crashers of a row's query over its store as JSON, for a caller of a product, or of all.
pub fn tops(alloc: Global, row: &Row<'_>) -> Result<String, Fault> {
    let store = store_of(alloc, row)?;
    let query = query_of(alloc, row)?;
    tops_text(alloc, &store, &query, row)
}

fn query_of(alloc: Global, row: &Row<'_>) -> Result<TopsQuery, Fault> {
    let products = products_of(alloc, row.cell("product")?)?;
    let pairs = pairs(alloc, row.text(alloc, "query")?.as_str())?;
    Ok(TopsQuery::read(alloc, &pairs, caller(products))?)
}

fn products_of(alloc: Global, product: &str) -> Result<Products, Fault> {
    if product == "-" {
        return Ok(Products::All);
    }
    let mut names = TextList::new(alloc);
    names.push(Text::of(alloc, product)?)?;
    Ok(Products::Some(ProductNames::new(alloc, names)?))
}

fn tops_text(
    alloc: Global,
    store: &Store,
    query: &TopsQuery,
    row: &Row<'_>,
) -> Result<String, Fault> {
    let tops = tops_over(alloc, store, query)?;
    let json = tops.json(alloc)?;
    row.within(alloc, shown(alloc, json.as_slice())?.as_str())
}

fn tops_over(alloc: Global, store: &Store, query: &TopsQuery) -> Result<Tops, Fault> {
    answered::<Brand>(alloc, store, query, Blank::new(1))
}

fn answered<L: Ledger>(
    alloc: Global,
    store: &Store,
    query: &TopsQuery,
    blank: Blank,
) -> Result<Tops, Fault>
    requires name { blank.name ≡ L.name }
    requires parts { blank.parts ≡ L.parts }
    requires some { 0 < blank.parts }
{
    let mut steps: Steps<L> = Steps::new(blank);
    Ok(tops_of(alloc, store, query, &mut steps)?)
}
