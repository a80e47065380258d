//! Searches over stores.
ghost use Rattle.std.specs.Prelude.{◌≡◌, ◌<◌};

use crate::rows::value_text;
use crate::stores::store_of;
use soc_base::{Pairs, Text};
use soc_edge::Steps;
use soc_query::{Answer, Facet, Query};
use soc_schema::{Caller, Field, Permissions, Products, Value};
use soc_search::answer_of;
use soc_store::Store;
use soc_tables::{Fault, Row, append, copy, shown};
use std::alloc::Global;
use std::marker::Brand;
use std::sync::ledger::{Blank, Ledger};

fn everybody() -> Caller {
    Caller {
        permissions: Permissions::public(),
        products: Products::All,
    }
}

/// The pairs of a query that stands as in a URL, but with no byte encoded.
pub fn pairs(alloc: Global, text: &str) -> Result<Pairs, Fault> {
    let mut pairs = Pairs::new(alloc);
    for pair in text.split('&') {
        if !pair.is_empty() {
            let (name, value) = pair.split_once('=').unwrap_or((pair, ""));
            pairs.push(Text::of(alloc, name)?, Text::of(alloc, value)?)?;
        }
    }
    Ok(pairs)
}

/// Whether a query is read, or why not.
pub fn query(alloc: Global, row: &Row<'_>) -> Result<String, Fault> {
    let pairs = pairs(alloc, row.text(alloc, "query")?.as_str())?;
    match Query::read(alloc, &pairs, everybody()) {
        Ok(_) => copy(alloc, "read"),
        Err(error) => Ok(format!(in alloc; "{error}")?),
    }
}

/// The answer to a query of everybody.
pub fn answer_over(alloc: Global, store: &Store, text: &str) -> Result<Answer, Fault> {
    let pairs = pairs(alloc, text)?;
    let query = Query::read(alloc, &pairs, everybody())?;
    answer_to(alloc, store, &query)
}

fn answer_to(alloc: Global, store: &Store, query: &Query) -> Result<Answer, Fault> {
    answered::<Brand>(alloc, store, query, Blank::new(1))
}

fn answered<L: Ledger>(
    alloc: Global,
    store: &Store,
    query: &Query,
    blank: Blank,
) -> Result<Answer, Fault>
    requires name { blank.name ≡ L.name }
    requires parts { blank.parts ≡ L.parts }
    requires some { 0 < blank.parts }
{
    let mut steps: Steps<L> = Steps::new(blank);
    Ok(answer_of(alloc, store, query, &mut steps)?)
}

/// The answer to a row's query over its store.
fn answer_of_row(alloc: Global, row: &Row<'_>) -> Result<Answer, Fault> {
    let store = store_of(alloc, row)?;
    let text = row.text(alloc, "query")?;
    answer_over(alloc, &store, text.as_str())
}

/// The ids of the hits of a query, in order.
pub fn hits(alloc: Global, row: &Row<'_>) -> Result<String, Fault> {
    let answer = answer_of_row(alloc, row)?;
    ids_text(alloc, &answer)
}

/// The ids of hits, in order.
pub fn ids_text(alloc: Global, answer: &Answer) -> Result<String, Fault> {
    let mut ids = String::new(alloc);
    for hit in answer.hits.as_slice() {
        if let Some(Value::Text(id)) = hit.get(Field::UUID) {
            ids.push_str(id.as_str())?;
        }
    }
    if ids.is_empty() {
        return copy(alloc, "none");
    }
    Ok(ids)
}

/// How many rows a query asks for.
pub fn total(alloc: Global, row: &Row<'_>) -> Result<String, Fault> {
    let answer = answer_of_row(alloc, row)?;
    Ok(format!(in alloc; "{}", answer.total)?)
}

/// The values of facets with their counts, in order.
pub fn facets(alloc: Global, row: &Row<'_>) -> Result<String, Fault> {
    let answer = answer_of_row(alloc, row)?;
    let mut text = String::new(alloc);
    for facet in answer.facets.as_slice() {
        push_facet(alloc, &mut text, facet)?;
    }
    Ok(text)
}

fn push_facet(alloc: Global, text: &mut String, facet: &Facet) -> Result<(), Fault> {
    for term in facet.terms.as_slice() {
        let value = value_text(alloc, &term.value)?;
        append(
            text,
            format!(in alloc; "{}:{}", value.as_str(), term.count)?.as_str(),
        )?;
    }
    Ok(())
}

/// The answer to a query as JSON.
pub fn answer(alloc: Global, row: &Row<'_>) -> Result<String, Fault> {
    let answer = answer_of_row(alloc, row)?;
    let json = answer.json(alloc)?;
    shown(alloc, json.as_slice())
}
