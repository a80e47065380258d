//! Hits: the selected rows in order, from an offset on.
ghost use Rattle.std.specs.Prelude.{◌≡◌, ◌+◌, ◌≤◌, ◌==◌, ℕ, Bool, List, [], IfOk, OnOk, length, map, option_map, take, drop};
ghost use Rattle.std.specs.List.{filter, filter_map, list_any};
ghost use Rattle.std.specs.Option.{option_copied};
ghost use Rattle.soc_schema.specs.declared.value.Cell.{Cell};
ghost use Rattle.soc_query.specs.Answers.{columns_of, hits_of, row_order, value_order};
ghost use Rattle.soc_schema.specs.Orders.{in_order};
ghost use Rattle.soc_search.specs.inner.Selections.{AreListed, row_of, selected};

use crate::selection::{FEW, Selection, matching_places};
use crate::walk::walked_rows;
use soc_base::NoMemory;
use soc_edge::Steps;
use soc_query::{Hits, Query, Sort};
use soc_schema::{Field, Row, Value};
use soc_store::{Store, compare_values};
use std::alloc::Global;
use std::cmp::Ordering;
use std::sync::ledger::Ledger;

/// The hits that a query asks for among so many selected rows. Each row that may be a hit is read once at most, and none
/// where there is no hit.
pub(crate) fn hits<L: Ledger>(
    alloc: Global,
    store: &Store,
    query: &Query,
    found: &Selection,
    total: usize,
    steps: &mut Steps<L>,
) -> Result<Hits, NoMemory>
    requires listed { AreListed (selected found.now.set) store.now
        (option_map (λ v. v.items) found.now.places) }
    requires total { total ≡ length (filter (λ s. selected found.now.set s.0) store.now) }
    ensures value { IfOk result (λ hits. hits
        ≡ hits_of query.now (filter (λ s. selected found.now.set s.0) store.now)) }
    ensures none { query.now.number ≡ 0 → steps.new ≡ steps.old }
    ensures past { total ≤ query.now.offset → steps.new ≡ steps.old }
    ensures few { steps.new
        ≤ steps.old + length (filter (λ s. selected found.now.set s.0) store.now) }
{
    let left = (total as u64).saturating_sub(query.offset());
    let wanted = query.number().min(left);
    if wanted == 0 {
        return Ok(Hits::new(alloc));
    }
    if total > FEW {
        let goal = (query.offset() + wanted) as usize;
        let rows = walked_rows(alloc, store, query.sorts(), goal, &found.set, steps)?;
        return copied(alloc, query, rows.as_slice(), wanted);
    }
    let rows = ordered_rows(alloc, store, query.sorts(), found, steps)?;
    copied(alloc, query, rows.as_slice(), wanted)
}

/// The selected rows in order.
fn ordered_rows<'a, L: Ledger>(
    alloc: Global,
    store: &'a Store,
    sorts: &[Sort],
    found: &Selection,
    steps: &mut Steps<L>,
) -> Result<Vec<&'a Row>, NoMemory>
    requires { AreListed (selected found.now.set) store.now
        (option_map (λ v. v.items) found.now.places) }
    ensures rows { IfOk result (λ rows. map (λ row. row.now) rows.items
        ≡ in_order (row_order sorts.now)
        (map (λ s. s.1) (filter (λ s. selected found.now.set s.0) store.now))) }
    ensures few { steps.new
        ≤ steps.old + length (filter (λ s. selected found.now.set s.0) store.now) }
{
    match &found.places {
        Some(places) => sorted_rows(alloc, store, sorts, places.as_slice(), steps),
        None => {
            let places = matching_places(alloc, store, &found.set)?;
            sorted_rows(alloc, store, sorts, places.as_slice(), steps)
        }
    }
}

/// The rows at the places, which are those of rows of the store, in order.
pub(crate) fn sorted_rows<'a, L: Ledger>(
    alloc: Global,
    store: &'a Store,
    sorts: &[Sort],
    places: &[u32],
    steps: &mut Steps<L>,
) -> Result<Vec<&'a Row>, NoMemory>
    ensures rows { (test : ℕ × List Cell → Bool)
        → places.now ≡ map (λ s. s.0) (filter test store.now)
        → IfOk result (λ rows. map (λ row. row.now) rows.items
        ≡ in_order (row_order sorts.now) (map (λ s. s.1) (filter test store.now))) }
    ensures few { steps.new ≤ steps.old + length places.now }
{
    store.places_rise();
    let mut rows = read_rows(alloc, store, places, steps)?;
    sort_rows(&mut rows, sorts)?;
    Ok(rows)
}

/// As many rows as are wanted from the query's offset on, with its columns.
fn copied(alloc: Global, query: &Query, rows: &[&Row], wanted: u64) -> Result<Hits, NoMemory>
    ensures { IfOk result (λ hits. hits
        ≡ map (columns_of query.now.columns)
        (take wanted (drop query.now.offset (map (λ row. row.now) rows.now)))) }
{
    let mut hits = Hits::new(alloc);
    for row in part_of(rows, query.offset(), wanted) {
        hits.push(columns_of(alloc, query.columns(), row)?)?;
    }
    Ok(hits)
}

/// As many rows as `number` from the offset on.
fn part_of<'a, 'b>(rows: &'b [&'a Row], offset: u64, number: u64) -> &'b [&'a Row]
    ensures { map (λ row. row.now) result.now
        ≡ take number (drop offset (map (λ row. row.now) rows.now)) }
{
    let first = rows.len().min(offset as usize);
    let left = &rows[first..];
    let count = left.len().min(number as usize);
    &left[..count]
}

/// What a row has of these fields.
fn columns_of(alloc: Global, columns: &[Field], row: &Row) -> Result<Row, NoMemory>
    ensures { IfOk result (λ shown. shown ≡ columns_of columns.now row.now) }
{
    let mut shown = Row::new(alloc);
    for (field, value) in row.iter() {
        if is_among(columns, field) {
            shown.set(field, value.share()?)?;
        }
    }
    Ok(shown)
}

/// Whether the field is among these.
fn is_among(fields: &[Field], field: Field) -> bool
    ensures { result ≡ list_any (λ f. f == field) fields.now }
{
    for other in fields {
        if other.place() == field.place() {
            return true;
        }
    }
    false
}

/// The rows at these places, each of which is read once.
fn read_rows<'a, L: Ledger>(
    alloc: Global,
    store: &'a Store,
    places: &[u32],
    steps: &mut Steps<L>,
) -> Result<Vec<&'a Row>, NoMemory>
    ensures rows { IfOk result (λ rows. map (λ row. row.now) rows.items
        ≡ filter_map (row_of store.now) places.now) }
    ensures few { steps.new ≤ steps.old + length places.now }
{
    let mut rows = Vec::new(alloc);
    for place in places {
        if let Some(row) = store.row(*place, steps) {
            rows.push(row)?;
        }
    }
    Ok(rows)
}

/// Puts rows in order; what ties stays as it stands.
fn sort_rows(rows: &mut Vec<&Row>, sorts: &[Sort]) -> Result<(), NoMemory>
    ensures { OnOk result (map (λ row. row.now) rows.new.items
        ≡ in_order (row_order sorts.now) (map (λ row. row.now) rows.old.items)) }
{
    rows.sort_by(|a, b| compare_rows(sorts, a, b))?;
    Ok(())
}

/// How two rows compare by the fields, and then by their ids.
fn compare_rows(sorts: &[Sort], a: &Row, b: &Row) -> Ordering
    ensures { result ≡ row_order sorts.now a.now b.now }
{
    for sort in sorts {
        let order = compare_found(sort.falling, a.get(sort.field), b.get(sort.field));
        if order != Ordering::Equal {
            return order;
        }
    }
    compare_found(false, a.get(Field::UUID), b.get(Field::UUID))
}

/// How two values compare, where no value comes last either way.
fn compare_found(falling: bool, a: Option<&Value>, b: Option<&Value>) -> Ordering
    ensures { result ≡ value_order falling (option_copied a.entry) (option_copied b.entry) }
{
    match a {
        None => match b {
            None => Ordering::Equal,
            Some(_) => Ordering::Greater,
        },
        Some(a) => match b {
            None => Ordering::Less,
            Some(b) => {
                if falling {
                    compare_values(a, b).reverse()
                } else {
                    compare_values(a, b)
                }
            }
        },
    }
}
