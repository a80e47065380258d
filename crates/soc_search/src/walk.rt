//! Selected rows in order, walked to by the values of the fields that they are sorted by.
ghost use Rattle.std.specs.Prelude.{◌≡◌, ◌+◌, ◌≤◌, ◌<◌, ◌&&◌, ◌++◌, ◌-◌, if◌then◌else◌, ℕ, Bool, List, IfOk, OnOk, length, map, take, is_none};
ghost use Rattle.std.specs.List.{filter};
ghost use Rattle.soc_schema.specs.declared.value.Cell.{Cell};
ghost use Rattle.soc_schema.specs.Rows.{value_of};
ghost use Rattle.soc_schema.specs.Values.{values_of};
ghost use Rattle.soc_schema.specs.Orders.{in_order};
ghost use Rattle.soc_query.specs.Answers.{row_order};
ghost use Rattle.soc_search.specs.inner.Selections.{selected};
ghost use Rattle.soc_search.specs.inner.Walks.{first_of, is_in_group, others_of};

use crate::hits::sorted_rows;
use crate::places::PlaceSet;
use crate::selection::{FEW, Selection, chosen_among, matching_places, narrowed};
use soc_base::NoMemory;
use soc_edge::Steps;
use soc_query::{Condition, Sort, Test};
use soc_schema::{Field, Row};
use soc_store::Store;
use std::alloc::Global;
use std::sync::ledger::Ledger;

/// The selected rows in order, at least as many of the first as the goal.
pub(crate) fn walked_rows<'a, L: Ledger>(
    alloc: Global,
    store: &'a Store,
    sorts: &[Sort],
    goal: usize,
    set: &Option<PlaceSet>,
    steps: &mut Steps<L>,
) -> Result<Vec<&'a Row>, NoMemory>
    ensures rows { IfOk result (λ rows. take goal (map (λ row. row.now) rows.items)
        ≡ take goal (in_order (row_order sorts.now)
        (map (λ s. s.1) (filter (λ s. selected set.now s.0) store.now)))) }
    ensures few { steps.new ≤ steps.old + length (filter (λ s. selected set.now s.0) store.now) }
{
    let mut rows = Vec::new(alloc);
    add_rows(alloc, store, sorts, goal, set, &mut rows, steps)?;
    Ok(rows)
}

/// Adds the selected rows in order, until there are as many rows as the goal. Many rows that tie in the first field are
/// walked to by the others.
fn add_rows<'a, L: Ledger>(
    alloc: Global,
    store: &'a Store,
    sorts: &[Sort],
    goal: usize,
    set: &Option<PlaceSet>,
    rows: &mut Vec<&'a Row>,
    steps: &mut Steps<L>,
) -> Result<(), NoMemory>
    ensures rows { OnOk result (take goal (map (λ row. row.now) rows.new.items)
        ≡ take goal (map (λ row. row.now) rows.old.items
        ++ in_order (row_order sorts.now)
        (map (λ s. s.1) (filter (λ s. selected set.now s.0) store.now)))) }
    ensures few { steps.new ≤ steps.old + length (filter (λ s. selected set.now s.0) store.now) }
{
    let sort = first_sort(sorts);
    let others = other_sorts(sorts);
    store.places_rise();
    let mut near = 0;
    for i in 0..=store.values(sort.field) {
        if rows.len() >= goal {
            return Ok(());
        }
        let places = group_at(alloc, store, set, sort, i, &mut near)?;
        if places.len() > FEW && !sorts.is_empty() {
            let group = Some(PlaceSet::of(alloc, places.as_slice())?);
            add_rows(alloc, store, others, goal, &group, rows, steps)?;
        } else {
            let mut group = sorted_rows(alloc, store, others, places.as_slice(), steps)?;
            rows.append(&mut group)?;
        }
    }
    Ok(())
}

/// The first field that rows are sorted by, which is the id where none is asked.
fn first_sort(sorts: &[Sort]) -> Sort
    ensures { result ≡ first_of sorts.now }
{
    match sorts.first() {
        Some(first) => *first,
        None => Sort {
            field: Field::UUID,
            falling: false,
        },
    }
}

/// The fields behind the first.
fn other_sorts(sorts: &[Sort]) -> &[Sort]
    ensures { result.now ≡ others_of sorts.now }
{
    match sorts.split_first() {
        Some((_, others)) => others,
        None => sorts,
    }
}

/// The places of the selected rows that have the `i`th value of the field in the order that is asked, or that have
/// none, where there is no such value.
fn group_at(
    alloc: Global,
    store: &Store,
    set: &Option<PlaceSet>,
    sort: Sort,
    i: usize,
    near: &mut usize,
) -> Result<Vec<u32>, NoMemory>
    ensures { IfOk result (λ places. places.items
        ≡ map (λ s. s.0) (filter (λ s. selected set.now s.0 && is_in_group sort store.now i s.1)
        store.now)) }
{
    if i < store.values(sort.field) {
        return chosen_among(alloc, set, nth_places(store, sort, i, near));
    }
    let places = places_without(alloc, store, sort.field)?;
    chosen_among(alloc, set, places.as_slice())
}

/// The places of the rows that have the `i`th value of a field, in the order that is asked.
fn nth_places<'a>(store: &'a Store, sort: Sort, i: usize, near: &mut usize) -> &'a [u32]
    requires { i < length (values_of sort.field store.now) }
    ensures { result.now ≡ map (λ s. s.0)
        (filter (λ s. is_in_group sort store.now i s.1) store.now) }
{
    let index = walk_index(store.values(sort.field), sort.falling, i);
    let (_, places) = store.term_near(sort.field, index, near);
    places
}

/// The index of the `i`th of some values in the order that is asked.
fn walk_index(values: usize, falling: bool, i: usize) -> usize
    requires { i < values }
    ensures value { result ≡ (if falling then values - 1 - i else i) }
    ensures within { result < values }
{
    if falling { values - 1 - i } else { i }
}

/// The places of the rows without the field.
fn places_without(alloc: Global, store: &Store, field: Field) -> Result<Vec<u32>, NoMemory>
    ensures { IfOk result (λ places. places.items
        ≡ map (λ s. s.0) (filter (λ s. is_none (value_of s.1 field)) store.now)) }
{
    let absent = Condition {
        field,
        negated: false,
        test: Test::Absent,
    };
    let each = Selection {
        set: None,
        places: None,
    };
    let found = narrowed(alloc, store, field, &[&absent], each)?;
    matching_places(alloc, store, &found.set)
}
