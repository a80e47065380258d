//! Facets: the values of a field in the selected rows, with their counts.
ghost use Rattle.std.specs.Prelude.{◌≡◌, ◌<◌, IfOk, IfSome, length, map, take, slice_get};
ghost use Rattle.std.specs.List.{filter};
ghost use Rattle.soc_schema.specs.Values.{rows_with, values_of};
ghost use Rattle.soc_query.specs.Answers.{facet_of, terms_of};
ghost use Rattle.soc_schema.specs.Orders.{in_order};
ghost use Rattle.soc_search.specs.inner.Leaders.{by_count};
ghost use Rattle.soc_search.specs.inner.Selections.{selected};

use crate::leaders::{Counted, Leaders};
use crate::places::PlaceSet;
use crate::selection::count_of;
use soc_base::NoMemory;
use soc_query::{Facet, Facets, Query, Terms};
use soc_schema::Field;
use soc_store::Store;
use std::alloc::Global;

/// The facets that a query asks for, over the selected rows.
pub(crate) fn facets(
    alloc: Global,
    store: &Store,
    query: &Query,
    set: &Option<PlaceSet>,
) -> Result<Facets, NoMemory>
    ensures { IfOk result (λ facets. facets
        ≡ map (facet_of query.now.facet_size (filter (λ s. selected set.now s.0) store.now))
        query.now.facets) }
{
    let mut facets = Facets::new(alloc);
    for field in query.facets() {
        let terms = facet_terms(alloc, store, *field, set, query.facet_size())?;
        facets.push(Facet {
            field: *field,
            terms,
        })?;
    }
    Ok(facets)
}

/// The terms of one facet.
fn facet_terms(
    alloc: Global,
    store: &Store,
    field: Field,
    set: &Option<PlaceSet>,
    size: u64,
) -> Result<Terms, NoMemory>
    ensures { IfOk result (λ terms. terms
        ≡ take size (in_order by_count
        (terms_of field (filter (λ s. selected set.now s.0) store.now)))) }
{
    leading_values(alloc, store, field, set, size as usize)?.terms(alloc)
}

/// The values of the field that most of the selected rows have.
fn leading_values<'a>(
    alloc: Global,
    store: &'a Store,
    field: Field,
    set: &Option<PlaceSet>,
    size: usize,
) -> Result<Leaders<'a>, NoMemory>
    ensures { IfOk result (λ leaders. leaders
        ≡ record {
          size = size;
          terms = take size
              (in_order by_count (terms_of field (filter (λ s. selected set.now s.0) store.now)));
        }) }
{
    let mut leaders = Leaders::new(alloc, size);
    let mut near = 0;
    for i in 0..store.values(field) {
        let count = count_at(store, field, i, &mut near, set);
        if leaders.wants(count) {
            let (value, _) = store.term_near(field, i, &mut near);
            leaders.offer(Counted { value, count })?;
        }
    }
    Ok(leaders)
}

/// How many of the selected rows have the `i`th value of the field: by their number where each row is selected, and else
/// by its places.
fn count_at(store: &Store, field: Field, i: usize, near: &mut usize, set: &Option<PlaceSet>) -> u64
    requires { i < length (values_of field store.now) }
    ensures { IfSome (slice_get (values_of field store.now) i)
        (λ v. result ≡ length (rows_with field v (filter (λ s. selected set.now s.0) store.now))) }
{
    if set.is_none() {
        return store.count_near(field, i, near) as u64;
    }
    let (_, places) = store.term_near(field, i, near);
    store.places_rise();
    count_of(set, places) as u64
}
