//! The rows that a query counts.
ghost use Rattle.std.specs.Prelude.{◌≡◌, ◌+◌, ◌≤◌, ◌++◌, ◌∷◌, ◌⊎◌, [], false, ℕ, IfOk, OnOk, if◌then◌else◌, length, map, min};
ghost use Rattle.std.specs.List.{filter};
ghost use Rattle.std.specs.List.Sorted.{IsNonDecreasing};
ghost use Rattle.std.specs.Option.{option_map_or};
ghost use Rattle.soc_schema.specs.declared.value.Value.TheVariants as Value;
ghost use Rattle.soc_schema.specs.Fields.{product_field};
ghost use Rattle.soc_schema.specs.Rows.{value_of};
ghost use Rattle.soc_schema.specs.Values.{is_value, rows_with};
ghost use Rattle.soc_tops.specs.Tops.{has_day, is_asked, is_within, rows_between};
ghost use Rattle.soc_search.specs.inner.Selections.{row_of};

use crate::selection::put_if;
use soc_base::NoMemory;
use soc_edge::Steps;
use soc_schema::{Field, Row, Value, visible};
use soc_store::{Store, compare_values};
use soc_tops::{Days, TopsQuery};
use std::alloc::Global;
use std::cmp::Ordering;
use std::sync::ledger::Ledger;

/// The places of the rows that are counted, in rising order.
#[derive(Drop)]
pub(crate) struct Found {
    /// Those of the new days.
    pub(crate) places: Vec<u32>,
    /// Those of the old days.
    pub(crate) old_places: Vec<u32>,
}

/// A query's product and version, as rows have them.
#[derive(Drop)]
struct Wanted {
    product: Value,
    version: Value,
}

/// The rows of both ranges of days that the caller may see. The rows of the product or those of the version are read,
/// whichever are fewer, each once.
pub(crate) fn rows_found<L: Ledger>(
    alloc: Global,
    store: &Store,
    query: &TopsQuery,
    steps: &mut Steps<L>,
) -> Result<Found, NoMemory>
    ensures new { IfOk result (λ found. found.places.items
        ≡ map (λ s. s.0) (rows_between query.now query.now.days store.now)) }
    ensures old { IfOk result (λ found. found.old_places.items
        ≡ map (λ s. s.0) (rows_between query.now query.now.old_days store.now)) }
    ensures rising { IfOk result (λ found. IsNonDecreasing found.places.items
        × IsNonDecreasing found.old_places.items) }
    ensures few { steps.new ≤ steps.old + length
        (rows_with product_field (Value.Text query.now.product) store.now) }
{
    store.places_rise();
    if !visible(&query.caller, Some(query.product.as_str())) {
        return Ok(Found::new(alloc));
    }
    let wanted = Wanted {
        product: Value::text(alloc, query.product.as_str())?,
        version: Value::text(alloc, query.version.as_str())?,
    };
    let places = fewer(
        store.places(Field::PRODUCT, &wanted.product),
        store.places(Field::VERSION, &wanted.version),
    );
    rows_among(alloc, store, query, &wanted, places, steps)
}

/// The rows of both ranges of days among those at the places.
fn rows_among<L: Ledger>(
    alloc: Global,
    store: &Store,
    query: &TopsQuery,
    wanted: &Wanted,
    places: &[u32],
    steps: &mut Steps<L>,
) -> Result<Found, NoMemory>
    requires product { wanted.now.product ≡ Value.Text query.now.product }
    requires version { wanted.now.version ≡ Value.Text query.now.version }
    ensures new { IfOk result (λ found. found.places.items
        ≡ filter (λ p. option_map_or (is_asked query.now query.now.days) (row_of store.now p) false)
        places.now) }
    ensures old { IfOk result (λ found. found.old_places.items
        ≡ filter (λ p. option_map_or (is_asked query.now query.now.old_days)
        (row_of store.now p) false) places.now) }
    ensures few { steps.new ≤ steps.old + length places.now }
{
    let mut found = Found::new(alloc);
    for place in places {
        found.read(store, query, wanted, *place, steps)?;
    }
    Ok(found)
}

impl Found {
    /// No rows.
    fn new(alloc: Global) -> Found
        ensures new { result.places.items ≡ [] }
        ensures old { result.old_places.items ≡ [] }
    {
        Found {
            places: Vec::new(alloc),
            old_places: Vec::new(alloc),
        }
    }

    /// Reads the row at a place, and puts the place into the ranges that the row is asked in.
    fn read<L: Ledger>(
        &mut self,
        store: &Store,
        query: &TopsQuery,
        wanted: &Wanted,
        place: u32,
        steps: &mut Steps<L>,
    ) -> Result<(), NoMemory>
        requires product { wanted.now.product ≡ Value.Text query.now.product }
        requires version { wanted.now.version ≡ Value.Text query.now.version }
        ensures new { OnOk result (self.new.places.items ≡ self.old.places.items
            ++ (if option_map_or (is_asked query.now query.now.days)
            (row_of store.now place) false then place ∷ [] else [])) }
        ensures old { OnOk result (self.new.old_places.items ≡ self.old.old_places.items
            ++ (if option_map_or (is_asked query.now query.now.old_days)
            (row_of store.now place) false then place ∷ [] else [])) }
        ensures step { steps.new ≡ steps.old + 1 }
    {
        let Some(row) = store.row(place, steps) else {
            return Ok(());
        };
        let is_one = has(row, Field::PRODUCT, &wanted.product)
            && has(row, Field::VERSION, &wanted.version);
        put_if(
            &mut self.places,
            place,
            is_one && is_within(&query.days, row),
        )?;
        put_if(
            &mut self.old_places,
            place,
            is_one && is_within(&query.old_days, row),
        )
    }
}

/// The shorter list.
fn fewer<'a>(one: &'a [u32], other: &'a [u32]) -> &'a [u32]
    ensures either { (result.now ≡ one.now) ⊎ (result.now ≡ other.now) }
    ensures few { length result.now ≤ length one.now }
{
    if other.len() < one.len() { other } else { one }
}

/// Whether the row has this value of the field.
fn has(row: &Row, field: Field, value: &Value) -> bool
    ensures { result ≡ is_value value.now (value_of row.now field) }
{
    match row.get(field) {
        Some(there) => compare_values(value, there) == Ordering::Equal,
        None => false,
    }
}

/// Whether the row's day, the first ten bytes of its date, lies in the range.
fn is_within(days: &Days, row: &Row) -> bool
    ensures { result ≡ is_within days.now row.now }
{
    match row.get(Field::DATE) {
        Some(Value::Text(date)) => has_day(days, soc_text::before(date.as_str().as_bytes(), 10)),
        _ => false,
    }
}

/// Whether the day lies in the range.
fn has_day(days: &Days, day: &[u8]) -> bool
    ensures { result ≡ has_day days.now day.now }
{
    days.from.as_str().as_bytes().cmp(day) != Ordering::Greater
        && day.cmp(days.to.as_str().as_bytes()) != Ordering::Greater
}
