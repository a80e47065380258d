//! Which rows a query asks for.
ghost use Rattle.std.specs.Prelude.{◌≡◌, ◌&&◌, ◌++◌, ◌∷◌, [], if◌then◌else◌, count_by, IfSome, not, ℕ, Bool, true, false, List, IfOk, OnOk, length, map, Option, None, Some, option_map};
ghost use Rattle.std.specs.List.{filter, list_any};
ghost use Rattle.std.specs.Option.{option_copied, option_map_or};
ghost use Rattle.soc_schema.specs.declared.value.Value.{Value};
ghost use Rattle.soc_schema.specs.declared.value.Cell.{Cell};
ghost use Rattle.soc_schema.specs.Rows.{value_of};
ghost use Rattle.soc_schema.specs.Permits.{shows};
ghost use Rattle.soc_schema.specs.declared.caller.Products.TheVariants as Products;
ghost use Rattle.soc_schema.specs.Values.{is_value, product_of, sees};
ghost use Rattle.soc_store.specs.Stored.{PlacesRise, value_at};
ghost use Rattle.soc_query.specs.Answers.{is_exact, meets};
ghost use Rattle.soc_search.specs.inner.Places.{has};
ghost use Rattle.soc_search.specs.inner.Selections.{AreListed, AreOnce, Finds, Selects, are_met, asked_of, hit_places, is_turn, meets_where, selected, stands_out};

use crate::condition::{are_met, exact_value, is_among, some_exact, stands_out};
use crate::places::PlaceSet;
use crate::runs::asked_run;
use soc_base::{NoMemory, TextList};
use soc_query::{Condition, Query};
use soc_schema::{Caller, Field, Products, Value};
use soc_store::Store;
use std::alloc::Global;

/// As many rows are looked at one by one. Of more, sets are made.
pub(crate) const FEW: usize = 1_000;

/// Rows that are selected.
#[derive(Drop)]
pub(crate) struct Selection {
    /// Their places, or `None` where each row is selected.
    pub(crate) set: Option<PlaceSet>,
    /// Their places in rising order, where they are listed.
    pub(crate) places: Option<Vec<u32>>,
}

/// The rows that a query asks for. Values that it asks for are looked up first, so that its other conditions may find few
/// rows to look at.
pub(crate) fn matching(alloc: Global, store: &Store, query: &Query) -> Result<Selection, NoMemory>
    ensures { IfOk result (λ found. Finds found
        (λ row. sees query.now.caller row && meets query.now.conditions row) store.now) }
{
    let conditions = query.conditions();
    let shown = shown_rows(alloc, store, query.caller())?;
    let found = narrowed_where(alloc, store, conditions, true, shown)?;
    narrowed_where(alloc, store, conditions, false, found)
}

/// The selected rows that meet the conditions on the fields of which a value is asked for, or on the other fields. Each
/// field is looked at once.
fn narrowed_where(
    alloc: Global,
    store: &Store,
    conditions: &[Condition],
    exact: bool,
    found: Selection,
) -> Result<Selection, NoMemory>
    ensures { (test : List Cell → Bool) → Finds found test store.now
        → IfOk result (λ more. Finds more (λ row. test row
        && meets_where (λ f. is_turn exact f conditions.now) conditions.now row) store.now) }
{
    let mut found = found;
    let mut met = [false; 36];
    for condition in conditions {
        let place = usize::from(condition.field.place());
        if !met[place] {
            met[place] = true;
            found = narrowed_in_turn(alloc, store, condition.field, conditions, exact, found)?;
        }
    }
    Ok(found)
}

/// The selected rows that meet the conditions on a field, if it is their turn, and else all of them.
fn narrowed_in_turn(
    alloc: Global,
    store: &Store,
    field: Field,
    conditions: &[Condition],
    exact: bool,
    found: Selection,
) -> Result<Selection, NoMemory>
    ensures { (test : List Cell → Bool) → Finds found test store.now
        → IfOk result (λ more. Finds more (λ row. test row && (if is_turn exact field conditions.now
        then are_met (asked_of field conditions.now) (value_of row field) else true)) store.now) }
{
    let asked = asked_of(alloc, conditions, field)?;
    if !is_turn(asked.as_slice(), exact) {
        return Ok(found);
    }
    narrowed(alloc, store, field, asked.as_slice(), found)
}

/// Whether the conditions on a field are those of the turn: a value is asked for, or none is.
fn is_turn(asked: &[&Condition], exact: bool) -> bool
    ensures { result ≡ (if exact then list_any is_exact (map (λ c. c.now) asked.now)
        else not (list_any is_exact (map (λ c. c.now) asked.now))) }
{
    if exact {
        some_exact(asked)
    } else {
        !some_exact(asked)
    }
}

/// The conditions on a field, each once.
fn asked_of<'a>(
    alloc: Global,
    conditions: &'a [Condition],
    field: Field,
) -> Result<Vec<&'a Condition>, NoMemory>
    ensures { IfOk result (λ asked. AreOnce (map (λ c. c.now) asked.items)
        (asked_of field conditions.now)) }
{
    let mut asked = Vec::new(alloc);
    for condition in conditions {
        if condition.field.place() == field.place() && !is_among(asked.as_slice(), condition) {
            asked.push(condition)?;
        }
    }
    Ok(asked)
}

/// The selected rows that meet the conditions on a field. Where the rows are few, each one's value is tested, and else
/// the field's values, each once.
pub(crate) fn narrowed(
    alloc: Global,
    store: &Store,
    field: Field,
    asked: &[&Condition],
    found: Selection,
) -> Result<Selection, NoMemory>
    ensures { (test : List Cell → Bool) → Finds found test store.now
        → IfOk result (λ more. Finds more (λ row. test row
        && are_met (map (λ c. c.now) asked.now) (value_of row field)) store.now) }
{
    let found = listed(alloc, store, field, found)?;
    match &found.places {
        Some(places) if places.len() <= FEW => {
            tested(alloc, store, field, asked, places.as_slice())
        }
        _ => passed(alloc, store, field, asked, found.set),
    }
}

/// The same rows. They are listed where they are few, and the field has more values.
fn listed(
    alloc: Global,
    store: &Store,
    field: Field,
    found: Selection,
) -> Result<Selection, NoMemory>
    ensures { (test : List Cell → Bool) → Finds found test store.now
        → IfOk result (λ more. Finds more test store.now) }
{
    if found.places.is_some() || found.set.is_none() || store.values(field) <= FEW {
        return Ok(found);
    }
    if matching_count(store, &found.set) > FEW {
        return Ok(found);
    }
    let places = matching_places(alloc, store, &found.set)?;
    Ok(Selection {
        set: found.set,
        places: Some(places),
    })
}

/// The rows at the places that meet the conditions on a field.
fn tested(
    alloc: Global,
    store: &Store,
    field: Field,
    asked: &[&Condition],
    places: &[u32],
) -> Result<Selection, NoMemory>
    ensures { (test : List Cell → Bool)
        → places.now ≡ map (λ s. s.0) (filter (λ s. test s.1) store.now)
        → IfOk result (λ more. Finds more (λ row. test row
        && are_met (map (λ c. c.now) asked.now) (value_of row field)) store.now) }
{
    store.places_rise();
    let left = met_places(alloc, store, field, asked, places)?;
    let set = Some(PlaceSet::of(alloc, left.as_slice())?);
    Ok(Selection {
        set,
        places: Some(left),
    })
}

/// Those of the places whose rows meet the conditions on a field.
fn met_places(
    alloc: Global,
    store: &Store,
    field: Field,
    asked: &[&Condition],
    places: &[u32],
) -> Result<Vec<u32>, NoMemory>
    ensures { IfOk result (λ left. left.items
        ≡ filter (λ p. are_met (map (λ c. c.now) asked.now) (value_at p field store.now))
        places.now) }
{
    let mut left = Vec::new(alloc);
    for place in places {
        let meets = are_met(asked, store.row_value(*place, field));
        put_if(&mut left, *place, meets)?;
    }
    Ok(left)
}

/// The selected rows whose value of the field, or that without one, meets the conditions on it.
fn passed(
    alloc: Global,
    store: &Store,
    field: Field,
    asked: &[&Condition],
    set: Option<PlaceSet>,
) -> Result<Selection, NoMemory>
    ensures { (test : List Cell → Bool) → Selects (selected set) test store.now
        → IfOk result (λ more. Finds more (λ row. test row
        && are_met (map (λ c. c.now) asked.now) (value_of row field)) store.now) }
{
    let set = Some(met_set(alloc, store, field, asked, set)?);
    let places = sole_places(alloc, store, field, asked, &set)?;
    Ok(Selection { set, places })
}

/// The places of these rows.
fn met_set(
    alloc: Global,
    store: &Store,
    field: Field,
    asked: &[&Condition],
    set: Option<PlaceSet>,
) -> Result<PlaceSet, NoMemory>
    ensures { (test : List Cell → Bool) → Selects (selected set) test store.now
        → IfOk result (λ left. Selects (has left) (λ row. test row
        && are_met (map (λ c. c.now) asked.now) (value_of row field)) store.now) }
{
    let absent = are_met(asked, None);
    let chosen = chosen_places(alloc, store, field, asked, absent)?;
    if absent {
        without(alloc, store, set, &chosen)
    } else {
        Ok(within(set, chosen))
    }
}

/// The places of the selected rows in rising order, where one condition asks for one value of the field.
fn sole_places(
    alloc: Global,
    store: &Store,
    field: Field,
    asked: &[&Condition],
    set: &Option<PlaceSet>,
) -> Result<Option<Vec<u32>>, NoMemory>
    ensures { (test : List Cell → Bool) → Selects (selected set.now) test store.now
        → ((row : List Cell) → test row ≡ true
        → are_met (map (λ c. c.now) asked.now) (value_of row field) ≡ true)
        → IfOk result (λ places. AreListed (selected set.now) store.now
        (option_map (λ v. v.items) places)) }
{
    let Some(value) = sole_value(asked) else {
        return Ok(None);
    };
    Ok(Some(chosen_among(alloc, set, store.places(field, value))?))
}

/// The value that each row has that meets the condition, if there is one condition, which asks for a value.
fn sole_value<'a>(asked: &[&'a Condition]) -> Option<&'a Value>
    ensures { IfSome result (λ v. (o : Option Value)
        → are_met (map (λ c. c.now) asked.now) o ≡ true → is_value v.now o ≡ true) }
{
    if asked.len() != 1 {
        return None;
    }
    exact_value(asked[0])
}

/// The places of the rows whose value of the field stands out.
fn chosen_places(
    alloc: Global,
    store: &Store,
    field: Field,
    asked: &[&Condition],
    absent: bool,
) -> Result<PlaceSet, NoMemory>
    requires { absent ≡ are_met (map (λ c. c.now) asked.now) None }
    ensures { IfOk result (λ set. Selects (has set)
        (λ row. option_map_or (stands_out (map (λ c. c.now) asked.now)) (value_of row field) false)
        store.now) }
{
    if some_exact(asked) {
        exact_places(alloc, store, field, asked)
    } else {
        passed_places(alloc, store, field, asked, absent)
    }
}

/// The same where values are asked for. No other value is looked at.
fn exact_places(
    alloc: Global,
    store: &Store,
    field: Field,
    asked: &[&Condition],
) -> Result<PlaceSet, NoMemory>
    requires { list_any is_exact (map (λ c. c.now) asked.now) ≡ true }
    ensures { IfOk result (λ set. Selects (has set)
        (λ row. option_map_or (stands_out (map (λ c. c.now) asked.now)) (value_of row field) false)
        store.now) }
{
    let mut set = PlaceSet::new(alloc);
    store.places_rise();
    for condition in asked {
        set.add_all(hit_places(store, field, asked, condition))?;
    }
    Ok(set)
}

/// The places of the rows that have the value that a condition asks for, where it meets all conditions.
fn hit_places<'a>(
    store: &'a Store,
    field: Field,
    asked: &[&Condition],
    condition: &Condition,
) -> &'a [u32]
    ensures { result.now
        ≡ hit_places (map (λ c. c.now) asked.now) field store.now condition.now }
{
    match exact_value(condition) {
        Some(value) if are_met(asked, Some(value)) => store.places(field, value),
        _ => &[],
    }
}

/// The same in general. Each value is looked at once, and none that no condition on a run of values leaves.
fn passed_places(
    alloc: Global,
    store: &Store,
    field: Field,
    asked: &[&Condition],
    absent: bool,
) -> Result<PlaceSet, NoMemory>
    requires { absent ≡ are_met (map (λ c. c.now) asked.now) None }
    ensures { IfOk result (λ set. Selects (has set)
        (λ row. option_map_or (stands_out (map (λ c. c.now) asked.now)) (value_of row field) false)
        store.now) }
{
    let mut set = PlaceSet::new(alloc);
    store.places_rise();
    let _values = store.values(field);
    let run = asked_run(store, field, asked, absent);
    let mut near = 0;
    for i in run.first..run.end {
        let (value, places) = store.term_near(field, i, &mut near);
        if stands_out(asked, absent, value) {
            set.add_all(places)?;
        }
    }
    Ok(set)
}

/// How many rows of the store are selected.
pub(crate) fn selected_count(store: &Store, found: &Selection) -> usize
    requires { AreListed (selected found.now.set) store.now
        (option_map (λ v. v.items) found.now.places) }
    ensures { result ≡ length (filter (λ s. selected found.now.set s.0) store.now) }
{
    match &found.places {
        Some(places) => places.as_slice().len(),
        None => matching_count(store, &found.set),
    }
}

/// The rows that the caller may see.
fn shown_rows(alloc: Global, store: &Store, caller: &Caller) -> Result<Selection, NoMemory>
    ensures { IfOk result (λ found. Finds found (sees caller.now) store.now) }
{
    let set = match &caller.products {
        Products::All => None,
        Products::Some(names) => Some(shown_places(alloc, store, names.as_list())?),
    };
    Ok(Selection { set, places: None })
}

/// The places of the rows of these products.
fn shown_places(alloc: Global, store: &Store, names: &TextList) -> Result<PlaceSet, NoMemory>
    ensures { IfOk result (λ set. Selects (has set)
        (λ row. shows (Products.Some names.now) (product_of row)) store.now) }
{
    let mut set = PlaceSet::new(alloc);
    store.places_rise();
    for i in 0..names.len() {
        let product = Value::text(alloc, names.at(i))?;
        set.add_all(store.places(Field::PRODUCT, &product))?;
    }
    Ok(set)
}

/// Those of the places that are selected.
pub(crate) fn chosen_among(
    alloc: Global,
    set: &Option<PlaceSet>,
    places: &[u32],
) -> Result<Vec<u32>, NoMemory>
    ensures { IfOk result (λ chosen. chosen.items ≡ filter (selected set.now) places.now) }
{
    let mut chosen = Vec::new(alloc);
    for place in places {
        put_if(&mut chosen, *place, is_selected(set, *place))?;
    }
    Ok(chosen)
}

/// Puts a place to the others, if it is one of them.
pub(crate) fn put_if(places: &mut Vec<u32>, place: u32, is_one: bool) -> Result<(), NoMemory>
    ensures { OnOk result (places.new.items ≡ places.old.items
        ++ (if is_one then place ∷ [] else [])) }
{
    if is_one {
        places.push(place)?;
    }
    Ok(())
}

/// How many of the places are selected.
pub(crate) fn count_of(set: &Option<PlaceSet>, places: &[u32]) -> usize
    ensures { result ≡ count_by (selected set.now) places.now }
{
    match set {
        None => places.len(),
        Some(set) => set.count(places),
    }
}

/// How many rows of the store are selected.
fn matching_count(store: &Store, set: &Option<PlaceSet>) -> usize
    ensures { result ≡ length (filter (λ s. selected set.now s.0) store.now) }
{
    let Some(set) = set else {
        return store.len();
    };
    let mut count = 0;
    for i in 0..store.len() {
        if set.has(store.place_at(i)) {
            count += 1;
        }
    }
    count
}

/// The places of the selected rows, in rising order.
pub(crate) fn matching_places(
    alloc: Global,
    store: &Store,
    set: &Option<PlaceSet>,
) -> Result<Vec<u32>, NoMemory>
    ensures places { IfOk result (λ places. places.items
        ≡ map (λ s. s.0) (filter (λ s. selected set.now s.0) store.now)) }
    ensures rise { PlacesRise store.now }
{
    let mut places = Vec::new(alloc);
    for i in 0..store.len() {
        let place = store.place_at(i);
        if is_selected(set, place) {
            places.push(place)?;
        }
    }
    Ok(places)
}

/// Whether a row at the place is selected.
pub(crate) fn is_selected(set: &Option<PlaceSet>, place: u32) -> bool
    ensures { result ≡ selected set.now place }
{
    match set {
        None => true,
        Some(set) => set.has(place),
    }
}

/// What is selected and in the other set.
fn within(set: Option<PlaceSet>, other: PlaceSet) -> PlaceSet
    ensures { (p : ℕ) → has result p ≡ (selected set p && has other p) }
{
    match set {
        None => other,
        Some(mut set) => {
            set.keep(&other);
            set
        }
    }
}

/// What is selected and not in the other set.
fn without(
    alloc: Global,
    store: &Store,
    set: Option<PlaceSet>,
    other: &PlaceSet,
) -> Result<PlaceSet, NoMemory>
    ensures { (test : List Cell → Bool) → Selects (selected set) test store.now
        → (wrong : List Cell → Bool) → Selects (has other.now) wrong store.now
        → IfOk result (λ left. Selects (has left) (λ row. test row && not (wrong row)) store.now) }
{
    let mut left = every_selected(alloc, store, set)?;
    left.remove(other);
    Ok(left)
}

/// The selected places, as a set.
fn every_selected(alloc: Global, store: &Store, set: Option<PlaceSet>) -> Result<PlaceSet, NoMemory>
    ensures { (test : List Cell → Bool) → Selects (selected set) test store.now
        → IfOk result (λ whole. Selects (has whole) test store.now) }
{
    match set {
        None => every_place(alloc, store),
        Some(set) => Ok(set),
    }
}

/// The place of each row.
fn every_place(alloc: Global, store: &Store) -> Result<PlaceSet, NoMemory>
    ensures { IfOk result (λ set. Selects (has set) (λ _. true) store.now) }
{
    let mut set = PlaceSet::new(alloc);
    for i in 0..store.len() {
        set.add(store.place_at(i))?;
    }
    Ok(set)
}
