//! Places of records, sorted by their addresses or numbers.
ghost use Rattle.std.specs.Prelude.{◌≡◌, ◌<◌, ◌≤◌, ℕ, List, length, map, IfOk, IsTrue, MatchOption};
ghost use Rattle.std.specs.List.{enumerate_from};
ghost use Rattle.std.specs.List.Sorted.{IsNonDecreasingBy, IsPartitionPoint};
ghost use Rattle.soc_symfile.specs.inner.Places.{IsIndex, IsFirstOf, IsLastOf, IsNearest, HasNone, AllAbove};

use crate::entries::Keyed;
use soc_base::NoMemory;
use std::alloc::Global;

/// Where a record stands in its table, with the number by which it is looked up.
#[derive(Clone, Copy, Debug, PartialEq, Eq, PartialOrd, Ord)]
pub struct Place {
    pub key: u64,
    pub at: usize,
}

/// The places of the records, in their order.
fn places_of<R: Keyed>(alloc: Global, records: &[R]) -> Result<Vec<Place>, NoMemory>
    ensures { IfOk result (λ places. places.items
        ≡ map (λ r. record { key = R.key_of r.1; at = r.0 }) (enumerate_from 0 records.now)) }
{
    let places: Vec<Place> = records
        .iter()
        .enumerate()
        .map(|(at, record)| Place {
            key: record.key(),
            at,
        })
        .collect(alloc)?;
    Ok(places)
}

/// Whether no key is below the one before it.
fn are_in_order(places: &[Place]) -> bool
    ensures { IsTrue result → IsNonDecreasingBy (λ place. place.key) places.now }
{
    for at in 1..places.len() {
        if places[at].key < places[at - 1].key {
            return false;
        }
    }
    true
}

/// The places of the records, sorted by their keys; those of one key stand in the records' order.
/// Most tables are in order as they are.
pub fn index<R: Keyed>(alloc: Global, records: &[R]) -> Result<Vec<Place>, NoMemory>
    ensures { IfOk result (λ places. IsIndex places.items (map R.key_of records.now)) }
{
    let mut places = places_of(alloc, records)?;
    if are_in_order(places.as_slice()) {
        return Ok(places);
    }
    places.sort_unstable();
    Ok(places)
}

/// How many places have a key below this one.
fn count_below(places: &[Place], key: u64) -> usize
    ensures bound { result ≤ length places.now }
    ensures point { IsNonDecreasingBy (λ place. place.key) places.now
        → IsPartitionPoint (λ place. place.key < key) (λ place. key ≤ place.key) places.now result }
{
    places.partition_point(|place| place.key < key)
}

/// How many places have this key or one below it.
fn count_to(places: &[Place], key: u64) -> usize
    ensures bound { result ≤ length places.now }
    ensures point { IsNonDecreasingBy (λ place. place.key) places.now
        → IsPartitionPoint (λ place. place.key ≤ key) (λ place. key < place.key) places.now result }
{
    places.partition_point(|place| place.key <= key)
}

/// The first record of the key.
pub fn first_of(places: &[Place], key: u64) -> Option<usize>
    ensures { (keys : List ℕ) → IsIndex places.now keys
        → MatchOption result (HasNone keys key) (IsFirstOf keys key) }
{
    let count = count_below(places, key);
    if count == places.len() {
        return None;
    }
    let place = places[count];
    if place.key == key {
        Some(place.at)
    } else {
        None
    }
}

/// The last record of the key.
pub fn last_of(places: &[Place], key: u64) -> Option<usize>
    ensures { (keys : List ℕ) → IsIndex places.now keys
        → MatchOption result (HasNone keys key) (IsLastOf keys key) }
{
    let count = count_to(places, key);
    if count == 0 {
        return None;
    }
    let place = places[count - 1];
    if place.key == key {
        Some(place.at)
    } else {
        None
    }
}

/// The first record of the greatest key at or below the offset.
pub fn nearest(places: &[Place], offset: u64) -> Option<usize>
    ensures { (keys : List ℕ) → IsIndex places.now keys
        → MatchOption result (AllAbove keys offset) (IsNearest keys offset) }
{
    let count = count_to(places, offset);
    if count == 0 {
        return None;
    }
    let place = places[count - 1];
    if count == 1 || places[count - 2].key < place.key {
        return Some(place.at);
    }
    first_of(places, place.key)
}
