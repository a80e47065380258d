// A value with the places of the rows that have it.
ghost use Rattle.std.specs.Prelude.{◌≡◌, ◌<◌, ◌≤◌, ℕ, List, [], None, IsTrue, ◌↔◌, Some, OnOk, OnErr, IfOk, length, slice_index};
ghost use Rattle.soc_store.specs.inner.Postings.{PlacesInOrder, posted, shrunk, without_place};

use smallvec::SmallVec;
use soc_base::NoMemory;
use soc_schema::Value;
use std::alloc::Global;
use std::marker::Model;

/// The places of rows. Most values have few rows, whose places need no memory of their own.
type Places = SmallVec<u32, 4>;

/// A value, and the places of the rows that have it in rising order.
#[derive(Debug, Drop)]
pub(crate) struct Term {
    value: Value,
    places: Places,
}

impl Model for Term {
    ghost use Rattle.soc_store.specs.inner.Postings.{Posting, PlacesInOrder};

    ghost Value = { Posting };

    ghost view = { λ t. record { value = t.value; places = t.places.items } };

    ghost invariant = { λ t. PlacesInOrder t.places.items };
}

impl Term {
    /// The value with one row.
    pub(crate) fn new(alloc: Global, value: &Value, place: u32) -> Result<Term, NoMemory>
        ensures { IfOk result (λ term. term
            ≡ posted value.now place None) }
    {
        let mut places: Places = SmallVec::new(alloc);
        places.push(place)?;
        Ok(Term {
            value: value.share()?,
            places,
        })
    }

    /// One more row that has the value.
    pub(crate) fn add(&mut self, place: u32) -> Result<(), NoMemory>
        ensures ok { OnOk result (self.new
            ≡ posted self.old.value place (Some self.old)) }
        ensures err { OnErr result (self.new ≡ self.old) }
    {
        let i = place_after(self.places.as_slice(), place);
        self.places.insert(i, place)?;
        Ok(())
    }

    /// One row less that has the value. Answers whether none is left.
    pub(crate) fn remove(&mut self, place: u32) -> bool
        ensures left { self.new ≡ shrunk place self.old }
        ensures none { IsTrue result ↔ (self.new.places ≡ []) }
    {
        remove_place(&mut self.places, place);
        self.places.is_empty()
    }

    /// The value.
    pub(crate) fn value(&self) -> &Value
        ensures { result.now ≡ self.now.value }
    {
        &self.value
    }

    /// The places of the rows that have it, in rising order.
    pub(crate) fn places(&self) -> &[u32]
        ensures { result.now ≡ self.now.places }
    {
        self.places.as_slice()
    }
}

/// Takes a place out, where it stands.
fn remove_place(places: &mut Places, place: u32)
    requires { PlacesInOrder places.old.items }
    ensures { places.new.items ≡ without_place place places.old.items }
{
    if let Ok(i) = places.as_slice().binary_search(&place) {
        let _ = places.remove(i);
    }
}

/// Where a place goes behind those that are no greater.
fn place_after(places: &[u32], place: u32) -> usize
    requires { PlacesInOrder places.now }
    ensures within { result ≤ length places.now }
    ensures below { (k : ℕ) → k < result → slice_index places.now k ≤ place }
    ensures above { (k : ℕ) → result ≤ k → k < length places.now
        → place < slice_index places.now k }
{
    let mut low = 0;
    let mut high = places.len();
    while low < high {
        let middle = low + (high - low) / 2;
        if places[middle] <= place {
            low = middle + 1;
        } else {
            high = middle;
        }
    }
    low
}
