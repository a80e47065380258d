//! Maps from names to values of one type, in rising byte order of names.
ghost use Rattle.std.specs.Prelude.{◌≡◌, ◌<◌, ◌≤◌, ◌↔◌, [], length, map, IsTrue, OnOk, OnErr, slice_get, insert};
ghost use Rattle.std.specs.Option.{option_copied};
ghost use Rattle.soc_base.specs.Names.{byte_cmp, IsRising, value_of, with_value};
ghost use Rattle.soc_base.specs.inner.Places.{IsPlaceOf};

use crate::named::{Named, NamedValues};
use crate::no_memory::NoMemory;
use crate::text::Text;
use std::alloc::Global;
use std::cmp::Ordering;
use std::marker::Model;

/// Values by name, in rising byte order of names. Contracts see the list of names and values.
#[derive(Debug, Drop)]
pub struct Sorted<V> {
    entries: Vec<Named<V>>,
}

impl<V> Model for Sorted<V> {
    ghost use Rattle.std.specs.Prelude.{List, ℕ, map};
    ghost use Rattle.soc_base.specs.Names.{IsRising};

    ghost Value = { List (List ℕ × V) };

    ghost view = { λ m. map (λ e. (e.name, e.value)) m.entries.items };

    ghost invariant = { λ m. IsRising (map (λ e. (e.name, e.value)) m.entries.items) };
}

/// How the entry's name compares to `name`.
fn compare<V>(entry: &Named<V>, name: &str) -> Ordering
    ensures { result ≡ byte_cmp entry.now.name name.now }
{
    entry.name.as_str().cmp(name)
}

/// Where `name` stands among the entries, or where it would stand.
fn place_of<V>(entries: &[Named<V>], name: &str) -> Result<usize, usize>
    requires { IsRising (map (λ e. (e.name, e.value)) entries.now) }
    ensures { IsPlaceOf (map (λ e. (e.name, e.value)) entries.now) name.now result }
{
    let mut low = 0;
    let mut high = entries.len();
    while low < high {
        let middle = low + (high - low) / 2;
        match compare(&entries[middle], name) {
            Ordering::Less => low = middle + 1,
            Ordering::Equal => return Ok(middle),
            Ordering::Greater => high = middle,
        }
    }
    Err(low)
}

/// Puts the entry in at the place.
fn put_in<V>(entries: &mut Vec<Named<V>>, place: usize, entry: Named<V>) -> Result<(), NoMemory>
where
    V: Drop,
    requires { place ≤ length entries.old.items }
    ensures ok { OnOk result (entries.new.items ≡ insert entries.old.items place entry) }
    ensures err { OnErr result (entries.new.items ≡ entries.old.items) }
{
    entries.insert(place, entry)?;
    Ok(())
}

impl<V> Sorted<V> {
    /// The empty map.
    pub fn new(alloc: Global) -> Sorted<V>
        ensures { result ≡ [] }
    {
        Sorted {
            entries: Vec::new(alloc),
        }
    }

    /// Gives `name` the value, in place of the one that it had.
    pub fn set(&mut self, name: Text, value: V) -> Result<(), NoMemory>
    where
        V: Drop,
        ensures ok { OnOk result (self.new ≡ with_value self.old name value) }
        ensures err { OnErr result (self.new ≡ self.old) }
    {
        match place_of(self.entries.as_slice(), name.as_str()) {
            Ok(place) => self.entries[place].value = value,
            Err(place) => put_in(&mut self.entries, place, Named { name, value })?,
        }
        Ok(())
    }

    /// The value of `name`.
    pub fn get(&self, name: &str) -> Option<&V>
        ensures { option_copied result ≡ value_of self.now name.now }
    {
        match place_of(self.entries.as_slice(), name) {
            Ok(place) => Some(&self.entries[place].value),
            Err(_) => None,
        }
    }

    /// How many names there are.
    pub fn len(&self) -> usize
        ensures count { result ≡ length self.now }
        ensures rising { IsRising self.now }
    {
        self.entries.len()
    }

    /// Whether there is no name.
    pub fn is_empty(&self) -> bool
        ensures { IsTrue result ↔ (self.now ≡ []) }
    {
        self.entries.is_empty()
    }

    /// The name and the value at place `i`, from 0.
    pub fn at(&self, i: usize) -> (&str, &V)
        requires { i < length self.now }
        ensures { slice_get self.now i ≡ Some (result.0.now, result.1.now) }
    {
        let entry = &self.entries[i];
        (entry.name.as_str(), &entry.value)
    }

    /// The names and values, in rising order of names.
    pub fn iter(&self) -> NamedValues<'_, V>
        ensures rest { result ≡ self.now }
        ensures rising { IsRising self.now }
    {
        NamedValues::of(self.entries.as_slice())
    }
}

impl<'a, V> IntoIterator for &'a Sorted<V> {
    ghost use Rattle.std.specs.Prelude.{◌≡◌};
    ghost use Rattle.soc_base.specs.Names.{IsRising};

    type Item = (&'a str, &'a V);

    type IntoIter = NamedValues<'a, V>;

    ghost into_iter_gives = { λ m it. (it ≡ m.now) × IsRising m.now };

    fn into_iter(self) -> NamedValues<'a, V> {
        self.iter()
    }
}
