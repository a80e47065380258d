// Rows in rising order of their places.
ghost use Rattle.std.specs.Prelude.{◌≡◌, ◌<◌, [], Some, IfErr, IfNone, IfOk, OnOk, OnErr, length, map, slice_get, option_map};
ghost use Rattle.std.specs.Option.{option_copied};
ghost use Rattle.std.specs.Ordering.{nat_cmp};
ghost use Rattle.soc_store.specs.Stored.{PlacesRise, row_at, rows_in, with_row, without_row};
ghost use Rattle.soc_schema.specs.Tables.{FindsKey};

use soc_schema::Row;
use std::alloc::Global;
use std::marker::Model;
use std::mem;

/// A row at its place.
#[derive(Debug, Drop)]
struct Entry {
    place: u32,
    row: Box<Row>,
}

/// Rows, each at a place of its own, in rising order of places.
#[derive(Debug, Drop)]
pub(crate) struct Rows {
    entries: Vec<Entry>,
}

impl Model for Rows {
    ghost use Rattle.std.specs.Prelude.{List, ℕ};
    ghost use Rattle.soc_schema.specs.declared.value.Cell.{Cell};
    ghost use Rattle.soc_store.specs.Stored.{PlacesRise, rows_in};

    ghost Value = { List (ℕ × List Cell) };

    ghost view = { λ r. rows_in (λ e. e.place) (λ e. e.row.value) r.entries.items };

    ghost invariant = { λ r. PlacesRise
        (rows_in (λ e. e.place) (λ e. e.row.value) r.entries.items) };
}

impl Rows {
    /// No rows.
    pub(crate) fn new(alloc: Global) -> Rows
        ensures { result ≡ [] }
    {
        Rows {
            entries: Vec::new(alloc),
        }
    }

    /// How many rows there are.
    pub(crate) fn len(&self) -> usize
        ensures count { result ≡ length self.now }
        ensures places_rise { PlacesRise self.now }
    {
        self.entries.len()
    }

    /// The place of the row at `i`.
    pub(crate) fn place_at(&self, i: usize) -> u32
        requires { i < length self.now }
        ensures { slice_get (map (λ s. s.0) self.now) i ≡ Some result }
    {
        self.entries[i].place
    }

    /// The row at the place.
    pub(crate) fn get(&self, place: u32) -> Option<&Row>
        ensures { option_copied result ≡ option_map (λ s. s.1) (row_at place self.now) }
    {
        match place_in(self.entries.as_slice(), place) {
            Ok(i) => Some(&self.entries[i].row),
            Err(_) => None,
        }
    }

    /// Puts a row at a place and answers the one that it replaces. Where memory is wanting, the row comes back and
    /// nothing has changed.
    pub(crate) fn put(&mut self, alloc: Global, place: u32, row: Row) -> Result<Option<Row>, Row>
        ensures old { IfOk result (λ old. old ≡ option_map (λ s. s.1) (row_at place self.old)) }
        ensures ok { OnOk result (self.new ≡ with_row (place, row) self.old) }
        ensures err { OnErr result (self.new ≡ self.old) }
        ensures back { IfErr result (λ back. back ≡ row) }
    {
        let i = match place_in(self.entries.as_slice(), place) {
            Ok(i) => return Ok(Some(mem::replace(&mut *self.entries[i].row, row))),
            Err(i) => i,
        };
        let row = match Box::new(alloc, row) {
            Ok(row) => row,
            Err(failed) => return Err(failed.value),
        };
        if let Err(failed) = self.entries.insert(i, Entry { place, row }) {
            let Entry { place: _, row } = failed.value;
            return Err(Box::into_inner(row));
        }
        Ok(None)
    }

    /// Takes the row at a place out, where there is one.
    pub(crate) fn take(&mut self, place: u32) -> Option<Row>
        ensures row { result ≡ option_map (λ s. s.1) (row_at place self.old) }
        ensures left { self.new ≡ without_row place self.old }
        ensures none { IfNone result (self.new ≡ self.old) }
    {
        match place_in(self.entries.as_slice(), place) {
            Ok(i) => {
                let Entry { place: _, row } = self.entries.remove(i);
                Some(Box::into_inner(row))
            }
            Err(_) => None,
        }
    }
}

/// Where the row of a place stands, or else where it would stand.
fn place_in(entries: &[Entry], place: u32) -> Result<usize, usize>
    requires { PlacesRise (rows_in (λ e. e.place) (λ e. e.row.value) entries.now) }
    ensures { FindsKey (λ s. s.0) nat_cmp place
        (rows_in (λ e. e.place) (λ e. e.row.value) entries.now) result }
{
    let mut low = 0;
    let mut high = entries.len();
    while low < high {
        let middle = low + (high - low) / 2;
        let there = entries[middle].place;
        if there < place {
            low = middle + 1;
        } else if there == place {
            return Ok(middle);
        } else {
            high = middle;
        }
    }
    Err(low)
}
