//! Rows at places.
ghost use Rattle.std.specs.Prelude.{slice_index_or, ◌≡◌, ◌<◌, ◌+◌, ◌^◌, ℕ, Bool, List, [], Some, IfOk, OnOk, OnErr, IfErr, IfSome, length, map, slice_get, option_map, filter, All, Contains};
ghost use Rattle.soc_schema.specs.declared.value.Cell.{Cell};
ghost use Rattle.soc_schema.specs.Rows.{value_of};
ghost use Rattle.std.specs.Option.{option_copied};
ghost use Rattle.soc_schema.specs.Orders.{value_cmp};
ghost use Rattle.soc_schema.specs.Values.{values_of};
ghost use Rattle.soc_store.specs.Stored.{PlacesRise, counts_of, places_of, row_at, some_has, value_at, with_row, without_row};
ghost use Rattle.soc_schema.specs.Tables.{Rising};

use crate::counts::{ProductCount, counts_at};
use crate::index::Index;
use crate::rows::Rows;
use crate::values::{add_values, known_text, remove_values, share_known};
use soc_base::{NoMemory, SharedText};
use soc_edge::Steps;
use soc_schema::{Field, Row, Value};
use std::alloc::Global;
use std::marker::Model;
use std::sync::ledger::Ledger;

/// Rows at places, with the places of each value.
#[derive(Debug, Drop)]
pub struct Store {
    rows: Rows,
    fields: [Index; 36],
}

impl Model for Store {
    ghost use Rattle.std.specs.Prelude.{List, ℕ, ◌≡◌, length};
    ghost use Rattle.soc_schema.specs.declared.value.Cell.{Cell};
    ghost use Rattle.soc_store.specs.Stored.{PlacesRise};
    ghost use Rattle.soc_store.specs.inner.Postings.{AreKept};

    ghost Value = { List (ℕ × List Cell) };

    ghost view = { λ s. s.rows };

    ghost invariant = { λ s. PlacesRise s.rows × AreKept s.fields s.rows × (length s.fields ≡ 36) };
}

impl Store {
    /// No rows.
    pub fn new(alloc: Global) -> Store
        ensures { result ≡ [] }
    {
        Store {
            rows: Rows::new(alloc),
            fields: no_values(alloc),
        }
    }

    /// How many rows there are. Their places rise.
    pub fn len(&self) -> usize
        ensures count { result ≡ length self.now }
        ensures places_rise { PlacesRise self.now }
    {
        self.rows.len()
    }

    /// The rows' places rise, and there are fewer than 2^64 of them. It does nothing when it runs.
    pub fn places_rise(&self)
        ensures rise { PlacesRise self.now }
        ensures few { length self.now < 2 ^ 64 }
    {
        let _rows = self.len();
    }

    /// The place of the `i`th row, from 0, in rising order of places.
    pub fn place_at(&self, i: usize) -> u32
        requires { i < length self.now }
        ensures { slice_get (map (λ s. s.0) self.now) i ≡ Some result }
    {
        self.rows.place_at(i)
    }

    /// How many distinct values of the field there are.
    pub fn values(&self, field: Field) -> usize
        ensures count { result ≡ length (values_of field self.now) }

        // The values rise, each row's is among them, and of some of the rows they are those that one of these has.
        ensures rising { Rising (λ v. v) value_cmp (values_of field self.now) }
        ensures each { All (λ s. IfSome (value_of s.1 field) (Contains (values_of field self.now)))
            self.now }
        ensures of_some { (test : ℕ × List Cell → Bool) → values_of field (filter test self.now)
            ≡ filter (some_has field (filter test self.now)) (values_of field self.now) }
    {
        self.fields[usize::from(field.place())].len()
    }

    /// The `i`th of them, from 0, in rising order.
    pub fn value_at(&self, field: Field, i: usize) -> &Value
        requires { i < length (values_of field self.now) }
        ensures { slice_get (values_of field self.now) i ≡ Some result.now }
    {
        self.fields[usize::from(field.place())].value_at(i)
    }

    /// The `i`th of them, from 0, with the places of the rows that have it. It is found at once where `near` is what
    /// the call for the value before it left there, and else in a logarithm.
    pub fn term_near(&self, field: Field, i: usize, near: &mut usize) -> (&Value, &[u32])
        requires { i < length (values_of field self.now) }
        ensures value { slice_get (values_of field self.now) i ≡ Some result.0.now }
        ensures places { result.1.now ≡ places_of field result.0.now self.now }
    {
        let term = self.fields[usize::from(field.place())].term_near(i, near);
        (term.value(), term.places())
    }

    /// How many rows have the `i`th value, from 0, which is found as by `term_near`.
    pub fn count_near(&self, field: Field, i: usize, near: &mut usize) -> usize
        requires { i < length (values_of field self.now) }
        ensures { IfSome (slice_get (values_of field self.now) i)
            (λ v. result ≡ length (places_of field v self.now)) }
    {
        self.fields[usize::from(field.place())].count_near(i, near)
    }

    /// The places of the rows that have the value, in rising order.
    pub fn places(&self, field: Field, value: &Value) -> &[u32]
        ensures { result.now ≡ places_of field value.now self.now }
    {
        match self.fields[usize::from(field.place())].term(value) {
            Some(term) => term.places(),
            None => &[],
        }
    }

    /// How many of those rows there are of each product: those without a product first, then the products in rising
    /// byte order. They are counted by the call.
    pub fn counts(
        &self,
        alloc: Global,
        field: Field,
        value: &Value,
    ) -> Result<Vec<ProductCount>, NoMemory>
        ensures { IfOk result (λ counts. counts.items ≡ counts_of field value.now self.now) }
    {
        counts_at(alloc, &self.rows, self.places(field, value))
    }

    /// The value that the row at a place has of a field. It is no step.
    pub fn row_value(&self, place: u32, field: Field) -> Option<&Value>
        ensures { option_copied result ≡ value_at place field self.now }
    {
        self.rows.get(place)?.get(field)
    }

    /// The row at the place. It is one step.
    pub fn row<L: Ledger>(&self, place: u32, steps: &mut Steps<L>) -> Option<&Row>
        ensures row { option_copied result ≡ option_map (λ s. s.1) (row_at place self.now) }
        ensures step { steps.new ≡ steps.old + 1 }
    {
        steps.tick();
        self.rows.get(place)
    }

    /// Puts a row at a place, in the stead of the one that is there. Its texts share the memory of those that are known.
    /// Where memory is wanting, the row comes back and nothing has changed.
    pub fn put(&mut self, alloc: Global, place: u32, mut row: Row) -> Result<(), (Row, NoMemory)>
        ensures ok { OnOk result (self.new ≡ with_row (place, row) self.old) }
        ensures err { OnErr result (self.new ≡ self.old) }
        ensures back { IfErr result (λ back. back.0 ≡ row) }
    {
        row.shrink();
        share_known(&self.fields, &mut row);
        self.put_row(alloc, place, row)
    }

    fn put_row(&mut self, alloc: Global, place: u32, row: Row) -> Result<(), (Row, NoMemory)>
        ensures ok { OnOk result (self.new ≡ with_row (place, row) self.old) }
        ensures err { OnErr result (self.new ≡ self.old) }
        ensures back { IfErr result (λ back. back.0 ≡ row) }
    {
        if let Err(error) = add_values(alloc, &mut self.fields, &row, place) {
            return Err((row, error));
        }
        match self.rows.put(alloc, place, row) {
            Ok(None) => Ok(()),
            Ok(Some(old)) => {
                remove_values(&mut self.fields, &old, old.len(), place);
                Ok(())
            }
            Err(row) => {
                remove_values(&mut self.fields, &row, row.len(), place);
                Err((row, NoMemory))
            }
        }
    }

    /// Has a text share the memory of the field's value that is the same, where a row has it.
    pub fn unite(&self, field: Field, text: &mut SharedText)
        ensures { text.new ≡ text.old }
    {
        let Ok(own) = text.share() else {
            return;
        };
        if let Some(known) = known_text(&self.fields, field, &Value::Text(own)) {
            text.unite(known);
        }
    }

    /// Takes the row at a place out, where there is one. It takes no memory.
    pub fn take(&mut self, place: u32) -> Option<Row>
        ensures row { result ≡ option_map (λ s. s.1) (row_at place self.old) }
        ensures left { self.new ≡ without_row place self.old }
    {
        let row = self.rows.take(place)?;
        remove_values(&mut self.fields, &row, row.len(), place);
        Some(row)
    }
}

/// Of each field no value.
fn no_values(alloc: Global) -> [Index; 36]
    ensures each { (f : ℕ) → slice_index_or result f [] ≡ [] }
    ensures len { length result ≡ 36 }
{
    [
        Index::new(alloc),
        Index::new(alloc),
        Index::new(alloc),
        Index::new(alloc),
        Index::new(alloc),
        Index::new(alloc),
        Index::new(alloc),
        Index::new(alloc),
        Index::new(alloc),
        Index::new(alloc),
        Index::new(alloc),
        Index::new(alloc),
        Index::new(alloc),
        Index::new(alloc),
        Index::new(alloc),
        Index::new(alloc),
        Index::new(alloc),
        Index::new(alloc),
        Index::new(alloc),
        Index::new(alloc),
        Index::new(alloc),
        Index::new(alloc),
        Index::new(alloc),
        Index::new(alloc),
        Index::new(alloc),
        Index::new(alloc),
        Index::new(alloc),
        Index::new(alloc),
        Index::new(alloc),
        Index::new(alloc),
        Index::new(alloc),
        Index::new(alloc),
        Index::new(alloc),
        Index::new(alloc),
        Index::new(alloc),
        Index::new(alloc),
    ]
}
