//! What a report says: a value for some of the fields.
ghost use Rattle.std.specs.Prelude.{◌≡◌, ◌≢◌, ◌↔◌, ◌<◌, ◌≤◌, ℕ, [], length, slice_index, slice_get, option_map, IfOk, IsTrue, OnOk, OnErr, Some, MatchResult};
ghost use Rattle.soc_schema.specs.Fields.{IsField, kind_of};
ghost use Rattle.soc_schema.specs.Permits.{granted_cells};
ghost use Rattle.soc_schema.specs.Rows.{IsRow, cell, kind_of_value, value_of, with_value};
ghost use Rattle.soc_schema.specs.inner.Places.{HasFieldAt, LacksFieldAt, fields};

use crate::caller::Caller;
use crate::field::Field;
use crate::sight::granted;
use crate::value::{Cell, Value};
use soc_base::{NoMemory, SharedText};
use std::alloc::Global;
use std::marker::Model;

/// A list of fields and their values in the order of the table, with at most one value for each field and of its
/// kind.
#[derive(Debug, Drop)]
pub struct Row {
    cells: Vec<Cell>,
}

impl Model for Row {
    ghost use Rattle.std.specs.Prelude.{List};
    ghost use Rattle.soc_schema.specs.declared.value.Cell.{Cell};
    ghost use Rattle.soc_schema.specs.Rows.{IsRow};

    ghost Value = { List Cell };

    ghost view = { λ r. r.cells.items };

    ghost invariant = { λ r. IsRow r.cells.items };
}

impl Row {
    /// The row with no field.
    pub fn new(alloc: Global) -> Row
        ensures { result ≡ [] }
    {
        Row {
            cells: Vec::new(alloc),
        }
    }

    /// Gives the field this value, in the place of the one that it had.
    pub fn set(&mut self, field: Field, value: Value) -> Result<(), NoMemory>
        requires { kind_of_value value ≡ kind_of field }
        ensures ok { OnOk result (self.new ≡ with_value self.old field value) }
        ensures value { OnOk result (value_of self.new field ≡ Some value) }
        ensures others { OnOk result ((other : ℕ) → other ≢ field
            → value_of self.new other ≡ value_of self.old other) }
        ensures err { OnErr result (self.new ≡ self.old) }
    {
        match find(&self.cells, field) {
            Ok(place) => self.cells[place] = Cell { field, value },
            Err(place) => self.cells.insert(place, Cell { field, value })?,
        }
        Ok(())
    }

    /// The field's value, where the row has one.
    pub fn get(&self, field: Field) -> Option<&Value>
        ensures { option_map (λ v. v.now) result ≡ value_of self.now field }
    {
        match find(&self.cells, field) {
            Ok(place) => Some(&self.cells[place].value),
            Err(_) => None,
        }
    }

    /// How many fields have a value.
    pub fn len(&self) -> usize
        ensures { result ≡ length self.now }
    {
        self.cells.len()
    }

    /// Whether no field has a value.
    pub fn is_empty(&self) -> bool
        ensures { IsTrue result ↔ (self.now ≡ []) }
    {
        self.cells.is_empty()
    }

    /// The field and the value at `i`, from 0.
    pub fn at(&self, i: usize) -> (Field, &Value)
        requires { i < length self.now }
        ensures { slice_get self.now i ≡ Some (cell result.0 result.1.now) }
    {
        let cell = &self.cells[i];
        (cell.field, &cell.value)
    }

    /// The fields and their values, in the order of the table.
    pub fn iter(&self) -> Cells<'_>
        ensures rest { result ≡ self.now }
        ensures is_row { IsRow self.now }
    {
        Cells {
            rest: self.cells.as_slice(),
        }
    }

    /// Shares the memory of a text from now on, where the field has the same text.
    pub fn unite(&mut self, field: Field, text: &SharedText)
        ensures { self.new ≡ self.old }
    {
        let Ok(place) = find(&self.cells, field) else {
            return;
        };
        if let Value::Text(own) = &mut self.cells[place].value {
            own.unite(text);
        }
    }

    /// Gives back the memory that no cell needs.
    pub fn shrink(&mut self)
        ensures { self.new ≡ self.old }
    {
        self.cells.shrink_to_fit();
    }

    /// The cells in order.
    pub(crate) fn cells(&self) -> &[Cell]
        ensures value { result.now ≡ self.now }
        ensures is_row { IsRow result.now }
    {
        self.cells.as_slice()
    }

    /// The row of these cells.
    pub(crate) fn of_cells(cells: Vec<Cell>) -> Row
        requires { IsRow cells.items }
        ensures { result ≡ cells.items }
    {
        Row { cells }
    }

    /// The fields that the caller may see. Their texts are shared.
    pub fn shown(&self, alloc: Global, caller: &Caller) -> Result<Row, NoMemory>
        ensures { IfOk result (λ row. row ≡ granted_cells caller.now self.now) }
    {
        let mut cells = Vec::new(alloc);
        for cell in &self.cells {
            if granted(caller, cell.field) {
                cells.push(cell.share()?)?;
            }
        }
        Ok(Row { cells })
    }
}

impl<'a> IntoIterator for &'a Row {
    ghost use Rattle.std.specs.Prelude.{◌≡◌};
    ghost use Rattle.soc_schema.specs.Rows.{IsRow};

    type Item = (Field, &'a Value);

    type IntoIter = Cells<'a>;

    ghost into_iter_gives = { λ row it. (it ≡ row.now) × IsRow row.now };

    fn into_iter(self) -> Cells<'a> {
        self.iter()
    }
}

/// The fields and values that are left of a row. Contracts see their list.
#[derive(Drop)]
pub struct Cells<'a> {
    rest: &'a [Cell],
}

impl<'a> Model for Cells<'a> {
    ghost use Rattle.std.specs.Prelude.{List};
    ghost use Rattle.soc_schema.specs.declared.value.Cell.{Cell};

    ghost Value = { List Cell };

    ghost view = { λ it. it.rest.now };
}

impl<'a> Iterator for Cells<'a> {
    ghost use Rattle.std.specs.Iterator.{item_count};
    ghost use Rattle.std.specs.Map.Iter.{TakesFirst};
    ghost use Rattle.soc_schema.specs.Rows.{cell};

    type Item = (Field, &'a Value);

    ghost next_gives = { TakesFirst (λ item. cell item.0 item.1.now) };

    ghost remaining = { item_count (λ rest. rest) };

    fn next(&mut self) -> Option<(Field, &'a Value)> {
        let Some((first, rest)) = self.rest.split_first() else {
            return None;
        };
        self.rest = rest;
        Some((first.field, &first.value))
    }
}

/// The field's place among the cells, or else the place where it would stand.
fn find(cells: &[Cell], field: Field) -> Result<usize, usize>
    requires { IsRow cells.now }
    ensures place { MatchResult result (λ p. HasFieldAt cells.now field p)
        (λ p. LacksFieldAt cells.now field p) }
    ensures in_table { IsField field }
{
    let target = field.place();
    let place = place_of(cells, field);
    if place == cells.len() {
        return Err(place);
    }
    if field_at(cells, place) == target {
        return Ok(place);
    }
    Err(place)
}

/// The first place whose field isn't before this one.
fn place_of(cells: &[Cell], field: Field) -> usize
    requires { IsRow cells.now }
    ensures within { result ≤ length cells.now }
    ensures below { (k : ℕ) → k < result → slice_index (fields cells.now) k < field }
    ensures above { (k : ℕ) → result ≤ k → k < length cells.now
        → field ≤ slice_index (fields cells.now) k }
{
    let mut low = 0;
    let mut high = cells.len();
    while low < high {
        let middle = low + (high - low) / 2;
        if field_at(cells, middle) < field.place() {
            low = middle + 1;
        } else {
            high = middle;
        }
    }
    low
}

/// The place in the table of the field at `i`.
fn field_at(cells: &[Cell], i: usize) -> u8
    requires { i < length cells.now }
    ensures { result ≡ slice_index (fields cells.now) i }
{
    cells[i].field.place()
}
