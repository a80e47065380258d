//! The text of a row, as reports kept on disk have it.
ghost use Rattle.std.specs.Prelude.{◌≡◌, ◌≢◌, ◌+◌, ◌^◌, ◌<◌, ◌≤◌, ◌↔◌, ◌++◌, ◌∷◌, if◌then◌else◌, ℕ, List, [], length, IsTrue, IfOk, IfErr, OnOk, MatchOption, MatchResult};
ghost use Rattle.std.specs.Int.{to_le_bytes, w32, w64};
ghost use Rattle.std.specs.List.{AllByRecursion};
ghost use Rattle.soc_base.specs.Cursor.{counted};
ghost use Rattle.soc_raw.specs.Refusals.{Refuses};
ghost use Rattle.soc_schema.specs.declared.value.Cell.{Cell};
ghost use Rattle.soc_schema.specs.declared.value.Value.{Value};
ghost use Rattle.soc_schema.specs.RowText.{HasText, IsShort, IsValue, cell_text, row_text};
ghost use Rattle.soc_schema.specs.inner.Reading.{ReadsCell, ReadsCells, ReadsValue};

use crate::field::Field;
use crate::row::Row;
use crate::value::{Cell, Value};
use soc_base::{Bytes, Cursor, NoMemory};
use soc_raw::RecordError;
use std::alloc::Global;

/// The tags of the three kinds.
const TEXT: u8 = 0;

const NUMBER: u8 = 1;

const FLAG: u8 = 2;

impl Row {
    /// The row's text: its number of fields, and each field's place in the table, tag and value.
    pub fn encode(&self, alloc: Global) -> Result<Bytes, NoMemory>
        requires { AllByRecursion (λ c. IsShort c.value) self.now }
        ensures { IfOk result (λ text. HasText self.now text) }
    {
        let cells = self.cells();
        let mut bytes = Vec::new(alloc);
        bytes.extend_from_slice(&(cells.len() as u32).to_le_bytes())?;
        for cell in cells {
            push_cell(&mut bytes, cell)?;
        }
        Ok(Bytes::from(bytes))
    }

    /// Whether the row's text has at most so many bytes. One of fewer than 2^32 bytes has short texts alone.
    pub fn fits(&self, most: u64) -> bool
        ensures fits { IsTrue result ↔ (length (row_text self.now) ≤ most) }
        ensures short { IsTrue result → most < 2 ^ 32
            → AllByRecursion (λ c. IsShort c.value) self.now }
    {
        if most < 4 {
            return false;
        }
        let mut left = most - 4;
        let cells = self.cells();
        for cell in cells {
            let size = size_of(cell);
            if left < size {
                return false;
            }
            left -= size;
        }
        true
    }

    /// The row of a text. `BadRecord` exactly where no row has it.
    pub fn decode(alloc: Global, b: &[u8]) -> Result<Row, RecordError>
        ensures ok { IfOk result (λ row. HasText row b.now) }
        ensures only { IfOk result (λ row. (cells : List Cell) → HasText cells b.now
            → cells ≡ row) }
        ensures bad { IfErr result (λ e.
            Refuses e ((cells : List Cell) → ¬ (HasText cells b.now))) }
    {
        let mut cursor = Cursor::new(b);
        let Some(count) = cursor.u32() else {
            return Err(RecordError::BadRecord);
        };
        let cells = cells_at(alloc, &mut cursor, count)?;
        if !cursor.is_empty() {
            return Err(RecordError::BadRecord);
        }
        Ok(Row::of_cells(cells))
    }
}

fn push_cell(bytes: &mut Vec<u8>, cell: &Cell) -> Result<(), NoMemory>
    requires { IsShort cell.now.value }
    ensures text { OnOk result (bytes.new.items ≡ bytes.old.items ++ cell_text cell.now) }
    ensures sound { OnOk result (IsValue cell.now.value) }
{
    bytes.push(cell.field.place())?;
    match &cell.value {
        Value::Text(text) => push_text(bytes, text.as_str()),
        Value::Number(number) => push_tagged(bytes, NUMBER, &number.to_le_bytes()),
        Value::Flag(flag) => push_tagged(bytes, FLAG, &[u8::from(*flag)]),
    }
}

/// How many bytes the text of the cell has.
fn size_of(cell: &Cell) -> u64
    ensures { result ≡ length (cell_text cell.now) }
{
    match &cell.value {
        Value::Text(text) => text.as_str().len() as u64 + 6,
        Value::Number(_) => 10,
        Value::Flag(_) => 3,
    }
}

fn push_text(bytes: &mut Vec<u8>, text: &str) -> Result<(), NoMemory>
    requires { length text.now < 2 ^ 32 }
    ensures { OnOk result (bytes.new.items ≡ bytes.old.items ++ TEXT ∷ counted text.now) }
{
    push_tagged(bytes, TEXT, &(text.len() as u32).to_le_bytes())?;
    bytes.extend_from_slice(text.as_bytes())?;
    Ok(())
}

/// Adds a tag and what follows it.
fn push_tagged(bytes: &mut Vec<u8>, tag: u8, value: &[u8]) -> Result<(), NoMemory>
    ensures { OnOk result (bytes.new.items ≡ bytes.old.items ++ tag ∷ value.now) }
{
    bytes.push(tag)?;
    bytes.extend_from_slice(value)?;
    Ok(())
}

fn value_at(alloc: Global, cursor: &mut Cursor<'_>) -> Result<Value, RecordError>
    ensures { MatchResult result (λ v. ReadsValue cursor.old v cursor.new)
        (λ e. Refuses e ((v : Value) (s : List ℕ) → ¬ (ReadsValue cursor.old v s))) }
{
    let Some(tag) = cursor.byte() else {
        return Err(RecordError::BadRecord);
    };
    match tag {
        TEXT => text_value_at(alloc, cursor),
        NUMBER => number_value_at(cursor),
        FLAG => flag_value_at(cursor),
        _ => Err(RecordError::BadRecord),
    }
}

fn text_value_at(alloc: Global, cursor: &mut Cursor<'_>) -> Result<Value, RecordError>
    ensures { MatchResult result (λ v. ReadsValue (TEXT ∷ cursor.old) v cursor.new)
        (λ e. Refuses e ((v : Value) (s : List ℕ) → ¬ (ReadsValue (TEXT ∷ cursor.old) v s))) }
{
    match cursor.text() {
        Some(text) => Ok(Value::text(alloc, text)?),
        None => Err(RecordError::BadRecord),
    }
}

fn number_value_at(cursor: &mut Cursor<'_>) -> Result<Value, RecordError>
    ensures { MatchResult result (λ v. ReadsValue (NUMBER ∷ cursor.old) v cursor.new)
        (λ e. Refuses e ((v : Value) (s : List ℕ) → ¬ (ReadsValue (NUMBER ∷ cursor.old) v s))) }
{
    match cursor.u64() {
        Some(number) => Ok(Value::Number(number)),
        None => Err(RecordError::BadRecord),
    }
}

fn flag_value_at(cursor: &mut Cursor<'_>) -> Result<Value, RecordError>
    ensures { MatchResult result (λ v. ReadsValue (FLAG ∷ cursor.old) v cursor.new)
        (λ e. Refuses e ((v : Value) (s : List ℕ) → ¬ (ReadsValue (FLAG ∷ cursor.old) v s))) }
{
    match cursor.byte() {
        Some(0) => Ok(Value::Flag(false)),
        Some(1) => Ok(Value::Flag(true)),
        _ => Err(RecordError::BadRecord),
    }
}

fn cell_at(alloc: Global, cursor: &mut Cursor<'_>, low: u8) -> Result<Cell, RecordError>
    ensures { MatchResult result (λ c. ReadsCell low cursor.old c cursor.new)
        (λ e. Refuses e ((c : Cell) (s : List ℕ) → ¬ (ReadsCell low cursor.old c s))) }
{
    let Some(place) = cursor.byte() else {
        return Err(RecordError::BadRecord);
    };
    if place < low || Field::COUNT <= place {
        return Err(RecordError::BadRecord);
    }
    let field = Field::at(place);
    let value = value_at(alloc, cursor)?;
    if value.kind() != field.kind() {
        return Err(RecordError::BadRecord);
    }
    Ok(Cell { field, value })
}

fn cells_at(alloc: Global, cursor: &mut Cursor<'_>, count: u32) -> Result<Vec<Cell>, RecordError>
    ensures { MatchResult result (λ cells. ReadsCells 0 count cursor.old cells.items cursor.new)
        (λ e. Refuses e ((cells : List Cell) (s : List ℕ)
        → ¬ (ReadsCells 0 count cursor.old cells s))) }
{
    let mut cells = Vec::new(alloc);
    let mut low = 0;
    for _ in 0..count {
        let cell = cell_at(alloc, cursor, low)?;
        low = cell.field.place() + 1;
        push(&mut cells, cell)?;
    }
    Ok(cells)
}

fn push(cells: &mut Vec<Cell>, cell: Cell) -> Result<(), NoMemory>
    ensures { OnOk result (cells.new.items ≡ cells.old.items ++ cell ∷ []) }
{
    cells.push(cell)?;
    Ok(())
}
