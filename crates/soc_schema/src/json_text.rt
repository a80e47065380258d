//! Rows as JSON (RFC 8259), written behind what a vector holds.
ghost use Rattle.std.specs.Prelude.{◌≡◌, ◌++◌, decimal, IfOk, OnOk};
ghost use Rattle.serde_json.specs.Data.{boolean, string};
ghost use Rattle.serde_json.specs.Written.{compact_text};
ghost use Rattle.soc_schema.specs.Commas.{comma_after, joined};
ghost use Rattle.soc_schema.specs.RowJson.{row_json, value_json};
ghost use Rattle.soc_schema.specs.inner.Members.{cell_json};

use crate::row::Row;
use crate::value::{Cell, Value};
use json::Writer;
use soc_base::{Bytes, NoMemory};
use std::alloc::Global;
use std::mem;

/// An object of the row's names and values, in byte order of names.
pub fn row_json(alloc: Global, row: &Row) -> Result<Bytes, NoMemory>
    ensures { IfOk result (λ text. text ≡ row_json row.now) }
{
    let mut out = Vec::new(alloc);
    put_row(alloc, &mut out, row)?;
    Ok(Bytes::from(out))
}

/// Puts that object behind what is written. Where memory is wanting, what was written is gone.
pub fn put_row(alloc: Global, out: &mut Vec<u8>, row: &Row) -> Result<(), NoMemory>
    ensures { OnOk result (out.new.items ≡ out.old.items ++ row_json row.now) }
{
    out.extend_from_slice(b"{")?;
    put_cells(alloc, out, row.cells())?;
    out.extend_from_slice(b"}")?;
    Ok(())
}

fn put_cells(alloc: Global, out: &mut Vec<u8>, cells: &[Cell]) -> Result<(), NoMemory>
    ensures { OnOk result (out.new.items ≡ out.old.items ++ joined cell_json cells.now) }
{
    for (i, cell) in cells.iter().enumerate() {
        put_comma(out, i)?;
        put_cell(alloc, out, cell)?;
    }
    Ok(())
}

fn put_cell(alloc: Global, out: &mut Vec<u8>, cell: &Cell) -> Result<(), NoMemory>
    ensures { OnOk result (out.new.items ≡ out.old.items ++ cell_json cell.now) }
{
    put_text(alloc, out, cell.field.name())?;
    out.extend_from_slice(b":")?;
    put_value(alloc, out, &cell.value)
}

/// Puts a value behind what is written. Where memory is wanting, what was written is gone.
pub fn put_value(alloc: Global, out: &mut Vec<u8>, value: &Value) -> Result<(), NoMemory>
    ensures { OnOk result (out.new.items ≡ out.old.items ++ value_json value.now) }
{
    match value {
        Value::Text(text) => put_text(alloc, out, text.as_str()),
        Value::Number(number) => put_number(out, *number),
        Value::Flag(flag) => put_flag(out, *flag),
    }
}

/// Puts a text in quotes behind what is written. Where memory is wanting, what was written is gone.
pub fn put_text(alloc: Global, out: &mut Vec<u8>, text: &str) -> Result<(), NoMemory>
    ensures { OnOk result (out.new.items ≡ out.old.items ++ compact_text (string text.now)) }
{
    let mut writer = Writer::new(mem::replace(out, Vec::new(alloc)));
    writer.string(text)?;
    *out = writer.into_inner();
    Ok(())
}

/// Puts a number behind what is written.
pub fn put_number(out: &mut Vec<u8>, number: u64) -> Result<(), NoMemory>
    ensures { OnOk result (out.new.items ≡ out.old.items ++ decimal number) }
{
    let mut buffer = itoa::Buffer::new();
    out.extend_from_slice(buffer.format(number).as_bytes())?;
    Ok(())
}

fn put_flag(out: &mut Vec<u8>, flag: bool) -> Result<(), NoMemory>
    ensures { OnOk result (out.new.items ≡ out.old.items ++ compact_text (boolean flag)) }
{
    if flag {
        out.extend_from_slice(b"true")?;
    } else {
        out.extend_from_slice(b"false")?;
    }
    Ok(())
}

/// Puts a comma, unless nothing stands before.
pub fn put_comma(out: &mut Vec<u8>, before: usize) -> Result<(), NoMemory>
    ensures { OnOk result (out.new.items ≡ out.old.items ++ comma_after before) }
{
    if before > 0 {
        out.extend_from_slice(b",")?;
    }
    Ok(())
}
