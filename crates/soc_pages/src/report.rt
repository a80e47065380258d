//! The page of a report.
ghost use Rattle.std.specs.Prelude.{◌≡◌, ◌++◌, IfOk, OnOk};
ghost use Rattle.std.specs.List.{flat_map};
ghost use Rattle.soc_schema.specs.Rows.{cell};
ghost use Rattle.soc_pages.specs.Pages.{field_row, report_page};

use crate::escape::{put, put_id, put_name, put_value};
use soc_base::{Bytes, NoMemory};
use soc_raw::CrashId;
use soc_schema::{Field, Row, Value};
use std::alloc::Global;

/// The page of a crash's report: a table with a row for each field of `view`, in the order of the table of fields.
pub fn report_page(alloc: Global, id: CrashId, view: &Row) -> Result<Bytes, NoMemory>
    ensures { IfOk result (λ page. page ≡ report_page id view.now) }
{
    let mut out = Vec::new(alloc);
    put(&mut out, b"<!DOCTYPE html>\n<title>")?;
    put_id(&mut out, id)?;
    put(&mut out, b"</title>\n<table>\n")?;
    put_fields(&mut out, view)?;
    put(&mut out, b"</table>\n")?;
    Ok(Bytes::from(out))
}

fn put_fields(out: &mut Vec<u8>, row: &Row) -> Result<(), NoMemory>
    ensures { OnOk result (out.new.items ≡ out.old.items ++ flat_map field_row row.now) }
{
    for (field, value) in row {
        put_field(out, field, value)?;
    }
    Ok(())
}

fn put_field(out: &mut Vec<u8>, field: Field, value: &Value) -> Result<(), NoMemory>
    ensures { OnOk result (out.new.items ≡ out.old.items ++ field_row (cell field value.now)) }
{
    put(out, b"<tr><th>")?;
    put_name(out, field)?;
    put(out, b"</th><td>")?;
    put_value(out, value)?;
    put(out, b"</td></tr>\n")?;
    Ok(())
}
