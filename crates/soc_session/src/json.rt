//! What is answered as JSON (RFC 8259), compact, with names in byte order.
ghost use Rattle.std.specs.Prelude.{◌≡◌, ◌++◌, filter, IfOk, OnOk};
ghost use Rattle.soc_schema.specs.Commas.{joined};
ghost use Rattle.soc_schema.specs.Fields.{field_entry, field_table};
ghost use Rattle.soc_schema.specs.Permits.{holds};
ghost use Rattle.soc_session.specs.Json.{annotation_json, annotations_json, count_json, counts_json, field_json, fields_json, kind_name};

use soc_base::{Bytes, NoMemory, Texts};
use soc_desk::Counts;
use soc_schema::{Caller, Field, FieldKind, granted, put_comma, put_number, put_text};
use std::alloc::Global;

/// An object of the annotations' names and values.
pub(crate) fn annotations_json(alloc: Global, annotations: &Texts) -> Result<Bytes, NoMemory>
    ensures { IfOk result (λ text. text ≡ annotations_json annotations.now) }
{
    let mut out = Vec::new(alloc);
    put(&mut out, "{")?;
    put_annotations(alloc, &mut out, annotations)?;
    put(&mut out, "}")?;
    Ok(Bytes::from(out))
}

fn put_annotations(alloc: Global, out: &mut Vec<u8>, annotations: &Texts) -> Result<(), NoMemory>
    ensures { OnOk result (out.new.items ≡ out.old.items
        ++ joined annotation_json annotations.now) }
{
    for i in 0..annotations.len() {
        let (name, value) = annotations.at(i);
        put_comma(out, i)?;
        put_annotation(alloc, out, name, value)?;
    }
    Ok(())
}

fn put_annotation(alloc: Global, out: &mut Vec<u8>, name: &str, value: &str) -> Result<(), NoMemory>
    ensures { OnOk result (out.new.items ≡ out.old.items ++ annotation_json (name.now, value.now)) }
{
    put_text(alloc, out, name)?;
    put(out, ":")?;
    put_text(alloc, out, value)
}

/// An object of the fields that the caller may see, each with its kind and what it takes to see it.
pub(crate) fn fields_json(alloc: Global, caller: &Caller) -> Result<Bytes, NoMemory>
    ensures { IfOk result (λ text. text ≡ fields_json caller.now) }
{
    let mut out = Vec::new(alloc);
    put(&mut out, "{")?;
    put_fields(&mut out, caller)?;
    put(&mut out, "}")?;
    Ok(Bytes::from(out))
}

fn put_fields(out: &mut Vec<u8>, caller: &Caller) -> Result<(), NoMemory>
    ensures { OnOk result (out.new.items ≡ out.old.items
        ++ joined field_json (filter (λ field. holds caller.now.permissions field.permission)
        field_table)) }
{
    let mut count = 0;
    for place in 0..Field::COUNT {
        let field = Field::at(place);
        if granted(caller, field) {
            put_comma(out, count)?;
            put_field(out, field)?;
            count += 1;
        }
    }
    Ok(())
}

fn put_field(out: &mut Vec<u8>, field: Field) -> Result<(), NoMemory>
    ensures { OnOk result (out.new.items ≡ out.old.items ++ field_json (field_entry field)) }
{
    put(out, "\"")?;
    put(out, field.name())?;
    put(out, "\":{\"kind\":\"")?;
    put(out, kind_name(field.kind()))?;
    put(out, "\",\"permission\":\"")?;
    put(out, field.permission().name())?;
    put(out, "\"}")?;
    Ok(())
}

fn kind_name(kind: FieldKind) -> &'static str
    ensures { result.now ≡ kind_name kind }
{
    match kind {
        FieldKind::Text => "text",
        FieldKind::Number => "number",
        FieldKind::Flag => "flag",
    }
}

/// An object of what a log has, counted.
pub(crate) fn counts_json(alloc: Global, counts: Counts) -> Result<Bytes, NoMemory>
    ensures { IfOk result (λ text. text ≡ counts_json counts) }
{
    let mut out = Vec::new(alloc);
    put_counts(&mut out, counts)?;
    Ok(Bytes::from(out))
}

fn put_counts(out: &mut Vec<u8>, counts: Counts) -> Result<(), NoMemory>
    ensures { OnOk result (out.new.items ≡ out.old.items ++ counts_json counts) }
{
    put_count(out, "{\"asks\":", counts.asks)?;
    put_short_count(out, ",\"crashes\":", counts.crashes)?;
    put_short_count(out, ",\"due\":", counts.due)?;
    put_count(out, ",\"journal_size\":", counts.journal_size)?;
    put_short_count(out, ",\"reports\":", counts.reports)?;
    put_short_count(out, ",\"withdrawn\":", counts.withdrawn)?;
    put(out, "}")?;
    Ok(())
}

/// A number behind this text.
fn put_count(out: &mut Vec<u8>, front: &str, count: u64) -> Result<(), NoMemory>
    ensures { OnOk result (out.new.items ≡ out.old.items ++ count_json front.now count) }
{
    put(out, front)?;
    put_number(out, count)
}

fn put_short_count(out: &mut Vec<u8>, front: &str, count: u32) -> Result<(), NoMemory>
    ensures { OnOk result (out.new.items ≡ out.old.items ++ count_json front.now count) }
{
    put_count(out, front, u64::from(count))
}

fn put(out: &mut Vec<u8>, text: &str) -> Result<(), NoMemory>
    ensures { OnOk result (out.new.items ≡ out.old.items ++ text.now) }
{
    out.extend_from_slice(text.as_bytes())?;
    Ok(())
}
