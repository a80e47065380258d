//! What the parts of a form add up to: annotations and dumps.
ghost use Rattle.std.specs.Prelude.{◌≡◌, IfOk};
ghost use Rattle.soc_forms.specs.Fields.{dump_step, dumps_of, is_dump, is_extra, is_plain, no_fields, plain_fields, plain_step, put};
ghost use Rattle.soc_forms.specs.inner.FieldViews.{fields_text};
ghost use Rattle.soc_multipart.specs.OwnedViews.{owned_text, owned_texts};

use soc_base::{Blobs, NoMemory, Text, Texts};
use soc_multipart::{OwnedPart, lossy_text};
use std::alloc::Global;

/// The fields of a form.
#[derive(Debug, Drop)]
pub struct Fields {
    /// The value of `uuid`, the id that the reporter sent.
    pub sent: Option<Text>,
    /// The annotations, without `uuid`.
    pub annotations: Texts,
}

/// No fields yet.
pub fn no_fields(alloc: Global) -> Fields
    ensures { fields_text result ≡ no_fields }
{
    Fields {
        sent: None,
        annotations: Texts::new(alloc),
    }
}

/// What the plain parts say.
pub fn plain_fields(alloc: Global, parts: &[OwnedPart]) -> Result<Fields, NoMemory>
    ensures { IfOk result (λ fields. fields_text fields ≡ plain_fields (owned_texts parts.now)) }
{
    let mut fields = no_fields(alloc);
    for part in parts {
        fields = plain_step(alloc, fields, part)?;
    }
    Ok(fields)
}

fn plain_step(alloc: Global, fields: Fields, part: &OwnedPart) -> Result<Fields, NoMemory>
    ensures { IfOk result (λ new. fields_text new
        ≡ plain_step (fields_text fields) (owned_text part.now)) }
{
    if !is_plain(part) {
        return Ok(fields);
    }
    let value = lossy_text(alloc, part.content.as_slice())?;
    let new = put(alloc, fields, part.name.as_str(), value)?;
    Ok(new)
}

/// The fields with this value of the name, in place of the one that it had.
pub fn put(alloc: Global, fields: Fields, name: &str, value: Text) -> Result<Fields, NoMemory>
    ensures { IfOk result (λ new. fields_text new ≡ put (fields_text fields) name.now value) }
{
    let Fields {
        sent,
        mut annotations,
    } = fields;
    if name == "uuid" {
        return Ok(Fields {
            sent: Some(value),
            annotations,
        });
    }
    annotations.set(Text::of(alloc, name)?, value)?;
    Ok(Fields { sent, annotations })
}

/// The dumps of the parts, by their names.
pub fn dumps_of(alloc: Global, parts: Vec<OwnedPart>) -> Result<Blobs, NoMemory>
    ensures { IfOk result (λ dumps. dumps ≡ dumps_of (owned_texts parts.items)) }
{
    let mut dumps = Blobs::new(alloc);
    for part in parts {
        dumps = dump_step(dumps, part)?;
    }
    Ok(dumps)
}

fn dump_step(dumps: Blobs, part: OwnedPart) -> Result<Blobs, NoMemory>
    ensures { IfOk result (λ new. new ≡ dump_step dumps (owned_text part)) }
{
    let mut new = dumps;
    if !is_dump(&part) {
        return Ok(new);
    }
    let OwnedPart {
        name,
        file: _,
        kind: _,
        content,
    } = part;
    new.set(name, content)?;
    Ok(new)
}

/// Whether the part is a JSON part.
pub fn is_extra(part: &OwnedPart) -> bool
    ensures { result ≡ is_extra (owned_text part.now) }
{
    let name = part.name.as_str().as_bytes();
    let kind = part.kind.as_str().as_bytes();
    name == b"extra".as_slice() && kind.starts_with(b"application/json")
}

fn is_dump(part: &OwnedPart) -> bool
    ensures { result ≡ is_dump (owned_text part.now) }
{
    !is_extra(part) && part.file.is_some()
}

/// Whether the part is a plain one.
pub fn is_plain(part: &OwnedPart) -> bool
    ensures { result ≡ is_plain (owned_text part.now) }
{
    !is_extra(part) && part.file.is_none()
}
