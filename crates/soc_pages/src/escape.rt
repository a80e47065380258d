//! Texts within a page.
ghost use Rattle.std.specs.Prelude.{◌≡◌, ◌++◌, ◌∷◌, [], decimal, OnOk};
ghost use Rattle.std.specs.Option.{option_map_or};
ghost use Rattle.soc_schema.specs.Fields.{name_of};
ghost use Rattle.soc_pages.specs.Escape.{escape, escaped, shown};

use soc_base::NoMemory;
use soc_raw::CrashId;
use soc_schema::{Field, Value};

/// Adds a text, in which no character opens a tag, a reference or a quoted value.
#[tactic(auto, unfolding(crate::specs::Escape::escaped))]
pub(crate) fn put_text(out: &mut Vec<u8>, text: &str) -> Result<(), NoMemory>
    ensures { OnOk result (out.new.items ≡ out.old.items ++ escaped text.now) }
{
    for byte in text.as_bytes() {
        match escape_of(*byte) {
            Some(escape) => out.extend_from_slice(escape)?,
            None => out.push(*byte)?,
        }
    }
    Ok(())
}

/// What stands for a byte, where that isn't the byte itself.
fn escape_of(byte: u8) -> Option<&'static [u8]>
    ensures { option_map_or (λ text. text.now) result (byte ∷ []) ≡ escape byte }
{
    match byte {
        b'&' => Some(b"&amp;"),
        b'<' => Some(b"&lt;"),
        b'>' => Some(b"&gt;"),
        b'"' => Some(b"&quot;"),
        b'\'' => Some(b"&#39;"),
        _ => None,
    }
}

/// Adds a field's name.
pub(crate) fn put_name(out: &mut Vec<u8>, field: Field) -> Result<(), NoMemory>
    ensures { OnOk result (out.new.items ≡ out.old.items ++ escaped (name_of field)) }
{
    put_text(out, field.name())
}

/// Adds a crash's id.
pub(crate) fn put_id(out: &mut Vec<u8>, id: CrashId) -> Result<(), NoMemory>
    ensures { OnOk result (out.new.items ≡ out.old.items ++ escaped id) }
{
    put_text(out, id.as_str())
}

/// Adds a value: a text, a decimal, `true` or `false`.
pub(crate) fn put_value(out: &mut Vec<u8>, value: &Value) -> Result<(), NoMemory>
    ensures { OnOk result (out.new.items ≡ out.old.items ++ shown value.now) }
{
    match value {
        Value::Text(text) => put_text(out, text.as_str()),
        Value::Number(number) => put_number(out, *number),
        Value::Flag(true) => put(out, b"true"),
        Value::Flag(false) => put(out, b"false"),
    }
}

/// Adds a decimal.
pub(crate) fn put_number(out: &mut Vec<u8>, number: u64) -> Result<(), NoMemory>
    ensures { OnOk result (out.new.items ≡ out.old.items ++ decimal number) }
{
    let mut buffer = itoa::Buffer::new();
    out.extend_from_slice(buffer.format(number).as_bytes())?;
    Ok(())
}

/// Adds markup.
pub(crate) fn put(out: &mut Vec<u8>, markup: &[u8]) -> Result<(), NoMemory>
    ensures { OnOk result (out.new.items ≡ out.old.items ++ markup.now) }
{
    out.extend_from_slice(markup)?;
    Ok(())
}
