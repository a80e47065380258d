//! The JSON part of a form.
ghost use Rattle.std.specs.Prelude.{◌≡◌, false, IfOk};
ghost use Rattle.serde_json.specs.View.{items_view, members_view, view};
ghost use Rattle.serde_json.specs.Written.{has_float, items_have_float, members_have_float};
ghost use Rattle.soc_forms.specs.Extras.{text_of, with_members};
ghost use Rattle.soc_forms.specs.inner.ExtraViews.{ShowsExtra};
ghost use Rattle.soc_forms.specs.inner.FieldViews.{fields_text};

use crate::fields::{Fields, put};
use serde_json::{Map, Value};
use soc_base::{NoMemory, Text};
use soc_multipart::OwnedPart;
use std::alloc::Global;

/// The object that the JSON part is the text of, where no number in it is a float.
pub fn extra_of(alloc: Global, part: &OwnedPart) -> Result<Option<Value>, NoMemory>
    ensures { IfOk result (ShowsExtra part.now.content) }
{
    read_extra(alloc, part.content.as_slice())
}

/// The object that the bytes are the text of, where no number in it is a float.
fn read_extra(alloc: Global, content: &[u8]) -> Result<Option<Value>, NoMemory>
    ensures { IfOk result (ShowsExtra content.now) }
{
    let Ok(text) = str::from_utf8(content) else {
        return Ok(None);
    };
    let value = match Value::from_str(alloc, text) {
        Ok(value) => value,
        Err(error) => {
            if error.is_memory() {
                return Err(NoMemory);
            }
            return Ok(None);
        }
    };
    if !value.is_object() {
        return Ok(None);
    }
    if has_float(&value) {
        return Ok(None);
    }
    Ok(Some(value))
}

/// The fields with each member of the object.
pub fn with_members(
    alloc: Global,
    fields: Fields,
    members: &Map<String, Value>,
) -> Result<Fields, NoMemory>
    requires { members_have_float (members_view members.now.entries) ≡ false }
    ensures { IfOk result (λ new. fields_text new
        ≡ with_members (fields_text fields) (members_view members.now.entries)) }
{
    let mut new = fields;
    for (key, member) in members.iter() {
        let value = member_text(alloc, member)?;
        new = put(alloc, new, key.as_str(), value)?;
    }
    Ok(new)
}

fn member_text(alloc: Global, value: &Value) -> Result<Text, NoMemory>
    requires { has_float (view value.now) ≡ false }
    ensures { IfOk result (λ text. text ≡ text_of (view value.now)) }
{
    match value.as_str() {
        Some(text) => {
            let text = Text::of(alloc, text)?;
            Ok(text)
        }
        None => {
            let text = value.to_string(alloc)?;
            Ok(Text::from(text))
        }
    }
}

/// Whether a number in the value is a float.
#[cycle(floats)]
fn has_float(value: &Value) -> bool
    ensures { result ≡ has_float (view value.now) }
{
    match value {
        Value::Null => false,
        Value::Bool(_) => false,
        Value::Number(number) => number.is_f64(),
        Value::String(_) => false,
        Value::Array(items) => items_have_float(items),
        Value::Object(members) => members_have_float(members),
    }
}

#[cycle(floats)]
fn items_have_float(items: &Vec<Value>) -> bool
    ensures { result ≡ items_have_float (items_view items.now.items) }
{
    for item in items {
        if has_float(item) {
            return true;
        }
    }
    false
}

#[cycle(floats)]
fn members_have_float(members: &Map<String, Value>) -> bool
    ensures { result ≡ members_have_float (members_view members.now.entries) }
{
    for (_key, member) in members.iter() {
        if has_float(member) {
            return true;
        }
    }
    false
}
