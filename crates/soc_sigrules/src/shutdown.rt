//! What a shutdown that hangs says of itself.
ghost use Rattle.std.specs.Prelude.{◌≡◌, IfOk, option_map};
ghost use Rattle.serde_json.specs.View.{view, items_view};
ghost use Rattle.soc_sigrules.specs.Shutdown.{json_of, text_at, conditions_of, name_of, names_of, names_text, described, shutdown_text};

use crate::joins::join;
use serde_json::Value;
use soc_base::{NoMemory, Text, TextList};
use std::alloc::Global;

/// What every such text begins with.
const FRONT: &str = "AsyncShutdownTimeout | ";

/// The most bytes of a text that is read.
const JSON_LIMIT: usize = 65_536;

const UNKNOWN: &str = "UNKNOWN";

const NO_NAMES: &str = "(none)";

/// What stands between names.
const COMMA: &str = ", ";

/// The text of a member.
fn text_at<'a>(value: &'a Value, key: &str) -> Option<&'a str>
    ensures { option_map (λ text. text.now) result ≡ text_at key.now (view value.now) }
{
    value.get(key)?.as_str()
}

/// What is waited for.
fn conditions_of(value: &Value) -> Option<&Vec<Value>>
    ensures { option_map (λ conditions. items_view conditions.now.items) result
        ≡ conditions_of (view value.now) }
{
    value.get("conditions")?.as_array()
}

/// The name of what is waited for: a text, or an object with a text `name`.
fn name_of(condition: &Value) -> Option<&str>
    ensures { option_map (λ name. name.now) result ≡ name_of (view condition.now) }
{
    match condition.as_str() {
        Some(name) => Some(name),
        None => text_at(condition, "name"),
    }
}

/// The names of all that is waited for, where each has one.
fn names_of(alloc: Global, conditions: &Vec<Value>) -> Result<Option<TextList>, NoMemory>
    ensures { IfOk result (λ names. names ≡ names_of (items_view conditions.now.items)) }
{
    let mut names = TextList::new(alloc);
    for condition in conditions {
        let Some(name) = name_of(condition) else {
            return Ok(None);
        };
        names.push(Text::of(alloc, name)?)?;
    }
    Ok(Some(names))
}

fn names_text(alloc: Global, names: &TextList) -> Result<Text, NoMemory>
    ensures { IfOk result (λ text. text ≡ names_text names.now) }
{
    if names.is_empty() {
        Text::of(alloc, NO_NAMES)
    } else {
        join(alloc, COMMA, names)
    }
}

/// The phase and the names, where the value has both.
fn described(alloc: Global, value: &Value) -> Result<Option<Text>, NoMemory>
    ensures { IfOk result (λ text. text ≡ described (view value.now)) }
{
    let Some(phase) = text_at(value, "phase") else {
        return Ok(None);
    };
    let Some(conditions) = conditions_of(value) else {
        return Ok(None);
    };
    let Some(names) = names_of(alloc, conditions)? else {
        return Ok(None);
    };
    let names = names_text(alloc, &names)?;
    let names = names.as_str();
    Ok(Some(Text::from(format!(in alloc; "{phase} | {names}")?)))
}

/// The value that the text stands for in JSON, where it isn't too long.
fn read_json(alloc: Global, text: &str) -> Result<Option<Value>, NoMemory>
    ensures { IfOk result (λ value. option_map view value ≡ json_of text.now) }
{
    if text.len() > JSON_LIMIT {
        return Ok(None);
    }
    match Value::from_str(alloc, text) {
        Ok(value) => Ok(Some(value)),
        Err(error) => {
            if error.is_memory() {
                Err(NoMemory)
            } else {
                Ok(None)
            }
        }
    }
}

/// A signature that tells only of the shutdown.
pub fn shutdown_text(alloc: Global, text: &str) -> Result<Text, NoMemory>
    ensures { IfOk result (λ new. new ≡ shutdown_text text.now) }
{
    let description = match read_json(alloc, text)? {
        Some(value) => described(alloc, &value)?,
        None => None,
    };
    let description = match &description {
        Some(text) => text.as_str(),
        None => UNKNOWN,
    };
    Ok(Text::from(format!(in alloc; "{FRONT}{description}")?))
}
