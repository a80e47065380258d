//! Arrays of texts and of tables, and a word in place of one.
ghost use Rattle.std.specs.Prelude.{◌≡◌, IfOk, option_map, option_and_then};
ghost use Rattle.toml.specs.View.{view, array_view};
ghost use Rattle.toml.specs.Data.{as_array};
ghost use Rattle.soc_toml.specs.Lists as spec;

use soc_base::{NoMemory, Text, TextList};
use std::alloc::Global;
use toml::Value;
use toml::value::Array;

/// Whether the value is this text.
pub fn is_text(value: &Value, text: &str) -> bool
    ensures { result ≡ spec.is_text text.now (view value.now) }
{
    match value.as_str() {
        Some(other) => other == text,
        None => false,
    }
}

/// The texts of an array of texts. `None` for any other value.
pub fn texts_of(alloc: Global, value: &Value) -> Result<Option<TextList>, NoMemory>
    ensures { IfOk result (λ texts. texts ≡ spec.texts_of (view value.now)) }
{
    match value.as_array() {
        Some(array) => texts_among(alloc, array),
        None => Ok(None),
    }
}

/// The texts of an array of at most `most` texts. `None` for any other value.
pub fn texts_within(alloc: Global, value: &Value, most: usize) -> Result<Option<TextList>, NoMemory>
    ensures { IfOk result (λ texts. texts ≡ spec.texts_within most (view value.now)) }
{
    match array_within(value, most) {
        Some(array) => texts_among(alloc, array),
        None => Ok(None),
    }
}

fn array_within(value: &Value, most: usize) -> Option<&Array>
    ensures { option_map (λ array. array_view array.now) result
        ≡ option_and_then (spec.within most) (as_array (view value.now)) }
{
    let array = value.as_array()?;
    if array.len() <= most {
        Some(array)
    } else {
        None
    }
}

fn texts_among(alloc: Global, array: &Array) -> Result<Option<TextList>, NoMemory>
    ensures { IfOk result (λ texts. texts ≡ spec.texts_among (array_view array.now)) }
{
    let mut texts = TextList::new(alloc);
    for value in array {
        match value.as_str() {
            Some(text) => texts.push(Text::of(alloc, text)?)?,
            None => return Ok(None),
        }
    }
    Ok(Some(texts))
}

/// Whether the value is an array of at most `most` tables.
pub fn is_table_array(value: &Value, most: usize) -> bool
    ensures { result ≡ spec.is_table_array most (view value.now) }
{
    match array_within(value, most) {
        Some(array) => are_tables(array),
        None => false,
    }
}

fn are_tables(array: &Array) -> bool
    ensures { result ≡ spec.all_tables (array_view array.now) }
{
    for value in array {
        if !value.is_table() {
            return false;
        }
    }
    true
}
