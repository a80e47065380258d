//! Keys of a TOML table.
use soc_base::TextList;
use soc_tables::{Fault, Row, append, copy, number_at, word};
use soc_toml::{
    first_other_key, is_table_array, is_text, name_at, number_of, number_or, text_at, texts_of,
    texts_within, value_at, visible_at,
};
use std::alloc::Global;
use toml::{Table, Value};

/// What a call gives for a key of a document.
pub fn key(alloc: Global, row: &Row<'_>) -> Result<String, Fault> {
    let document = row.text(alloc, "document")?;
    let table = toml::table_from_str(alloc, document.as_str())?;
    key_answer(alloc, &table, row.cell("call")?, row.cell("key")?)
}

fn key_answer(alloc: Global, table: &Table, call: &str, key: &str) -> Result<String, Fault> {
    let text = match word(call, 0) {
        "text_at" => text_at(table, key),
        "name_at" => name_at(table, key, number_at(call, 1)? as usize),
        "visible_at" => visible_at(table, key, number_at(call, 1)? as usize),
        _ => return number_answer(alloc, table, call, key),
    };
    Ok(format!(in alloc; "{text:?}")?)
}

fn number_answer(alloc: Global, table: &Table, call: &str, key: &str) -> Result<String, Fault> {
    if word(call, 0) == "number_or" {
        let (default, low, high) = (
            number_at(call, 1)?,
            number_at(call, 2)?,
            number_at(call, 3)?,
        );
        return Ok(format!(in alloc; "{:?}", number_or(table, key, default, low, high))?);
    }
    match value_at(table, key) {
        Some(value) => value_answer(alloc, value, call),
        None => copy(alloc, "no value"),
    }
}

fn value_answer(alloc: Global, value: &Value, call: &str) -> Result<String, Fault> {
    match word(call, 0) {
        "value_at" => copy(alloc, "a value"),
        "number_of" => number_text(alloc, value, call),
        "texts_of" => list_text(alloc, texts_of(alloc, value)?),
        "texts_within" => list_text(
            alloc,
            texts_within(alloc, value, number_at(call, 1)? as usize)?,
        ),
        "is_text" => Ok(format!(in alloc; "{}", is_text(value, word(call, 1)))?),
        "is_table_array" => arrays_text(alloc, value, call),
        _ => Err(Fault::new("no call")),
    }
}

fn number_text(alloc: Global, value: &Value, call: &str) -> Result<String, Fault> {
    Ok(format!(in alloc;
        "{:?}",
        number_of(value, number_at(call, 1)?, number_at(call, 2)?)
    )?)
}

fn arrays_text(alloc: Global, value: &Value, call: &str) -> Result<String, Fault> {
    Ok(format!(in alloc; "{}", is_table_array(value, number_at(call, 1)? as usize))?)
}

fn list_text(alloc: Global, list: Option<TextList>) -> Result<String, Fault> {
    let Some(list) = list else {
        return copy(alloc, "None");
    };
    let mut text = String::new(alloc);
    for item in &list {
        append(&mut text, item)?;
    }
    Ok(text)
}

/// The first key of a document that is not among these.
pub fn other_key(alloc: Global, row: &Row<'_>) -> Result<String, Fault> {
    let document = row.text(alloc, "document")?;
    let table = toml::table_from_str(alloc, document.as_str())?;
    other_answer(alloc, &table, row.cell("keys")?)
}

fn other_answer(alloc: Global, table: &Table, keys: &str) -> Result<String, Fault> {
    let mut names = Vec::new(alloc);
    for name in keys.split(';') {
        names.push(name.trim())?;
    }
    Ok(format!(in alloc; "{:?}", first_other_key(table, names.as_slice()))?)
}
