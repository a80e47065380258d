//! What a case holds, key by key.
ghost use Rattle.std.specs.Prelude.{◌≡◌, Some, None, IfOk, IfErr};
ghost use Rattle.toml.specs.View.{table_view, view};
ghost use Rattle.soc_toml.specs.Keys as keys;
ghost use Rattle.soc_cases.specs.Keys as spec;

use crate::fault::Fault;
use hex::{FromHex, FromHexError};
use soc_base::{Blobs, Bytes, Text};
use soc_edge::Numbers;
use soc_toml::{number_or, text_at, value_at};
use std::alloc::Global;
use toml::value::Array;
use toml::{Table, Value};

/// What is drawn for each id where the case doesn't say it.
const ID_DRAW: [u8; 16] = *b"\xde\x1b\xb2\x58\xcb\xbf\x45\x89\xa6\x73\x34\xf8\0\0\0\0";

/// The numbers of the calls that fail, counted from 0. Without the key none does.
pub fn calls_of(alloc: Global, case: &Table, key: &'static str) -> Result<Numbers, Fault> {
    let mut calls = Vec::new(alloc);
    if let Some(value) = value_at(case, key) {
        let Some(items) = value.as_array() else {
            return Err(Fault::Wrong(key));
        };
        for item in items {
            calls.push(number_in(item, key)?)?;
        }
    }
    Ok(Numbers::new(calls))
}

/// The number at a key, or this one where the key isn't there.
pub fn number_of(case: &Table, key: &'static str, default: u64) -> Result<u64, Fault>
    ensures value { IfOk result (λ number.
        spec.number_at key.entry.now default (table_view case.now) ≡ Some number) }
    ensures wrong { IfErr result (λ _. spec.number_at key.entry.now default (table_view case.now)
        ≡ None) }
{
    number_or(case, key, default, 0, u64::MAX).ok_or(Fault::Wrong(key))
}

fn number_in(value: &Value, key: &'static str) -> Result<u64, Fault>
    ensures value { IfOk result (λ number. keys.number_of 0 spec.most (view value.now)
        ≡ Some number) }
    ensures wrong { IfErr result (λ _. keys.number_of 0 spec.most (view value.now) ≡ None) }
{
    soc_toml::number_of(value, 0, u64::MAX).ok_or(Fault::Wrong(key))
}

/// Whether a key holds true. Without the key it is false.
pub fn flag_of(case: &Table, key: &'static str) -> Result<bool, Fault>
    ensures value { IfOk result (λ flag. spec.flag_at key.entry.now (table_view case.now)
        ≡ Some flag) }
    ensures wrong { IfErr result (λ _. spec.flag_at key.entry.now (table_view case.now) ≡ None) }
{
    match value_at(case, key) {
        None => Ok(false),
        Some(value) => value.as_bool().ok_or(Fault::Wrong(key)),
    }
}

/// The text at a key.
pub fn text_of<'a>(case: &'a Table, key: &'static str) -> Result<&'a str, Fault>
    ensures value { IfOk result (λ text. keys.text_at key.entry.now (table_view case.now)
        ≡ Some text.now) }
    ensures wrong { IfErr result (λ _. keys.text_at key.entry.now (table_view case.now) ≡ None) }
{
    text_at(case, key).ok_or(Fault::Wrong(key))
}

/// The table at a key.
pub fn table_at<'a>(table: &'a Table, key: &'static str) -> Result<&'a Table, Fault> {
    match value_at(table, key) {
        Some(value) => value.as_table().ok_or(Fault::Wrong(key)),
        None => Err(Fault::Wrong(key)),
    }
}

/// The array at a key.
pub fn array_of<'a>(table: &'a Table, key: &'static str) -> Result<&'a Array, Fault> {
    match value_at(table, key) {
        Some(value) => value.as_array().ok_or(Fault::Wrong(key)),
        None => Err(Fault::Wrong(key)),
    }
}

/// The words of a run: `replay` where the case names none.
pub fn words_of(alloc: Global, case: &Table) -> Result<Vec<String>, Fault> {
    let mut words = Vec::new(alloc);
    match value_at(case, "words") {
        None => words.push(String::from_str(alloc, "replay")?)?,
        Some(_) => {
            for word in array_of(case, "words")? {
                let word = word.as_str().ok_or(Fault::Wrong("words"))?;
                words.push(String::from_str(alloc, word)?)?;
            }
        }
    }
    Ok(words)
}

/// The files of a tree by their names.
pub fn files_of(alloc: Global, case: &Table) -> Result<Blobs, Fault> {
    let mut files = Blobs::new(alloc);
    if value_at(case, "files").is_some() {
        for (name, text) in table_at(case, "files")?.iter() {
            let text = text.as_str().ok_or(Fault::Wrong("files"))?;
            set_file(alloc, &mut files, name.as_str(), text)?;
        }
    }
    Ok(files)
}

fn set_file(alloc: Global, files: &mut Blobs, name: &str, text: &str) -> Result<(), Fault> {
    let name = Text::of(alloc, name)?;
    files.set(name, Bytes::of(alloc, text.as_bytes())?)?;
    Ok(())
}

/// What is drawn for the ids.
pub fn ids_of(alloc: Global, case: &Table) -> Result<Vec<[u8; 16]>, Fault> {
    let mut ids = Vec::new(alloc);
    match value_at(case, "ids") {
        None => ids.push(ID_DRAW)?,
        Some(_) => {
            for item in array_of(case, "ids")? {
                let digits = item.as_str().ok_or(Fault::Wrong("ids"))?;
                let Ok(id) = <[u8; 16] as FromHex>::from_hex(digits) else {
                    return Err(Fault::Wrong("ids"));
                };
                ids.push(id)?;
            }
        }
    }
    Ok(ids)
}

/// The bytes that a key names, one after the other: each item is the name of one of the document's texts, or how many
/// zero bytes there are.
pub fn joined(
    alloc: Global,
    document: &Table,
    case: &Table,
    key: &'static str,
) -> Result<Vec<u8>, Fault> {
    let mut bytes = Vec::new(alloc);
    if value_at(case, key).is_some() {
        for item in array_of(case, key)? {
            match item.as_str() {
                Some(name) => append(alloc, &mut bytes, document, name)?,
                None => append_zeros(&mut bytes, number_in(item, key)?)?,
            }
        }
    }
    Ok(bytes)
}

/// Appends so many zero bytes.
fn append_zeros(bytes: &mut Vec<u8>, count: u64) -> Result<(), Fault> {
    for _ in 0..count {
        bytes.push(0)?;
    }
    Ok(())
}

/// Appends the text of a name, or the bytes of one in hexadecimal.
fn append(alloc: Global, bytes: &mut Vec<u8>, document: &Table, name: &str) -> Result<(), Fault> {
    if let Some(text) = text_at(table_at(document, "text")?, name) {
        bytes.extend_from_slice(text.as_bytes())?;
        return Ok(());
    }
    let Some(digits) = text_at(table_at(document, "hex")?, name) else {
        return Err(Fault::Wrong("text"));
    };
    match hex::decode(alloc, digits) {
        Ok(decoded) => bytes.extend_from_slice(&decoded)?,
        Err(FromHexError::OutOfMemory) => return Err(Fault::NoMemory),
        Err(_) => return Err(Fault::Wrong("hex")),
    }
    Ok(())
}
