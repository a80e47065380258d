//! Members of JSON objects (RFC 8259), each put behind what is written.
ghost use Rattle.std.specs.Prelude.{◌≡◌, ◌++◌, OnOk};
ghost use Rattle.std.specs.Option.{option_copied};
ghost use Rattle.soc_report.specs.StackText as spec;

use crate::value::cut_text;
use soc_base::{NoMemory, Text};
use soc_schema::{put_number, put_text};
use std::alloc::Global;

/// A text that is owned.
pub fn text_in(text: &Option<Text>) -> Option<&str>
    ensures { option_copied result ≡ text.now }
{
    match text {
        Some(text) => Some(text.as_str()),
        None => None,
    }
}

/// The text as it is.
pub fn put(out: &mut Vec<u8>, text: &str) -> Result<(), NoMemory>
    ensures { OnOk result (out.new.items ≡ out.old.items ++ text.now) }
{
    out.extend_from_slice(text.as_bytes())?;
    Ok(())
}

#[tactic(auto, unfolding(crate::specs::StackText::place_json))]
fn put_place(alloc: Global, out: &mut Vec<u8>, place: u64) -> Result<(), NoMemory>
    ensures { OnOk result (out.new.items ≡ out.old.items ++ spec.place_json place) }
{
    let json = format!(in alloc; "\"0x{place:x}\"")?;
    put(out, json.as_str())
}

#[tactic(auto, unfolding(crate::specs::StackText::text_json))]
fn put_string(alloc: Global, out: &mut Vec<u8>, text: &str) -> Result<(), NoMemory>
    ensures { OnOk result (out.new.items ≡ out.old.items ++ spec.text_json text.now) }
{
    put_text(alloc, out, cut_text(text))
}

/// A name with what stands around it, and a text up to 1,024 bytes, or `null`.
pub fn text_member(
    alloc: Global,
    out: &mut Vec<u8>,
    name: &str,
    text: Option<&str>,
) -> Result<(), NoMemory>
    ensures { OnOk result (out.new.items ≡ out.old.items
        ++ (name.now ++ spec.or_null spec.text_json (option_copied text.entry))) }
{
    put(out, name)?;
    match text {
        Some(text) => put_string(alloc, out, text),
        None => put(out, "null"),
    }
}

/// A name with what stands around it, and a number or `null`.
pub fn number_member(out: &mut Vec<u8>, name: &str, number: Option<u64>) -> Result<(), NoMemory>
    ensures { OnOk result (out.new.items ≡ out.old.items
        ++ (name.now ++ spec.or_null spec.number_json number)) }
{
    put(out, name)?;
    match number {
        Some(number) => put_number(out, number),
        None => put(out, "null"),
    }
}

/// A name with what stands around it, and an address or offset, or `null`.
pub fn place_member(
    alloc: Global,
    out: &mut Vec<u8>,
    name: &str,
    place: Option<u64>,
) -> Result<(), NoMemory>
    ensures { OnOk result (out.new.items ≡ out.old.items
        ++ (name.now ++ spec.or_null spec.place_json place)) }
{
    put(out, name)?;
    match place {
        Some(place) => put_place(alloc, out, place),
        None => put(out, "null"),
    }
}
