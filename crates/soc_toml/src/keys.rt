//! A text, a bounded text, an integer in a range, and keys that aren't expected.
ghost use Rattle.std.specs.Prelude.{◌≡◌, IsTrue, map, option_map, option_copied};
ghost use Rattle.std.specs.List.{list_any, list_all};
ghost use Rattle.std.specs.Str.{bytes_eq};
ghost use Rattle.std.specs.Char.{is_ascii_graphic};
ghost use Rattle.toml.specs.Data.{get_member};
ghost use Rattle.toml.specs.View.{view, table_view};
ghost use Rattle.soc_toml.specs.Keys as spec;

use toml::{Table, Value};

/// The value at a key.
pub fn value_at<'a>(table: &'a Table, key: &str) -> Option<&'a Value>
    ensures { option_map (λ v. view v.now) result ≡ get_member key.now (table_view table.now) }
{
    table.get(key)
}

/// The text at a key. `None` where the key isn't there or holds no text.
pub fn text_at<'a>(table: &'a Table, key: &str) -> Option<&'a str>
    ensures { option_copied result ≡ spec.text_at key.now (table_view table.now) }
{
    match value_at(table, key) {
        Some(value) => value.as_str(),
        None => None,
    }
}

/// The text at a key, where it is 1 to `most` of `a` to `z`, digits and `_`.
pub fn name_at<'a>(table: &'a Table, key: &str, most: usize) -> Option<&'a str>
    ensures { option_copied result ≡ spec.name_at key.now most (table_view table.now) }
{
    let text = text_at(table, key)?;
    if is_name(text, most) {
        Some(text)
    } else {
        None
    }
}

/// The text at a key, where it is 1 to `most` visible ASCII characters.
pub fn visible_at<'a>(table: &'a Table, key: &str, most: usize) -> Option<&'a str>
    ensures { option_copied result ≡ spec.visible_at key.now most (table_view table.now) }
{
    let text = text_at(table, key)?;
    if is_visible(text, most) {
        Some(text)
    } else {
        None
    }
}

fn is_name(text: &str, most: usize) -> bool
    ensures { result ≡ spec.has_form spec.is_name_byte most text.now }
{
    1 <= text.len() && text.len() <= most && has_name_bytes(text.as_bytes())
}

fn has_name_bytes(bytes: &[u8]) -> bool
    ensures { result ≡ list_all spec.is_name_byte bytes.now }
{
    bytes.iter().all(|byte| is_name_character(*byte))
}

fn is_name_character(byte: u8) -> bool
    ensures { result ≡ spec.is_name_byte byte }
{
    byte.is_ascii_lowercase() || byte.is_ascii_digit() || byte == b'_'
}

fn is_visible(text: &str, most: usize) -> bool
    ensures { result ≡ spec.has_form is_ascii_graphic most text.now }
{
    1 <= text.len() && text.len() <= most && has_visible_bytes(text.as_bytes())
}

fn has_visible_bytes(bytes: &[u8]) -> bool
    ensures { result ≡ list_all is_ascii_graphic bytes.now }
{
    bytes.iter().all(|byte| byte.is_ascii_graphic())
}

/// The integer of a value, where it lies from `low` to `high`.
pub fn number_of(value: &Value, low: u64, high: u64) -> Option<u64>
    ensures { result ≡ spec.number_of low high (view value.now) }
{
    let number = u64::try_from(value.as_integer()?).ok()?;
    if low <= number && number <= high {
        Some(number)
    } else {
        None
    }
}

/// The integer at a key, where it lies from `low` to `high`; `default` where the key isn't there.
/// `None` where the key holds anything else.
pub fn number_or(table: &Table, key: &str, default: u64, low: u64, high: u64) -> Option<u64>
    ensures { result ≡ spec.number_or default low high (get_member key.now (table_view table.now)) }
{
    match value_at(table, key) {
        Some(value) => number_of(value, low, high),
        None => Some(default),
    }
}

/// The first key in byte order that is none of the names. A table holds its keys in that order.
pub fn first_other_key<'a>(table: &'a Table, names: &[&str]) -> Option<&'a str>
    ensures first { option_copied result
        ≡ spec.first_other (map (λ name. name.now) names.now) (table_view table.now) }
    ensures rising { IsTrue (spec.keys_rise (table_view table.now)) }
{
    for (key, _value) in table.iter() {
        if !is_among(key.as_str(), names) {
            return Some(key.as_str());
        }
    }
    None
}

fn is_among(key: &str, names: &[&str]) -> bool
    ensures { result ≡ list_any (λ name. bytes_eq key.now name.now) names.now }
{
    names.iter().any(|name| key == *name)
}
