// A number for each value, by which values are told apart without a look behind a pointer.
ghost use Rattle.std.specs.Prelude.{◌≡◌, slice_index_or};
ghost use Rattle.soc_store.specs.inner.Keys.{key_of, packed};

use soc_schema::Value;

/// How many bytes of a text are in its key.
const BYTES: usize = 7;

/// Numbers' keys begin here, above those of texts.
const NUMBERS: u64 = 1 << 56;

/// Flags' keys begin here, above those of numbers.
const FLAGS: u64 = 1 << 57;

/// The value's key. Of two values with different keys that with the lower one is the lower.
pub(crate) fn key_of(value: &Value) -> u64
    ensures { result ≡ key_of value.now }
{
    match value {
        Value::Text(text) => packed(text.as_str().as_bytes()),
        Value::Number(number) => NUMBERS + (*number).min(NUMBERS - 1),
        Value::Flag(flag) => FLAGS + u64::from(*flag),
    }
}

/// The first bytes as one number.
fn packed(bytes: &[u8]) -> u64
    ensures { result ≡ packed 0 7 bytes.now }
{
    let mut key = 0;
    for i in 0..BYTES {
        key = key * 256 + u64::from(byte_at(bytes, i));
    }
    key
}

/// The byte at `i`, or else 0.
fn byte_at(bytes: &[u8], i: usize) -> u8
    ensures { result ≡ slice_index_or bytes.now i 0 }
{
    if i < bytes.len() { bytes[i] } else { 0 }
}
