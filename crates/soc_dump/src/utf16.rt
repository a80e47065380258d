//! Paths in UTF-16, the lower byte of each unit first.
ghost use Rattle.std.specs.Prelude.{◌≡◌, ◌+◌, ◌*◌, ◌<◌, ◌≤◌, length, not, slice_index, IfOk};
ghost use Rattle.std.specs.List.{suffix_len};
ghost use Rattle.soc_text.specs.Paths.{is_separator, base_name_of};
ghost use Rattle.soc_dump.specs.Entries.{file_name_of, units};

use byteorder::{ByteOrder, LittleEndian};
use soc_base::{NoMemory, Text};
use std::alloc::Global;

/// The unit at an index.
fn unit_at(path: &[u8], index: usize) -> u16
    requires { index * 2 + 1 < length path.now }
    ensures { result ≡ slice_index (units path.now) index }
{
    LittleEndian::read_u16(&path[index * 2..])
}

/// Whether a unit parts the names of a path.
fn is_separator(unit: u16) -> bool
    ensures { result ≡ is_separator unit }
{
    unit == 0x2F || unit == 0x5C
}

/// The index of the unit with which a path's file name begins.
fn name_start(path: &[u8]) -> usize
    ensures bound { result * 2 ≤ length path.now }
    ensures value { result + suffix_len (λ unit. not (is_separator unit)) (units path.now)
        ≡ length (units path.now) }
{
    let mut start = path.len() / 2;
    while start > 0 {
        if is_separator(unit_at(path, start - 1)) {
            return start;
        }
        start -= 1;
    }
    start
}

/// The bytes of a path's file name.
pub fn name_part(path: &[u8]) -> &[u8]
    ensures { units result.now ≡ base_name_of (units path.now) }
{
    &path[name_start(path) * 2..]
}

/// All units.
fn units_of(alloc: Global, bytes: &[u8]) -> Result<Vec<u16>, NoMemory>
    ensures { IfOk result (λ found. found.items ≡ units bytes.now) }
{
    let count = bytes.len() / 2;
    let mut found = Vec::with_capacity(alloc, count)?;
    for index in 0..count {
        found.push(unit_at(bytes, index))?;
    }
    Ok(found)
}

/// A path's file name as text. A surrogate without its partner becomes U+FFFD.
pub fn file_name(alloc: Global, path: &[u8]) -> Result<Text, NoMemory>
    ensures { IfOk result (λ text. text ≡ file_name_of path.now) }
{
    let found = units_of(alloc, name_part(path))?;
    Ok(Text::from(String::from_utf16_lossy(alloc, found.as_slice())?))
}
