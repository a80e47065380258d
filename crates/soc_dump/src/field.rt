//! Numbers in a structure, the lowest byte first.
ghost use Rattle.std.specs.Prelude.{◌≡◌, ◌+◌, ◌<◌, ◌≤◌, ◌^◌, length};
ghost use Rattle.soc_dump.specs.Number.{number_of};

use byteorder::{ByteOrder, LittleEndian};

/// A number of a structure: where its bytes begin there, and how many they are.
#[derive(Clone, Copy, Debug, PartialEq, Eq)]
pub struct Field {
    /// The first byte's offset.
    pub offset: usize,
    /// How many bytes the number has.
    pub width: usize,
}

/// A field by its offset and its width.
macro_rules! field {
    ($offset:literal, $width:literal) => {
        Field {
            offset: $offset,
            width: $width,
        }
    };
}

pub(crate) use field;

/// The number of a field of at most eight bytes.
pub fn wide(structure: &[u8], field: Field) -> u64
    requires some { 1 ≤ field.width }
    requires fits { field.width ≤ 8 }
    requires inside { field.offset + field.width ≤ length structure.now }
    ensures value { result ≡ number_of structure.now field }
    ensures small { result < 256 ^ field.width }
{
    LittleEndian::read_uint(&structure[field.offset..], field.width)
}

/// The number of a field of at most four bytes.
pub fn narrow(structure: &[u8], field: Field) -> u32
    requires some { 1 ≤ field.width }
    requires fits { field.width ≤ 4 }
    requires inside { field.offset + field.width ≤ length structure.now }
    ensures value { result ≡ number_of structure.now field }
    ensures small { result < 256 ^ field.width }
{
    wide(structure, field) as u32
}
