//! Which streams a dump's directory names.
ghost use Rattle.std.specs.Prelude.{◌≡◌, ◌+◌, ◌*◌, ◌≤◌, length, drop, None};
ghost use Rattle.byteorder.specs.Endian.{little_number};
ghost use Rattle.soc_dump.specs.Checks.{first_refusal};
ghost use Rattle.soc_dump.specs.Directory.{directory_of, stream_count_of};
ghost use Rattle.soc_dump.specs.Dump.{dump_checks};
ghost use Rattle.soc_report.specs.Dumps.{lists_modules};

use byteorder::{ByteOrder, LittleEndian};

/// Where a dump's header has the number of streams, and the directory's place.
const STREAM_COUNT: usize = 8;

const DIRECTORY: usize = 12;

/// The bytes of an entry of the directory, which begins with the stream's kind.
const ENTRY_SIZE: usize = 12;

/// The kind of a list of modules.
const MODULE_LIST: u32 = 4;

/// The number of four bytes at a place.
fn number_at(bytes: &[u8], place: usize) -> u32
    requires { place + 4 ≤ length bytes.now }
    ensures { result ≡ little_number 4 (drop place bytes.now) }
{
    LittleEndian::read_u32(&bytes[place..])
}

/// Whether a dump that isn't refused has a list of modules.
pub fn lists_modules(bytes: &[u8]) -> bool
    requires { first_refusal (dump_checks bytes.now) ≡ None }
    ensures { result ≡ lists_modules bytes.now }
{
    let count = number_at(bytes, STREAM_COUNT) as usize;
    let directory = number_at(bytes, DIRECTORY) as usize;
    for index in 0..count {
        if number_at(bytes, directory + index * ENTRY_SIZE) == MODULE_LIST {
            return true;
        }
    }
    false
}
