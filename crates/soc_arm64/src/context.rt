//! The registers of an ARM64 context.
ghost use Rattle.std.specs.Prelude.{◌≡◌, ◌+◌, ◌*◌, ◌<◌, ◌≤◌, length, drop};
ghost use Rattle.byteorder.specs.Endian.{little_number};
ghost use Rattle.soc_arm64.specs.Context as spec;

use byteorder::{ByteOrder, LittleEndian};
use soc_step::PLACES;

/// The least number of bytes of a context.
const CONTEXT_SIZE: usize = 912;

/// Where x0 stands in a context. The other registers follow without a gap.
const FIRST_REGISTER: usize = 8;

const REGISTER_SIZE: usize = 8;

/// The register at a place.
fn register_at(context: &[u8], place: usize) -> u64
    requires whole { spec.context_size ≤ length context.now }
    requires place { place < 33 }
    ensures { result ≡ spec.register_at context.now place }
{
    LittleEndian::read_u64(&context[FIRST_REGISTER + REGISTER_SIZE * place..])
}

/// The registers of a context; `None` where it has fewer than 912 bytes.
pub fn registers_of(context: &[u8]) -> Option<[Option<u64>; PLACES]>
    ensures { result ≡ spec.registers_of context.now }
{
    if context.len() < CONTEXT_SIZE {
        return None;
    }
    let mut values = [None; PLACES];
    for place in 0..PLACES {
        values[place] = Some(register_at(context, place));
    }
    Some(values)
}
