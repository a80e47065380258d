//! The values of registers.
ghost use Rattle.std.specs.Prelude.{◌≡◌, slice_get};
ghost use Rattle.soc_step.specs.Machine as spec;

use crate::machine::PLACES;

/// The value at a place.
fn value_at(registers: &[u64], place: usize) -> Option<u64>
    ensures { result ≡ slice_get registers.now place }
{
    registers.get(place).copied()
}

/// The values of registers that are all known, in the order of a machine's registers. From the 34th
/// on they are left out.
pub fn known_values(registers: &[u64]) -> [Option<u64>; PLACES]
    ensures { result ≡ spec.known_values registers.now }
{
    let mut values = [None; PLACES];
    for place in 0..PLACES {
        values[place] = value_at(registers, place);
    }
    values
}
