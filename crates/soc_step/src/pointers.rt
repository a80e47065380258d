//! Registers of which the pointers alone are known.
ghost use Rattle.std.specs.Prelude.{◌≡◌};
ghost use Rattle.soc_step.specs.Step as spec;
ghost use Rattle.soc_step.specs.Views.{machine_of};

use crate::machine::{Machine, PLACES};

/// The value at a place where the pointers alone are known.
fn pointer_at(machine: &Machine, ip: u64, sp: u64, fp: Option<u64>, place: usize) -> Option<u64>
    ensures { result ≡ spec.pointer_at (machine_of machine.now) ip sp fp place }
{
    if place == machine.instruction_pointer {
        Some(ip)
    } else if place == machine.stack_pointer {
        Some(sp)
    } else if place == machine.frame_pointer {
        fp
    } else {
        None
    }
}

/// Registers of which the instruction pointer, the stack pointer and perhaps the frame pointer are
/// known.
pub fn pointers_alone(machine: &Machine, ip: u64, sp: u64, fp: Option<u64>) -> [Option<u64>; PLACES]
    ensures { result ≡ spec.pointers_alone (machine_of machine.now) ip sp fp }
{
    let mut values = [None; PLACES];
    for place in 0..PLACES {
        values[place] = pointer_at(machine, ip, sp, fp, place);
    }
    values
}
