//! The architectures on which a stack is walked.
ghost use Rattle.std.specs.Prelude.{◌≡◌, option_map};
ghost use Rattle.soc_dump.specs.Registers.{amd64_registers_of, x86_registers_of};
ghost use Rattle.soc_step.specs.Machine.{known_values};
ghost use Rattle.soc_step.specs.Views.{machine_of};
ghost use Rattle.soc_walk.specs.Architecture as spec;

use crate::machines::{amd64_machine, x86_machine};
use soc_arm64::{Arm64, arm64_machine};
use soc_dump::{amd64_registers, x86_registers};
use soc_step::{Machine, PLACES, known_values};

/// An architecture on which a stack is walked.
#[derive(Clone, Copy, PartialEq, Eq, Debug)]
pub enum Architecture {
    X86,
    Amd64,
    Arm64,
}

/// The registers of an AMD64 context.
fn amd64_values(context: &[u8]) -> Option<[Option<u64>; PLACES]>
    ensures { result ≡ option_map known_values (amd64_registers_of context.now) }
{
    let registers = amd64_registers(context)?;
    Some(known_values(&registers))
}

/// The same registers, each as a wider number.
fn widened(registers: [u32; 9]) -> [u64; 9]
    ensures { result ≡ registers }
{
    let mut wide = [0; 9];
    for place in 0..9 {
        wide[place] = u64::from(registers[place]);
    }
    wide
}

/// The registers of an x86 context.
fn x86_values(context: &[u8]) -> Option<[Option<u64>; PLACES]>
    ensures { result ≡ option_map known_values (x86_registers_of context.now) }
{
    let registers = widened(x86_registers(context)?);
    Some(known_values(&registers))
}

impl Architecture {
    /// The architecture of a number in a dump: 0 is x86, 9 AMD64 and 12 ARM64.
    pub fn of(number: u16) -> Option<Architecture>
        ensures { result ≡ spec.architecture_of number }
    {
        match number {
            0 => Some(Architecture::X86),
            9 => Some(Architecture::Amd64),
            12 => Some(Architecture::Arm64),
            _ => None,
        }
    }

    /// Its registers and words.
    pub fn machine(self) -> Machine
        ensures { machine_of result ≡ spec.machine_for self }
    {
        match self {
            Architecture::X86 => x86_machine(),
            Architecture::Amd64 => amd64_machine(),
            Architecture::Arm64 => arm64_machine(),
        }
    }

    /// The registers of a context; `None` where it is too small.
    pub fn context_values(self, context: &[u8]) -> Option<[Option<u64>; PLACES]>
        ensures { result ≡ spec.context_values self context.now }
    {
        match self {
            Architecture::X86 => x86_values(context),
            Architecture::Amd64 => amd64_values(context),
            Architecture::Arm64 => Some(Arm64::read(context)?.values),
        }
    }
}
