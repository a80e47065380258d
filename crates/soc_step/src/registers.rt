//! The registers of a frame.
ghost use Rattle.std.specs.Prelude.{◌≡◌};
ghost use Rattle.soc_step.specs.Machine as spec;
ghost use Rattle.soc_step.specs.Views.{registers_of};

use crate::machine::{Machine, PLACES};
use soc_cfi::Bank;

/// The registers of a frame on a machine.
#[derive(Clone, Copy, Debug)]
pub struct Registers {
    pub machine: Machine,
    /// The values that are known, in the order of the machine's registers.
    pub values: [Option<u64>; PLACES],
}

impl Registers {
    /// The value at a place, where it is known.
    pub fn at(&self, place: usize) -> Option<u64>
        ensures { result ≡ spec.value_at (registers_of self.now) place }
    {
        *self.values.get(place)?
    }

    /// The value of the instruction pointer, where it is known.
    pub fn instruction_pointer(&self) -> Option<u64>
        ensures { result ≡ spec.value_at
            (registers_of self.now) self.now.machine.instruction_pointer }
    {
        self.at(self.machine.instruction_pointer)
    }

    /// The value of the stack pointer, where it is known.
    pub fn stack_pointer(&self) -> Option<u64>
        ensures { result ≡ spec.value_at (registers_of self.now) self.now.machine.stack_pointer }
    {
        self.at(self.machine.stack_pointer)
    }

    /// The value of the frame pointer, where it is known.
    pub fn frame_pointer(&self) -> Option<u64>
        ensures { result ≡ spec.value_at (registers_of self.now) self.now.machine.frame_pointer }
    {
        self.at(self.machine.frame_pointer)
    }
}

impl Bank for Registers {
    ghost use Rattle.soc_step.specs.Machine.{bytes_of, value_of};
    ghost use Rattle.soc_step.specs.Views.{registers_of};

    ghost width = { λ registers. bytes_of registers.machine.width };

    ghost value = { λ registers name. value_of (registers_of registers) name };

    fn width(&self) -> u8 {
        self.machine.width.bytes()
    }

    fn value(&self, name: &str) -> Option<u64> {
        self.at(self.machine.place_of(name)?)
    }
}
