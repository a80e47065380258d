//! The registers of a frame on ARM64.
ghost use Rattle.std.specs.Prelude.{◌≡◌, option_map};
ghost use Rattle.soc_step.specs.Views.{registers_of as registers_on};
ghost use Rattle.soc_arm64.specs.Step as spec;
ghost use Rattle.soc_arm64.specs.Context.{registers_of};

use crate::around::Around;
use crate::context::registers_of;
use crate::machine::arm64_machine;
use crate::places::Places;
use soc_cfi::{Bank, Memory};
use soc_frames::Trust;
use soc_step::{PLACES, Registers};

/// The registers of a frame on ARM64.
#[derive(Clone, Copy, PartialEq, Eq, Debug)]
pub struct Arm64 {
    /// The values that are known: x0 to x30, sp and pc.
    pub values: [Option<u64>; PLACES],
}

impl Arm64 {
    /// The registers of a thread's context; `None` where it has fewer than 912 bytes. It takes no
    /// memory.
    pub fn read(context: &[u8]) -> Option<Arm64>
        ensures { option_map (λ registers. registers.values) result ≡ registers_of context.now }
    {
        let values = registers_of(context)?;
        Some(Arm64 { values })
    }

    /// The caller of this frame, which is the first of its walk or another one, and how it was found:
    /// by call frame information, else by the frame pointer, else by a scan of the stack; `None`
    /// where none of them gives one. It takes no memory.
    ///
    /// That the caller's pc is 0, or that its sp isn't greater than the frame's, is not looked at.
    pub fn caller<P: Places, M: Memory>(
        &self,
        first: bool,
        places: &P,
        memory: &M,
    ) -> Option<(Arm64, Trust)>
        ensures { option_map (λ found. (found.0.values, found.1)) result
            ≡ spec.caller64 (M.word memory.now) (P.in_module places.now) (P.in_code places.now)
            (P.rules places.now) first self.now.values }
    {
        let registers = registers_on_arm64(self);
        let caller = registers.caller(first, &Around { places, memory })?;
        let values = caller.values;
        Some((Arm64 { values }, caller.trust))
    }
}

/// The registers on the machine of ARM64.
fn registers_on_arm64(registers: &Arm64) -> Registers
    ensures { registers_on result ≡ spec.on_arm64 registers.now.values }
{
    Registers {
        machine: arm64_machine(),
        values: registers.values,
    }
}

impl Bank for Arm64 {
    ghost use Rattle.soc_step.specs.Machine.{value_of};
    ghost use Rattle.soc_arm64.specs.Step.{on_arm64};

    ghost width = { λ _. 8 };

    ghost value = { λ registers name. value_of (on_arm64 registers.values) name };

    fn width(&self) -> u8 {
        8
    }

    fn value(&self, name: &str) -> Option<u64> {
        registers_on_arm64(self).value(name)
    }
}
