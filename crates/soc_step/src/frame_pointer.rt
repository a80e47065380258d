//! A caller by the frame pointer.
ghost use Rattle.std.specs.Prelude.{◌≡◌};
ghost use Rattle.soc_step.specs.Step as spec;
ghost use Rattle.soc_step.specs.Surroundings.{surroundings};
ghost use Rattle.soc_step.specs.Views.{registers_of};

use crate::machine::PLACES;
use crate::pointers::pointers_alone;
use crate::registers::Registers;
use crate::surroundings::Surroundings;

/// The registers of the caller, where the frame pointer points at the caller's and behind that
/// stands an address of a module.
pub fn by_frame_pointer<S: Surroundings>(
    registers: &Registers,
    around: &S,
) -> Option<[Option<u64>; PLACES]>
    ensures { result ≡ spec.by_frame_pointer
        (surroundings (S.word around.now) (S.is_in_module around.now) (S.takes around.now)
        (S.rules around.now)) (registers_of registers.now) }
{
    let machine = &registers.machine;
    let width = machine.width.bytes();
    let frame = registers.frame_pointer()?;
    let next = machine.behind(frame)?;
    let stack = machine.behind(next)?;
    let caller_frame = around.word(frame, width)?;
    let instruction = around.word(next, width)?;
    if !around.is_in_module(instruction) {
        return None;
    }
    Some(pointers_alone(machine, instruction, stack, Some(caller_frame)))
}
