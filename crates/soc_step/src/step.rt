//! The step from a frame to its caller.
ghost use Rattle.std.specs.Prelude.{◌≡◌};
ghost use Rattle.soc_step.specs.Step.{caller_of};
ghost use Rattle.soc_step.specs.Surroundings.{surroundings};
ghost use Rattle.soc_step.specs.Views.{registers_of};

use crate::cfi::by_cfi;
use crate::frame_pointer::by_frame_pointer;
use crate::machine::PLACES;
use crate::registers::Registers;
use crate::scan::by_scan;
use crate::surroundings::Surroundings;
use soc_frames::Trust;

/// A frame's caller.
#[derive(Clone, Copy, PartialEq, Eq, Debug)]
pub struct Caller {
    /// The values of its registers that are known, in the order of the machine's registers.
    pub values: [Option<u64>; PLACES],
    /// How it was found.
    pub trust: Trust,
}

impl Registers {
    /// The caller of this frame, which is the first of its walk or another one: by call frame
    /// information, else by the frame pointer, else by a scan of the stack; `None` where none of them
    /// gives one. It takes no memory.
    ///
    /// That the caller's instruction pointer is 0, or that its stack pointer isn't greater than the
    /// frame's, is not looked at.
    pub fn caller<S: Surroundings>(&self, first: bool, around: &S) -> Option<Caller>
        ensures { result ≡ caller_of (surroundings (S.word around.now) (S.is_in_module around.now)
            (S.takes around.now) (S.rules around.now)) first (registers_of self.now) }
    {
        if let Some(values) = by_cfi(self, first, around) {
            let trust = Trust::Cfi;
            return Some(Caller { values, trust });
        }
        if let Some(values) = by_frame_pointer(self, around) {
            let trust = Trust::FramePointer;
            return Some(Caller { values, trust });
        }
        let values = by_scan(self, first, around)?;
        let trust = Trust::Scan;
        Some(Caller { values, trust })
    }
}
