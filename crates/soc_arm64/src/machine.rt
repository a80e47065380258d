//! The machine of ARM64.
ghost use Rattle.std.specs.Prelude.{◌≡◌};
ghost use Rattle.soc_step.specs.Views.{machine_of};
ghost use Rattle.soc_arm64.specs.Machine.{arm64};

use soc_step::{Machine, PLACES, Register, Width};

macro_rules! register {
    ($name:literal, $other_name:expr, $is_kept:literal) => {
        Register {
            name: $name,
            other_name: $other_name,
            is_kept: $is_kept,
        }
    };
}

/// The registers; a call keeps x19 to x29.
static REGISTERS: [Register; PLACES] = [
    register!("x0", None, false),
    register!("x1", None, false),
    register!("x2", None, false),
    register!("x3", None, false),
    register!("x4", None, false),
    register!("x5", None, false),
    register!("x6", None, false),
    register!("x7", None, false),
    register!("x8", None, false),
    register!("x9", None, false),
    register!("x10", None, false),
    register!("x11", None, false),
    register!("x12", None, false),
    register!("x13", None, false),
    register!("x14", None, false),
    register!("x15", None, false),
    register!("x16", None, false),
    register!("x17", None, false),
    register!("x18", None, false),
    register!("x19", None, true),
    register!("x20", None, true),
    register!("x21", None, true),
    register!("x22", None, true),
    register!("x23", None, true),
    register!("x24", None, true),
    register!("x25", None, true),
    register!("x26", None, true),
    register!("x27", None, true),
    register!("x28", None, true),
    register!("x29", Some("fp"), true),
    register!("x30", Some("lr"), false),
    register!("sp", None, false),
    register!("pc", None, false),
];

/// The place of the frame pointer, x29.
const FRAME_POINTER: usize = 29;

const STACK_POINTER: usize = 31;

const INSTRUCTION_POINTER: usize = 32;

/// The machine of ARM64: its registers are x0 to x30, sp and pc.
pub fn arm64_machine() -> Machine
    ensures { machine_of result ≡ arm64 }
{
    Machine {
        width: Width::Eight,
        registers: &REGISTERS,
        stack_pointer: STACK_POINTER,
        frame_pointer: FRAME_POINTER,
        instruction_pointer: INSTRUCTION_POINTER,
    }
}
