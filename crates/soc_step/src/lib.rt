//! A step of a walk: from a frame's registers to its caller's, for every architecture.
#![tactic(auto)]

mod cfi;
mod frame_pointer;
mod machine;
mod pointers;
mod registers;
mod scan;
mod step;
mod surroundings;
mod values;

pub use cfi::lookup_address;
pub use machine::{Machine, PLACES, Register, Width};
pub use registers::Registers;
pub use step::Caller;
pub use surroundings::Surroundings;
pub use values::known_values;
