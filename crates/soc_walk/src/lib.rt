//! The frames of a thread's stack, on AMD64, x86 and ARM64.
#![tactic(auto)]

mod architecture;
mod borrowed;
mod copies;
mod loaded;
mod machines;
mod process;
mod steps;
mod symbols;
mod walking;

pub use architecture::Architecture;
pub use borrowed::BorrowedFrame;
pub use loaded::{Loaded, symbols_for};
pub use process::Process;
pub use symbols::Symbols;
pub use walking::{Start, start_of, walk};
