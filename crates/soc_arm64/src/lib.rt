//! ARM64: the registers of a context, and the step from a frame to its caller.
#![tactic(auto)]

mod arm64;
mod around;
mod context;
mod machine;
mod places;

pub use arm64::Arm64;
pub use machine::arm64_machine;
pub use places::Places;
