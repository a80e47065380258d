//! Frames of a crashing stack, and the texts that stand for them in signatures.
#![tactic(auto)]

mod cpp;
mod depth;
mod frame;
mod frame_text;
mod groups;
mod plain;
mod rust;
mod spaces;
mod walk;

pub use cpp::drop_return_type;
pub use frame::{Frame, Trust};
pub use frame_text::normal;
pub use groups::collapse;
pub use rust::rust_name;
