//! Signatures of crashes: the text by which crashes are grouped, from the frames of the crashing stack and from what
//! else the crash says of itself.
#![tactic(auto)]

mod builder;
mod chars;
mod crash;
mod input;
mod joins;
mod modules;
mod proto;
mod rule;
mod rules;
mod short;
mod shutdown;
mod spaces;
mod stack;

pub use builder::signature;
pub use input::{SigInput, Signature};
pub use joins::join;
