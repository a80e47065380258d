//! What an export tells: who asks, by the first line of an input, and the rows that the caller sees, one on a line.
#![tactic(auto)]

mod ending;
mod key;
mod rows;

pub use ending::{ExportEnd, KeyError};
pub use key::read_caller;
pub use rows::tell_log;
