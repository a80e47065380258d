//! Crashes that the program makes to be tried with.
#![tactic(auto)]

mod dump;
mod made;

pub use made::{MakeEnd, made_crash, make};
