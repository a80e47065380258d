//! A ring of jobs that threads put and take, each place once.
#![tactic(auto)]

mod jobs;
mod pass;
mod rule;
#[cfg(test)]
mod tests;
mod waiting;

pub use jobs::{Job, Jobs, PLACES};
pub use pass::{Pass, Passes, RingEnd};
pub use rule::{Entry, OneRing, Role, Seen, View};
