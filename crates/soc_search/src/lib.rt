//! Answers over the rows of a store: what a caller's query finds, and top crashers.
#![tactic(auto)]

mod answering;
mod condition;
mod facet;
mod hits;
mod leaders;
mod places;
mod ranking;
mod rows;
mod runs;
mod seen;
mod selection;
mod tops;
mod walk;

pub use answering::answer_of;
pub use seen::{
    answers_by_what_is_seen, answers_in_any_order, tops_by_what_is_seen, tops_in_any_order,
};
pub use tops::tops_of;
