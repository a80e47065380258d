//! A desk over a journal as the state of a hall, so that threads take turns at it.
#![tactic(auto)]

mod grounds;
mod shared;

pub use grounds::Grounds;
pub use shared::SharedBook;
