//! Rows at places, with the places of each value.
#![tactic(auto)]

mod block;
mod counts;
mod index;
mod key;
mod order;
mod parts;
mod rows;
mod slot;
mod store;
mod term;
mod values;

pub use counts::ProductCount;
pub use order::compare_values;
pub use store::Store;
