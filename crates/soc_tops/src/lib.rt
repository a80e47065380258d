//! The language of top crashers: the days of a product's version that are asked for, and its signatures, ranked.
#![tactic(auto)]

mod day;
mod error;
mod given;
mod json;
mod query;
mod tops;

pub use error::TopsError;
pub use query::{Days, TopsQuery};
pub use tops::{Top, TopList, Tops};
